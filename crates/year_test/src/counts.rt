// Counts of calls and of tests. No count comes near 2^64.
use crate::calls::Kind;

// How many codes are told apart.
pub(crate) const CODES: usize = 32;

// How often each code was answered.
pub(crate) type Codes = [u64; CODES];

// How often a test was made, and how often it failed.
#[derive(Clone, Copy)]
pub(crate) struct Tally {
    pub(crate) made: u64,
    pub(crate) failed: u64,
}

// The five tests.
#[derive(Clone, Copy)]
pub(crate) struct Tests {
    pub(crate) none_alike: Tally,
    pub(crate) none_overlaps: Tally,
    pub(crate) each_kept: Tally,
    pub(crate) each_record: Tally,
    pub(crate) areas: Tally,
}

// The codes that the calls of each kind were answered with, and the tests.
#[derive(Clone, Copy)]
pub(crate) struct Counts {
    pub(crate) bookings: Codes,
    pub(crate) cancellations: Codes,
    pub(crate) collections: Codes,
    pub(crate) tests: Tests,
}

impl Tally {
    const NONE: Tally = Tally { made: 0, failed: 0 };

    // One more test.
    pub(crate) fn note(&mut self, holds: bool) {
        self.made = self.made.wrapping_add(1);
        if !holds {
            self.failed = self.failed.wrapping_add(1);
        }
    }
}

// One more answer with a code.
fn count_code(codes: &mut Codes, code: u8) {
    let at = code as usize;
    if at < CODES {
        codes[at] = codes[at].wrapping_add(1);
    }
}

impl Counts {
    // No calls and no tests yet.
    pub(crate) fn none() -> Counts {
        Counts {
            bookings: [0; CODES],
            cancellations: [0; CODES],
            collections: [0; CODES],
            tests: Tests {
                none_alike: Tally::NONE,
                none_overlaps: Tally::NONE,
                each_kept: Tally::NONE,
                each_record: Tally::NONE,
                areas: Tally::NONE,
            },
        }
    }

    // One more call of a kind that was answered with a code.
    pub(crate) fn count_call(&mut self, kind: Kind, code: u8) {
        match kind {
            Kind::Booking => count_code(&mut self.bookings, code),
            Kind::Cancelling => count_code(&mut self.cancellations, code),
            Kind::Collecting => count_code(&mut self.collections, code),
        }
    }
}
