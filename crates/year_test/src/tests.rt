// The five tests of a year's assurance, made after every call: on the deal and the table as they then are, with what
// the history of the calls says.
ghost use Rattle.std.specs.Prelude.{◌<◌};

use crate::calls::segment_byte;
use crate::counts::Tests;
use crate::history::{BookedSegment, History};
use crate::parts::part;
use crate::slots::{SLOTS, Slots, Standing, standing_at, standing_sum};
use rules::Refusal;

// The deal and what stands in its slots, its tree where that is the deal's own, and a deal number to build with, which
// may be any.
#[derive(Drop)]
pub(crate) struct State<'a> {
    pub(crate) deal: &'a [u8],
    pub(crate) tree: Option<&'a [u8]>,
    pub(crate) slots: Slots,
    pub(crate) number: u64,
}

// Whether two standing entries have equal T and equal T bytes.
fn alike(deal: &[u8], a: Standing, b: Standing) -> bool {
    a.size == b.size && part(deal, a.offset, a.size) == part(deal, b.offset, b.size)
}

// Whether of two standing areas one ends by the start of the other.
fn apart(a: Standing, b: Standing) -> bool {
    if a.offset < b.offset {
        return sizes::area(a.size) <= b.offset - a.offset;
    }
    sizes::area(b.size) <= a.offset - b.offset
}

// Byte i of the area of a booked segment.
fn area_byte(segment: u8, size: u64, i: usize) -> u8 {
    if (i as u64) < size {
        return segment_byte(segment, i);
    }
    0
}

// Whether an area holds a booked segment, and zeros after it.
fn holds_segment(area: &[u8], segment: u8, size: u64) -> bool {
    for (i, byte) in area.iter().enumerate() {
        if *byte != area_byte(segment, size, i) {
            return false;
        }
    }
    true
}

// Whether a record was built, and the check accepts it against the deal's commitment, its size and this deal number.
fn accepted(deal: &[u8], number: u64, built: Result<usize, Refusal>, out: &[u8]) -> bool {
    let Ok(length) = built else {
        return false;
    };
    let commitment = merkle::commitment(deal).unwrap_or([0u8; 32]);
    let record = part(out, 0, length as u64);
    record::check(&commitment, deal.len() as u64, number, record).is_ok()
}

impl State<'_> {
    // 1, no house has two standing entries with equal T and equal bytes, and 2, standing areas never overlap: of two
    // slots.
    fn test_two(&self, i: usize, j: usize, tests: &mut Tests)
        requires { (i < 4) × (j < 4) }
    {
        let (Some(a), Some(b)) = (self.slots[i].standing, self.slots[j].standing) else {
            return;
        };
        tests.none_overlaps.note(apart(a, b));
        if a.owner == b.owner {
            tests.none_alike.note(!alike(self.deal, a, b));
        }
    }

    // Of every two slots.
    fn test_slots(&self, tests: &mut Tests) {
        for j in 0..SLOTS {
            for i in 0..j {
                self.test_two(i, j, tests);
            }
        }
    }

    // Whether a booked segment is kept for its house at its entry place, with its offset, its T and its bytes.
    fn is_kept(&self, b: BookedSegment) -> bool {
        let Some(standing) = standing_at(&self.slots, b.place) else {
            return false;
        };
        if !standing.kept
            || standing.owner != b.house
            || standing.offset != b.offset
            || standing.size != b.size
        {
            return false;
        }
        let area = sizes::area(b.size);
        let bytes = part(self.deal, b.offset, area);
        bytes.len() as u64 == area && holds_segment(bytes, b.segment, b.size)
    }

    // Whether building at an entry place gives a record that the check accepts.
    fn has_record(&self, place: u64) -> bool {
        let mut out = [0u8; 4096];
        let built = builder::build(self.deal, self.number, place, &mut out);
        accepted(self.deal, self.number, built, &out)
    }

    // The same with the deal's tree in hand.
    fn has_record_with_tree(&self, tree: &[u8], place: u64) -> bool {
        let mut out = [0u8; 4096];
        let built = builder::build_with_tree(self.deal, tree, self.number, place, &mut out);
        accepted(self.deal, self.number, built, &out)
    }

    // 3, a booking answered 0 and not cancelled since is kept with its T and bytes, at its booked place or where
    // collections moved it, and 4, building there, given enough output, gives a record that the check accepts against
    // the deal's commitment then, its size and the deal number built with.
    fn test_booking(&self, b: BookedSegment, tests: &mut Tests) {
        tests.each_kept.note(self.is_kept(b));
        tests.each_record.note(self.has_record(b.place));
        if let Some(tree) = self.tree {
            tests
                .each_record
                .note(self.has_record_with_tree(tree, b.place));
        }
    }

    // All five; 5, the sum of standing areas equals the areas booked with 0 less those cancelled with 0, taken from the
    // history of calls.
    pub(crate) fn test_all(&self, history: &History, tests: &mut Tests) {
        self.test_slots(tests);
        for b in &history.bookings {
            if let Some(b) = b {
                self.test_booking(*b, tests);
            }
        }
        let booked = standing_sum(&self.slots).wrapping_add(history.areas_cancelled);
        tests.areas.note(booked == history.areas_booked);
    }
}
