// The history of the calls: what these and their answers alone say is booked, and where. Nothing here reads a deal or a
// table.
use crate::calls::{Call, Kind};
use room::Booked;

// How many booked segments a history has room for: more than the slots of a deal, so that a booking too many would be
// seen.
pub(crate) const ROWS: usize = 8;

// A booked segment: whose it is, which it is, its T, and the offset and the entry place where it is now.
#[derive(Clone, Copy)]
pub(crate) struct BookedSegment {
    pub(crate) house: u8,
    pub(crate) segment: u8,
    pub(crate) size: u64,
    pub(crate) offset: u64,
    pub(crate) place: u64,
}

pub(crate) type Bookings = [Option<BookedSegment>; ROWS];

// What is booked, the areas that were booked with 0 and those cancelled with 0, and how many segments were booked at
// once at most.
#[derive(Clone, Copy)]
pub(crate) struct History {
    pub(crate) bookings: Bookings,
    pub(crate) areas_booked: u64,
    pub(crate) areas_cancelled: u64,
    pub(crate) most: u64,
}

// The history before the first call.
pub(crate) fn none() -> History {
    History {
        bookings: [None; ROWS],
        areas_booked: 0,
        areas_cancelled: 0,
        most: 0,
    }
}

impl BookedSegment {
    // A.
    fn area(&self) -> u64 {
        sizes::area(self.size)
    }

    // Whether it is a house's, at an entry place.
    fn is_at(&self, house: u8, place: u64) -> bool {
        self.house == house && self.place == place
    }

    // Whether it comes before another in a collection: its area is larger, or as large and at a lower offset.
    fn comes_before(&self, other: &BookedSegment) -> bool {
        other.area() < self.area() || (self.area() == other.area() && self.offset < other.offset)
    }
}

// How many segments are booked.
fn how_many(bookings: &Bookings) -> u64 {
    let mut many: u64 = 0;
    for b in bookings {
        if b.is_some() {
            many = many.wrapping_add(1);
        }
    }
    many
}

// One more segment is booked.
fn add(bookings: &mut Bookings, new: BookedSegment) {
    for i in 0..ROWS {
        if bookings[i].is_none() {
            bookings[i] = Some(new);
            return;
        }
    }
}

// What a house has at an entry place is booked no more; the sum of its areas.
fn remove(bookings: &mut Bookings, house: u8, place: u64) -> u64 {
    let mut sum: u64 = 0;
    for i in 0..ROWS {
        if let Some(b) = bookings[i] {
            if b.is_at(house, place) {
                sum = sum.wrapping_add(b.area());
                bookings[i] = None;
            }
        }
    }
    sum
}

// A booked segment where a collection moves it: past the slots and the areas of those that come before it, from 0 on
// and from the first slot of a deal of this many bytes on.
fn moved_one(size: u64, bookings: &Bookings, b: BookedSegment) -> BookedSegment {
    let mut offset: u64 = 0;
    let mut place = sizes::index_numbers(size).map_or(0, |numbers| numbers.start);
    for other in bookings {
        if let Some(other) = other {
            if other.comes_before(&b) {
                offset = offset.wrapping_add(other.area());
                place = place.wrapping_add(64);
            }
        }
    }
    BookedSegment {
        house: b.house,
        segment: b.segment,
        size: b.size,
        offset,
        place,
    }
}

// And so with all of them.
fn moved(size: u64, bookings: Bookings) -> Bookings {
    let mut after = bookings;
    for i in 0..ROWS {
        if let Some(b) = bookings[i] {
            after[i] = Some(moved_one(size, &bookings, b));
        }
    }
    after
}

impl History {
    // A booking answered 0.
    fn book(&mut self, call: Call, answer: Booked) {
        let b = BookedSegment {
            house: call.house,
            segment: call.segment,
            size: call.size,
            offset: answer.offset,
            place: answer.place,
        };
        add(&mut self.bookings, b);
        let many = how_many(&self.bookings);
        if self.most < many {
            self.most = many;
        }
        self.areas_booked = self.areas_booked.wrapping_add(b.area());
    }

    // A cancellation answered 0.
    fn cancel(&mut self, house: u8, place: u64) {
        let taken = remove(&mut self.bookings, house, place);
        self.areas_cancelled = self.areas_cancelled.wrapping_add(taken);
    }

    // One more call, on a deal of this many bytes. What was refused changes nothing.
    pub(crate) fn go_on(&mut self, size: u64, call: Call, answer: Booked) {
        if answer.code != 0 {
            return;
        }
        match call.kind {
            Kind::Booking => self.book(call, answer),
            Kind::Cancelling => self.cancel(call.house, call.place),
            Kind::Collecting => self.bookings = moved(size, self.bookings),
        }
    }
}
