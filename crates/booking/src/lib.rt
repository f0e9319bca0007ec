// Booking a segment in a deal for a house, with a tree beside it or without one.
#![tactic(auto)]

mod booking; // booking.rt: the place for a segment, and writing it there
mod keeping; // keeping.rt: a segment that is kept already
mod refusing; // refusing.rt: the refusals before the slots are looked at
mod segment; // segment.rt: a segment with its commitment

pub use booking::{book, book_with_tree};
