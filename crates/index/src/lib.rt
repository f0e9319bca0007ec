// The index of a lent deal: its slots, finding a segment, and the tally of its slots. What stands in a slot are the
// fields of its entry.
#![tactic(auto)]

mod finding; // finding.rt: finding a segment by its commitment
mod slots; // slots.rt: standing and kept entries
mod tallying; // tallying.rt: how many slots are of each kind

pub use finding::{find, find_numbers};
pub use slots::{kept_at, segment_node, standing_at};
pub use tallying::tally;

// Where a segment was found: its offset and size, and the place of its entry.
#[derive(Clone, Copy, Debug, PartialEq, Eq, Drop)]
pub struct FoundSegment {
    pub offset: u64,
    pub size: u64,
    pub place: u64,
}

// How many slots are blank, damaged and valid.
#[derive(Clone, Copy, Debug, PartialEq, Eq, Drop)]
pub struct Tallied {
    pub blank: u64,
    pub damaged: u64,
    pub valid: u64,
}

// The area of a segment: where it starts, and how many bytes it takes up. It is not `room::Range`: the crate index does
// not stand on the crate room.
#[derive(Clone, Copy, PartialEq, Eq, Drop)]
pub(crate) struct Area {
    pub offset: u64,
    pub bytes: u64,
}
