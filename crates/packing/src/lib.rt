// Packing without gaps, from numbers alone: from the bytes that each slot takes up, the order of collection, and where
// each slot moves.
#![tactic(auto)]

ghost use Rattle.std.specs.Prelude.{◌≡◌, ◌≤◌, ◌<◌, length};
ghost use Rattle.room.specs.Room.{Bounded, ranges_in};
ghost use Rattle.packing.specs.Order.{comes_first, new_slot, new_offset, none_overlaps};

use room::Range;

// Where a slot moves.
#[derive(Clone, Copy, Debug, PartialEq, Eq)]
pub struct Move {
    pub slot: u64,
    pub offset: u64,
}

// Whether a range comes before another: its area is larger, or as large and at a lower offset.
fn comes_first(r: Range, s: Range) -> bool
    ensures { result ≡ comes_first r s }
{
    s.area < r.area || (r.area == s.area && r.offset < s.offset)
}

// Where slot j moves: past the slots and the areas of those that come before it.
pub fn move_of(ranges: &[Range], j: usize) -> Move
    requires { (length ranges.now ≤ 128) × (j < length ranges.now) × Bounded (length ranges.now) ranges.now }
    ensures slot_value { result.slot ≡ new_slot (ranges_in ranges.now) (length ranges.now) j }
    ensures offset_value { result.offset ≡ new_offset (ranges_in ranges.now) (length ranges.now) j }
{
    let mut slot: u64 = 0;
    let mut offset: u64 = 0;
    for range in ranges {
        if comes_first(*range, ranges[j]) {
            slot += (range.area != 0) as u64;
            offset += range.area;
        }
    }
    Move { slot, offset }
}

// Whether no two of the ranges overlap: each fits beside those of the lower slots.
pub fn none_overlaps(ranges: &[Range]) -> bool
    requires { Bounded (length ranges.now) ranges.now }
    ensures { result ≡ none_overlaps (ranges_in ranges.now) (length ranges.now) }
{
    for (i, range) in ranges.iter().enumerate() {
        if room::lowest_overlap(&ranges[..i], *range).is_some() {
            return false;
        }
    }
    true
}
