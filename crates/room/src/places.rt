// Overlaps, the lowest free slot and the lowest free place.
ghost use Rattle.std.specs.Prelude.{◌≡◌, ◌+◌, ◌^◌, ◌≤◌, ◌<◌, length, position, ◌==◌};
ghost use Rattle.room.specs.Room as R;
ghost use Rattle.room.specs.Room.{Bounded, ranges_in, overlaps, lowest_overlap, lowest_place};

use crate::Range;

// Whether two ranges have a byte in common.
fn overlap(r: Range, s: Range) -> bool
    requires { (r.offset + r.area ≤ 2 ^ 36) × (s.offset + s.area ≤ 2 ^ 36) }
    ensures { result ≡ overlaps r.offset r.area s }
{
    r.offset < s.offset + s.area && s.offset < r.offset + r.area
}

// The lowest slot whose range overlaps this one. How early ranges end is asked here and is no invariant of `Range`: the
// rows of a ledger may have any numbers.
pub fn lowest_overlap(ranges: &[Range], range: Range) -> Option<usize>
    requires { (range.offset + range.area ≤ 2 ^ 36) × Bounded (length ranges.now) ranges.now }
    ensures { result ≡ lowest_overlap (ranges_in ranges.now) (length ranges.now) range.offset range.area }
{
    // A loop and no `position`: a closure that calls `overlap` would ask that any range ends early, not only these.
    for (i, other) in ranges.iter().enumerate() {
        if overlap(range, *other) {
            return Some(i);
        }
    }
    None
}

// The lowest free slot: one whose range is empty. It is `lowest_free_slot` of the ranges, by `free_slot_position`.
pub(crate) fn lowest_free_slot(ranges: &[Range]) -> Option<usize>
    ensures { result ≡ position (λ r. r.area == 0) ranges.now }
{
    ranges.iter().position(|range| range.area == 0)
}

// The lowest k such that the area from k times its size on overlaps no range and ends by the limit. From an overlap the
// search goes on at the first multiple from the end of that range on: every multiple before it overlaps the same range.
pub(crate) fn lowest_place(ranges: &[Range], area: u64, limit: u64) -> Option<usize>
    requires area { (0 < area) × (area ≤ 2 ^ 36) × (limit ≤ 2 ^ 36) }
    requires bounded { Bounded (length ranges.now) ranges.now }
    ensures { result ≡ lowest_place (ranges_in ranges.now) (length ranges.now) area limit }
{
    let places = limit / area;
    let mut k: u64 = 0;
    // The index jumps, so this is no `for`.
    while k < places {
        let range = Range {
            offset: k * area,
            area,
        };
        let Some(i) = lowest_overlap(ranges, range) else {
            return Some(k as usize);
        };
        let end = ranges[i].offset + ranges[i].area;
        k = (end + area - 1) / area;
    }
    None
}
