// Allowed sizes, offsets and places, and the levels and positions that follow from them.
#![tactic(auto)]

ghost use Rattle.std.specs.Prelude.{◌≡◌, true, ◌≤◌, ◌<◌};
ghost use Rattle.sizes.specs.Sizes.{deal_size_allowed, lent_size_allowed, area, segment_size_allowed, entry_count};
ghost use Rattle.sizes.specs.Sizes.{index_start, offset_allowed, place_allowed, slot_place, deal_level, segment_level};
ghost use Rattle.sizes.specs.Sizes.{segment_position};
ghost use Rattle.sizes.specs.Numbers.{index_numbers, numbers_answer};

use rules::Refusal;

// The number of entries and the index start of an allowed deal size.
#[derive(Clone, Copy, Debug, PartialEq, Eq)]
pub struct IndexNumbers {
    pub entries: u64,
    pub start: u64,
}

const SMALLEST_DEAL: u64 = 512;

const LARGEST_DEAL: u64 = 68719476736; // 2 ^ 36

const LARGEST_LENT_DEAL: u64 = 16777216; // 2 ^ 24

const SMALLEST_SEGMENT: u64 = 1;

const SMALLEST_AREA: u64 = 128;

const LARGEST_AREA: u64 = 34359738368; // 2 ^ 35, half of the largest deal

// Whether a record may be checked against a deal of d bytes: a power of two from 512 to 2 ^ 36.
pub fn deal_size_allowed(d: u64) -> bool
    ensures { result ≡ deal_size_allowed d }
{
    pow2::is_power_between(d, SMALLEST_DEAL, LARGEST_DEAL)
}

// Whether a deal of d bytes may be lent: a power of two from 512 to 2 ^ 24.
pub fn lent_size_allowed(d: usize) -> bool
    ensures { result ≡ lent_size_allowed d }
{
    pow2::is_power_between(d as u64, SMALLEST_DEAL, LARGEST_LENT_DEAL)
}

// The bytes that a segment of a size takes up in the deal: the smallest power of two at or above both the size and 128,
// and for sizes over 2 ^ 35, which are in no deal, 2 ^ 35.
pub fn area(size: u64) -> u64
    ensures { result ≡ area size }
{
    size.clamp(SMALLEST_AREA, LARGEST_AREA).next_power_of_two()
}

// Whether a segment may have this size, before its zero trailer, in a deal of d bytes: from 1 to d / 2.
pub fn segment_size_allowed(d: u64, size: u64) -> bool
    ensures { result ≡ segment_size_allowed d size }
{
    SMALLEST_SEGMENT <= size && size <= d / 2
}

// The number of index entries of a deal of d bytes.
pub fn entry_count(d: u64) -> u64
    ensures { result ≡ entry_count d }
{
    (d / 131072).max(4)
}

// Where the index of a deal of d bytes starts.
pub fn index_start(d: u64) -> u64
    requires { deal_size_allowed d ≡ true }
    ensures { result ≡ index_start d }
{
    d - 64 * entry_count(d)
}

// Whether a segment may start at an offset: a multiple of its area, which ends by the index start.
pub fn offset_allowed(d: u64, offset: u64, size: u64) -> bool
    requires { (deal_size_allowed d ≡ true) × (segment_size_allowed d size ≡ true) }
    ensures { result ≡ offset_allowed d offset size }
{
    let taken = area(size);
    offset % taken == 0 && offset <= index_start(d) - taken
}

// Whether an entry may stand at a place: a multiple of 64 in the index area.
pub fn place_allowed(d: u64, place: u64) -> bool
    requires { deal_size_allowed d ≡ true }
    ensures { result ≡ place_allowed d place }
{
    place % 64 == 0 && (index_start(d) <= place && place < d)
}

// The place of the entry in slot i.
pub fn slot_place(d: u64, i: u64) -> u64
    requires { (deal_size_allowed d ≡ true) × (i < entry_count d) }
    ensures { result ≡ slot_place d i }
{
    index_start(d) + 64 * i
}

// The level of a deal's commitment above the 32-byte nodes.
pub fn deal_level(d: u64) -> usize
    requires { deal_size_allowed d ≡ true }
    ensures { result ≡ deal_level d }
{
    pow2::log2(d) as usize - 5
}

// The level of a segment's commitment above the 32-byte nodes; an allowed segment has at least four of them.
pub fn segment_level(size: u64) -> usize
    requires { 2 ≤ segment_level size }
    ensures { result ≡ segment_level size }
{
    pow2::log2(area(size)) as usize - 5
}

// The position of a segment's node on its level.
pub fn segment_position(offset: u64, size: u64) -> u64
    requires { 0 < area size }
    ensures { result ≡ segment_position offset size }
{
    offset / area(size)
}

// The number of index entries and the index start of a deal of d bytes; a size that is not allowed is refused.
pub fn index_numbers(d: u64) -> Result<IndexNumbers, Refusal>
    ensures { numbers_answer result ≡ index_numbers d }
{
    if !deal_size_allowed(d) {
        return Err(Refusal::Size);
    }
    Ok(IndexNumbers {
        entries: entry_count(d),
        start: index_start(d),
    })
}
