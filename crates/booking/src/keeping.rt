// A segment that a deal keeps already.
ghost use Rattle.std.specs.Prelude.{◌≡◌, true, ◌<◌, length, option_map};
ghost use Rattle.sizes.specs.Sizes.{segment_size_allowed, offset_allowed, entry_count};
ghost use Rattle.lent.specs.Seen.{seen};
ghost use Rattle.room.specs.Room.{SameBelow, ranges_in};
ghost use Rattle.ranges.specs.Ranges.{ranges_of};
ghost use Rattle.houses.specs.Houses.{table_sized};
ghost use Rattle.booking.specs.AreaNode.{area_node};
ghost use Rattle.booking.specs.Booking.{keeps_segment, lowest_keeping};

// That the segment's size is allowed in the deal is a fact about both; a struct of both would hold the deal while it is
// written.
use crate::segment::Segment;
use lent::Lent;
use room::Range;

// The node that an entry of the segment's size has to name to be kept with the segment's bytes: with a tree beside the
// deal the node over the area as it stands there; without one the segment's commitment, which is that node wherever the
// area holds the segment's bytes, so the deal is not hashed.
fn area_node(deal: &Lent, segment: &Segment, offset: u64) -> [u8; 32]
    requires size_value { segment_size_allowed (length deal.now.bytes.now) (length segment.now.bytes.now) ≡ true }
    requires offset_value { offset_allowed (length deal.now.bytes.now) offset (length segment.now.bytes.now) ≡ true }
    ensures { result
        ≡ area_node deal.now.bytes.now (option_map (λ t. t.now) deal.now.tree) offset
        (length segment.now.bytes.now) segment.now.commitment }
{
    match deal.tree {
        Some(_) => index::segment_node(deal, offset, segment.size()),
        None => segment.commitment,
    }
}

// Whether slot i of a lent deal, which takes up this range, keeps the segment: its entry stands and has the segment's
// size, its commitment is the node over its area, and exactly the segment's bytes, with zeros after them to the area's
// end, are at its offset.
fn slot_keeps(deal: &Lent, segment: &Segment, range: Range, i: usize) -> bool
    requires segment_value { segment_size_allowed (length deal.now.bytes.now) (length segment.now.bytes.now) ≡ true }
    requires range_value { range ≡ ranges_of deal.now.bytes.now i }
    requires i_bound { i < entry_count (length deal.now.bytes.now) }
    ensures { result ≡ keeps_segment (seen deal.now) segment.now.bytes.now i }
{
    if range.area != segment.area() {
        return false;
    }
    let place = sizes::slot_place(deal.bytes.len() as u64, i as u64) as usize;
    if octets::read_u64(deal.bytes, place + 40) != segment.size() {
        return false;
    }
    let node = area_node(deal, segment, range.offset);
    if octets::array_at(deal.bytes, place) != node {
        return false;
    }
    octets::same_filled(
        deal.bytes,
        range.offset as usize,
        segment.bytes,
        range.area as usize,
    )
}

// The lowest slot of a house in a lent deal that keeps the segment.
pub(crate) fn lowest_keeping(
    deal: &Lent,
    table: &[u8],
    house: u8,
    segment: &Segment,
    ranges: &[Range; 128],
) -> Option<usize>
    requires segment_value { segment_size_allowed (length deal.now.bytes.now) (length segment.now.bytes.now) ≡ true }
    requires same_below { SameBelow (entry_count (length deal.now.bytes.now)) (ranges_in ranges.now)
        (ranges_of deal.now.bytes.now) }
    requires table_value { table_sized (length deal.now.bytes.now) table.now ≡ true }
    ensures { result ≡ lowest_keeping (seen deal.now) table.now house segment.now.bytes.now }
{
    for (i, owner) in table.iter().enumerate() {
        if *owner == house && slot_keeps(deal, segment, ranges[i], i) {
            return Some(i);
        }
    }
    None
}
