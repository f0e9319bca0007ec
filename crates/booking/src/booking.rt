// Booking: the place for a segment, and writing it there.
ghost use Rattle.std.specs.Prelude.{◌≡◌, ◌+◌, ◌≤◌, ◌<◌, length, option_map, IfOk};
ghost use Rattle.sizes.specs.Sizes.{area};
ghost use Rattle.lent.specs.LentDeal.{lent_of, lent_deal, tree_deal};
ghost use Rattle.lent.specs.Seen.{seen};
ghost use Rattle.lent.specs.Usable.{Usable};
ghost use Rattle.room.specs.Decide.{booked_of};
ghost use Rattle.booking.specs.Decided.{placed_in};
ghost use Rattle.booking.specs.Booking.{book_answer, booked_deal, booked_table};
ghost use Rattle.booking.specs.BookedTree.{renewed_for, booked_tree};
ghost use Rattle.booking.specs.BookableLaws.{BookableFor};

use crate::keeping::lowest_keeping;
use crate::refusing::open;
use crate::segment::Segment;
use lent::Lent;
use room::{Placed, Unbooked};

// Where a segment that no rule refuses goes in a lent deal: the answer by the test for 15, the slots that the house
// holds and the deal's room.
fn place_for(deal: &Lent, table: &[u8], house: u8, segment: &Segment) -> Result<Placed, Unbooked>
    requires { BookableFor (seen deal.now) table.now house segment.now.bytes.now }
    ensures { booked_of result
        ≡ book_answer (seen deal.now) table.now house segment.now.bytes.now }
{
    let deal_size = deal.bytes.len() as u64;
    let ranges = ranges::gather(deal.bytes);
    let held = houses::held_count(&ranges[..table.len()], table, house);
    let keeping = lowest_keeping(deal, table, house, segment, &ranges);
    let decision = room::decide(deal_size, &ranges, held, segment.area(), keeping);
    room::answer(deal_size, &ranges, decision)
}

// Where a segment goes in a deal, with a tree beside it or without one, and its commitment.
fn decide<'a>(
    deal: &[u8],
    tree: Option<&[u8]>,
    table: &[u8],
    house: u8,
    segment: &'a [u8],
) -> Result<(Segment<'a>, Placed), Unbooked>
    ensures answer { booked_of (placed_in result)
        ≡ book_answer (lent_of deal.now (option_map (λ t. t.now) tree.entry)) table.now house
        segment.now }
    ensures segment { IfOk result (λ decided. decided.0.bytes.now ≡ segment.now) }
{
    let deal = open(deal, tree, table, house, segment)?;
    let segment = Segment::new(&deal, segment);
    let at = place_for(&deal, table, house, &segment)?;
    Ok((segment, at))
}

// Brings the tree beside a deal up to date: the nodes above an area of this many bytes and above an entry, which were
// written.
fn renew_written(deal: &[u8], tree: &mut [u8], area: u64, at: Placed)
    requires usable { Usable (tree_deal deal.now tree.old) }
    requires within { (0 < area) × (at.offset + area ≤ length deal.now) × (at.place + 64 ≤ length deal.now) }
    ensures { tree.new ≡ renewed_for deal.now tree.old at.offset area at.place }
{
    lent::renew_tree(deal, Some(&mut *tree), at.offset as usize, area as usize);
    lent::renew_tree(deal, Some(&mut *tree), at.place as usize, 64);
}

// Books a segment in a lent deal for a house, 1 or 2: the segment, zeros after it to its area's end, its entry and the
// slot's byte of the table of owners are written, and no other byte changes. 23 for another house, 2 for a deal size
// that is not allowed, 23 for a table that has not one byte a slot, 4 for a segment size that is not allowed in the
// deal, 11 for stray bits in either, 15 with offset and entry place of the house's lowest slot that keeps the segment
// already, 22 where the house holds half the slots or more, 13 for no free slot, 14 for no free place; on a refusal
// nothing is written.
pub fn book(
    deal: &mut [u8],
    table: &mut [u8],
    house: u8,
    segment: &[u8],
) -> Result<Placed, Unbooked>
    ensures value { booked_of result
        ≡ book_answer (lent_deal deal.old) table.old house segment.now }
    ensures deal_after { deal.new
        ≡ booked_deal (lent_deal deal.old) table.old house segment.now }
    ensures table_after { table.new
        ≡ booked_table (lent_deal deal.old) table.old house segment.now }
{
    let (segment, at) = decide(deal, None, table, house, segment)?;
    segment.put(deal, at);
    houses::put_owner(deal.len() as u64, table, at.place, house);
    Ok(at)
}

// The same with a tree beside the deal, whatever it holds: 12 for another length than the deal asks, after 11; the test
// for 15 reads kept from it; where the segment is written every node above the bytes written is worked out anew from
// its children as they then stand, and no other byte of the tree changes.
// There are two functions, as in the C interface. Of an optional tree to write no clause would say what it holds
// afterwards where there is none.
pub fn book_with_tree(
    deal: &mut [u8],
    tree: &mut [u8],
    table: &mut [u8],
    house: u8,
    segment: &[u8],
) -> Result<Placed, Unbooked>
    ensures value { booked_of result
        ≡ book_answer (tree_deal deal.old tree.old) table.old house
        segment.now }
    ensures deal_after { deal.new
        ≡ booked_deal (tree_deal deal.old tree.old) table.old house
        segment.now }
    ensures tree_after { tree.new
        ≡ booked_tree deal.old tree.old table.old house segment.now }
    ensures table_after { table.new
        ≡ booked_table (tree_deal deal.old tree.old) table.old house
        segment.now }
{
    let (segment, at) = decide(deal, Some(tree), table, house, segment)?;
    segment.put(deal, at);
    renew_written(deal, tree, segment.area(), at);
    houses::put_owner(deal.len() as u64, table, at.place, house);
    Ok(at)
}
