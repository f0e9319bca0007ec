// Booking a segment in a deal for a house, and the tree that is kept beside a deal.
ghost use Rattle.std.specs.Prelude.{◌≡◌};
ghost use Rattle.tree.specs.RowAbove.{row_code, filled_row};
ghost use Rattle.lent.specs.LentDeal.{lent_deal, tree_deal, deal_refusal};
ghost use Rattle.lent.specs.FilledTree.{filled_tree};
ghost use Rattle.room.specs.Decide.{booked_of};
ghost use Rattle.booking.specs.Booking.{book_answer, booked_deal, booked_table};
ghost use Rattle.booking.specs.BookedTree.{booked_tree};
ghost use Rattle.vizhuthamen.specs.Export.{lent_output_or};

use room::{Placed, Unbooked};

// The code where a segment is kept already.
const KEPT_ALREADY: u32 = 15;

// Writes the two numbers of an answer, where it has them, and gives its code.
fn write_booked(booked: Result<Placed, Unbooked>, offset: &mut u64, place: &mut u64) -> u32
    ensures value { result ≡ (booked_of booked).code }
    ensures offset_after { offset.new
        ≡ lent_output_or 15 result (booked_of booked).offset offset.old }
    ensures place_after { place.new ≡ lent_output_or 15 result (booked_of booked).place place.old }
{
    let (placed, code) = match booked {
        Ok(placed) => (placed, 0),
        Err(Unbooked::Already(placed)) => (placed, KEPT_ALREADY),
        Err(Unbooked::Refused(refusal)) => return refusal.code() as u32,
    };
    *offset = placed.offset;
    *place = placed.place;
    code
}

// Books a segment in a deal for a house.
#[unsafe(no_mangle)]
pub extern "C" fn vz_book(
    deal: &mut [u8],
    table: &mut [u8],
    house: u8,
    segment: &[u8],
    offset: &mut u64,
    place: &mut u64,
) -> u32
    ensures value { result
        ≡ (book_answer (lent_deal deal.old) table.old house segment.now).code }
    ensures deal_after { deal.new
        ≡ booked_deal (lent_deal deal.old) table.old house segment.now }
    ensures table_after { table.new
        ≡ booked_table (lent_deal deal.old) table.old house segment.now }
    ensures offset_after { offset.new ≡ lent_output_or 15 result
        (book_answer (lent_deal deal.old) table.old house segment.now).offset
        offset.old }
    ensures place_after { place.new ≡ lent_output_or 15 result
        (book_answer (lent_deal deal.old) table.old house segment.now).place
        place.old }
{
    write_booked(booking::book(deal, table, house, segment), offset, place)
}

// The same with the tree beside the deal, which is brought up to date.
#[unsafe(no_mangle)]
pub extern "C" fn vz_book_with_tree(
    deal: &mut [u8],
    tree: &mut [u8],
    table: &mut [u8],
    house: u8,
    segment: &[u8],
    offset: &mut u64,
    place: &mut u64,
) -> u32
    ensures value { result
        ≡ (book_answer (tree_deal deal.old tree.old) table.old house
        segment.now).code }
    ensures deal_after { deal.new
        ≡ booked_deal (tree_deal deal.old tree.old) table.old house
        segment.now }
    ensures tree_after { tree.new
        ≡ booked_tree deal.old tree.old table.old house segment.now }
    ensures table_after { table.new
        ≡ booked_table (tree_deal deal.old tree.old) table.old house
        segment.now }
    ensures offset_after { offset.new ≡ lent_output_or 15 result
        (book_answer (tree_deal deal.old tree.old) table.old house
        segment.now).offset offset.old }
    ensures place_after { place.new ≡ lent_output_or 15 result
        (book_answer (tree_deal deal.old tree.old) table.old house
        segment.now).place place.old }
{
    let booked = booking::book_with_tree(deal, tree, table, house, segment);
    write_booked(booked, offset, place)
}

// Fills the tree beside a deal with every inner node of the deal's tree.
#[unsafe(no_mangle)]
pub extern "C" fn vz_tree_fill(deal: &[u8], tree: &mut [u8]) -> u32
    ensures value { result ≡ deal_refusal (tree_deal deal.now tree.old) }
    ensures tree_after { tree.new ≡ filled_tree deal.now tree.old }
{
    rules::code_of(lent::fill_tree(deal, tree)) as u32
}

// Writes the nodes over the pairs of `below` into `above`: a row of a tree, or a part of one, from the row below it.
#[unsafe(no_mangle)]
pub extern "C" fn vz_tree_row(below: &[u8], above: &mut [u8]) -> u32
    ensures value { result ≡ row_code below.now above.old }
    ensures above_after { above.new ≡ filled_row below.now above.old }
{
    rules::code_of(tree::fill_row(below, above)) as u32
}
