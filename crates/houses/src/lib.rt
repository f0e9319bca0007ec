// Two houses in one deal: their numbers, and the table that says which of them owns which slot.
#![tactic(auto)]

ghost use Rattle.std.specs.Prelude.{◌≡◌, true, ◌≤◌, ◌<◌, length};
ghost use Rattle.rules.specs.Answers.{code_of};
ghost use Rattle.rules.specs.Refusals.{first_refusal};
ghost use Rattle.sizes.specs.Sizes.{lent_size_allowed, place_allowed};
ghost use Rattle.index.specs.Written.{slot_of};
ghost use Rattle.room.specs.Room.{ranges_in};
ghost use Rattle.houses.specs.Houses as Houses;
ghost use Rattle.houses.specs.Houses.{house_allowed, table_sized, house_rules, owned, held_count, with_owner};

use room::Range;
use rules::Refusal;

// Whether a number is that of a house. A house is a byte and no enum: C passes any byte, and gets 23 for another.
pub fn house_allowed(house: u8) -> bool
    ensures { result ≡ house_allowed house }
{
    house == 1 || house == 2
}

// Whether a table has one byte a slot of a deal of this many bytes.
pub fn table_sized(size: usize, table: &[u8]) -> bool
    ensures { result ≡ table_sized size table.now }
{
    table.len() as u64 == sizes::entry_count(size as u64)
}

// 23 for a house other than 1 or 2, 2 for a deal size that is not allowed, 23 for a table of another length.
pub fn refusal(size: usize, table: &[u8], house: u8) -> Result<(), Refusal>
    ensures { code_of result ≡ first_refusal (house_rules size table.now house) }
{
    if !house_allowed(house) {
        return Err(Refusal::House);
    }
    if !sizes::lent_size_allowed(size) {
        return Err(Refusal::Size);
    }
    if !table_sized(size, table) {
        return Err(Refusal::House);
    }
    Ok(())
}

// How many of the slots a house holds: those whose entry stands, and whose byte of the table is the house's.
pub fn held_count(ranges: &[Range], table: &[u8], house: u8) -> usize
    requires { length ranges.now ≤ length table.now }
    ensures { result ≡ held_count (ranges_in ranges.now) table.now house (length ranges.now) }
{
    // A loop and no `filter` with `count`: the proof of that chain against `held_count` was tried and did not close.
    let mut held = 0;
    for (i, range) in ranges.iter().enumerate() {
        if range.area != 0 && table[i] == house {
            held += 1;
        }
    }
    held
}

// A size, a table and a place stay parameters here and below: a struct of them would be built for each call, and the
// table is read in one and written in another.

// The slot at an entry place of a lent deal.
pub fn slot_at(size: u64, place: u64) -> usize
    requires { (lent_size_allowed size ≡ true) × (place_allowed size place ≡ true) }
    ensures { result ≡ slot_of size place }
{
    ((place - sizes::index_start(size)) / 64) as usize
}

// Whether the slot at an entry place of a lent deal is a house's, by its byte of the table.
pub fn owns(size: u64, table: &[u8], house: u8, place: u64) -> bool
    requires size_value { (lent_size_allowed size ≡ true) × (place_allowed size place ≡ true) }
    requires table_value { table_sized size table.now ≡ true }
    ensures { result ≡ owned table.now house (slot_of size place) }
{
    table[slot_at(size, place)] == house
}

// Writes the owner of the slot at an entry place of a lent deal.
pub fn put_owner(size: u64, table: &mut [u8], place: u64, owner: u8)
    requires size_value { (lent_size_allowed size ≡ true) × (place_allowed size place ≡ true) }
    requires table_value { table_sized size table.old ≡ true }
    ensures { table.new ≡ with_owner table.old (slot_of size place) owner }
{
    table[slot_at(size, place)] = owner;
}
