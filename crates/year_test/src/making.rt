// The calls themselves, by the library's routines, on a lent deal with its tree and its table.
ghost use Rattle.std.specs.Prelude.{◌≡◌, length};

use crate::calls;
use crate::calls::{Buffer, Call, Kind};
use crate::parts::{Buffers, lent, part};
use room::{Booked, Placed, Unbooked};
use rules::Refusal;

// A code, with no offset and no entry place: what is shown of a cancellation and a collection, beside bookings.
fn code_alone(code: u8) -> Booked {
    Booked {
        code,
        offset: 0,
        place: 0,
    }
}

// The first bytes of a made-up segment.
fn segment_bytes(segment: u8) -> [u8; 4096]
    ensures { 4096 ≡ length result }
{
    let mut bytes = [0u8; 4096];
    for i in 0..4096 {
        bytes[i] = calls::segment_byte(segment, i);
    }
    bytes
}

fn book(buffers: &mut Buffers, call: Call) -> Result<Placed, Unbooked> {
    let bytes = segment_bytes(call.segment);
    let segment = part(&bytes, 0, call.size);
    let deal = lent(buffers.deal, call.shortens(Buffer::Deal));
    let table = lent(buffers.table, call.shortens(Buffer::Table));
    if call.with_tree {
        let tree = lent(buffers.tree, call.shortens(Buffer::Tree));
        return booking::book_with_tree(deal, tree, table, call.house, segment);
    }
    booking::book(deal, table, call.house, segment)
}

fn cancel(buffers: &mut Buffers, call: Call) -> Result<(), Refusal> {
    let deal = lent(buffers.deal, call.shortens(Buffer::Deal));
    let table = lent(buffers.table, call.shortens(Buffer::Table));
    if call.with_tree {
        let tree = lent(buffers.tree, call.shortens(Buffer::Tree));
        return cancel::cancel_with_tree(deal, tree, table, call.house, call.place);
    }
    cancel::cancel(deal, table, call.house, call.place)
}

fn collect(buffers: &mut Buffers, call: Call) -> Result<(), Refusal> {
    let deal = lent(buffers.deal, call.shortens(Buffer::Deal));
    let table = lent(buffers.table, call.shortens(Buffer::Table));
    let second = lent(buffers.second, call.shortens(Buffer::Second));
    let owners = lent(buffers.second_table, call.shortens(Buffer::SecondTable));
    if call.with_tree {
        let tree = lent(buffers.second_tree, call.shortens(Buffer::Tree));
        return collect::collect_with_tree(deal, table, second, tree, owners);
    }
    collect::collect(deal, table, second, owners)
}

// A buffer takes the place of another one of its length.
fn take_place(of: &mut [u8], new: &[u8]) {
    if new.len() == of.len() {
        of.copy_from_slice(new);
    }
}

// A collection; where it is not refused the second deal, its tree and its table take the place of the first ones.
fn collect_and_go_on(buffers: &mut Buffers, call: Call) -> Result<(), Refusal> {
    collect(buffers, call)?;
    let deal = lent(buffers.deal, false);
    let second = lent(buffers.second, false);
    take_place(deal, second);
    let tree = lent(buffers.tree, false);
    let second_tree = lent(buffers.second_tree, false);
    take_place(tree, second_tree);
    let table = lent(buffers.table, false);
    let second_table = lent(buffers.second_table, false);
    take_place(table, second_table);
    Ok(())
}

// Makes a call; its answer in numbers. A tree that is not the deal's own is filled before the call has it in hand.
pub(crate) fn make(buffers: &mut Buffers, own_tree: bool, call: Call) -> Booked {
    if call.with_tree && !own_tree {
        let deal = lent(buffers.deal, false);
        let tree = lent(buffers.tree, false);
        let _ = lent::fill_tree(deal, tree);
    }
    match call.kind {
        Kind::Booking => room::booked_of(book(buffers, call)),
        Kind::Cancelling => code_alone(rules::code_of(cancel(buffers, call))),
        Kind::Collecting => code_alone(rules::code_of(collect_and_go_on(buffers, call))),
    }
}
