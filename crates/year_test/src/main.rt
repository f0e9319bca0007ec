// Plays made-up years of bookings, cancellations and collections by two houses, and makes the five tests of a year's
// assurance after every call. Prints what the years came to, to be compared with what tests/year_vectors.py works out
// by itself.
#![tactic(auto)]

mod calls; // calls.rt: made-up calls
mod counts; // counts.rt: counts of calls and of tests
mod history; // history.rt: what the calls and their answers say is booked
mod making; // making.rt: the calls made, by the library's routines
mod parts; // parts.rt: parts of buffers
mod show; // show.rt: what a year came to, on standard output
mod slots; // slots.rt: what stands in the slots of a deal
mod tests; // tests.rt: the five tests

ghost use Rattle.std.specs.Prelude.{◌≡◌, ◌≤◌, length};

use counts::Counts;
use history::History;
use parts::{Buffers, lent};
use std::io;
use tests::State;

// A year: the size of its deal, how many calls, whether each has the tree in hand, and the number before the first.
#[derive(Clone, Copy)]
struct Plan {
    size: u64,
    calls: u64,
    tree_in_hand: bool,
    seed: u64,
}

// What goes on from call to call beside the buffers: the history, the number that the latest call was made of, whether
// the tree is the deal's own, and the counts.
#[derive(Clone, Copy)]
struct Going {
    history: History,
    number: u64,
    own_tree: bool,
    counts: Counts,
}

// Makes all tests on the deal and the table as they are.
fn test(deal: &[u8], tree: &[u8], table: &[u8], going: &mut Going) {
    let state = State {
        deal,
        tree: if going.own_tree { Some(tree) } else { None },
        slots: slots::slots_of(deal, table),
        number: going.number,
    };
    state.test_all(&going.history, &mut going.counts.tests);
}

// Makes the next call, and all tests after it. The tree is the deal's own after a call that had it in hand, until one
// that had not changes the deal.
fn go_on(buffers: &mut Buffers, plan: Plan, going: &mut Going)
    requires { (512 ≤ plan.size) × (plan.size ≤ 4096) }
{
    going.number = calls::next_number(going.number);
    let call = calls::call_of(plan.size, plan.tree_in_hand, going.number);
    let answer = making::make(buffers, going.own_tree, call);
    going.counts.count_call(call.kind, answer.code);
    going.history.go_on(plan.size, call, answer);
    going.own_tree = call.with_tree || (going.own_tree && answer.code != 0);
    let deal = lent(buffers.deal, false);
    let tree = lent(buffers.tree, false);
    let table = lent(buffers.table, false);
    test(deal, tree, table, going);
}

// Makes all calls of a year on a deal with its tree and its table, and shows what it came to.
fn play_and_show(rt: &impl Print, buffers: &mut Buffers, plan: Plan) -> io::Result<()>
    requires { (512 ≤ plan.size) × (plan.size ≤ 4096) }
{
    let mut going = Going {
        history: history::none(),
        number: plan.seed,
        own_tree: false,
        counts: Counts::none(),
    };
    for _ in 0..plan.calls {
        go_on(buffers, plan, &mut going);
    }
    show::year(rt, plan.size, plan.calls, &going.counts, &going.history)?;
    let deal = lent(buffers.deal, false);
    let table = lent(buffers.table, false);
    show::state(rt, deal, table)
}

// A buffer full of one byte.
fn buffer(byte: u8) -> [u8; 4096]
    ensures { 4096 ≡ length result }
{
    [byte; 4096]
}

// A year from a deal of zeros on. What its table and the other buffers hold before it does not matter.
fn year(rt: &impl Print, plan: Plan) -> io::Result<()>
    requires { (512 ≤ plan.size) × (plan.size ≤ 4096) }
{
    let mut deal = buffer(0);
    let mut tree = buffer(255);
    let mut second = buffer(255);
    let mut second_tree = buffer(255);
    let mut table = [1u8, 2, 255, 1];
    let mut second_table = [2u8, 2, 1, 7];
    let size = plan.size as usize;
    let nodes = size - 32;
    let mut buffers = Buffers {
        deal: &mut deal[..size],
        tree: &mut tree[..nodes],
        table: &mut table,
        second: &mut second[..size],
        second_tree: &mut second_tree[..nodes],
        second_table: &mut second_table,
    };
    play_and_show(rt, &mut buffers, plan)
}

// A year in which some calls have the tree in hand, and one in which all have, so that it is filled once alone.
fn main(rt: HostRuntime) -> io::Result<()> {
    year(
        &rt,
        Plan {
            size: 2048,
            calls: 6000,
            tree_in_hand: false,
            seed: 88172645463325252,
        },
    )?;
    year(
        &rt,
        Plan {
            size: 4096,
            calls: 3000,
            tree_in_hand: true,
            seed: 58,
        },
    )
}
