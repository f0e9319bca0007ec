// A row of nodes, or a part of one, written from the row below it: the two stand in slices of their own, so parts of
// one tree can be filled at the same time.
ghost use Rattle.std.specs.Prelude.{◌≡◌, ℕ, ◌*◌, ◌/◌, ◌≤◌, ◌<◌, length};
ghost use Rattle.rules.specs.Answers.{code_of};
ghost use Rattle.node.specs.Node.{node_hash};
ghost use Rattle.lanes.specs.Lanes.{lanes};
ghost use Rattle.lanes.specs.NodeWords.{Holds};
ghost use Rattle.tree.specs.RowLanes.{pair_from};
ghost use Rattle.tree.specs.RowAbove.{RowSized, row_above, row_code, filled_row};

use node::node_hash;
use octets::{array_at, put_array};
use rules::Refusal;

// The nodes over `count` pairs that stand side by side, each in a lane.
fn over_pairs(run: &[u8], count: usize) -> [u32; 128]
    requires { (0 < count) × (count ≤ lanes) × (64 * count ≤ length run.now) }
    ensures { (l : ℕ) → l < count → Holds result l (node_hash (pair_from run.now 0 l)) }
{
    let left = lanes::load_nodes(run, 64, 0, count);
    let right = lanes::load_nodes(run, 64, 32, count);
    lanes::hash_nodes(left, right, count)
}

// Writes one to sixteen nodes, all at once.
fn fill_lanes(below: &[u8], above: &mut [u8], count: usize)
    requires { RowSized count below.now above.old × (0 < count) × (count ≤ lanes) }
    ensures { above.new ≡ row_above count below.now }
{
    let nodes = over_pairs(below, count);
    lanes::store_nodes(nodes, count, above, 0);
}

// Writes nodes one after the other.
fn fill_singly(below: &[u8], above: &mut [u8], count: usize)
    requires { RowSized count below.now above.old }
    ensures { above.new ≡ row_above count below.now }
{
    for i in 0..count {
        put_array(above, 32 * i, node_hash(array_at(below, 64 * i)));
    }
}

// Writes none to sixteen nodes: from four on all at once, fewer one after the other. Sixteen are a case of their own,
// for which a compiler makes code without a count.
fn fill_few(below: &[u8], above: &mut [u8], count: usize)
    requires { RowSized count below.now above.old × (count ≤ lanes) }
    ensures { above.new ≡ row_above count below.now }
{
    if count < 4 {
        fill_singly(below, above, count);
        return;
    }
    if count == 16 {
        fill_lanes(below, above, 16);
        return;
    }
    fill_lanes(below, above, count);
}

// Writes any number of nodes: more than sixteen go by two parts, of which the first is made of sixteens. Two parts and
// no loop: within the loop over the heights of a tree a compiler would put the loads of the lanes in line, and read
// them byte by byte.
pub(crate) fn fill_part(below: &[u8], above: &mut [u8])
    requires { RowSized (length above.old / 32) below.now above.old }
    ensures { above.new ≡ row_above (length above.old / 32) below.now }
{
    let count = above.len() / 32;
    if count <= 16 {
        fill_few(below, above, count);
        return;
    }
    let left = (count / 16 + 1) / 2 * 16;
    let (left_below, right_below) = below.split_at(64 * left);
    let (left_above, right_above) = above.split_at_mut(32 * left);
    fill_part(left_below, left_above);
    fill_part(right_below, right_above);
}

// Writes the nodes over the pairs of `below` into `above`. Output: `below` is no whole number of pairs or `above` not
// half as long. Then nothing is written.
pub fn fill_row(below: &[u8], above: &mut [u8]) -> Result<(), Refusal>
    ensures value { code_of result ≡ row_code below.now above.old }
    ensures above_after { above.new ≡ filled_row below.now above.old }
{
    if below.len() % 64 != 0 {
        return Err(Refusal::Output);
    }
    if above.len() != below.len() / 2 {
        return Err(Refusal::Output);
    }
    fill_part(below, above);
    Ok(())
}
