// Filling the buffer, and bringing it up to date after a part of the deal was written.
ghost use Rattle.std.specs.Prelude.{◌≡◌, suc, ◌+◌, ◌*◌, ◌^◌, ◌≤◌, ◌<◌, length};
ghost use Rattle.tree.specs.Place.{RowInTree};
ghost use Rattle.tree.specs.TreeNodes.{SizedFor};
ghost use Rattle.tree.specs.Filled.{filled};
ghost use Rattle.tree.specs.Renewed.{renewed_row, renewed};

use crate::above::fill_part;
use crate::nodes::node_place;

// Works the nodes at `count` positions from `first` on, one level above `below`, out from their children: the row below
// stands in the deal, or in the buffer before the row above.
// It is cut by `split_at`: with `deal[64 * first..64 * (first + count)]` the proof did not close.
fn renew_row(deal: &[u8], tree: &mut [u8], below: usize, first: usize, count: usize)
    requires { RowInTree (length deal.now) (suc below) first count × SizedFor deal.now tree.old }
    ensures { tree.new ≡ renewed_row deal.now tree.old below first count }
{
    let place = node_place(deal.len(), below + 1, 0) + 32 * first;
    let (rows, rest) = tree.split_at_mut(place);
    let above = rest.split_at_mut(32 * count).0;
    if below == 0 {
        let children = deal.split_at(64 * first).1;
        fill_part(children.split_at(64 * count).0, above);
        return;
    }
    let children = rows
        .split_at(node_place(deal.len(), below, 0) + 64 * first)
        .1;
    fill_part(children.split_at(64 * count).0, above);
}

// Brings the buffer up to date after `len` bytes of a deal of 2^top nodes were written from a place on.
pub fn renew(deal: &[u8], tree: &mut [u8], top: usize, from: usize, len: usize)
    requires deal_len { (length deal.now ≡ 32 * 2 ^ top) × SizedFor deal.now tree.old }
    requires len_nonzero { (0 < len) × (from + len ≤ length deal.now) }
    ensures { tree.new ≡ renewed top deal.now tree.old from len }
{
    let last = from + len - 1;
    let mut span: usize = 32;
    for below in 0..top {
        span *= 2;
        let first = from / span;
        renew_row(deal, tree, below, first, last / span + 1 - first);
    }
}

// Fills the buffer for a deal of 2^top nodes.
pub fn fill(deal: &[u8], tree: &mut [u8], top: usize)
    requires { (length deal.now ≡ 32 * 2 ^ top) × SizedFor deal.now tree.old }
    ensures { tree.new ≡ filled top deal.now }
{
    renew(deal, tree, top, 0, deal.len());
}
