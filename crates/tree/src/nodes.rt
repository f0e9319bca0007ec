// Where the nodes stand: those of the lowest level in the deal, each other in the buffer.
ghost use Rattle.std.specs.Prelude.{◌≡◌, ◌<◌, length};
ghost use Rattle.tree.specs.Place.{NodeInTree, node_place};
ghost use Rattle.tree.specs.TreeNodes.{tree_nodes, SizedFor};

// Where the node of a height from 1 and a position starts, beside a deal of `size` bytes.
pub(crate) fn node_place(size: usize, height: usize, position: usize) -> usize
    requires { (0 < height) × NodeInTree size height position }
    ensures { result ≡ node_place size height position }
{
    size - (size >> (height - 1)) + 32 * position
}

// The node of a level and a position as it stands: of the lowest level in the deal, of each other in the buffer.
pub fn node_in(deal: &[u8], tree: &[u8], level: usize, position: usize) -> [u8; 32]
    requires { NodeInTree (length deal.now) level position × SizedFor deal.now tree.now }
    ensures { result ≡ tree_nodes deal.now tree.now level position }
{
    if level == 0 {
        return octets::array_at(deal, position * 32);
    }
    octets::array_at(tree, node_place(deal.len(), level, position))
}
