// The nodes of a lent deal: with a tree beside it as they stand, without one worked out from its bytes.
ghost use Rattle.std.specs.Prelude.{◌≡◌, ◌+◌, ◌*◌, ◌++◌, length};
ghost use Rattle.sizes.specs.Sizes.{deal_level};
ghost use Rattle.paths.specs.Start.{path_start, InTree};
ghost use Rattle.lent.specs.Seen.{seen};

use crate::Lent;

impl<'d, 't> Lent<'d, 't> {
    // The node at a position of a level, with `levels` levels above it.
    pub fn node_in(&self, levels: usize, level: usize, position: usize) -> [u8; 32]
        requires { InTree (deal_level (length self.now.bytes.now)) (path_start levels level position) }
        ensures { result ≡ (seen self.now).nodes level position }
    {
        match self.tree {
            Some(tree) => tree::node_in(self.bytes, tree, level, position),
            None => merkle::node_at(self.bytes, level, position),
        }
    }

    // The node above a pair of the deal's nodes of a level, with `levels` levels above it: with a tree as it stands
    // there, without one worked out from the pair.
    pub(crate) fn node_above(
        &self,
        levels: usize,
        level: usize,
        position: usize,
        pair: [u8; 64],
    ) -> [u8; 32]
        requires in_tree { InTree (deal_level (length self.now.bytes.now))
            (path_start levels (level + 1) position) }
        requires pair { pair ≡ ((seen self.now).nodes level (position * 2)
            ++ (seen self.now).nodes level (position * 2 + 1)) }
        ensures { result ≡ (seen self.now).nodes (level + 1) position }
    {
        match self.tree {
            Some(_) => self.node_in(levels, level + 1, position),
            None => node::node_hash(pair),
        }
    }
}
