// A path compared with a lent deal's own pairs of nodes along it.
ghost use Rattle.std.specs.Prelude.{◌≡◌, ◌/◌, length};
ghost use Rattle.sizes.specs.Sizes.{deal_level};
ghost use Rattle.paths.specs.Start.{path_start, InTree};
ghost use Rattle.paths.specs.Siblings.{siblings};
ghost use Rattle.paths.specs.CompareOwn.{compared_with_own};
ghost use Rattle.lent.specs.Seen.{seen};

use crate::Lent;
use paths::Compared;

impl<'d, 't> Lent<'d, 't> {
    // Compares the strings of a path, from a node x at a position of a level, with the deal's own pairs of nodes along
    // it; `own_node` is the deal's own node there, and `own` its Merkle path. They are met from the bottom up, so the
    // last difference is the first from the top. `below` is the difference of what stands below. The loop is that of
    // `paths::compare_paths` but for the step to the deal's next node: one function for both would take that step as a
    // closure, with a law about it from each caller, and be no plainer.
    pub fn compare_with_own(
        &self,
        level: usize,
        position: usize,
        own_node: [u8; 32],
        own: &[u8],
        x: [u8; 32],
        path: &[u8],
        below: Compared,
    ) -> Compared
        requires in_tree { InTree (deal_level (length self.now.bytes.now))
            (path_start (length path.now / 32) level position) }
        requires own_node_value { own_node ≡ (seen self.now).nodes level position }
        requires own_value { own.now ≡ siblings (seen self.now).nodes (length path.now / 32) level position }
        ensures { result
            ≡ compared_with_own (seen self.now).nodes
            (length path.now / 32) level position x path.now below }
    {
        let levels = path.len() / 32;
        let mut p = position;
        let mut a = x;
        let mut b = own_node;
        let mut last = below;
        for i in 0..levels {
            let string = paths::pair(p as u64, a, octets::array_at(path, i * 32));
            let own_string = paths::pair(p as u64, b, octets::array_at(own, i * 32));
            last = paths::compare_above(last, string, own_string);
            a = node::node_hash(string);
            p /= 2;
            b = self.node_above(levels - i - 1, level + i, p, own_string);
        }
        last
    }
}
