// A lent deal's own Merkle paths: those of a segment and of an entry, in one pass over the deal.
ghost use Rattle.std.specs.Prelude.{◌≡◌, ◌+◌, ◌-◌, ◌*◌, ◌/◌, ◌≤◌, ◌<◌, length};
ghost use Rattle.octets.specs.Splice.{splice};
ghost use Rattle.sizes.specs.Sizes.{deal_level};
ghost use Rattle.paths.specs.Start.{path_start, InTree};
ghost use Rattle.paths.specs.Siblings.{sibling_of, siblings};
ghost use Rattle.lent.specs.Seen.{seen};
ghost use Rattle.lent.specs.PathNodes.{IsNode};

use crate::{Lent, PathNode};

// `levels`, `level` and `position` change together at each step, and `InTree` is asked of each of them: a struct of the
// three would be built and taken apart at each call, and its fact proved anew there, which is no plainer.
// `IsNode` is asked in each contract: the deal's nodes are not in a `PathNode`, so it cannot hold that fact itself.
impl<'d, 't> Lent<'d, 't> {
    // The node above a node of a level and its sibling, with `levels` levels above it.
    fn above(&self, levels: usize, level: usize, x: PathNode, sibling: [u8; 32]) -> PathNode
        requires in_tree { InTree (deal_level (length self.now.bytes.now))
            (path_start levels (level + 1) (x.position / 2)) }
        requires node { IsNode (seen self.now).nodes level x }
        requires sibling_value { sibling ≡ (seen self.now).nodes level (sibling_of x.position) }
        ensures { IsNode (seen self.now).nodes (level + 1) result
            × (result.position ≡ x.position / 2) }
    {
        let pair = paths::pair(x.position as u64, x.node, sibling);
        let position = x.position / 2;
        let node = self.node_above(levels, level, position, pair);
        PathNode { position, node }
    }

    // The sibling of the node at a position of a level, with `levels` levels above it. Where it is the node of another
    // path on that level, which is in hand, it need not be worked out.
    fn sibling_beside(
        &self,
        levels: usize,
        level: usize,
        position: usize,
        other: PathNode,
    ) -> [u8; 32]
        requires in_tree { InTree (deal_level (length self.now.bytes.now))
            (path_start levels level (sibling_of position)) }
        requires node { IsNode (seen self.now).nodes level other }
        ensures { result
            ≡ (seen self.now).nodes level (sibling_of position) }
    {
        let sibling = paths::sibling_of(position);
        if sibling == other.position {
            return other.node;
        }
        self.node_in(levels, level, sibling)
    }

    // The same, with the sibling of the other path's node in hand too: it is this one's where the paths have met.
    fn second_sibling(
        &self,
        levels: usize,
        level: usize,
        position: usize,
        other: PathNode,
        other_sibling: [u8; 32],
    ) -> [u8; 32]
        requires in_tree { InTree (deal_level (length self.now.bytes.now))
            (path_start levels level (sibling_of position)) }
        requires node { IsNode (seen self.now).nodes level other }
        requires other_sibling_value { other_sibling
            ≡ (seen self.now).nodes level (sibling_of other.position) }
        ensures { result
            ≡ (seen self.now).nodes level (sibling_of position) }
    {
        if position == other.position {
            return other_sibling;
        }
        self.sibling_beside(levels, level, position, other)
    }

    // Writes the first `count` siblings of the Merkle path of a node of a level, with `levels` levels above it, into
    // `out` from a place on, and answers the node that they lead to.
    fn write_below(
        &self,
        levels: usize,
        level: usize,
        node: PathNode,
        count: usize,
        out: &mut [u8],
        at: usize,
    ) -> PathNode
        requires in_tree { InTree (deal_level (length self.now.bytes.now)) (path_start levels level node.position) }
        requires node { IsNode (seen self.now).nodes level node }
        requires fits { (count ≤ levels) × (at + 32 * levels ≤ length out.old) }
        ensures { IsNode (seen self.now).nodes (level + count) result
            × InTree (deal_level (length self.now.bytes.now))
            (path_start (levels - count) (level + count) result.position)
            × (splice out.old at
            (siblings (seen self.now).nodes levels level node.position)
            ≡ splice out.new (at + 32 * count)
            (siblings (seen self.now).nodes (levels - count) (level + count)
            result.position)) }
    {
        let mut x = node;
        for i in 0..count {
            let left = levels - i;
            let sibling = self.node_in(left, level + i, paths::sibling_of(x.position));
            octets::put_array(out, at + 32 * i, sibling);
            x = self.above(left - 1, level + i, x, sibling);
        }
        x
    }

    // Writes the Merkle paths of two nodes of a level, with `levels` levels above it, into `out`, each from a place on,
    // and answers the deal's top node, which both lead to. Just below the node where the paths meet each one's sibling
    // is the node that the other leads to, and from there on they have every sibling in common.
    fn write_both(
        &self,
        levels: usize,
        level: usize,
        first: PathNode,
        second: PathNode,
        out: &mut [u8],
        at: usize,
        second_at: usize,
    ) -> [u8; 32]
        requires first_in_tree { InTree (deal_level (length self.now.bytes.now))
            (path_start levels level first.position) }
        requires second_in_tree { InTree (deal_level (length self.now.bytes.now))
            (path_start levels level second.position) }
        requires first_node { IsNode (seen self.now).nodes level first }
        requires second_node { IsNode (seen self.now).nodes level second }
        requires fits { (at + 32 * levels ≤ second_at) × (second_at + 32 * levels ≤ length out.old) }
        ensures { (result
            ≡ (seen self.now).nodes (deal_level (length self.now.bytes.now)) 0)
            × (out.new ≡ splice (splice out.old at
            (siblings (seen self.now).nodes levels level first.position))
            second_at
            (siblings (seen self.now).nodes levels level
            second.position)) }
    {
        let mut x = first;
        let mut y = second;
        for i in 0..levels {
            let left = levels - i;
            let here = level + i;
            let sibling = self.sibling_beside(left, here, x.position, y);
            let other = self.second_sibling(left, here, y.position, x, sibling);
            octets::put_array(out, at + 32 * i, sibling);
            octets::put_array(out, second_at + 32 * i, other);
            x = self.above(left - 1, here, x, sibling);
            y = self.above(left - 1, here, y, other);
        }
        x.node
    }

    // Writes the deal's own Merkle paths of a segment, whose node is in hand, and of an entry into `out`, each from a
    // place on, and answers the deal's commitment. Without a tree the bytes outside the segment are hashed once, and
    // those of the segment not at all.
    pub fn write_paths(
        &self,
        level: usize,
        segment: PathNode,
        entry_position: usize,
        out: &mut [u8],
        at: usize,
        entry_at: usize,
    ) -> [u8; 32]
        requires level_nonzero { (0 < level) × InTree (deal_level (length self.now.bytes.now))
            (path_start (deal_level (length self.now.bytes.now) - level) level segment.position) }
        requires node { IsNode (seen self.now).nodes level segment }
        requires in_tree { InTree (deal_level (length self.now.bytes.now))
            (path_start (deal_level (length self.now.bytes.now) - 1) 1 entry_position) }
        requires level_bound { (at + 32 * (deal_level (length self.now.bytes.now) - level) ≤ entry_at)
            × (entry_at + 32 * (deal_level (length self.now.bytes.now) - 1) ≤ length out.old) }
        ensures { (result
            ≡ (seen self.now).nodes (deal_level (length self.now.bytes.now)) 0)
            × (out.new ≡ splice (splice out.old at
            (siblings (seen self.now).nodes
            (deal_level (length self.now.bytes.now) - level) level segment.position))
            entry_at
            (siblings (seen self.now).nodes
            (deal_level (length self.now.bytes.now) - 1) 1 entry_position)) }
    {
        let top = sizes::deal_level(self.bytes.len() as u64);
        let entry = PathNode {
            position: entry_position,
            node: self.node_in(top - 1, 1, entry_position),
        };
        let below = level - 1;
        let met = self.write_below(top - 1, 1, entry, below, out, entry_at);
        let second_at = entry_at + 32 * below;
        self.write_both(top - level, level, segment, met, out, at, second_at)
    }
}
