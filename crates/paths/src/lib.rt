// Merkle paths: the node that a path leads to, two paths compared, and the sibling of a node.
#![tactic(auto)]

ghost use Rattle.std.specs.Prelude.{◌≡◌, ◌/◌, length};
ghost use Rattle.paths.specs.Path.{pair_of, path_root};
ghost use Rattle.paths.specs.Compare.{seen_as, equal, compared_above, compared_up};
ghost use Rattle.paths.specs.CompareBelow.{or_compared};
ghost use Rattle.paths.specs.Siblings.{sibling_of};

// The two strings at the first difference of two paths, from the top.
#[derive(Clone, Copy, Debug, PartialEq, Eq, Drop)]
pub struct Difference {
    pub left: [u8; 64],
    pub right: [u8; 64],
}

// What was seen of two paths so far: whether they differ, and the two strings at the first difference from the top. It
// is no `Option<Difference>`: where nothing above differs, what was handed in is handed on whole, and the promises hold
// for any such value, also for strings beside no difference.
#[derive(Clone, Copy, Debug, PartialEq, Eq, Drop)]
pub struct Compared {
    pub differs: bool,
    pub left: [u8; 64],
    pub right: [u8; 64],
}

impl Compared {
    // No difference, and two strings of zeros.
    pub const EQUAL: Compared = Compared {
        differs: false,
        left: [0; 64],
        right: [0; 64],
    };

    // The two strings that differ, where any do.
    pub fn difference(self) -> Option<Difference>
        ensures { seen_as result ≡ or_compared self equal }
    {
        let Compared {
            differs,
            left,
            right,
        } = self;
        if differs {
            return Some(Difference { left, right });
        }
        None
    }
}

// The 64 bytes that are hashed for a node and its sibling: an even position puts the node on the left.
pub fn pair(position: u64, node: [u8; 32], sibling: [u8; 32]) -> [u8; 64]
    ensures { result ≡ pair_of position node sibling }
{
    if position % 2 == 0 {
        octets::join(node, sibling)
    } else {
        octets::join(sibling, node)
    }
}

// The node that a path leads to, from a node at a position.
pub fn path_root(node: [u8; 32], position: u64, path: &[u8]) -> [u8; 32]
    ensures { result ≡ path_root (length path.now / 32) node position path.now }
{
    let mut running = node;
    let mut p = position;
    for i in 0..path.len() / 32 {
        let sibling = octets::array_at(path, i * 32);
        let parent = node::node_hash(pair(p, running, sibling));
        running = parent;
        p /= 2;
    }
    running
}

// What is seen with one more pair of strings above: a difference here hides those below.
pub fn compare_above(seen: Compared, left: [u8; 64], right: [u8; 64]) -> Compared
    ensures { result ≡ compared_above seen left right }
{
    if left == right {
        return seen;
    }
    Compared {
        differs: true,
        left,
        right,
    }
}

// Compares the strings of two paths, from nodes x and y at one position. They are met from the bottom up, so the last
// difference is the first from the top. `seen` is the difference of what stands below.
pub fn compare_paths(
    position: u64,
    x: [u8; 32],
    left: &[u8],
    y: [u8; 32],
    right: &[u8],
    seen: Compared,
) -> Compared
    requires { length left.now ≡ length right.now }
    ensures { result ≡ compared_up (length left.now / 32) position x left.now y right.now seen }
{
    let mut p = position;
    let mut a = x;
    let mut b = y;
    let mut last = seen;
    for i in 0..left.len() / 32 {
        let left_string = pair(p, a, octets::array_at(left, i * 32));
        let right_string = pair(p, b, octets::array_at(right, i * 32));
        last = compare_above(last, left_string, right_string);
        a = node::node_hash(left_string);
        b = node::node_hash(right_string);
        p /= 2;
    }
    last
}

// The sibling's position.
pub fn sibling_of(position: usize) -> usize
    ensures { result ≡ sibling_of position }
{
    position ^ 1
}
