// The waiting nodes: one for each height, 32 bytes each, the lowest height first.
ghost use Rattle.std.specs.Prelude.{◌≡◌, ◌-◌, ◌^◌, ◌≤◌, ◌<◌, length};
ghost use Rattle.stream.specs.Stream.{with_node};

use node::node_hash;
use octets::{array_at, join, put_array};

// One more node of a height that has k nodes already. Each odd number of nodes has one waiting: the left neighbour of
// the new one. The node over the two is one more node of the next height.
pub(crate) fn add_node(waiting: &mut [u8], height: usize, k: u64, node: [u8; 32])
    requires { (length waiting.old ≡ 1024) × (height ≤ 31) × (k < 2 ^ (31 - height)) }
    ensures { waiting.new ≡ with_node (32 - height) height k node waiting.old }
{
    if k % 2 == 0 {
        put_array(waiting, 32 * height, node);
        return;
    }
    let left = array_at(waiting, 32 * height);
    add_node(waiting, height + 1, k / 2, node_hash(join(left, node)));
}
