// The node hash: SHA-256 of the 64 bytes of two nodes, with the two high bits of its last byte cleared.
#![tactic(auto)]

mod padding_block; // padding_block.rt: the second block, which is always the same

ghost use Rattle.std.specs.Prelude.{◌≡◌};
ghost use Rattle.node.specs.Node.{node_hash};

pub use padding_block::padding_sums;
use sha256::{INITIAL, block_at, compress, digest};

// The node over two nodes, whose bytes are given one after the other.
pub fn node_hash(pair: [u8; 64]) -> [u8; 32]
    ensures { result ≡ node_hash pair }
{
    let mut node = digest(padding_block::finish(compress(INITIAL, block_at(&pair, 0))));
    node[31] %= 64;
    node
}
