// The bytes of up to sixteen nodes, written to a run. The words are put in order first, and then written one after the
// other: a compiler then moves whole words.
ghost use Rattle.std.specs.Prelude.{◌≡◌, ◌+◌, ◌*◌, ◌≤◌, length};
ghost use Rattle.octets.specs.Splice.{splice};
ghost use Rattle.lanes.specs.Lanes.{lanes};
ghost use Rattle.lanes.specs.NodeWords.{lane_by_lane, word_bytes, lane_bytes};

use crate::lane::lane_of;
use crate::load::put_words;

// The words of all lanes, one lane after the other.
fn lane_by_lane(nodes: [u32; 128]) -> [u32; 128]
    ensures { result ≡ lane_by_lane nodes }
{
    let mut words = [0u32; 128];
    for l in 0..16 {
        put_words(&mut words, l, lane_of(&nodes, l));
    }
    words
}

// Writes the nodes of the first `count` lanes into a run, side by side from a place on.
pub fn store_nodes(nodes: [u32; 128], count: usize, run: &mut [u8], at: usize)
    requires { (count ≤ lanes) × (at + 32 * count ≤ length run.old) }
    ensures { run.new ≡ splice run.old at (lane_bytes nodes count) }
{
    let words = lane_by_lane(nodes);
    for i in 0..8 * count {
        octets::put_array(run, at + 4 * i, words[i].to_be_bytes());
    }
}
