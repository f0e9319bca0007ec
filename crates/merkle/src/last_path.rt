// The commitment of a run together with the path of its last node: the hashes of the commitment give both.
ghost use Rattle.std.specs.Prelude.{◌≡◌, List, ℕ, ◌+◌, ◌*◌, ◌^◌, ◌≤◌, ◌<◌, length};
ghost use Rattle.octets.specs.Bytes.{Bytes};
ghost use Rattle.octets.specs.Splice.{part, splice};
ghost use Rattle.lanes.specs.Lanes.{lanes};
ghost use Rattle.lanes.specs.NodeWords.{Holds};
ghost use Rattle.merkle.specs.Tree.{commitment_of, node_over};
ghost use Rattle.merkle.specs.LastPath.{last_path, path_over};

use crate::tree::{lane_roots, level_above};
use lanes::node_of_lane;
use octets::put_array;

// What `lane_roots` gives, and the path of the last part's last node.
fn lane_roots_with_path(
    run: &[u8],
    step: usize,
    at: usize,
    size: usize,
    height: usize,
    path: &mut [u8],
) -> [u32; 128]
    requires { (size ≡ 32 * 2 ^ height) × (at + size + 15 * step ≤ length run.now)
        × (32 * height ≤ length path.old) }
    ensures by_index { (l : ℕ) → l < lanes
        → Holds result l (commitment_of height (part run.now (at + l * step) size)) }
    ensures path_after { path.new
        ≡ splice path.old 0 (last_path height (part run.now (at + 15 * step) size)) }
{
    if height == 0 {
        return lanes::load_nodes(run, step, at, 16);
    }
    let half = size / 2;
    let left = lane_roots(run, step, at, half, height - 1);
    let right = lane_roots_with_path(run, step, at + half, half, height - 1, path);
    put_array(path, 32 * (height - 1), node_of_lane(left, 15));
    lanes::hash_nodes(left, right, 16)
}

// The node over the nodes in the first `count` lanes, 2^levels, and the path of the last of them, written from the
// place of a height on.
fn over_lanes(
    nodes: [u32; 128],
    count: usize,
    levels: usize,
    height: usize,
    path: &mut [u8],
) -> [u8; 32]
    requires { (count ≡ 2 ^ levels) × (levels ≤ 4) × (32 * (height + levels) ≤ length path.old) }
    ensures { (x : ℕ → List ℕ) → ((l : ℕ) → l < count → Holds nodes l (x l) × Bytes (x l))
        → (result ≡ node_over levels x)
        × (path.new ≡ splice path.old (32 * height) (path_over levels x)) }
{
    if levels == 0 {
        return node_of_lane(nodes, 0);
    }
    put_array(path, 32 * height, node_of_lane(nodes, count - 2));
    over_lanes(
        level_above(nodes, count / 2),
        count / 2,
        levels - 1,
        height + 1,
        path,
    )
}

// The commitment of a run of 2^height nodes, at least sixteen; the path of its last node is written.
pub fn root_with_last_path(run: &[u8], height: usize, path: &mut [u8]) -> [u8; 32]
    requires { (length run.now ≡ 32 * 2 ^ height) × (4 ≤ height) × (32 * height ≤ length path.old) }
    ensures { (result ≡ commitment_of height run.now)
        × (path.new ≡ splice path.old 0 (last_path height run.now)) }
{
    let step = run.len() / 16;
    let nodes = lane_roots_with_path(run, step, 0, step, height - 4, path);
    over_lanes(nodes, 16, 4, height - 4, path)
}
