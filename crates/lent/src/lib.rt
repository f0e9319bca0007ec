// A lent deal, with a tree beside it or without one: the refusals that routines over it start with, its nodes, its
// Merkle paths, filling the tree, and bringing it up to date.
#![tactic(auto)]

mod comparing; // comparing.rt: a path compared with the deal's own pairs of nodes
mod filling; // filling.rt: filling the tree, and bringing it up to date
mod nodes; // nodes.rt: the nodes of the deal
mod own_paths; // own_paths.rt: the deal's own Merkle paths
mod opening; // opening.rt: the refusals that routines over a lent deal start with

ghost use Rattle.std.specs.Prelude.{option_map};
ghost use Rattle.lent.specs.LentDeal.{lent_of};
ghost use Rattle.lent.specs.Usable.{Usable};

pub use filling::{fill_tree, renew_tree};
pub use opening::tree_sized;

// A deal whose nodes may be looked up: its size is allowed, and a tree beside it has the length that it asks. With a
// tree the inner nodes are taken as they stand there, without one they are worked out from the deal's bytes.
#[derive(Clone, Copy, Drop)]
pub struct Lent<'d, 't> {
    pub bytes: &'d [u8],
    pub tree: Option<&'t [u8]>,
    pub ghost usable: { Usable (lent_of bytes.now (option_map (λ t. t.now) tree)) },
}

// A node of the deal's tree on a level: its position there, and its bytes.
#[derive(Clone, Copy, Drop)]
pub struct PathNode {
    pub position: usize,
    pub node: [u8; 32],
}
