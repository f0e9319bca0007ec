// The inner nodes of a deal's tree, kept in a lent buffer beside it: heights from the bottom, left to right.
#![tactic(auto)]

mod nodes; // nodes.rt: where the nodes stand
mod above; // above.rt: a row written from the row below it
mod renewal; // renewal.rt: filling the buffer, and bringing it up to date

pub use above::fill_row;
pub use nodes::node_in;
pub use renewal::{fill, renew};
