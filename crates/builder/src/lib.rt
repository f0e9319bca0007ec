// Building an inclusion record.
#![tactic(auto)]

mod building;
mod writing;

pub use building::{build, build_with_tree};
