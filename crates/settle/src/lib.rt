// Settling two records, or a record with a deal, with a tree beside it or without one.
#![tactic(auto)]

mod records; // records.rt: two records
mod strings; // strings.rt: strings compared
mod with_deal; // with_deal.rt: a record with a deal, with a tree beside it or without one

pub use records::settle_records;
pub use with_deal::{settle_with_deal, settle_with_tree};
