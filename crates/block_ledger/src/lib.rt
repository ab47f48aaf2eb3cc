//! How often each block is named: counts of occurrences by id.
//!
//! A block's file may be removed once nothing names it. The ledger keeps a count for each block that has a file, 0
//! among them, so that the blocks to remove are known without a walk over the project.
#![tactic(auto)]

mod entry;
mod ledger;
mod tree;

pub use ledger::Ledger;
