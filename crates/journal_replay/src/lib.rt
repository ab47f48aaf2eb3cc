//! What the records of a journal lead to: a history of points and the numbers that never fall, or the first fault among
//! the records, in the order of the file.
//!
//! The layer above uses `fold_journal`: Ok exactly where no record has a fault and the file does not end too early,
//! with the project to which the records lead; else the first fault, with its place, the value that is asked for and
//! the one that is there. Each record is read from the disk as it is folded.
#![tactic(auto)]

mod folding;
mod heading;
mod laws;
mod project;
mod reading;
mod steps;

pub use folding::{fold_journal, version_in};
pub use laws::records_that_lead_have_no_fault;
pub use project::Project;
