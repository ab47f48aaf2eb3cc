//! How often each block is named by lists that share rows: counts of occurrences by id, at a step for each shared row.
#![tactic(auto)]

mod edges;
mod ids;
mod laying;
mod likes;
mod row;
mod row_ledger;
mod table;

pub use row_ledger::RowLedger;
