//! Views, pins and exports: calls that write no block and no record.
//!
//! The code is in `editor_core`.
#![tactic(auto)]
