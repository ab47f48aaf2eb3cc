//! Commits: their records, and the studio that they lead to.
//!
//! These are the laws of `undo`, `redo` and the purges, of edits that make no blocks, and of any commit's record. The
//! code is in `editor_core`, but for the type of edits that make no blocks.
#![tactic(auto)]

mod plain_edit;

pub use plain_edit::PlainEdit;
