//! The new blocks of an edit: written one after another, then synced, and what is left where a fault breaks that off.
//!
//! The code is in `editor_core`. All of this crate is in `proofs/`.
#![tactic(auto)]
