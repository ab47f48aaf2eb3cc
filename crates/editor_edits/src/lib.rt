//! An edit that makes blocks, as one step: from its plan to its commit, or to what refuses it.
//!
//! The code is in `editor_core`. All of this crate is in `proofs/`.
#![tactic(auto)]
