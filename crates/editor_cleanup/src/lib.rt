//! Reclaim and compact: which files they remove, and what they leave.
//!
//! The code is in `editor_core`.
#![tactic(auto)]
