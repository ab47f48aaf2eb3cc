//! An import: a new track for each channel of a sound, in one commit.
//!
//! The code is in `editor_core`, but for the type of the project that grows.
#![tactic(auto)]

mod growing;

pub use growing::Growing;
