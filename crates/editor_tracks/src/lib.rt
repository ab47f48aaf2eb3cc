//! Edits of tracks: of a range, of samples that are put in, and of a run of tracks that is copied, cut or pasted.
//!
//! The code is in `editor_core`, but for two types that the definitions name.
#![tactic(auto)]

mod place;
mod run_range;

pub use place::Place;
pub use run_range::RunRange;
