//! The mix of a loaded stretch, made in threads.
//!
//! The frames are the model's, however the stretch is cut and however many threads there are. A thread calls `mix_part`
//! of `mixdown`, which knows of no thread.
#![tactic(auto)]

mod cut;
mod threads;

pub use cut::mix_cut;
pub use threads::{mix_loaded, mix_par};
