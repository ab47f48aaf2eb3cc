//! Laws of the model: what holds of every state that it reaches.
//!
//! The model itself stands in `pcm_base`, in `specs/`. Here its bounds are one predicate (`specs/Bounds.antt`), which
//! the fresh studio has and each step keeps (`specs/Laws.antt`). A law is the contract of a function that does nothing;
//! the lemmas after it, on the model's definitions, are public, for the crates that need them too.
#![tactic(auto)]

mod laws;

pub use laws::{
    batches_are_pieces, carrying_out_is_bounded, commits_are_counted, fresh_is_bounded,
    runs_are_bounded, steps_are_bounded,
};
