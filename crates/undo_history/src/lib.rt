//! The undo history of a project: points, each with a tag, of which one is current.
//!
//! It is the model's history (`pcm_base`, `specs/History.antt`), as the Audacity manual's chapter on undo history has
//! it: an edit drops what could be redone, undo and redo move the current point, a purge drops the oldest points.
//! What a point is, is up to the caller.
#![tactic(auto)]

mod history;

pub use history::History;
