//! Edits of tracks as plans: what a track's layout becomes, which blocks it keeps, and which new ones are to be
//! written, of which pieces.
//!
//! The layers above use the clauses `cells`, by which a plan's layout means the model's edit of what the old layout
//! meant, `plan`, which says what the new blocks are and where they come from, and `tests`, which says when an edit
//! is refused. Nothing is read or written here, and no argument is changed.
#![tactic(auto)]

mod changing;
mod joins;
mod laying;
mod one_track;
mod placing;
mod planner;
mod planning;
mod plans;
mod putting;
mod refusals;
mod removing;
mod run_refusals;
mod runs;
mod strips;
mod types;
mod windows;

pub use one_track::{edit_range, insert};
pub use planner::{Planner, RunPlanner};
pub use runs::{copy, cut_range, paste};
pub use types::{NewBlock, NewBlocks, Plan, Plans, Strips};
