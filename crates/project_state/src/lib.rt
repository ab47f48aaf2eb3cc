//! A point of the history, which is a project whose tracks hold references to blocks.
//!
//! The layers above use `Point` as a list of tracks with rising ids. No sample is held here. `specs/Meaning.antt` says
//! which project the tracks are, by the samples of their blocks.
#![tactic(auto)]

mod point;
mod track;

pub use point::Point;
pub use track::Track;
