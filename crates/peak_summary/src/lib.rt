//! Peak summaries of 16-bit sound: the least and the greatest sample, the sum of the squares, and how many
//! samples there are, of a stretch of any length and of each frame of a block, so that a picture of the sound
//! can be drawn without reading it.
//!
//! The layer above uses two contracts: a summary is the fold over its samples, and joining the summaries of two
//! stretches that follow one another gives the summary of both. A frame is the summary of its stretch. Nothing
//! is read or written here, and no level of frames is kept: the caller does that.
#![tactic(auto)]

mod frames;
mod squares;
mod stretch;

pub use frames::{fill_long, frame, frames256, frames65536};
pub use stretch::{NOTHING, Summary, all_fit, join, of};
