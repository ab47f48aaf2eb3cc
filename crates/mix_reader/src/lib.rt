//! Frames of the mix of a project's tracks, over any store.
//!
//! The layers above use three contracts. `read_frames` gives the frames of the mix from a place on: of what stands in
//! the files of the tracks' blocks, and where all blocks are whole, of the model's mix of what the tracks mean. A
//! `MixReader` gives them over several reads, each from where the one before ended, and compares the header of a block
//! once. `mix_len` says how many frames there are. None of these takes memory.
#![tactic(auto)]

mod frames;
mod loads;
mod passes;
mod plans;
mod reader;
mod stretches;
mod tracks;

pub use frames::read_frames;
pub use loads::{LoadFault, load_stretch};
pub use reader::MixReader;
pub use tracks::mix_len;
