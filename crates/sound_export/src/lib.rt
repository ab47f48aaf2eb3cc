//! The mix of a project's tracks, written to a vault as a WAV file, a stretch at a time.
//!
//! The layer above uses one contract: after `write_mix` the sound of the name is the file of the mix of what stands in
//! the files of the tracks' blocks, which is the model's mix where all of these are whole. After an error the sound is
//! as it was, or holds the first bytes of that file. No memory is taken: the buffers are handed in.
#![tactic(auto)]

mod buffers;
mod export;
mod fault;
mod stretch;

pub use buffers::MixBuffers;
pub use export::write_mix;
pub use fault::ExportFault;
