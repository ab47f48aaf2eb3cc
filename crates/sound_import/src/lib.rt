//! The front of an import: a sound of a vault is found, and its samples are brought to those who make blocks.
//!
//! The layer above uses two things. `find_sound` answers where the samples are, at the rate that is wanted, or the
//! reason that the model has for the sound. `SoundReader` brings them to `block_writer` a buffer at a time. The vault
//! is read only, and no memory is taken.
#![tactic(auto)]

mod fault;
mod find;
mod reader;

pub use fault::ImportFault;
pub use find::find_sound;
pub use reader::SoundReader;
