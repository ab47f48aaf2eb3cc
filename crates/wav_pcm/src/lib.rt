//! WAV files: RIFF WAVE with PCM of 16 bits, read with 1 to 8 channels, and written with two.
//!
//! The layer above uses two contracts. `read` answers what the grammar of the format says of the bytes, or which of
//! its ten reasons refuses them (`wav_of`), and `write` gives the one text of frames (`wav_text`), which is read back.
//! `write_head` and `write_frames` give the same text in parts. `head` and `channel` read a sound of a vault in parts,
//! and `start_wav` and `append_frames` write one: they say the same of its bytes, and take no memory.
#![tactic(auto)]

mod bad;
mod buffers;
mod bytes;
mod channels;
mod chunks;
mod fault;
mod format;
mod heads;
mod interleaved;
mod parts;
mod reading;
mod shape;
mod stereo;
mod wav;
mod writing;

pub use bad::{BadFrames, BadWav};
pub use buffers::{append_buffer, append_frames, start_wav, write_start};
pub use channels::{ChannelOf, channel, read_channel};
pub use fault::SoundFault;
pub use heads::{WavHead, head, sound_head};
pub use reading::read;
pub use wav::{Channels, Wav};
pub use writing::{MAX_FRAMES, write, write_frames, write_head};
