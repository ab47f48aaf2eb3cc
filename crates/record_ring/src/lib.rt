//! A ring for the chunks of a recording, from the thread of the microphone to that of the track, on `rtrb`.
//!
//! No call but `ring` takes memory, and none waits. A chunk is copied once into the ring and once out of it.
#![tactic(auto)]

mod ends;

pub use ends::{RING_CHUNKS, RecordIn, RecordOut, Recording, ring};
