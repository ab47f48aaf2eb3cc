//! A ring for the frames of a mix, from the thread that reads the project to that of the speaker, on `rtrb`.
//!
//! No call but `ring` takes memory, and none waits. A frame is copied once into the ring and once out of it.
#![tactic(auto)]

mod ends;

pub use ends::{Item, PlayIn, PlayOut, Playing, RING_ITEMS, Taken, ring};
