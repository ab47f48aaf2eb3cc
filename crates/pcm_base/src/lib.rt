//! The types that the crates of the editor share, its exact arithmetic on samples, and in `specs/` the model
//! that every editor is proved against: cells and tracks, the edits, the history, the state, and the step.
//!
//! The layers above use the types, the three formulas and the definitions. No state is kept here and nothing
//! is carried out: what does that is `editor_core`.
#![tactic(auto)]

mod answer;
mod arithmetic;
mod block;
mod chunk;
mod command;
mod edits;
mod entry;
mod failed;
mod limits;
mod lists;
mod name;
mod piece;
mod refusal;
mod said;
mod sound;
mod wav;

pub use answer::{Answer, Reply};
pub use arithmetic::{clamped, isqrt, scaled};
pub use block::BlockRef;
pub use chunk::{BATCH_SAMPLES, CHUNK_SAMPLES, Chunk};
pub use command::{Call, Command};
pub use edits::{Placing, RangeEdit, Removing};
pub use entry::{Entry, Event, SoundMove};
pub use failed::{Failed, NoMemory};
pub use limits::{
    COUNTER_LIMIT, FIRST_BLOCK, FIRST_RECORD, LEAST_END, LONGEST_BODY, MAX_BLOCK_SAMPLES,
    MAX_CELLS, MAX_DEPTH, MAX_GAIN, MAX_LOADED, MAX_RAMP, MAX_TRACKS, MAX_VIEW, OLD_DEPTH,
    SAMPLE_WIDTH, UNITY_GAIN,
};
pub use lists::{
    Bytes, CellList, Columns, Frames, Items, LoadedTrack, LoadedTracks, Numbers, Samples,
    TrackLines,
};
pub use name::Name;
pub use piece::Piece;
pub use refusal::Refusal;
pub use said::Said;
pub use sound::{Cell, Frame, Scan, Side, TrackLine};
pub use wav::WavFault;
