//! The threads of a session: a script beside a recording and a playback, each of which may be there or not.
//!
//! `run_beside` runs them at once, over any editor, taker of pieces and giver of frames; with neither sound it runs the
//! script alone, and no thread is started. `record_track` and `play_mix` run the two threads of a recording or of a
//! playback, and `record_and_play` those of both. `LentSource` and `LentSink` are a source and a sink that were lent,
//! for those which cannot be dropped.
#![tactic(auto)]

mod beside;
mod lent;
mod lines;
mod play;
mod playback;
mod record;
mod recording;

pub use beside::{record_and_play, run_beside};
pub use lent::{LentSink, LentSource, take_back};
pub use lines::{Lines, Streams};
pub use play::{Played, play_mix};
pub use playback::{PlayRing, Playback};
pub use record::{Recorded, record_track};
pub use recording::{RecordRing, Recording};
