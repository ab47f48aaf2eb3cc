//! The core of the editor over a disk: one call of a `Studio` is one step of the model, and at every moment of the call
//! a stop of the machine leaves the project of before or of after.
#![tactic(auto)]

mod apply;
mod assembly;
mod bodies;
mod buffers;
mod carrying;
mod clipboards;
mod commits;
mod compacts;
mod copies;
mod counts;
mod current;
mod cuts;
mod edits;
mod envelopes;
mod events;
mod exports;
mod facts;
mod growth;
mod imports;
mod inserts;
mod laying;
mod limits;
mod listing;
mod loads;
mod makes;
mod mixes;
mod moves;
mod pastes;
mod pinned;
mod pins;
mod plain;
mod planning;
mod points;
mod ranges;
mod reclaims;
mod recording;
mod scans;
mod shows;
mod studio;
mod taking;
mod texts;
mod views;

pub use assembly::Parts;
pub use editor_tracks::RunRange;
pub use facts::Facts;
pub use inserts::Tried;
pub use studio::Studio;
