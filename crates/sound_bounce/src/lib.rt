//! The mix of a pinned project, written to a vault while others have turns.
//!
//! The layer above uses one contract: after `bounce` the sound of the name is the file of the mix of the project that
//! was current where its pin was made, for every number of frames that a turn loads, and whatever others do between its
//! turns. After an error the sound is as it was, or holds the first bytes of that file.
#![tactic(auto)]

mod beside;
mod buffers;
mod laws;
mod snapshot;
mod stretches;
mod task;

pub use laws::bounces_tell;
pub use snapshot::bounce;
pub use task::Task;
