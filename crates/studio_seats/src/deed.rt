// What one turn adds to the list of a desk.
use pcm_base::{Call, Refusal, Reply, SoundMove};

/// What a seat did in one turn: its number, what it asked for, the reply or why there is none, and what became of the
/// sound that a line names. Contracts alone speak of deeds, and no value is made.
pub struct Deed {
    pub actor: u64,
    pub call: Call,
    pub what: Result<Reply, Refusal>,
    pub sound: SoundMove,
}
