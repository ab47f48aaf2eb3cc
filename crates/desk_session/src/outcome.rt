// What a session tells of its script, of its recording and of its playback.
use pcm_base::{Numbers, Refusal};
use recorder_threads::MicEnd;
use script_reader::Stop;

/// What a script did.
#[derive(Drop)]
pub struct ScriptOutcome {
    /// What stopped it.
    pub stop: Stop,
    /// Whether a line was refused.
    pub refused: bool,
    /// The numbers of its commits, rising.
    pub commits: Numbers,
}

/// What a recording did that had its track.
#[derive(Drop)]
pub struct RecordOutcome {
    /// What ended the microphone.
    pub end: MicEnd,
    /// The commit numbers of the pieces, rising.
    pub numbers: Numbers,
    /// How many samples the pieces have together.
    pub samples: u64,
    /// Why the first piece that was not committed was refused.
    pub refused: Option<Refusal>,
}

/// What a playback did that had its pin.
#[derive(Drop)]
pub struct PlayOutcome {
    /// Why a read of the pin was refused.
    pub refused: Option<Refusal>,
    /// How many frames were written whole.
    pub frames: u64,
    /// Whether the speaker failed.
    pub fault: bool,
}

/// What a session did.
#[derive(Drop)]
pub struct Report {
    pub told: ScriptOutcome,
    /// Of a recording that had its track.
    pub kept: Option<RecordOutcome>,
    /// Of a playback that had its pin.
    pub heard: Option<PlayOutcome>,
}
