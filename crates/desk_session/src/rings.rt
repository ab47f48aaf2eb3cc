// The rings between the threads.
ghost use Rattle.std.specs.Prelude.{◌≡◌, is_some, IfOk};

use super::opening::Beside;
use pcm_base::NoMemory;
use session_threads::{PlayRing, RecordRing};
use std::alloc::Global;

/// A ring for a recording and one for a playback, where they are asked for.
#[derive(Drop)]
pub struct Rings {
    pub record: Option<RecordRing>,
    pub play: Option<PlayRing>,
}

fn record_ring(alloc: Global, records: bool) -> Result<Option<RecordRing>, NoMemory>
    ensures { IfOk result (λ ring. is_some ring ≡ records) }
{
    if records {
        Ok(Some(RecordRing::new(alloc)?))
    } else {
        Ok(None)
    }
}

fn play_ring(alloc: Global, plays: bool) -> Result<Option<PlayRing>, NoMemory>
    ensures { IfOk result (λ ring. is_some ring ≡ plays) }
{
    if plays {
        Ok(Some(PlayRing::new(alloc)?))
    } else {
        Ok(None)
    }
}

impl Rings {
    /// Takes the memory for them.
    ///
    /// # Errors
    ///
    /// Where there is none.
    pub fn new(alloc: Global, beside: Beside) -> Result<Rings, NoMemory>
        ensures { IfOk result (λ r. (is_some r.record ≡ beside.records) × (is_some r.play ≡ beside.plays)) }
    {
        let record = record_ring(alloc, beside.records)?;
        let play = play_ring(alloc, beside.plays)?;
        Ok(Rings { record, play })
    }
}
