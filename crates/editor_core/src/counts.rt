// How many samples each channel of a sound has.
ghost use Rattle.std.specs.Prelude.{◌≡◌, IfOk, replicate};
ghost use Rattle.pcm_base.specs.Refusals.{length_limit};

use pcm_base::{MAX_CELLS, NoMemory, Refusal};
use std::alloc::Global;
use wav_pcm::WavHead;

// How many samples each channel has: one of each frame.
pub(crate) fn counts_of(alloc: Global, head: &WavHead) -> Result<Vec<u64>, NoMemory>
    ensures { IfOk result (λ v. v.items ≡ replicate head.now.channels head.now.frames) }
{
    let mut counts = Vec::with_capacity(alloc, usize::from(head.channels))?;
    for _ in 0..head.channels {
        counts.push(head.frames)?;
    }
    Ok(counts)
}

// The first number of samples that is more than a track may have cells.
pub(crate) fn length_refusal(counts: &[u64]) -> Option<Refusal>
    ensures { result ≡ length_limit counts.now }
{
    for count in counts {
        let len = *count;
        if len > MAX_CELLS {
            return Some(Refusal::LengthLimit { len });
        }
    }
    None
}
