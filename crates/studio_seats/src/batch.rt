// The samples of several chunks, put together.
ghost use Rattle.std.specs.Prelude.{◌≡◌, ◌<◌, ◌≤◌, true, false, length, take};
ghost use Rattle.edit_ports.specs.Answers.{samples_of};
ghost use Rattle.pcm_base.specs.Recordings.{pieces_in as pieces_of_many, pieces_of};

use pcm_base::{BATCH_SAMPLES, CHUNK_SAMPLES, Chunk};

/// How many pieces this many samples are.
pub(crate) fn pieces_in(samples: usize) -> usize
    ensures { result ≡ pieces_of_many samples }
{
    samples.saturating_sub(1) / CHUNK_SAMPLES + 1
}

// Whether samples that come after this many whole chunks are none: then they are no piece.
fn ends_before(count: usize, samples: &[i16]) -> bool
    ensures some { result ≡ true → 0 < count }
    ensures none { result ≡ false → 0 < count → 0 < length samples.now }
{
    count > 0 && samples.is_empty()
}

/// Puts the samples of the first of these chunks together, of this many at most, and says how many samples they are. One
/// that is shorter than others ends them.
pub(crate) fn join_chunks(chunks: &[Chunk], most: usize, batch: &mut [i16; BATCH_SAMPLES]) -> usize
    requires some { (0 < length chunks.now) × (0 < most) }
    requires few { most ≤ 64 }
    ensures wide { length batch.new ≡ BATCH_SAMPLES }
    ensures bound { result ≤ BATCH_SAMPLES }
    ensures pieces { pieces_of (take result batch.new) ≡ take (pieces_of_many result) (samples_of chunks.now) }
    ensures known { pieces_of_many result ≤ length chunks.now }
    ensures few { pieces_of_many result ≤ most }
{
    let all = most.min(chunks.len());
    let mut count = 0;
    'chunks: while count < all {
        let samples = chunks[count].as_slice();
        let from = count * CHUNK_SAMPLES;
        if ends_before(count, samples) {
            return from;
        }
        let end = from + samples.len();
        batch[from..end].copy_from_slice(samples);
        if samples.len() < CHUNK_SAMPLES {
            return end;
        }
        count += 1;
    }
    count * CHUNK_SAMPLES
}
