// A part of a recording, as it goes from the microphone to the track.
ghost use Rattle.std.specs.Prelude.{◌≡◌, ◌<◌, ◌≤◌, ◌↔◌, ◌^◌, length, IsTrue};
ghost use Rattle.pcm_base.specs.Recordings.{numbered_part};

use std::marker::Model;

/// How many samples a chunk has at most.
pub const CHUNK_SAMPLES: usize = 256;

/// How many samples of a recording one call adds to a track at most: those of 64 chunks.
pub const BATCH_SAMPLES: usize = 16_384;

/// Up to 256 samples of 16 bits with their chunk's number in a recording, counted from 0. A chunk with no samples is
/// the end mark. Contracts see the number and the list of the samples.
#[derive(Clone, Copy)]
pub struct Chunk {
    number: u32,
    count: usize,
    samples: [i16; CHUNK_SAMPLES],
}

impl Model for Chunk {
    ghost use Rattle.std.specs.Prelude.{take, length};
    ghost use Rattle.pcm_base.specs.Parts.{Part, IsFilled, filled, filled-take, count-take};

    ghost Value = { Part };

    ghost view = { λ c. record { number = c.number; samples = take c.count c.samples } };

    ghost invariant = { λ c. IsFilled c.count c.samples };

    ghost inverse = { λ v. record { number = v.number; count = length v.samples; samples = filled v.samples } };

    ghost inverse_ok = { λ a h i. record {
      number = a.number;
      count = (count-take a.count a.samples h) i;
      samples = (filled-take a.count a.samples h) i;
    } };
}

impl Chunk {
    /// A chunk of these samples. Of none it is the end mark.
    pub fn new(number: u32, samples: &[i16]) -> Chunk
        requires { length samples.now ≤ CHUNK_SAMPLES }
        ensures { result ≡ numbered_part number samples.now }
    {
        let mut all = [0i16; CHUNK_SAMPLES];
        let count = samples.len();
        all[..count].copy_from_slice(samples);
        Chunk {
            number,
            count,
            samples: all,
        }
    }

    /// Whether it is the end mark.
    pub fn is_end(&self) -> bool
        ensures end { IsTrue result ↔ (length self.now.samples ≡ 0) }
        ensures bound { self.now.number < 2 ^ 32 }
    {
        let _number = self.number;
        self.count == 0
    }

    /// Its samples, from 0 to 256.
    pub fn as_slice(&self) -> &[i16]
        ensures samples { result.now ≡ self.now.samples }
        ensures bound { length self.now.samples ≤ CHUNK_SAMPLES }
    {
        &self.samples[..self.count]
    }
}
