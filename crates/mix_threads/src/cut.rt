// A mix that is cut into parts.
ghost use Rattle.std.specs.Prelude.{◌≡◌, ◌≤◌, ◌<◌, ◌+◌, ◌*◌, length, map};
ghost use Rattle.pcm_base.specs.declared.limits.TheConstants.{MAX_TRACKS};
ghost use Rattle.pcm_base.specs.Arithmetic.{counted_from};
ghost use Rattle.pcm_base.specs.Mix.{frame_at};
ghost use Rattle.mixdown.specs.Laid.{laid};

use mixdown::mix_part;
use pcm_base::{Frame, Side};
use rayon::prelude::*;
use std::thread::Threads;

/// The mix of stretches, as `mix_into` makes it, in parts of `size` frames. `rayon` shares them among at most two
/// threads for each processor and 64 in all. The mix is the same for every size. A mix of one part starts no thread.
pub fn mix_cut(
    rt: &(impl Threads + Sync),
    stretches: &[i16],
    gains: &[u32],
    sides: &[Side],
    size: usize,
    out: &mut [Frame],
)
    requires few { length gains.now ≤ MAX_TRACKS }
    requires sides { length sides.now ≡ length gains.now }
    requires stretches { length stretches.now ≡ length gains.now * length out.old }
    requires size { 0 < size }
    ensures { out.new ≡ map (frame_at (laid (length out.old) stretches.now gains.now sides.now))
        (counted_from 0 (length out.old)) }
{
    let len = out.len();
    par_chunks_mut_for_each(
        rt,
        out,
        size,
        |at: usize, part: &mut [Frame]|
            requires few { length gains.now ≤ MAX_TRACKS }
            requires sides { length sides.now ≡ length gains.now }
            requires stretches { length stretches.now ≡ length gains.now * len }
            requires within { at + length part.old ≤ len }
            ensures { part.new ≡ map (frame_at (laid len stretches.entry.now gains.entry.now sides.entry.now))
                (counted_from at (length part.old)) }
        {
            mix_part(stretches, gains, sides, len, at, part);
        },
    );
}
