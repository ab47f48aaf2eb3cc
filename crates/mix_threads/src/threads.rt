// The frames of a loaded stretch.
ghost use Rattle.std.specs.Prelude.{◌≡◌, ◌≤◌, ◌<◌, ◌+◌, ◌*◌, ℕ, length, map, IfOk};
ghost use Rattle.pcm_base.specs.Arithmetic.{counted_from};
ghost use Rattle.pcm_base.specs.Cells.{Project};
ghost use Rattle.pcm_base.specs.Mix.{frame_at};
ghost use Rattle.mixdown.specs.Loads.{IsLoaded, Shows, loaded_tracks};

use super::cut::mix_cut;
use mixdown::Loaded;
use pcm_base::{Frame, NoMemory};
use rayon::current_num_threads;
use std::alloc::Global;
use std::thread::Threads;

/// How many samples a part has at least, or about as many, so that the start of a thread is small beside it.
const PART_SAMPLES: usize = 524_288;

/// How many frames a part has: so many that it has enough samples, and that no processor has two parts.
fn part_len(rt: &impl Threads, samples: usize, frames: usize) -> usize
    ensures { 0 < result }
{
    let parts = (samples / PART_SAMPLES).min(current_num_threads(rt)).max(1);
    frames.div_ceil(parts).max(1)
}

/// The mix of a loaded stretch, written to as many frames as it has. A stretch of few samples is mixed in one part and
/// starts no thread. Any other is cut into at most one part for each processor. It takes no memory but what a thread
/// takes.
pub fn mix_loaded(rt: &(impl Threads + Sync), loaded: &Loaded, out: &mut [Frame])
    requires loaded { IsLoaded loaded.now }
    requires room { length out.old ≡ loaded.now.len }
    ensures frames { out.new ≡ map (frame_at (loaded_tracks loaded.now)) (counted_from 0 loaded.now.len) }
    // Where it shows a project from a place on these are the project's frames from there on.
    ensures heard { (from : ℕ) (p : Project) → Shows from p loaded.now
        → out.new ≡ map (frame_at p) (counted_from from loaded.now.len) }
{
    mix_tracks(rt, loaded, out);
}

/// The frames of [`mix_loaded`].
fn mix_tracks(rt: &(impl Threads + Sync), loaded: &Loaded, out: &mut [Frame])
    requires loaded { IsLoaded loaded.now }
    requires room { length out.old ≡ loaded.now.len }
    ensures { out.new ≡ map (frame_at (loaded_tracks loaded.now)) (counted_from 0 loaded.now.len) }
{
    let count = loaded.gains.len() * loaded.len;
    let samples = &loaded.samples.as_slice()[..count];
    let size = part_len(rt, count, loaded.len);
    mix_cut(
        rt,
        samples,
        loaded.gains.as_slice(),
        loaded.sides.as_slice(),
        size,
        out,
    );
}

/// The mix of a loaded stretch. The memory for the frames is asked for before any thread starts.
pub fn mix_par(
    rt: &(impl Threads + Sync),
    alloc: Global,
    loaded: &Loaded,
) -> Result<Vec<Frame>, NoMemory>
    requires { IsLoaded loaded.now }
    ensures frames { IfOk result (λ v. v.items
        ≡ map (frame_at (loaded_tracks loaded.now)) (counted_from 0 loaded.now.len)) }
    ensures heard { (from : ℕ) (p : Project) → Shows from p loaded.now
        → IfOk result (λ v. v.items ≡ map (frame_at p) (counted_from from loaded.now.len)) }
{
    let silence = Frame { left: 0, right: 0 };
    let mut frames = vec![in alloc; silence; loaded.len]?;
    mix_loaded(rt, loaded, frames.as_mut_slice());
    Ok(frames)
}
