// The next stretch is loaded while this one is mixed.
ghost use Rattle.std.specs.Prelude.{◌≡◌, ◌≤◌, ◌<◌, ◌+◌, ◌*◌, ◌^◌, length, take, IsTrue, MatchResult};
ghost use Rattle.std.specs.Thread.{IsSync};
ghost use Rattle.pcm_base.specs.declared.limits.TheConstants.{MAX_LOADED};
ghost use Rattle.mixdown.specs.Loads.{IsLoaded};
ghost use Rattle.pin_turn.specs.Calls.{known};
ghost use Rattle.wav_pcm.specs.Written.{IsThere};
ghost use Rattle.studio_seats.specs.Desks.{IsAt, views};
ghost use Rattle.sound_bounce.specs.Bounces.{HasRoom, StepDone, loaded_frames, moved};

use super::buffers::Buffers;
use super::stretches::{append_held, load_stretch, mix_front};
use super::task::{Step, Task};
use disk_model::Store;
use edit_ports::Vault;
use mixdown::Loaded;
use pcm_base::{Failed, Refusal};
use std::sync::Wait;
use std::thread::{Threads, join_mut};
use studio_seats::DeskSeat;

/// Mixes what is loaded in another thread. Meanwhile this one appends what was mixed before, and loads the next frames
/// of the pin. If the vault fails, nothing is loaded. A thread may be sent what is known to be `Send`, and that is not
/// known of the disk and the vault. No rule of the borrow checker covers the join where the desk and the seat have two
/// lifetimes.
pub(crate) fn mix_and_load<'a, R: Threads + Wait + Sync, S: Store, V: Vault>(
    task: &'a Task<R, S, V>,
    seat: &'a mut DeskSeat<S, V>,
    vault: &mut V,
    step: Step,
    next: &mut Loaded,
    buffers: &mut Buffers,
) -> Result<Result<(), Refusal>, Failed>
    requires seat { IsAt task.now.desk.now seat.old }
    requires batch { step.loads.batch ≤ MAX_LOADED }
    requires few { step.loads.from + step.loads.batch < 2 ^ 64 }
    requires loaded { IsLoaded step.mixes.now }
    requires fits { step.mixes.now.len ≤ step.loads.batch }
    requires held { step.held ≤ step.loads.batch }
    requires room { HasRoom step.loads.batch buffers.old }
    requires there { IsTrue (V.tells vault.old) → IsThere (V.holds vault.old task.now.name.now) }
    ensures same { IsAt task.now.desk.now seat.new }
    ensures room { HasRoom step.entry.loads.batch buffers.new }
    ensures mixed { take step.entry.mixes.now.len buffers.new.frames.items ≡ loaded_frames step.entry.mixes.now }
    ensures done { StepDone step.entry.loads.pin step.entry.loads.batch step.entry.loads.from
        (take step.entry.held buffers.old.held.items) next.new result (views (known seat.old) (known seat.new))
        (moved V.Vault task.now.name.now vault.old vault.new) }
{
    let Step {
        mixes: loaded,
        loads: part,
        held: count,
    } = step;
    let rt = task.rt;
    let frames = buffers.frames.as_mut_slice();
    let held = &buffers.held[..count];
    let bytes = buffers.bytes.as_mut_slice();
    let mut mixing = ||
        requires { IsSync R.row × IsLoaded loaded.now × (loaded.now.len ≤ length frames.now) }
        ensures { take loaded.entry.now.len frames.exit.now ≡ loaded_frames loaded.entry.now }
    { mix_front(rt, loaded, frames) };
    let mut loading = || -> Result<Result<(), Refusal>, Failed>
        requires { IsAt task.now.desk.now seat.now × (part.batch ≤ MAX_LOADED) × (part.from + part.batch < 2 ^ 64)
            × (4 * length held.now ≤ length bytes.now)
            × (IsTrue (V.tells vault.now) → IsThere (V.holds vault.now task.now.name.now)) }
        ensures { IsAt task.entry.now.desk.now seat.exit.now
            × StepDone part.pin part.batch part.from held.entry.now next.exit.now result
            (views (known seat.entry.now) (known seat.exit.now))
            (moved V.Vault task.entry.now.name.now vault.entry.now vault.exit.now) }
    {
        match append_held(vault, task.name, held, bytes) {
            Ok(()) => Ok(load_stretch(task.rt, task.desk, seat, part, next)),
            Err(failed) => Err(failed),
        }
    };
    join_mut(rt, &mut mixing, &mut loading).1
}
