// Stretches of a pin's mix, each loaded in a turn, and mixed and written while the next is loaded.
ghost use Rattle.std.specs.Prelude.{◌≡◌, ◌≤◌, ◌<◌, ◌+◌, ◌*◌, ◌^◌, ◌++◌, length, take, IsTrue, MatchResult};
ghost use Rattle.pcm_base.specs.declared.limits.TheConstants.{MAX_LOADED};
ghost use Rattle.pcm_base.specs.Recordings.{frame_bytes};
ghost use Rattle.mixdown.specs.Loads.{IsLoaded};
ghost use Rattle.pin_turn.specs.Calls.{known};
ghost use Rattle.wav_pcm.specs.declared.writing.TheConstants.{MAX_FRAMES};
ghost use Rattle.wav_pcm.specs.Written.{IsThere};
ghost use Rattle.studio_seats.specs.Desks.{IsAt, views};
ghost use Rattle.sound_bounce.specs.Bounces.{
  GrowFails,
  Grows,
  HasRoom,
  LoadsDone,
  LoadsNext,
  NextRefused,
  loaded_frames,
  moved,
};

use super::beside::mix_and_load;
use super::buffers::Buffers;
use super::task::{Mix, Part, Step, Task};
use disk_model::Store;
use edit_ports::Vault;
use mix_threads::mix_loaded;
use mixdown::Loaded;
use pcm_base::{Failed, Frame, Refusal, Said};
use std::mem;
use std::sync::Wait;
use std::thread::Threads;
use studio_seats::{Desk, DeskSeat};
use wav_pcm::append_buffer;

/// Mixes what is loaded into the first frames of a buffer.
pub(crate) fn mix_front(rt: &(impl Threads + Sync), loaded: &Loaded, frames: &mut [Frame])
    requires loaded { IsLoaded loaded.now }
    requires room { loaded.now.len ≤ length frames.old }
    ensures { take loaded.now.len frames.new ≡ loaded_frames loaded.now }
{
    mix_loaded(rt, loaded, &mut frames[..loaded.len]);
}

/// Appends the frames of what was loaded. They are the first of a buffer.
pub(crate) fn append_mixed<V: Vault>(
    vault: &mut V,
    name: &str,
    loaded: &Loaded,
    frames: &[Frame],
    bytes: &mut [u8],
) -> Result<(), Failed>
    requires mixed { take loaded.now.len frames.now ≡ loaded_frames loaded.now }
    requires room { loaded.now.len ≤ length frames.now }
    requires bytes { 4 * length frames.now ≤ length bytes.old }
    ensures { MatchResult result
        (λ _. Grows (moved V.Vault name.now vault.old vault.new) (frame_bytes (loaded_frames loaded.now)))
        (λ _. GrowFails (moved V.Vault name.now vault.old vault.new) (frame_bytes (loaded_frames loaded.now))) }
{
    append_buffer(vault, name, &frames[..loaded.len], bytes)
}

/// Appends frames that were mixed before. Before the first stretch there are none, and the vault is not asked.
pub(crate) fn append_held<V: Vault>(
    vault: &mut V,
    name: &str,
    held: &[Frame],
    bytes: &mut [u8],
) -> Result<(), Failed>
    requires bytes { 4 * length held.now ≤ length bytes.old }
    requires there { IsTrue (V.tells vault.old) → IsThere (V.holds vault.old name.now) }
    ensures { MatchResult result
        (λ _. Grows (moved V.Vault name.now vault.old vault.new) (frame_bytes held.now))
        (λ _. GrowFails (moved V.Vault name.now vault.old vault.new) (frame_bytes held.now)) }
{
    if held.is_empty() {
        return Ok(());
    }
    append_buffer(vault, name, held, bytes)
}

/// Appends the frames that were mixed before, mixes what is loaded, and appends this too.
fn write_last<R: Threads + Wait + Sync, S: Store, V: Vault>(
    task: &Task<R, S, V>,
    vault: &mut V,
    loaded: &Loaded,
    held: usize,
    buffers: &mut Buffers,
) -> Result<(), Failed>
    requires loaded { IsLoaded loaded.now }
    requires fits { loaded.now.len ≤ task.now.batch }
    requires held { held ≤ task.now.batch }
    requires room { HasRoom task.now.batch buffers.old }
    requires there { IsTrue (V.tells vault.old) → IsThere (V.holds vault.old task.now.name.now) }
    ensures { MatchResult result
        (λ _. Grows (moved V.Vault task.now.name.now vault.old vault.new)
        (frame_bytes (take held buffers.old.held.items ++ loaded_frames loaded.now)))
        (λ _. GrowFails (moved V.Vault task.now.name.now vault.old vault.new)
        (frame_bytes (take held buffers.old.held.items ++ loaded_frames loaded.now))) }
{
    let frames = buffers.frames.as_mut_slice();
    let bytes = buffers.bytes.as_mut_slice();
    match append_held(vault, task.name, &buffers.held[..held], bytes) {
        Ok(()) => {}
        Err(failed) => return Err(failed),
    }
    mix_front(task.rt, loaded, frames);
    append_mixed(vault, task.name, loaded, frames, bytes)
}

/// Loads the next frames of a pin, in one turn.
pub(crate) fn load_stretch<R: Wait, S: Store, V: Vault>(
    rt: &R,
    desk: &Desk<S, V>,
    seat: &mut DeskSeat<S, V>,
    part: Part,
    loaded: &mut Loaded,
) -> Result<(), Refusal>
    requires seat { IsAt desk.now seat.old }
    requires batch { part.batch ≤ MAX_LOADED }
    requires few { part.from + part.batch < 2 ^ 64 }
    ensures same { IsAt desk.now seat.new }
    ensures load { MatchResult result
        (λ _. LoadsNext part.pin part.batch part.from loaded.new (views (known seat.old) (known seat.new)))
        (λ why. NextRefused part.pin part.batch part.from why (views (known seat.old) (known seat.new))) }
{
    let Part { pin, from, batch } = part;
    let Said { at: _, what } = desk.load_pin(rt, seat, pin, from, batch, loaded);
    match what {
        Ok(_) => Ok(()),
        Err(reason) => Err(reason),
    }
}

/// Appends all frames of a pin's mix, `len` of them, to a sound that is there. Each turn loads `batch` frames at most.
/// While one stretch is mixed, the one before it is written and the next is loaded. If a load is refused, what was
/// loaded before it is not written.
/// It ends whatever the turns are answered, as no more than [`COUNTER_LIMIT`](pcm_base::COUNTER_LIMIT) turns are taken.
pub(crate) fn write_stretches<R: Threads + Wait + Sync, S: Store, V: Vault>(
    task: &Task<R, S, V>,
    seat: &mut DeskSeat<S, V>,
    vault: &mut V,
    mix: Mix,
    buffers: &mut Buffers,
) -> Result<(), Refusal>
    requires seat { IsAt task.now.desk.now seat.old }
    requires batch { task.now.batch ≤ MAX_LOADED }
    requires few { mix.len ≤ MAX_FRAMES }
    requires room { HasRoom task.now.batch buffers.old }
    requires there { IsTrue (V.tells vault.old) → IsThere (V.holds vault.old task.now.name.now) }
    ensures same { IsAt task.now.desk.now seat.new }
    ensures loads { LoadsDone mix.pin task.now.batch mix.len result (views (known seat.old) (known seat.new))
        (moved V.Vault task.now.name.now vault.old vault.new) }
{
    let Mix { pin, len } = mix;
    if len == 0 {
        return Ok(());
    }
    let batch = task.batch;
    let mut loaded = Loaded::new(task.alloc);
    let mut from = 0;
    match load_stretch(
        task.rt,
        task.desk,
        seat,
        Part { pin, from, batch },
        &mut loaded,
    ) {
        Ok(()) => {}
        Err(reason) => return Err(reason),
    }
    let mut next = Loaded::new(task.alloc);
    let mut held = 0;
    from = loaded.len as u64;
    'stretches: while from < len {
        let step = Step {
            mixes: &loaded,
            loads: Part { pin, from, batch },
            held,
        };
        match mix_and_load(&*task, seat, vault, step, &mut next, buffers) {
            Ok(load) => match load {
                Ok(()) => {
                    held = loaded.len;
                    from += next.len as u64;
                    mem::swap(&mut loaded, &mut next);
                    mem::swap(&mut buffers.frames, &mut buffers.held);
                }
                Err(reason) => return Err(reason),
            },
            Err(_) => return Err(Refusal::VaultFault),
        }
    }
    match write_last(task, vault, &loaded, held, buffers) {
        Ok(()) => Ok(()),
        Err(_) => Err(Refusal::VaultFault),
    }
}
