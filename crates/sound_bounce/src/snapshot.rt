// The mix of a snapshot, written to a vault.
ghost use Rattle.std.specs.Prelude.{◌≡◌, ◌≤◌, ◌<◌, ◌+◌, ◌*◌, ◌^◌, length, MatchResult, Ok, Err};
ghost use Rattle.pcm_base.specs.declared.limits.TheConstants.{MAX_LOADED};
ghost use Rattle.pin_turn.specs.Calls.{known};
ghost use Rattle.studio_seats.specs.Desks.{IsAt, start_at, views};
ghost use Rattle.studio_seats.specs.Stands.{origin};
ghost use Rattle.sound_bounce.specs.Bounces.{
  Bounced,
  Files,
  HasRoom,
  IsDone,
  IsGone,
  IsWritten,
  leaves_pin,
  may_let_go,
  moved,
};

use super::buffers::Buffers;
use super::stretches::write_stretches;
use super::task::{Mix, Task};
use disk_model::Store;
use edit_ports::Vault;
use pcm_base::{Refusal, Said};
use std::sync::Wait;
use std::thread::Threads;
use studio_seats::{Desk, DeskSeat};
use wav_pcm::start_wav;

/// How many bytes the file of this many frames has, where all were written.
fn sized(len: u64, what: Result<(), Refusal>) -> Result<u64, Refusal>
    requires { 44 + 4 * len < 2 ^ 64 }
    ensures { MatchResult what (λ _. result ≡ Ok (44 + 4 * len)) (λ why. result ≡ Err why) }
{
    match what {
        Ok(()) => Ok(44 + 4 * len),
        Err(reason) => Err(reason),
    }
}

/// Writes the file of a pin that has `len` frames, and answers how many bytes it has. TooLong is tested before anything
/// is written.
fn write_file<R: Threads + Wait + Sync, S: Store, V: Vault>(
    task: &Task<R, S, V>,
    seat: &mut DeskSeat<S, V>,
    vault: &mut V,
    mix: Mix,
    buffers: &mut Buffers,
) -> Result<u64, Refusal>
    requires seat { IsAt task.now.desk.now seat.old }
    requires batch { task.now.batch ≤ MAX_LOADED }
    requires room { HasRoom task.now.batch buffers.old }
    ensures same { IsAt task.now.desk.now seat.new }
    ensures files { Files (start_at task.now.desk.now).rate mix.pin task.now.batch mix.len result
        (views (known seat.old) (known seat.new)) (moved V.Vault task.now.name.now vault.old vault.new) }
{
    let per_second = task.desk.rate();
    match start_wav(
        vault,
        task.name,
        mix.len,
        per_second,
        buffers.bytes.as_mut_slice(),
    ) {
        Ok(()) => sized(mix.len, write_stretches(task, seat, vault, mix, buffers)),
        Err(reason) => Err(reason),
    }
}

/// Writes the mix of a pin, and answers how many bytes the file has. The length is asked in one turn.
fn write_pinned<R: Threads + Wait + Sync, S: Store, V: Vault>(
    task: &Task<R, S, V>,
    seat: &mut DeskSeat<S, V>,
    vault: &mut V,
    pin: u64,
    buffers: &mut Buffers,
) -> Result<u64, Refusal>
    requires seat { IsAt task.now.desk.now seat.old }
    requires batch { task.now.batch ≤ MAX_LOADED }
    requires room { HasRoom task.now.batch buffers.old }
    ensures same { IsAt task.now.desk.now seat.new }
    ensures written { IsWritten (start_at task.now.desk.now).rate pin task.now.batch result
        (views (known seat.old) (known seat.new)) (moved V.Vault task.now.name.now vault.old vault.new) }
{
    let Said { at: _, what } = task.desk.pin_len(task.rt, seat, pin);
    match what {
        Ok(len) => write_file(task, seat, vault, Mix { pin, len }, buffers),
        Err(reason) => Err(reason),
    }
}

/// Whether a refusal leaves the pin to be let go. Of these two another seat did so already, or no turn is left for it.
fn leaves_pin(why: &Refusal) -> bool
    ensures { result ≡ leaves_pin why.now }
{
    match why {
        Refusal::NoPin { pin: _ } => false,
        Refusal::Spent { turns: _ } => false,
        _ => true,
    }
}

/// The same of an answer.
fn may_let_go(what: &Result<u64, Refusal>) -> bool
    ensures { result ≡ may_let_go what.now }
{
    match what {
        Ok(_) => true,
        Err(why) => leaves_pin(why),
    }
}

/// Lets a pin go, where it may be.
fn let_go<R: Wait, S: Store, V: Vault>(
    rt: &R,
    desk: &Desk<S, V>,
    seat: &mut DeskSeat<S, V>,
    pin: u64,
    may: bool,
) -> Result<(), Refusal>
    requires { IsAt desk.now seat.old }
    ensures same { IsAt desk.now seat.new }
    ensures gone { IsGone pin may (views (known seat.old) (known seat.new)) }
{
    if may {
        let Said { at: _, what } = desk.unpin(rt, seat, pin);
        what
    } else {
        Ok(())
    }
}

/// Writes the mix of a pin, and lets the pin go.
fn write_and_let_go<R: Threads + Wait + Sync, S: Store, V: Vault>(
    task: &Task<R, S, V>,
    seat: &mut DeskSeat<S, V>,
    vault: &mut V,
    pin: u64,
    buffers: &mut Buffers,
) -> Result<u64, Refusal>
    requires seat { IsAt task.now.desk.now seat.old }
    requires batch { task.now.batch ≤ MAX_LOADED }
    requires room { HasRoom task.now.batch buffers.old }
    ensures same { IsAt task.now.desk.now seat.new }
    ensures done { IsDone (start_at task.now.desk.now).rate pin task.now.batch result
        (views (known seat.old) (known seat.new)) (moved V.Vault task.now.name.now vault.old vault.new) }
{
    let what = write_pinned(task, seat, vault, pin, buffers);
    let may = may_let_go(&what);
    let _gone = let_go(task.rt, task.desk, seat, pin, may);
    what
}

/// As [`bounce`], with memory for it.
fn write_current<R: Threads + Wait + Sync, S: Store, V: Vault>(
    task: &Task<R, S, V>,
    seat: &mut DeskSeat<S, V>,
    vault: &mut V,
    buffers: &mut Buffers,
) -> Said<u64>
    requires seat { IsAt task.now.desk.now seat.old }
    requires batch { task.now.batch ≤ MAX_LOADED }
    requires room { HasRoom task.now.batch buffers.old }
    ensures same { IsAt task.now.desk.now seat.new }
    ensures bounced { Bounced (origin S.Store V.Vault (start_at task.now.desk.now)) task.now.batch result
        (views (known seat.old) (known seat.new)) (moved V.Vault task.now.name.now vault.old vault.new) }
{
    let Said { at, what } = task.desk.pin(task.rt, seat);
    match what {
        Ok(pin) => Said {
            at,
            what: write_and_let_go(task, seat, vault, pin, buffers),
        },
        Err(reason) => Said {
            at,
            what: Err(reason),
        },
    }
}

/// Writes the mix of the current project as a WAV file, and lets others have turns meanwhile. One turn pins the
/// project. One asks how long its mix is. For each `batch` frames one turn loads the tracks. They are mixed in threads
/// while the frames before them are written to the vault and the next are loaded. A last turn frees the pin. So the
/// file is the mix of the project as it was at the commit number that is said, whatever others do before the file is
/// whole.
///
/// Memory is taken for `batch` frames and the samples of their tracks, both twice, and for their bytes. It does not grow
/// with the length of the mix.
///
/// # Errors
///
/// `NoMemory` where there is none, which is the first thing that is tested; those of [`Desk::pin`]; `TooLong` before
/// anything is written; those of [`Desk::load_pin`]; `VaultFault`, also where the next load was refused. After each
/// but `NoPin` and `Spent` the pin is let go. The sound is as it was, or holds the first bytes of the file.
pub fn bounce<R: Threads + Wait + Sync, S: Store, V: Vault>(
    task: &Task<R, S, V>,
    seat: &mut DeskSeat<S, V>,
    vault: &mut V,
) -> Said<u64>
    requires seat { IsAt task.now.desk.now seat.old }
    requires some { 0 < task.now.batch }
    requires batch { task.now.batch ≤ MAX_LOADED }
    ensures same { IsAt task.now.desk.now seat.new }
    ensures bounced { Bounced (origin S.Store V.Vault (start_at task.now.desk.now)) task.now.batch result
        (views (known seat.old) (known seat.new)) (moved V.Vault task.now.name.now vault.old vault.new) }
{
    match Buffers::new(task.alloc, task.batch) {
        Ok(mut buffers) => write_current(task, seat, vault, &mut buffers),
        Err(_) => Said {
            at: 0,
            what: Err(Refusal::NoMemory),
        },
    }
}
