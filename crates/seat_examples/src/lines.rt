// Lines at a desk over a disk in memory.
ghost use Rattle.std.specs.Prelude.{◌≡◌, ◌+◌, ◌≤◌, length, OnOk};
ghost use Rattle.pcm_base.specs.declared.command.Call.TheVariants.{Line};
ghost use Rattle.pcm_base.specs.Counters.{commits_of};
ghost use Rattle.pcm_base.specs.Form.{IsInForm, IsTurn};
ghost use Rattle.pin_turn.specs.Calls.{known};
ghost use Rattle.studio_seats.specs.Deeds.{number_after};
ghost use Rattle.studio_seats.specs.Desks.{IsAt, start_at};
ghost use Rattle.studio_seats.specs.Onward.{Onward};

use edit_ports::MemVault;
use memory_disk::RamStore;
use pcm_base::{Answer, Command, Numbers, Refusal, Said};
use std::alloc::Global;
use std::sync::Wait;
use studio_seats::{Desk, DeskSeat};

/// A desk over a disk in memory.
pub type RamDesk = Desk<RamStore, MemVault>;

/// A seat at it.
pub type RamSeat = DeskSeat<RamStore, MemVault>;

/// A line by this seat, which fills the answer. There is no sound that it could name.
///
/// # Errors
///
/// Those of [`Desk::apply`](studio_seats::Desk::apply); `NoMemory` also where there is none for the vault.
pub fn line<R: Wait>(
    rt: &R,
    alloc: Global,
    desk: &RamDesk,
    seat: &mut RamSeat,
    command: &Command,
    answer: &mut Answer,
) -> Said<()>
    requires seat { IsAt desk.now seat.old }
    requires in_form { IsInForm command.now }
    requires turn { IsTurn command.now }
    ensures same { IsAt desk.now seat.new }
    // All that the seat did is this line, in one turn where it was carried out.
    ensures goes { Onward (λ call. call ≡ Line command.now) (known seat.old) (known seat.new) }
    ensures turn { OnOk result.what (length (known seat.new).mine ≡ length (known seat.old).mine + 1) }
    // The commit number that is told is none above those of which the seat knows.
    ensures number { result.at ≤ number_after (start_at desk.now).commit_number (known seat.new).seen }
    ensures commit { commits_of (Line command.now) ≡ 1 → OnOk result.what (1 ≤ result.at) }
{
    let Ok(mut vault) = MemVault::new(alloc, 0, 0, Numbers::new(Vec::new(alloc))) else {
        return Said {
            at: 0,
            what: Err(Refusal::NoMemory),
        };
    };
    desk.apply(rt, alloc, seat, &mut vault, command, answer)
}
