// How a session begins.
ghost use Rattle.std.specs.Prelude.{◌≡◌, IsTrue, IfOk};
ghost use Rattle.pcm_base.specs.declared.command.Call.TheVariants.{Pin};
ghost use Rattle.pin_turn.specs.Calls.{known};
ghost use Rattle.studio_seats.specs.Deeds.{entries_of};
ghost use Rattle.studio_seats.specs.Desks.{IsAt, start_at};
ghost use Rattle.studio_seats.specs.Onward.{Onward};
ghost use Rattle.studio_seats.specs.Pins.{is_made};
ghost use Rattle.seat_examples.specs.Jobs.{IsReady, StaysSeat};

use super::lines::{RamDesk, RamSeat, line};
use pcm_base::{Answer, Command, Refusal, Reply};
use std::alloc::Global;
use std::sync::Wait;

/// What the threads of a session are told: the number of a pin, the recording's track, and the commit number by which
/// that track was made, which is the recording's own.
#[derive(Clone, Copy, Debug)]
pub struct Session {
    pub pin: u64,
    pub track: u64,
    pub tag: u64,
}

fn pinned<R: Wait>(rt: &R, desk: &RamDesk, seat: &mut RamSeat) -> Result<u64, Refusal>
    requires { IsAt desk.now seat.old }
    ensures same { IsAt desk.now seat.new }
    ensures goes { Onward (λ call. call ≡ Pin) (known seat.old) (known seat.new) }
    ensures made { IfOk result (λ pin. IsTrue (is_made pin (entries_of (known seat.new).seen))) }
{
    desk.pin(rt, seat).what
}

/// Makes track 1 with the samples 100, 200, 300, 400 and 500, pins the project, and makes track 2 for a recording. The
/// project is a new one.
///
/// # Errors
///
/// The first refusal of these calls.
pub fn begin<R: Wait>(
    rt: &R,
    alloc: Global,
    desk: &RamDesk,
    seat: &mut RamSeat,
) -> Result<Session, Refusal>
    requires { IsAt desk.now seat.old }
    ensures same { IsAt desk.now seat.new }
    ensures stays { StaysSeat (known seat.old) (known seat.new) }
    ensures ready { IfOk result (λ s. IsReady s (start_at desk.now).commit_number (known seat.new).seen) }
{
    let ramp = Command::Ramp {
        track: 1,
        at: 0,
        count: 5,
        start: 100,
        step: 100,
    };
    let mut answer = Answer {
        commit: 0,
        reply: Reply::Done,
    };
    line(rt, alloc, desk, seat, &Command::Track, &mut answer).what?;
    line(rt, alloc, desk, seat, &ramp, &mut answer).what?;
    let pin = pinned(rt, desk, seat)?;
    let made = line(rt, alloc, desk, seat, &Command::Track, &mut answer);
    made.what?;
    Ok(Session {
        pin,
        track: 2,
        tag: made.at,
    })
}
