// What a session does before its script: a new track for a recording, and a pin for a playback.
ghost use Rattle.std.specs.Prelude.{◌≡◌, []};
ghost use Rattle.pin_turn.specs.Calls.{known};
ghost use Rattle.studio_seats.specs.Desks.{IsAt, start_at};
ghost use Rattle.desk_session.specs.Opening.{
  IsOpening,
  IsPinIn,
  IsTagTo,
  MakesCall,
  Opens,
  PinDeed,
  TellsNumber,
  TrackDeed,
  number_seen,
  record_commits,
};
ghost use Rattle.desk_session.specs.Sides.{is_asked, made_by};

use super::side::Side;
use disk_model::Store;
use edit_ports::Vault;
use pcm_base::{Answer, Command, Reply, Said};
use std::alloc::Global;
use std::sync::Wait;
use studio_seats::{Desk, DeskSeat};

/// What a script runs beside.
#[derive(Clone, Copy, Debug, PartialEq, Eq)]
pub struct Beside {
    /// Whether the microphone is recorded into a new track.
    pub records: bool,
    /// Whether the mix of the project is played.
    pub plays: bool,
}

/// What was made for a recording and for a playback.
#[derive(Clone, Copy, Debug)]
pub struct Opened {
    pub recording: Side,
    pub pin: Side,
}

// Makes a new track, and answers its commit number.
fn open_track<R: Wait, S: Store, V: Vault>(
    rt: &R,
    alloc: Global,
    desk: &Desk<S, V>,
    seat: &mut DeskSeat<S, V>,
    vault: &mut V,
) -> Said<u64>
    requires { IsAt desk.now seat.old }
    ensures same { IsAt desk.now seat.new }
    ensures opens { MakesCall IsOpening (start_at desk.now).commit_number
        (TrackDeed (known seat.new).used_up (known seat.old).number (made_by result.what))
        (record_commits (made_by result.what)) (known seat.old) (known seat.new) }
    ensures tag { IsTagTo (made_by result.what) (number_seen (start_at desk.now) (known seat.new)) }
    ensures at { TellsNumber (start_at desk.now).commit_number (known seat.old) result.at (known seat.new) }
    ensures untouched { vault.new ≡ vault.old }
{
    let mut answer = Answer {
        commit: 0,
        reply: Reply::Done,
    };
    let Said { at, what } = desk.apply(rt, alloc, seat, vault, &Command::Track, &mut answer);
    match what {
        Ok(()) => Said { at, what: Ok(at) },
        Err(reason) => Said {
            at,
            what: Err(reason),
        },
    }
}

// The same, where a recording is asked for, and the number that the turn answered, or 0 where there was none.
fn open_recording<R: Wait, S: Store, V: Vault>(
    rt: &R,
    alloc: Global,
    desk: &Desk<S, V>,
    seat: &mut DeskSeat<S, V>,
    vault: &mut V,
    records: bool,
) -> (Side, u64)
    requires { IsAt desk.now seat.old }
    ensures same { IsAt desk.now seat.new }
    ensures opens { MakesCall IsOpening (start_at desk.now).commit_number
        (TrackDeed (known seat.new).used_up (known seat.old).number result.0) (record_commits result.0)
        (known seat.old) (known seat.new) }
    ensures tag { IsTagTo result.0 (number_seen (start_at desk.now) (known seat.new)) }
    ensures at { TellsNumber (start_at desk.now).commit_number (known seat.old) result.1 (known seat.new) }
    ensures asked { is_asked result.0 ≡ records }
    ensures untouched { vault.new ≡ vault.old }
{
    if records {
        let Said { at, what } = open_track(rt, alloc, desk, seat, vault);
        (Side::made_by(what), at)
    } else {
        (Side::NotAsked, 0)
    }
}

// Pins the project, where a playback is asked for, and answers the number of the turn too, or 0 where there was none.
fn open_playback<R: Wait, S: Store, V: Vault>(
    rt: &R,
    desk: &Desk<S, V>,
    seat: &mut DeskSeat<S, V>,
    plays: bool,
) -> (Side, u64)
    requires { IsAt desk.now seat.old }
    ensures same { IsAt desk.now seat.new }
    ensures opens { MakesCall IsOpening (start_at desk.now).commit_number
        (PinDeed (known seat.new).used_up (known seat.old).number result.0) [] (known seat.old) (known seat.new) }
    ensures made { IsPinIn result.0 (known seat.new).seen }
    ensures at { TellsNumber (start_at desk.now).commit_number (known seat.old) result.1 (known seat.new) }
    ensures asked { is_asked result.0 ≡ plays }
{
    if plays {
        let Said { at, what } = desk.pin(rt, seat);
        (Side::made_by(what), at)
    } else {
        (Side::NotAsked, 0)
    }
}

/// Makes what is asked for, by a seat: the track first, and then the pin. Besides it answers the commit number after
/// both, or 0 where there was no turn.
pub fn open<R: Wait, S: Store, V: Vault>(
    rt: &R,
    alloc: Global,
    desk: &Desk<S, V>,
    seat: &mut DeskSeat<S, V>,
    vault: &mut V,
    beside: Beside,
) -> (Opened, u64)
    requires { IsAt desk.now seat.old }
    ensures same { IsAt desk.now seat.new }
    ensures opens { Opens (start_at desk.now).commit_number result.0 (known seat.old) (known seat.new) }
    ensures tag { IsTagTo result.0.recording (number_seen (start_at desk.now) (known seat.new)) }
    ensures made { IsPinIn result.0.pin (known seat.new).seen }
    ensures at { TellsNumber (start_at desk.now).commit_number (known seat.old) result.1 (known seat.new) }
    ensures asked { (is_asked result.0.recording ≡ beside.records) × (is_asked result.0.pin ≡ beside.plays) }
    ensures untouched { vault.new ≡ vault.old }
{
    let (recording, made) = open_recording(rt, alloc, desk, seat, vault, beside.records);
    let (pin, pinned) = open_playback(rt, desk, seat, beside.plays);
    (Opened { recording, pin }, made.max(pinned))
}
