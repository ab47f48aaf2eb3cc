// Jobs in threads, each with a seat of its own.
ghost use Rattle.std.specs.Prelude.{◌≡◌};
ghost use Rattle.pin_turn.specs.Calls.{known};
ghost use Rattle.studio_seats.specs.Desks.{IsAt, start_at};
ghost use Rattle.studio_seats.specs.Onward.{Onward};
ghost use Rattle.seat_examples.specs.Jobs.{IsReady, StaysSeat, asked, needed};

use super::jobs::{End, Job, work};
use super::lines::{RamDesk, RamSeat};
use super::session::Session;
use pcm_base::Frame;
use std::alloc::Global;
use std::sync::Wait;
use std::thread::{Threads, join};

/// Two jobs that are done side by side.
#[derive(Clone, Copy, Debug)]
pub struct Pair(pub Job, pub Job);

/// What four jobs are told: a session, and the frames of its pin's mix.
#[derive(Clone, Copy, Debug)]
pub struct Setting {
    pub session: Session,
    pub mix: [Frame; 5],
}

/// Two jobs in two threads, each of this many turns. The second has a seat that is split off and joined again.
pub fn by_two<R: Threads + Wait + Sync>(
    rt: &R,
    alloc: Global,
    desk: &RamDesk,
    mut seat: RamSeat,
    pair: Pair,
    turns: u8,
) -> (RamSeat, [End; 2])
    requires seat { IsAt desk.now seat }
    requires left { needed pair.0 (start_at desk.now).commit_number (known seat).seen }
    requires right { needed pair.1 (start_at desk.now).commit_number (known seat).seen }
    ensures same { IsAt desk.now result.0 }
    ensures stays { StaysSeat (known seat) (known result.0) }
{
    let Pair(left, right) = pair;
    let other = desk.split(&mut seat);
    let (one, two) = join(
        rt,
        || -> (RamSeat, End)
            requires seat { IsAt desk.now seat }
            requires needed { needed left (start_at desk.now).commit_number (known seat).seen }
            ensures same { IsAt desk.entry.now result.0 }
            ensures goes { Onward (asked left) (known seat) (known result.0) }
        { work(rt, alloc, desk, seat, left, turns) },
        || -> (RamSeat, End)
            requires seat { IsAt desk.now other }
            requires needed { needed right (start_at desk.now).commit_number (known other).seen }
            ensures same { IsAt desk.entry.now result.0 }
            ensures goes { Onward (asked right) (known other) (known result.0) }
        { work(rt, alloc, desk, other, right, turns) },
    );
    let (mut seat, end) = one;
    let (other, other_end) = two;
    desk.join(&mut seat, other);
    (seat, [end, other_end])
}

/// Four jobs in four threads, each of this many turns: one edits track 1, one adds pieces to the recording's track, one
/// reads the pin, whose frames have to be these, and one removes files that nothing names. The ends are in this order.
pub fn by_four<R: Threads + Wait + Sync>(
    rt: &R,
    alloc: Global,
    desk: &RamDesk,
    mut seat: RamSeat,
    setting: Setting,
    turns: u8,
) -> (RamSeat, [End; 4])
    requires seat { IsAt desk.now seat }
    requires ready { IsReady setting.session (start_at desk.now).commit_number (known seat).seen }
    ensures same { IsAt desk.now result.0 }
    ensures stays { StaysSeat (known seat) (known result.0) }
    ensures ready { IsReady setting.session (start_at desk.now).commit_number (known result.0).seen }
{
    let Setting { session, mix } = setting;
    let Session { pin, track, tag } = session;
    let adds = Job::Record { track, tag };
    let reads = Job::Play { pin, mix };
    let other = desk.split(&mut seat);
    let (one, two) = join(
        rt,
        || -> (RamSeat, [End; 2])
            requires seat { IsAt desk.now seat }
            requires needed { needed adds (start_at desk.now).commit_number (known seat).seen }
            ensures same { IsAt desk.entry.now result.0 }
            ensures stays { StaysSeat (known seat) (known result.0) }
        {
            by_two(
                rt,
                alloc,
                desk,
                seat,
                Pair(Job::Edit { track: 1 }, adds),
                turns,
            )
        },
        || -> (RamSeat, [End; 2])
            requires seat { IsAt desk.now other }
            requires needed { needed reads (start_at desk.now).commit_number (known other).seen }
            ensures same { IsAt desk.entry.now result.0 }
            ensures stays { StaysSeat (known other) (known result.0) }
        { by_two(rt, alloc, desk, other, Pair(reads, Job::Reclaim), turns) },
    );
    let (mut seat, ends) = one;
    let (other, other_ends) = two;
    desk.join(&mut seat, other);
    let [edited, recorded] = ends;
    let [played, reclaimed] = other_ends;
    (seat, [edited, recorded, played, reclaimed])
}
