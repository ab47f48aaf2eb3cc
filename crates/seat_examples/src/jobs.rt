// What a thread does at its seat.
ghost use Rattle.std.specs.Prelude.{◌≡◌, ◌↔◌, ◌+◌, ◌^◌, ◌<◌, ◌≤◌, IsTrue, length};
ghost use Rattle.pin_turn.specs.Calls.{known};
ghost use Rattle.studio_seats.specs.Deeds.{entries_of, number_after};
ghost use Rattle.studio_seats.specs.Desks.{IsAt, start_at, views};
ghost use Rattle.studio_seats.specs.Freeing.{IsFullReclaim};
ghost use Rattle.studio_seats.specs.Onward.{IsReadOf, Onward};
ghost use Rattle.studio_seats.specs.Pins.{is_made};
ghost use Rattle.studio_seats.specs.Recording.{RecorderAsks};
ghost use Rattle.studio_seats.specs.Stands.{origin};
ghost use Rattle.seat_examples.specs.Jobs.{IsPinOf, IsRampIn, asked, did, needed, piece_count};

use super::lines::{RamDesk, RamSeat, line};
use disk_model::Store;
use edit_ports::{FrameGiver, MemVault, PieceTaker, Vault};
use memory_disk::RamStore;
use pcm_base::{Answer, Chunk, Command, Frame, Refusal, Reply};
use std::alloc::Global;
use std::sync::Wait;
use studio_seats::{Desk, DeskGiver, DeskSeat, DeskTaker};

/// What a thread does, in this many turns.
#[derive(Clone, Copy, Debug)]
pub enum Job {
    /// Puts ramps of six samples in front of a track.
    Edit { track: u64 },
    /// Adds pieces of three samples to a track, with the number of the recording as their tag, and removes the files
    /// that they replaced.
    Record { track: u64, tag: u64 },
    /// Reads all frames of a pin, which have to be these.
    Play { pin: u64, mix: [Frame; 5] },
    /// Removes the files that nothing names.
    Reclaim,
}

/// How a job ended.
#[derive(Clone, Copy, Debug, PartialEq, Eq)]
pub enum End {
    /// All its turns were made.
    Done,
    /// The first refusal, after which no turn was made.
    Refused(Refusal),
    /// Other frames were read than those that were wanted, and no turn was made after.
    Differs,
}

fn edit<R: Wait>(
    rt: &R,
    alloc: Global,
    desk: &RamDesk,
    mut seat: RamSeat,
    track: u64,
    turns: u8,
) -> (RamSeat, End)
    requires seat { IsAt desk.now seat }
    requires track { track < 2 ^ 63 }
    ensures same { IsAt desk.now result.0 }
    ensures goes { Onward (IsRampIn track) (known seat) (known result.0) }
    ensures done { result.1 ≡ End.Done → length (known result.0).mine ≡ length (known seat).mine + turns }
{
    let mut answer = Answer {
        commit: 0,
        reply: Reply::Done,
    };
    'lines: for _ in 0..turns {
        let command = Command::Ramp {
            track,
            at: 0,
            count: 6,
            start: 7,
            step: 1,
        };
        let said = line(rt, alloc, desk, &mut seat, &command, &mut answer);
        if let Err(reason) = said.what {
            return (seat, End::Refused(reason));
        }
    }
    (seat, End::Done)
}

/// The track of a recording, and the number that is its tag.
#[derive(Clone, Copy)]
struct Recording {
    track: u64,
    tag: u64,
}

fn record<R: Wait>(
    rt: &R,
    alloc: Global,
    desk: &RamDesk,
    seat: RamSeat,
    recording: Recording,
    turns: u8,
) -> (RamSeat, End)
    requires seat { IsAt desk.now seat }
    requires tag { (1 ≤ recording.tag)
        × (recording.tag ≤ number_after (start_at desk.now).commit_number (known seat).seen) }
    ensures same { IsAt desk.now result.0 }
    ensures goes { Onward (RecorderAsks recording.track recording.tag) (known seat) (known result.0) }
    ensures done { result.1 ≡ End.Done
        → piece_count recording.track recording.tag (start_at desk.now).commit_number (known result.0)
        ≡ piece_count recording.track recording.tag (start_at desk.now).commit_number (known seat) + turns }
{
    let Recording { track, tag } = recording;
    let mut taker = DeskTaker::new(desk, seat, track, tag);
    'pieces: for number in 0..turns {
        let samples = [i16::from(number), 1000, 2000];
        let chunks = [Chunk::new(u32::from(number), &samples)];
        if let Err(reason) = taker.take_pieces(rt, alloc, &chunks).what {
            return (taker.finish(rt), End::Refused(reason));
        }
    }
    (taker.finish(rt), End::Done)
}

fn is_mix(frames: &[Frame], mix: &[Frame]) -> bool
    ensures { IsTrue result ↔ (frames.now ≡ mix.now) }
{
    frames == mix
}

fn play<R: Wait, S: Store, V: Vault>(
    rt: &R,
    desk: &Desk<S, V>,
    seat: DeskSeat<S, V>,
    pin: u64,
    mix: &[Frame; 5],
    turns: u8,
) -> (DeskSeat<S, V>, End)
    requires seat { IsAt desk.now seat }
    requires made { IsTrue (is_made pin (entries_of (known seat).seen)) }
    ensures same { IsAt desk.now result.0 }
    ensures goes { Onward (IsReadOf pin) (known seat) (known result.0) }
    ensures done { result.1 ≡ End.Done → 0 < turns
        → IsPinOf (origin S.Store V.Vault (start_at desk.now)) (known seat) pin mix.now }
{
    let mut giver = DeskGiver::new(desk, seat, pin);
    'reads: for _ in 0..turns {
        let mut frames = [Frame { left: 0, right: 0 }; 8];
        match giver.give_frames(rt, 0, &mut frames).what {
            Ok(count) => {
                if !is_mix(&frames[..count], mix) {
                    return (giver.into_seat(), End::Differs);
                }
            }
            Err(reason) => return (giver.into_seat(), End::Refused(reason)),
        }
    }
    (giver.into_seat(), End::Done)
}

fn reclaim<R: Wait>(rt: &R, desk: &RamDesk, mut seat: RamSeat, turns: u8) -> (RamSeat, End)
    requires { IsAt desk.now seat }
    ensures same { IsAt desk.now result.0 }
    ensures goes { Onward IsFullReclaim (known seat) (known result.0) }
    ensures done { result.1 ≡ End.Done → length (known result.0).mine ≡ length (known seat).mine + turns }
{
    'rounds: for _ in 0..turns {
        if let Err(reason) = desk.reclaim(rt, &mut seat, None).what {
            return (seat, End::Refused(reason));
        }
    }
    (seat, End::Done)
}

/// Does a job by this seat, in this many turns or up to the first refusal, and hands the seat back. All that the seat did
/// meanwhile is of this job.
pub fn work<R: Wait>(
    rt: &R,
    alloc: Global,
    desk: &RamDesk,
    seat: RamSeat,
    job: Job,
    turns: u8,
) -> (RamSeat, End)
    requires seat { IsAt desk.now seat }
    requires needed { needed job (start_at desk.now).commit_number (known seat).seen }
    ensures same { IsAt desk.now result.0 }
    ensures goes { Onward (asked job) (known seat) (known result.0) }
    ensures done { result.1 ≡ End.Done
        → did (origin (⟦<RamStore as Store>⟧) (⟦<MemVault as Vault>⟧) (start_at desk.now)) job turns
        (views (known seat) (known result.0)) }
{
    match job {
        Job::Edit { track } => edit(rt, alloc, desk, seat, track, turns),
        Job::Record { track, tag } => record(
            rt,
            alloc,
            desk,
            seat,
            Recording { track, tag },
            turns,
        ),
        Job::Play { pin, mix } => play(rt, desk, seat, pin, &mix, turns),
        Job::Reclaim => reclaim(rt, desk, seat, turns),
    }
}
