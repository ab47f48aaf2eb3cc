// All four workers at once, in threads: what they hand over is compared with the plain lists.
ghost use Rattle.std.specs.Prelude.{◌≡◌, ◌^◌, ◌≤◌, length, IfSome, None};

use super::gates::{HoldingGate, MeetingGate};
use super::memory::{MemGiver, MemTaker};
use edit_ports::{Gate, MemSink, MemSource, OpenGate, Source};
use pcm_base::{Chunk, Frame, Numbers, Refusal};
use recorder_threads::MicEnd;
use session_threads::{PlayRing, Playback, Played, RecordRing, Recorded, record_and_play};
use std::alloc::{AllocError, Global};
use std::sync::Wait;
use std::test::Fail;
use std::thread::Threads;

type Recording = Recorded<MemSource, MemTaker>;

type Playing = Played<MemGiver, MemSink>;

// Bytes that differ from place to place.
fn some_bytes(alloc: Global, count: usize) -> Result<Vec<u8>, AllocError> {
    let mut bytes = Vec::new(alloc);
    for i in 0..count {
        bytes.push((i % 251) as u8)?;
    }
    Ok(bytes)
}

pub(crate) fn some_frames(alloc: Global, count: usize) -> Result<Vec<Frame>, AllocError> {
    let mut frames = Vec::new(alloc);
    for i in 0..count {
        frames.push(Frame {
            left: (i % 1000) as i16,
            right: (i % 777) as i16,
        })?;
    }
    Ok(frames)
}

pub(crate) fn taker(alloc: Global, most: usize) -> MemTaker
    ensures { result.refused ≡ None }
{
    MemTaker {
        taken: Vec::new(alloc),
        most,
        refused: None,
    }
}

pub(crate) fn giver(items: Vec<Frame>, refuses_from: u64) -> MemGiver
    requires { length items.items ≤ 2 ^ 32 }
    ensures { result.refused ≡ None }
{
    MemGiver {
        items,
        refuses_from,
        refused: None,
    }
}

// What the four workers read and write.
#[derive(Drop)]
struct Ends {
    mic: MemSource,
    taker: MemTaker,
    giver: MemGiver,
    speaker: MemSink,
}

// Records and plays over new rings.
fn run<R: Threads + Wait + Sync, G: Gate + Sync>(
    rt: &R,
    alloc: Global,
    gate: &G,
    ends: Ends,
) -> Option<(Recording, Playing)>
    requires taker { ends.taker.refused ≡ None }
    requires giver { ends.giver.refused ≡ None }
    ensures taker { IfSome result (λ r. r.0.taker.most ≡ ends.taker.most) }
    ensures giver { IfSome result (λ r. r.1.giver.items.items ≡ ends.giver.items.items) }
{
    let Ends {
        mic,
        taker,
        giver,
        speaker,
    } = ends;
    let Ok(chunks) = RecordRing::new(alloc) else {
        return None;
    };
    let Ok(frames) = PlayRing::new(alloc) else {
        return None;
    };
    let recording = session_threads::Recording::new(chunks, mic, taker);
    let playback = Playback::new(frames, giver, speaker);
    Some(record_and_play(rt, alloc, recording, playback, gate))
}

// The samples of bytes, decoded by hand.
fn plain_samples(alloc: Global, bytes: &[u8]) -> Result<Vec<i32>, AllocError> {
    let mut samples = Vec::new(alloc);
    for i in 0..bytes.len() / 2 {
        let value = bytes[2 * i] as i32 + 256 * bytes[2 * i + 1] as i32;
        samples.push(if value < 32768 { value } else { value - 65536 })?;
    }
    Ok(samples)
}

fn taken_samples(alloc: Global, taken: &[(Chunk, u64)]) -> Result<Vec<i32>, AllocError> {
    let mut samples = Vec::new(alloc);
    for piece in taken {
        for sample in piece.0.as_slice() {
            samples.push(*sample as i32)?;
        }
    }
    Ok(samples)
}

// The bytes of frames whose values are not negative, by hand.
fn plain_bytes(alloc: Global, frames: &[Frame]) -> Result<Vec<u8>, AllocError> {
    let mut bytes = Vec::new(alloc);
    for frame in frames {
        for value in [frame.left, frame.right] {
            if value >= 0 {
                bytes.push((value % 256) as u8)?;
                bytes.push((value / 256) as u8)?;
            }
        }
    }
    Ok(bytes)
}

// Whether all of these samples were recorded, in this many pieces.
fn are_recorded(recorded: &Recording, got: &[i32], samples: &[i32], pieces: usize) -> bool {
    recorded.numbers.as_slice().len() == pieces
        && recorded.samples == samples.len() as u64
        && got == samples
}

// Whether the microphone gave all, and no piece was refused.
fn is_whole(recorded: &Recording) -> bool {
    matches!(recorded.end, MicEnd::End) && recorded.refused.is_none()
}

// Whether this many frames were played, and these bytes were written.
fn are_played(played: &Playing, frames: u64, bytes: &[u8]) -> bool {
    played.frames == frames && played.speaker.bytes() == bytes
}

// Whether nothing was refused, and the speaker did not fail.
fn is_played_whole(played: &Playing) -> bool {
    played.refused.is_none() && !played.fault
}

// 100,000 samples and an odd byte in reads of at most 100 bytes, and 100,000 frames in writes of at most 13 bytes. The
// gate lets each ring be full, and the recorder's be empty, once.
#[test]
fn all_is_recorded_and_played(rt: HostRuntime) -> Result<(), Fail> {
    let alloc = rt.alloc();
    let bytes = some_bytes(alloc, 200_001)?;
    let samples = plain_samples(alloc, &bytes)?;
    let frames = some_frames(alloc, 100_000)?;
    let played_bytes = plain_bytes(alloc, &frames)?;
    let small = frames.len() <= 1 << 20;
    assert!(rt; small);
    let ran = run(
        &rt,
        alloc,
        &HoldingGate::new(),
        Ends {
            mic: MemSource::new(bytes, 100, Numbers::new(Vec::new(alloc))),
            taker: taker(alloc, 1000),
            giver: giver(frames, u64::MAX),
            speaker: MemSink::new(alloc, 1 << 20, 13, Numbers::new(Vec::new(alloc)))?,
        },
    );
    let (recorded, played) = ran.expect(&rt, "memory");
    let got = taken_samples(alloc, &recorded.taker.taken)?;
    assert!(rt; samples.len() == 100_000);
    assert!(rt; is_whole(&recorded));
    assert!(rt; are_recorded(&recorded, &got, &samples, 391));
    assert!(rt; is_played_whole(&played));
    assert!(rt; are_played(&played, 100_000, &played_bytes));
    Ok(())
}

// Recorder and player go in step for eight chunks and eight takes: one after the other they would not end.
#[test]
fn recorder_and_player_overlap(rt: HostRuntime) -> Result<(), Fail> {
    let alloc = rt.alloc();
    let frames = some_frames(alloc, 4000)?;
    let small = frames.len() <= 1 << 20;
    assert!(rt; small);
    let ran = run(
        &rt,
        alloc,
        &MeetingGate::new(8),
        Ends {
            mic: MemSource::new(
                some_bytes(alloc, 8000)?,
                8000,
                Numbers::new(Vec::new(alloc)),
            ),
            taker: taker(alloc, 1000),
            giver: giver(frames, u64::MAX),
            speaker: MemSink::new(alloc, 1 << 20, 8000, Numbers::new(Vec::new(alloc)))?,
        },
    );
    let (recorded, played) = ran.expect(&rt, "memory");
    assert!(rt; recorded.samples == 4000);
    assert!(rt; played.frames == 4000);
    Ok(())
}

// Whether the microphone failed once, and a piece was refused by the taker.
fn is_stopped(recorded: &Recording) -> bool {
    matches!(recorded.end, MicEnd::Fault)
        && recorded.mic.faults() == 1
        && matches!(recorded.refused, Some(Refusal::TrackLimit))
}

// Whether frames were refused by the giver, and the speaker failed.
fn is_play_stopped(played: &Playing) -> bool {
    matches!(played.refused, Some(Refusal::BadRange)) && played.fault
}

// The microphone's 15th read fails: 1,224 bytes were read. The taker refuses the third piece, the giver the frames from
// 2,048 on, and the speaker has room for 250 frames and a byte.
#[test]
fn faults_and_refusals_end_each(rt: HostRuntime) -> Result<(), Fail> {
    let alloc = rt.alloc();
    let bytes = some_bytes(alloc, 5000)?;
    let samples = plain_samples(alloc, &bytes)?;
    let frames = some_frames(alloc, 6000)?;
    let played_bytes = plain_bytes(alloc, &frames)?;
    let small = frames.len() <= 1 << 20;
    assert!(rt; small);
    let ran = run(
        &rt,
        alloc,
        &OpenGate,
        Ends {
            mic: MemSource::new(bytes, 100, Numbers::new([15u64].to_vec(alloc)?)),
            taker: taker(alloc, 2),
            giver: giver(frames, 2048),
            speaker: MemSink::new(alloc, 1001, 13, Numbers::new(Vec::new(alloc)))?,
        },
    );
    let (recorded, played) = ran.expect(&rt, "memory");
    let got = taken_samples(alloc, &recorded.taker.taken)?;
    assert!(rt; is_stopped(&recorded));
    assert!(rt; are_recorded(&recorded, &got, samples.get(..512).ok_or("too few")?, 2));
    assert!(rt; is_play_stopped(&played));
    assert!(rt; are_played(&played, 250, played_bytes.get(..1001).ok_or("too few")?));
    Ok(())
}
