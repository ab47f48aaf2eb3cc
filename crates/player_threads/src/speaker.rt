// The thread of the speaker.
ghost use Rattle.std.specs.Prelude.{◌≡◌, ℕ, ◌+◌, ◌<◌, ◌≤◌, List, [], ◌∷◌, ◌++◌, length, take, Option};
ghost use Rattle.pcm_base.specs.declared.sound.Frame.{Frame};
ghost use Rattle.play_ring.specs.Ends.{received, SameOut};
ghost use Rattle.player_threads.specs.Spoken.{SpeakerState, Speaks, Writes, speaker_state, written_by};

use super::{bytes, wait};
use edit_ports::points::AFTER_TAKE;
use edit_ports::{Gate, Sink};
use pcm_base::Frame;
use play_ring::PlayOut;
use std::sync::Wait;

/// How many frames are received and written at once, at most.
const WRITE_FRAMES: usize = 256;

/// What the thread of the speaker hands back: how many whole frames were written, up to the greatest u64, and whether
/// the speaker failed.
#[derive(Drop)]
pub struct Spoken<P> {
    pub output: PlayOut,
    pub speaker: P,
    pub frames: u64,
    pub fault: bool,
}

// How far the speaker has come.
#[derive(Clone, Copy)]
struct Progress {
    frames: u64,
    fault: bool,
}

// Writes frames more: after a fault nothing.
fn write_frames<P: Sink>(speaker: &mut P, progress: &mut Progress, frames: &[Frame])
    requires { length frames.now ≤ WRITE_FRAMES }
    ensures writes { (start : SpeakerState) (done : List Frame) →
        Writes start (speaker_state P.Sink speaker.old) (written_by progress.old) done →
        Writes start (speaker_state P.Sink speaker.new) (written_by progress.new) (done ++ frames.now) }
    ensures goes { (first : P) →
        P.follows first progress.old.fault speaker.old → P.follows first progress.new.fault speaker.new }
{
    if progress.fault {
        return;
    }
    let mut buffer = [0u8; 4 * WRITE_FRAMES];
    bytes::put_frames(frames, &mut buffer);
    let wrote = bytes::write_counted(speaker, &buffer[..4 * frames.len()]);
    progress.frames = progress.frames.saturating_add((wrote.count / 4) as u64);
    progress.fault = wrote.fault;
}

/// Receives frames up to the end mark, and writes their bytes up to the first fault of the speaker: left and right of
/// each frame, two bytes each, the low byte first. The frames after a fault are received without use: nothing is
/// written then.
pub fn speak<R: Wait, P: Sink, G: Gate>(
    rt: &R,
    mut output: PlayOut,
    mut speaker: P,
    gate: &G,
) -> Spoken<P>
    requires { received output ≡ [] }
    ensures { Speaks P.Sink output speaker result }
{
    let mut frames = [Frame { left: 0, right: 0 }; WRITE_FRAMES];
    let mut progress = Progress {
        frames: 0,
        fault: false,
    };
    for _ in rt.forever() {
        let taken = wait::receive(rt, &mut output, &mut frames);
        gate.pass(rt, AFTER_TAKE);
        write_frames(&mut speaker, &mut progress, &frames[..taken.count]);
        if taken.ended {
            return Spoken {
                output,
                speaker,
                frames: progress.frames,
                fault: progress.fault,
            };
        }
    }
    unreachable!()
}
