// A script beside a recording and a playback.
ghost use Rattle.std.specs.Prelude.{◌≡◌, [], false};
ghost use Rattle.std.specs.Thread.{IsSync};
ghost use Rattle.session_threads.specs.Recorded.{Records};
ghost use Rattle.session_threads.specs.Played.{Plays};
ghost use Rattle.script_reader.specs.HeldLine.{Holds};
ghost use Rattle.session_threads.specs.IfGiven.{IfGiven};
ghost use Rattle.session_threads.specs.RanLines.{RanLines};

use super::lines::{Lines, run_lines};
use super::play::Played;
use super::playback::Playback;
use super::record::Recorded;
use super::recording::Recording;
use edit_ports::{FrameGiver, Gate, PieceTaker, Sink, Source};
use script_reader::{Editor, Stop};
use std::alloc::Global;
use std::sync::Wait;
use std::thread;
use std::thread::Threads;

/// Records and plays at once, in four threads.
pub fn record_and_play<
    R: Threads + Wait + Sync,
    M: Source + Send + Drop,
    T: PieceTaker + Send + Drop,
    V: FrameGiver + Send + Drop,
    P: Sink + Send + Drop,
    G: Gate + Sync,
>(
    rt: &R,
    alloc: Global,
    recording: Recording<M, T>,
    playback: Playback<V, P>,
    gate: &G,
) -> (Recorded<M, T>, Played<V, P>)
    ensures records { Records M.Source T.PieceTaker recording.mic recording.taker result.0 }
    ensures plays { Plays V.FrameGiver P.Sink playback.giver playback.speaker result.1 }
{
    thread::join(
        rt,
        move || -> Recorded<M, T>
            ensures { Records M.Source T.PieceTaker recording.mic recording.taker result }
        { recording.run(rt, alloc, gate) },
        move || -> Played<V, P>
            ensures { Plays V.FrameGiver P.Sink playback.giver playback.speaker result }
        { playback.run(rt, gate) },
    )
}

/// Records what is to be recorded and plays what is to be played: both at once in four threads, one alone in two, and
/// neither in none. What stands in the place of one that is not given comes back.
pub fn run_sounds<
    R: Threads + Wait + Sync,
    M: Source + Send + Drop,
    T: PieceTaker + Send + Drop,
    V: FrameGiver + Send + Drop,
    P: Sink + Send + Drop,
    I: Send + Drop,
    J: Send + Drop,
    G: Gate + Sync,
>(
    rt: &R,
    alloc: Global,
    recording: Result<Recording<M, T>, I>,
    playback: Result<Playback<V, P>, J>,
    gate: &G,
) -> (Result<Recorded<M, T>, I>, Result<Played<V, P>, J>)
    ensures records { IfGiven (λ r done. Records M.Source T.PieceTaker r.mic r.taker done) recording result.0 }
    ensures plays { IfGiven (λ p done. Plays V.FrameGiver P.Sink p.giver p.speaker done) playback result.1 }
{
    match (recording, playback) {
        (Err(idle), Err(other)) => (Err(idle), Err(other)),
        (Ok(recording), Err(idle)) => (Ok(recording.run(rt, alloc, gate)), Err(idle)),
        (Err(idle), Ok(playback)) => (Err(idle), Ok(playback.run(rt, gate))),
        (Ok(recording), Ok(playback)) => {
            let (recorded, played) = record_and_play(rt, alloc, recording, playback, gate);
            (Ok(recorded), Ok(played))
        }
    }
}

/// Work that one thread does. A `join` says nothing of a `&mut` that a closure holds, so its closure holds a value of a
/// type parameter.
pub trait Task {
    type Output;

    ghost can_run: { Self → Type 0 };

    ghost run_gives: { Self → Self.Output → Type 0 };

    fn run<R: Threads + Wait + Sync, G: Gate>(self, rt: &R, alloc: Global, gate: &G) -> Self::Output
        requires ready { can_run self }
        requires sync { IsSync R.row }
        ensures { run_gives self result };
}

/// Does the work in one thread, and records and plays in others.
pub fn run_task<
    R: Threads + Wait + Sync,
    S: Task<Output = B> + Send + Drop,
    B: Send,
    M: Source + Send + Drop,
    T: PieceTaker + Send + Drop,
    V: FrameGiver + Send + Drop,
    P: Sink + Send + Drop,
    I: Send + Drop,
    J: Send + Drop,
    G: Gate + Sync,
>(
    rt: &R,
    alloc: Global,
    task: S,
    recording: Result<Recording<M, T>, I>,
    playback: Result<Playback<V, P>, J>,
    gate: &G,
) -> (B, (Result<Recorded<M, T>, I>, Result<Played<V, P>, J>))
    requires { S.can_run task }
    ensures task { S.run_gives task result.0 }
    ensures records { IfGiven (λ r done. Records M.Source T.PieceTaker r.mic r.taker done) recording result.1.0 }
    ensures plays { IfGiven (λ p done. Plays V.FrameGiver P.Sink p.giver p.speaker done) playback result.1.1 }
{
    thread::join(
        rt,
        move || -> B
            requires { S.can_run task × IsSync R.row }
            ensures { S.run_gives task result }
        { task.run(rt, alloc, gate) },
        move || -> (Result<Recorded<M, T>, I>, Result<Played<V, P>, J>)
            ensures records { IfGiven (λ r done. Records M.Source T.PieceTaker r.mic r.taker done)
                recording result.0 }
            ensures plays { IfGiven (λ p done. Plays V.FrameGiver P.Sink p.giver p.speaker done) playback result.1 }
        { run_sounds(rt, alloc, recording, playback, gate) },
    )
}

/// Runs a script, and beside it a recording and a playback, where they are given: the script in one thread, each of the
/// others in two. With neither it runs the script alone, on the thread of the caller. What stands in the place of one
/// that is not given comes back.
pub fn run_beside<
    'a,
    'b,
    R: Threads + Wait + Sync,
    E: Editor + Send + Drop,
    A: Source + Send,
    O: Sink + Send,
    M: Source + Send + Drop,
    T: PieceTaker + Send + Drop,
    V: FrameGiver + Send + Drop,
    P: Sink + Send + Drop,
    I: Send + Drop,
    J: Send + Drop,
    G: Gate + Sync,
>(
    rt: &R,
    alloc: Global,
    lines: Lines<'a, 'b, E, A, O>,
    recording: Result<Recording<M, T>, I>,
    playback: Result<Playback<V, P>, J>,
    gate: &G,
) -> (
    Stop,
    Lines<'a, 'b, E, A, O>,
    Result<Recorded<M, T>, I>,
    Result<Played<V, P>, J>,
)
    requires line { Holds lines.state.line [] }
    requires fresh { lines.state.refused ≡ false }
    ensures lines { RanLines E.Editor A.Source O.Sink result.0 lines.entry result.1 }
    ensures records { IfGiven (λ r done. Records M.Source T.PieceTaker r.mic r.taker done) recording result.2 }
    ensures plays { IfGiven (λ p done. Plays V.FrameGiver P.Sink p.giver p.speaker done) playback result.3 }
{
    match (recording, playback) {
        (Err(idle), Err(other)) => {
            let (stop, lines) = run_lines(rt, alloc, lines, gate);
            (stop, lines, Err(idle), Err(other))
        }
        (recording, playback) => {
            let ((stop, lines), (recorded, played)) = run_task(
                rt, alloc, lines, recording, playback, gate,
            );
            (stop, lines, recorded, played)
        }
    }
}
