// A recording, by two threads.
ghost use Rattle.std.specs.Prelude.{◌≡◌, ℕ, List, [], Option, None};
ghost use Rattle.record_ring.specs.Ends.{sent, received, IsPair, SameIn, SameOut};
ghost use Rattle.recorder_threads.specs.Captured.{Captures};
ghost use Rattle.recorder_threads.specs.Drained.{Drains};
ghost use Rattle.session_threads.specs.Recorded.{Records};

use edit_ports::{Gate, PieceTaker, Source};
use pcm_base::{Numbers, Refusal};
use record_ring::{RecordIn, RecordOut};
use recorder_threads::{Captured, Drained, MicEnd, capture, drain};
use std::alloc::Global;
use std::sync::Wait;
use std::thread;
use std::thread::Threads;

/// What was recorded.
#[derive(Drop)]
pub struct Recorded<M, T> {
    pub mic: M,
    pub taker: T,
    pub end: MicEnd,
    pub numbers: Numbers,
    pub samples: u64,
    pub refused: Option<Refusal>,
}

/// Reads the microphone in one thread, and gives the pieces to the taker in another.
pub fn record_track<
    R: Threads + Wait + Sync,
    M: Source + Send + Drop,
    T: PieceTaker + Send + Drop,
    G: Gate + Sync,
>(rt: &R, alloc: Global, ends: (RecordIn, RecordOut), mic: M, taker: T, gate: &G) -> Recorded<M, T>
    requires pair { IsPair ends.0 ends.1 }
    requires fresh { (sent ends.0 ≡ []) × (received ends.1 ≡ []) }
    requires unrefused { T.refused taker ≡ None }
    ensures { Records M.Source T.PieceTaker mic taker result }
{
    let (input, output) = ends;
    let (captured, drained) = thread::join(
        rt,
        move || -> Captured<M>
            requires { sent input ≡ [] }
            ensures { Captures M.Source mic input result }
        { capture(rt, mic, input, gate) },
        move || -> Drained<T>
            requires fresh { received output ≡ [] }
            requires unrefused { T.refused taker ≡ None }
            ensures { Drains T.PieceTaker output taker result }
        { drain(rt, alloc, output, taker, gate) },
    );
    let Captured {
        mic,
        mut input,
        end,
    } = captured;
    let Drained {
        mut output,
        taker,
        numbers,
        samples,
        refused,
    } = drained;
    output.meet(&mut input);
    Recorded {
        mic,
        taker,
        end,
        numbers,
        samples,
        refused,
    }
}
