// A recording that has not begun.
ghost use Rattle.std.specs.Prelude.{◌≡◌, [], None};
ghost use Rattle.record_ring.specs.Ends.{sent, received, IsPair};
ghost use Rattle.session_threads.specs.Recorded.{Records};

use super::record::{Recorded, record_track};
use edit_ports::{Gate, PieceTaker, Source};
use pcm_base::NoMemory;
use record_ring::{RecordIn, RecordOut};
use std::alloc::Global;
use std::sync::Wait;
use std::thread::Threads;

/// A ring for chunks, of which both ends are new.
#[derive(Drop)]
pub struct RecordRing {
    pub(crate) ends: (RecordIn, RecordOut),
    ghost pair: { IsPair ends.0 ends.1 },
    ghost fresh: { (sent ends.0 ≡ []) × (received ends.1 ≡ []) },
}

impl RecordRing {
    /// Takes the memory for it.
    ///
    /// # Errors
    ///
    /// Where there is none.
    pub fn new(alloc: Global) -> Result<RecordRing, NoMemory> {
        let ends = record_ring::ring(alloc)?;
        Ok(RecordRing { ends })
    }
}

/// A microphone, and a taker that has refused nothing yet.
#[derive(Drop)]
pub struct Recording<M, T: PieceTaker> {
    pub(crate) ring: RecordRing,
    pub(crate) mic: M,
    pub(crate) taker: T,
    ghost unrefused: { T.refused taker ≡ None },
}

impl<M, T: PieceTaker> Recording<M, T> {
    /// A recording of this microphone by this taker.
    pub fn new(ring: RecordRing, mic: M, taker: T) -> Recording<M, T>
        requires { T.refused taker ≡ None }
        ensures { (result.mic ≡ mic) × (result.taker ≡ taker) }
    {
        Recording { ring, mic, taker }
    }
}

impl<M: Source + Send + Drop, T: PieceTaker + Send + Drop> Recording<M, T> {
    /// Records it, by two threads.
    pub fn run<R: Threads + Wait + Sync, G: Gate + Sync>(
        self,
        rt: &R,
        alloc: Global,
        gate: &G,
    ) -> Recorded<M, T>
        ensures { Records M.Source T.PieceTaker self.mic self.taker result }
    {
        let Recording { ring, mic, taker } = self;
        let RecordRing { ends } = ring;
        record_track(rt, alloc, ends, mic, taker, gate)
    }
}
