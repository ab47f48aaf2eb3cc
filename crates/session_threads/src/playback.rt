// A playback that has not begun.
ghost use Rattle.std.specs.Prelude.{◌≡◌, [], None};
ghost use Rattle.play_ring.specs.Ends.{sent, received, IsPair};
ghost use Rattle.session_threads.specs.Played.{Plays};

use super::play::{Played, play_mix};
use edit_ports::{FrameGiver, Gate, Sink};
use pcm_base::NoMemory;
use play_ring::{PlayIn, PlayOut};
use std::alloc::Global;
use std::sync::Wait;
use std::thread::Threads;

/// A ring for frames, of which both ends are new.
#[derive(Drop)]
pub struct PlayRing {
    pub(crate) ends: (PlayIn, PlayOut),
    ghost pair: { IsPair ends.0 ends.1 },
    ghost fresh: { (sent ends.0 ≡ []) × (received ends.1 ≡ []) },
}

impl PlayRing {
    /// Takes the memory for it.
    ///
    /// # Errors
    ///
    /// Where there is none.
    pub fn new(alloc: Global) -> Result<PlayRing, NoMemory> {
        let ends = play_ring::ring(alloc)?;
        Ok(PlayRing { ends })
    }
}

/// A giver that has refused nothing yet, and a speaker.
#[derive(Drop)]
pub struct Playback<V: FrameGiver, P> {
    pub(crate) ring: PlayRing,
    pub(crate) giver: V,
    pub(crate) speaker: P,
    ghost unrefused: { V.refused giver ≡ None },
}

impl<V: FrameGiver, P> Playback<V, P> {
    /// A playback of this giver's frames on this speaker.
    pub fn new(ring: PlayRing, giver: V, speaker: P) -> Playback<V, P>
        requires { V.refused giver ≡ None }
        ensures { (result.giver ≡ giver) × (result.speaker ≡ speaker) }
    {
        Playback {
            ring,
            giver,
            speaker,
        }
    }
}

impl<V: FrameGiver + Send + Drop, P: Sink + Send + Drop> Playback<V, P> {
    /// Plays it, by two threads.
    pub fn run<R: Threads + Wait + Sync, G: Gate + Sync>(self, rt: &R, gate: &G) -> Played<V, P>
        ensures { Plays V.FrameGiver P.Sink self.giver self.speaker result }
    {
        let Playback {
            ring,
            giver,
            speaker,
        } = self;
        let PlayRing { ends } = ring;
        play_mix(rt, ends, giver, speaker, gate)
    }
}
