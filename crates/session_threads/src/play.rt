// A playback, by two threads.
ghost use Rattle.std.specs.Prelude.{◌≡◌, ℕ, List, [], Option, None};
ghost use Rattle.play_ring.specs.Ends.{sent, received, IsPair, SameIn, SameOut};
ghost use Rattle.player_threads.specs.Filled.{Fills};
ghost use Rattle.player_threads.specs.Spoken.{Speaks};
ghost use Rattle.session_threads.specs.Played.{Plays};

use edit_ports::{FrameGiver, Gate, Sink};
use pcm_base::Refusal;
use play_ring::{PlayIn, PlayOut};
use player_threads::{Filled, Spoken, fill, speak};
use std::sync::Wait;
use std::thread;
use std::thread::Threads;

/// What was played.
#[derive(Drop)]
pub struct Played<V, P> {
    pub giver: V,
    pub speaker: P,
    pub refused: Option<Refusal>,
    pub frames: u64,
    pub fault: bool,
}

/// Reads the mix in one thread, and writes it to the speaker in another.
pub fn play_mix<
    R: Threads + Wait + Sync,
    V: FrameGiver + Send + Drop,
    P: Sink + Send + Drop,
    G: Gate + Sync,
>(rt: &R, ends: (PlayIn, PlayOut), giver: V, speaker: P, gate: &G) -> Played<V, P>
    requires pair { IsPair ends.0 ends.1 }
    requires fresh { (sent ends.0 ≡ []) × (received ends.1 ≡ []) }
    requires unrefused { V.refused giver ≡ None }
    ensures { Plays V.FrameGiver P.Sink giver speaker result }
{
    let (input, output) = ends;
    let (filled, spoken) = thread::join(
        rt,
        move || -> Filled<V>
            requires fresh { sent input ≡ [] }
            requires unrefused { V.refused giver ≡ None }
            ensures { Fills V.FrameGiver giver input result }
        { fill(rt, giver, input, gate) },
        move || -> Spoken<P>
            requires { received output ≡ [] }
            ensures { Speaks P.Sink output speaker result }
        { speak(rt, output, speaker, gate) },
    );
    let Filled {
        giver,
        mut input,
        refused,
    } = filled;
    let Spoken {
        mut output,
        speaker,
        frames,
        fault,
    } = spoken;
    output.meet(&mut input);
    Played {
        giver,
        speaker,
        refused,
        frames,
        fault,
    }
}
