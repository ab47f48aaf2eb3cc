// The thread that reads the mix.
ghost use Rattle.std.specs.Prelude.{◌≡◌, ℕ, ◌+◌, ◌<◌, ◌≤◌, List, [], ◌∷◌, ◌++◌, length, take, drop, Option, Some, None};
ghost use Rattle.play_ring.specs.Order.{IsOpen};
ghost use Rattle.play_ring.specs.Ends.{sent, SameIn};
ghost use Rattle.play_ring.specs.declared.ends.Item.TheVariants.{End};
ghost use Rattle.player_threads.specs.Filled.{Fills};

use super::wait;
use edit_ports::{FrameGiver, Gate};
use pcm_base::{Frame, Refusal, Said};
use play_ring::PlayIn;
use std::sync::Wait;

/// How many frames one call of the giver gives at most.
const BATCH_FRAMES: usize = 1024;

/// What the thread that reads the mix hands back, and the giver's first refusal.
#[derive(Drop)]
pub struct Filled<V> {
    pub giver: V,
    pub input: PlayIn,
    pub refused: Option<Refusal>,
}

// Sends the end mark, and hands back what was given.
fn finish<R: Wait, V>(rt: &R, giver: V, mut input: PlayIn, refused: Option<Refusal>) -> Filled<V>
    requires { IsOpen (sent input) }
    ensures back { (result.giver ≡ giver) × (result.refused ≡ refused) }
    ensures ring { SameIn input result.input }
    ensures sent { sent result.input ≡ sent input ++ End ∷ [] }
{
    wait::send_end(rt, &mut input);
    Filled {
        giver,
        input,
        refused,
    }
}

/// Sends the frames of the giver, at most [`BATCH_FRAMES`] from each call, up to its end or its first refusal, and then
/// the end mark. After a refusal the giver is not asked again.
pub fn fill<R: Wait, V: FrameGiver, G: Gate>(
    rt: &R,
    mut giver: V,
    mut input: PlayIn,
    gate: &G,
) -> Filled<V>
    requires fresh { sent input ≡ [] }
    requires unrefused { V.refused giver ≡ None }
    ensures { Fills V.FrameGiver giver input result }
{
    let mut frames = [Frame { left: 0, right: 0 }; BATCH_FRAMES];
    let mut from: u64 = 0;
    for _ in rt.forever() {
        let Said { at: _, what } = giver.give_frames(rt, from, &mut frames);
        match what {
            Ok(count) => {
                wait::send(rt, gate, &mut input, &frames[..count]);
                if count < BATCH_FRAMES {
                    return finish(rt, giver, input, None);
                }
                from += count as u64;
            }
            Err(reason) => return finish(rt, giver, input, Some(reason)),
        }
    }
    unreachable!()
}
