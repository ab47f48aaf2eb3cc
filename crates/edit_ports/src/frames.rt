// Where frames come from.
ghost use Rattle.std.specs.Prelude.{◌≡◌, ◌↔◌, ℕ, ◌+◌, ◌<◌, ◌≤◌, List, length, take, drop, Option, IfOk, IfErr};
ghost use Rattle.std.specs.Prelude.{OnOk};
ghost use Rattle.pcm_base.specs.declared.limits.TheConstants.{MAX_CELLS};
ghost use Rattle.pcm_base.specs.declared.refusal.Refusal.{Refusal};
ghost use Rattle.pcm_base.specs.declared.sound.Frame.{Frame};
ghost use Rattle.edit_ports.specs.Answers.{NextAt, Reading, after_read, first_refusal, most_frames};

use pcm_base::{Frame, Said};
use std::sync::Wait;

/// What gives the frames of a mix, which stand at places from 0 on, below 2^32.
pub trait FrameGiver {
    // These are all its frames, as the giver tells it. One that knows them under a condition alone tells them so.
    ghost shows: { Self → List Frame → Type 0 };

    // The first refusal that was answered, or none.
    ghost refused: { Self → Option Refusal };

    // What has become of the first after some calls that read its frames from place 0 on, each from where the one
    // before it ended, and how far they came. After the end, or a refusal, no call says more.
    ghost follows: { Self → Reading → Self → Type 0 };

    /// Gives the frames from the place `from` on into the front of `out`, as many as are there and as fit, and answers
    /// how many. It may wait for a turn, and takes no memory.
    fn give_frames<R: Wait>(&mut self, rt: &R, from: u64, out: &mut [Frame]) -> Said<usize>
        ensures bound { IfOk result.what (λ count. count ≤ length out.new) }
        ensures limit { IfOk result.what (λ count. 0 < count → from + count ≤ MAX_CELLS) }
        ensures given { IfOk result.what (λ count. (all : List Frame) → shows self.old all →
            take count out.new ≡ take (length out.old) (drop from all)) }
        ensures same { (all : List Frame) → shows self.old all ↔ shows self.new all }
        ensures unrefused { OnOk result.what (refused self.new ≡ refused self.old) }
        ensures refusal { IfErr result.what (λ reason. refused self.new ≡ first_refusal (refused self.old) reason) }
        ensures goes { (first : Self) → follows first (NextAt from) self.old → 0 < length out.old →
            length out.old ≤ most_frames → follows first (after_read from (length out.old) result.what) self.new };
}
