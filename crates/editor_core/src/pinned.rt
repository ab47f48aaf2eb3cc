// What is reported of a pin.
ghost use Rattle.std.specs.Prelude.{◌≡◌, IfErr, MatchResult, Some, None};
ghost use Rattle.pcm_base.specs.declared.answer.Reply.TheVariants as reply;
ghost use Rattle.pcm_base.specs.declared.command.Call.TheVariants as call;
ghost use Rattle.pcm_base.specs.declared.refusal.Refusal.TheVariants as refusal;
ghost use Rattle.envelope_view.specs.Answers.{IsUndamaged};
ghost use Rattle.editor_state.specs.Adding.{IsNoWant};
ghost use Rattle.editor_core.specs.Core.{core_of};
ghost use Rattle.editor_views.specs.Pins.{MayFind};
ghost use Rattle.editor_state.specs.Studios.{IsStudio};
ghost use Rattle.editor_state.specs.Took.{Took, quietly, as_reply};

use super::studio::Studio;
use disk_model::Store;
use editor_state::Pin;
use mix_reader::mix_len;
use pcm_base::Refusal;
use project_state::Point;

// The project of the pin with this number.
pub(crate) fn point_of(pins: &[Pin], number: u64) -> Result<&Point, Refusal>
    ensures { MatchResult result (λ point. MayFind pins.now number (Some point.now))
        (λ why. (why ≡ refusal.NoPin number) × MayFind pins.now number None) }
{
    for pin in pins {
        if pin.number == number {
            return Ok(&pin.point);
        }
    }
    Err(Refusal::NoPin { pin: number })
}

impl<S: Store> Studio<S> {
    /// How many frames the mix of a pinned project has. It asks nothing of the disk.
    ///
    /// # Errors
    ///
    /// `Stopped` where a change of the disk failed in an earlier call; else `NoPin` where no pin has the number.
    pub fn pin_len(&self, pin: u64) -> Result<u64, Refusal>
        requires { IsStudio S.Store (core_of self.now) }
        ensures took { Took S.Store (core_of self.now) (quietly (call.PinLen pin) (as_reply reply.Length result))
            (core_of self.now) }
        ensures memory { IfErr result IsNoWant }
        ensures undamaged { IfErr result IsUndamaged }
    {
        if let Some(faults) = self.stopped {
            return Err(Refusal::Stopped { faults });
        }
        let point = point_of(&self.pins, pin)?;
        Ok(mix_len(point))
    }
}
