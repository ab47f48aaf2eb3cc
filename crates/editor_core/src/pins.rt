// Projects that are kept as they were.
ghost use Rattle.std.specs.Prelude.{◌≡◌, ◌+◌, ◌≤◌, ◌<◌, ◌^◌, ℕ, [], ◌∷◌, ◌++◌, IfErr, OnOk, OnErr, length};
ghost use Rattle.pcm_base.specs.declared.answer.Reply.TheVariants as reply;
ghost use Rattle.pcm_base.specs.declared.command.Call.TheVariants as call;
ghost use Rattle.pcm_base.specs.declared.refusal.Refusal.TheVariants as refusal;
ghost use Rattle.block_ledger.specs.Counts.{occurrences};
ghost use Rattle.row_ledger.specs.Lists.{counts_of};
ghost use Rattle.envelope_view.specs.Answers.{IsUndamaged};
ghost use Rattle.record_body.specs.Saved.{current_tracks};
ghost use Rattle.layout_uses.specs.Layouts.{track_blocks};
ghost use Rattle.layout_uses.specs.Occurrences.{HasIds, times_named};
ghost use Rattle.layout_uses.specs.Tallies.{Comes};
ghost use Rattle.pcm_base.specs.declared.limits.TheConstants.{MAX_TRACKS};
ghost use Rattle.editor_state.specs.declared.pin.Pin.{Pin};
ghost use Rattle.editor_core.specs.Core.{core_of};
ghost use Rattle.editor_views.specs.Pins.{MayTake, AnswersPin, AnswersUnpin};
ghost use Rattle.editor_state.specs.Studios.{IsStudio};
ghost use Rattle.editor_state.specs.Took.{Took, quietly, as_reply};

use super::current::current_of;
use super::studio::Studio;
use clip_track::Kept;
use disk_model::Store;
use editor_state::Pin;
use layout_uses::Tally;
use pcm_base::{COUNTER_LIMIT, MAX_TRACKS, Refusal};
use project_state::Point;
use undo_history::History;

// Takes the pin with this number out of the others.
fn take_pin(pins: &mut Vec<Pin>, number: u64) -> Option<Pin>
    ensures { MayTake pins.old.items pins.new.items number result }
{
    for i in 0..pins.len() {
        if pins[i].number == number {
            return Some(pins.remove(i));
        }
    }
    None
}

// The current project uses its layouts once more.
fn use_current(tally: &mut Tally, history: &History<Point>)
    requires room { length (current_tracks history.now.history) ≤ tally.old.uses.spare }
    requires there { HasIds (counts_of tally.old.ledger) (track_blocks (current_tracks history.now.history)) }
    requires few { (id : ℕ) → occurrences (counts_of tally.old.ledger id)
        + times_named id (track_blocks (current_tracks history.now.history)) < 2 ^ 128 }
    ensures { Comes (current_tracks history.now.history) tally.old tally.new }
{
    let current = current_of(history);
    tally.use_point(current, current, Kept::none());
}

impl<S: Store> Studio<S> {
    /// Keeps the current project by a number of its own, whatever is undone, purged or edited. It takes memory for the
    /// tracks, which it shares. No clip and no sample is copied, and the disk is not used.
    ///
    /// # Errors
    ///
    /// `Stopped` where a change of the disk failed in an earlier call; else `SpaceSpent` where all 2^62 numbers were
    /// given; else `NoMemory` where there is none for the copy. Nothing has changed then.
    pub fn pin(&mut self) -> Result<u64, Refusal>
        requires { IsStudio S.Store (core_of self.old) }
        ensures took { Took S.Store (core_of self.old) (quietly call.Pin (as_reply reply.Pinned result))
            (core_of self.new) }
        ensures pinned { AnswersPin (core_of self.old) result (core_of self.new) }
        ensures undamaged { IfErr result IsUndamaged }
    {
        if let Some(faults) = self.stopped {
            return Err(Refusal::Stopped { faults });
        }
        if self.next_pin == COUNTER_LIMIT {
            return Err(Refusal::SpaceSpent {
                have: COUNTER_LIMIT,
                need: 1,
            });
        }
        self.add_pin()?;
        use_current(&mut self.tally, &self.history);
        self.next_pin += 1;
        Ok(self.next_pin - 1)
    }

    // Puts the current project after the pins, and makes room for the uses of its layouts.
    fn add_pin(&mut self) -> Result<(), Refusal>
        ensures ok { OnOk result (core_of self.new ≡ record (core_of self.old) {
          pins = self.old.pins.items
              ++ (record { number = self.old.next_pin; point = current_tracks self.old.history.history }) ∷ [];
        }) }
        ensures err { OnErr result (core_of self.new ≡ core_of self.old) }
        ensures memory { IfErr result (λ e. e ≡ refusal.NoMemory) }
        ensures history { self.new.history ≡ self.old.history }
        ensures ledger { self.new.tally.ledger ≡ self.old.tally.ledger }
        ensures uses { OnOk result (MAX_TRACKS ≤ self.new.tally.uses.spare) }
    {
        self.tally.reserve(MAX_TRACKS as u64)?;
        let number = self.next_pin;
        let point = current_of(&self.history).copy()?;
        self.pins.push(Pin { number, point })?;
        Ok(())
    }

    /// Lets a pinned project go. It takes no memory, asks nothing of the disk, and serves a stopped studio too.
    ///
    /// # Errors
    ///
    /// `NoPin` where no pin has the number.
    pub fn unpin(&mut self, pin: u64) -> Result<(), Refusal>
        requires { IsStudio S.Store (core_of self.old) }
        ensures took { Took S.Store (core_of self.old) (quietly (call.Unpin pin) (as_reply (λ _. reply.Done) result))
            (core_of self.new) }
        ensures unpinned { AnswersUnpin (core_of self.old) pin result (core_of self.new) }
    {
        let Some(gone) = take_pin(&mut self.pins, pin) else {
            return Err(Refusal::NoPin { pin });
        };
        self.tally.leave_point(&gone.point);
        Ok(())
    }
}
