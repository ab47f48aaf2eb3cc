// Undo, redo and purge.
ghost use Rattle.std.specs.Prelude.{◌≡◌, ◌+◌, ◌==◌, length, IfErr, IfOk, Some};
ghost use Rattle.pcm_base.specs.declared.answer.Reply.TheVariants as reply;
ghost use Rattle.pcm_base.specs.declared.command.Call.TheVariants.{Line};
ghost use Rattle.pcm_base.specs.declared.command.Command.TheVariants as command;
ghost use Rattle.pcm_base.specs.declared.refusal.Refusal.TheVariants.{NothingToUndo, NothingToRedo};
ghost use Rattle.pcm_base.specs.declared.refusal.Refusal.TheVariants as refusal;
ghost use Rattle.pcm_base.specs.History.{IsHistory};
ghost use Rattle.pcm_base.specs.Refusals.{refused_if, bad_range};
ghost use Rattle.record_body.specs.declared.body.Body.TheVariants.{Purge};
ghost use Rattle.record_body.specs.Spelling.{spelling};
ghost use Rattle.purge_size.specs.Sizes.{IsPurgeTo};
ghost use Rattle.envelope_view.specs.Answers.{IsUndamaged};
ghost use Rattle.editor_state.specs.Adding.{IsNoWant};
ghost use Rattle.editor_core.specs.Core.{core_of};
ghost use Rattle.editor_state.specs.Studios.{IsStudio};
ghost use Rattle.editor_state.specs.Took.{Took, quietly, as_reply};

use super::studio::Studio;
use byteorder::{ByteOrder, LittleEndian};
use disk_model::Store;
use layout_uses::count_purge;
use pcm_base::Refusal;
use purge_size::purge_count;
use record_body::{PURGE_KIND, REDO_KIND, UNDO_KIND};
use std::alloc::Global;

// The body of the record of a purge.
fn purge_body(count: u64) -> [u8; 9]
    ensures { result ≡ spelling (Purge count) }
{
    let mut body = [PURGE_KIND; 9];
    LittleEndian::write_u64(&mut body[1..], count);
    body
}

impl<S: Store> Studio<S> {
    /// Goes back to the point before. It takes no memory.
    ///
    /// # Errors
    ///
    /// `Stopped` where a change of the disk failed in an earlier call; else `NothingToUndo` at the oldest point; else
    /// `SpaceSpent` where the commit number or the journal has no room. Nothing has changed then. `DiskFault` where a
    /// change of the disk failed: the studio is stopped.
    pub fn undo(&mut self) -> Result<u64, Refusal>
        requires { IsStudio S.Store (core_of self.old) }
        ensures took { Took S.Store (core_of self.old) (quietly (Line command.Undo) (as_reply (λ _. reply.Done) result))
            (core_of self.new) }
        ensures number { IfOk result (λ n. n ≡ self.new.commit_number) }
        ensures memory { IfErr result IsNoWant }
        ensures undamaged { IfErr result IsUndamaged }
    {
        self.may_commit(self.undo_refusal(), 0)?;
        self.commit_small(&[UNDO_KIND])?;
        let _ = self.history.undo();
        Ok(self.commit_number)
    }

    // What refuses an undo.
    fn undo_refusal(&self) -> Option<Refusal>
        ensures { result ≡ refused_if (self.now.history.history.cursor == 0) NothingToUndo }
    {
        if self.history.cursor() == 0 {
            Some(Refusal::NothingToUndo)
        } else {
            None
        }
    }

    /// Goes on to the point that was undone last. It takes no memory.
    ///
    /// # Errors
    ///
    /// `Stopped` where a change of the disk failed in an earlier call; else `NothingToRedo` at the newest point; else
    /// `SpaceSpent` where the commit number or the journal has no room. Nothing has changed then. `DiskFault` where a
    /// change of the disk failed: the studio is stopped.
    pub fn redo(&mut self) -> Result<u64, Refusal>
        requires { IsStudio S.Store (core_of self.old) }
        ensures took { Took S.Store (core_of self.old) (quietly (Line command.Redo) (as_reply (λ _. reply.Done) result))
            (core_of self.new) }
        ensures number { IfOk result (λ n. n ≡ self.new.commit_number) }
        ensures memory { IfErr result IsNoWant }
        ensures undamaged { IfErr result IsUndamaged }
    {
        self.may_commit(self.redo_refusal(), 0)?;
        self.commit_small(&[REDO_KIND])?;
        let _ = self.history.redo();
        Ok(self.commit_number)
    }

    // What refuses a redo.
    fn redo_refusal(&self) -> Option<Refusal>
        ensures value { result ≡ refused_if
            (self.now.history.history.cursor + 1 == length self.now.history.history.points) NothingToRedo }
        ensures whole { IsHistory self.now.history.history }
    {
        let len = self.history.len();
        if self.history.cursor() + 1 == len {
            Some(Refusal::NothingToRedo)
        } else {
            None
        }
    }

    /// Forgets the oldest points, as many as are asked for, at least one and none from the current one on. It takes no
    /// memory.
    ///
    /// # Errors
    ///
    /// `Stopped` where a change of the disk failed in an earlier call; else `BadRange` where the count is 0 or reaches
    /// the current point; else `SpaceSpent` where the commit number or the journal has no room. Nothing has changed
    /// then. `DiskFault` where a change of the disk failed: the studio is stopped.
    pub fn purge(&mut self, count: u64) -> Result<u64, Refusal>
        requires { IsStudio S.Store (core_of self.old) }
        ensures took { Took S.Store (core_of self.old)
            (quietly (Line (command.Purge count)) (as_reply (λ _. reply.Done) result)) (core_of self.new) }
        ensures number { IfOk result (λ n. n ≡ self.new.commit_number) }
        ensures memory { IfErr result IsNoWant }
        ensures undamaged { IfErr result IsUndamaged }
        ensures range { IfErr result (λ why. why ≡ refusal.BadRange
            → bad_range 0 count self.old.history.history.cursor ≡ Some refusal.BadRange) }
    {
        self.may_commit(self.purge_refusal(count), 0)?;
        self.commit_small(&purge_body(count))?;
        count_purge(&mut self.tally, &self.history, count as usize);
        let _ = self.history.purge(count);
        Ok(self.commit_number)
    }

    /// Forgets the oldest points until the block files of the others have at most this many bytes, and none from the
    /// current one on. It answers how many. It takes memory to find their number, and none after that.
    ///
    /// # Errors
    ///
    /// `Stopped` where a change of the disk failed in an earlier call; else `NoMemory`; else `BadRange` where no point
    /// has to go, or the current one is the oldest; else `SpaceSpent` where the commit number or the journal has no
    /// room. Nothing has changed then. `DiskFault` where a change of the disk failed: the studio is stopped.
    pub fn purge_to(&mut self, alloc: Global, bytes: u64) -> Result<u64, Refusal>
        requires { IsStudio S.Store (core_of self.old) }
        ensures took { Took S.Store (core_of self.old)
            (quietly (Line (command.PurgeTo bytes)) (as_reply reply.Purged result)) (core_of self.new) }
        // The number is that of the points whose going leaves at most this many bytes, and none go where it is 0.
        ensures count { IfOk result (IsPurgeTo self.old.history.history bytes) }
        ensures none { IfErr result (λ why. why ≡ refusal.BadRange → IsPurgeTo self.old.history.history bytes 0) }
        ensures undamaged { IfErr result IsUndamaged }
    {
        if let Some(faults) = self.stopped {
            return Err(Refusal::Stopped { faults });
        }
        let count = purge_count(alloc, &self.history, bytes)?;
        if count == 0 {
            return Err(Refusal::BadRange);
        }
        self.purge(count)?;
        Ok(count)
    }

    // What refuses a purge.
    fn purge_refusal(&self, count: u64) -> Option<Refusal>
        ensures value { result ≡ bad_range 0 count self.now.history.history.cursor }
        ensures whole { IsHistory self.now.history.history }
    {
        let most = self.history.cursor() as u64;
        if count > 0 && count <= most {
            None
        } else {
            Some(Refusal::BadRange)
        }
    }
}
