// A line of the script, carried out by the call that is its own.
ghost use Rattle.std.specs.Prelude.{◌≡◌, ℕ, List, IsSome, None};
ghost use Rattle.pcm_base.specs.declared.answer.Reply.TheVariants as reply;
ghost use Rattle.pcm_base.specs.declared.command.Call.TheVariants.{Line};
ghost use Rattle.pcm_base.specs.declared.command.Command.TheVariants as command;
ghost use Rattle.pcm_base.specs.Form.{IsInForm, IsTurn};
ghost use Rattle.pcm_base.specs.Run.{name_in_line};
ghost use Rattle.editor_state.specs.Applied.{Applies, TookOver};
ghost use Rattle.editor_core.specs.Core.{core_of};
ghost use Rattle.editor_state.specs.Vaults.{VaultCounted};
ghost use Rattle.editor_core.specs.Lines.{ChangesCells, UsesClipboard};
ghost use Rattle.editor_state.specs.Studios.{IsStudio};
ghost use Rattle.editor_state.specs.Took.{Took, freeing, quietly, as_reply};

use super::copies::run_range;
use super::studio::Studio;
use disk_model::Store;
use edit_ports::Vault;
use pcm_base::{Answer, Command, Placing, RangeEdit, Refusal, Removing, Reply};
use std::alloc::Global;

// The reply to a commit.
pub(crate) fn done(answer: Result<u64, Refusal>) -> Result<Reply, Refusal>
    ensures { result ≡ as_reply (λ _. reply.Done) answer }
{
    match answer {
        Ok(_number) => Ok(Reply::Done),
        Err(reason) => Err(reason),
    }
}

// The reply to a copy.
fn copied(answer: Result<(), Refusal>) -> Result<Reply, Refusal>
    ensures { result ≡ as_reply (λ _. reply.Copied) answer }
{
    match answer {
        Ok(()) => Ok(Reply::Copied),
        Err(reason) => Err(reason),
    }
}

// The reply to a reclaim.
fn freed(answer: Result<u64, Refusal>) -> Result<Reply, Refusal>
    ensures { result ≡ as_reply reply.Freed answer }
{
    match answer {
        Ok(count) => Ok(Reply::Freed { count }),
        Err(reason) => Err(reason),
    }
}

// The reply to a purge to a size.
fn purged(answer: Result<u64, Refusal>) -> Result<Reply, Refusal>
    ensures { result ≡ as_reply reply.Purged answer }
{
    match answer {
        Ok(count) => Ok(Reply::Purged { count }),
        Err(reason) => Err(reason),
    }
}

// The reply to a compact.
fn packed(answer: Result<u64, Refusal>) -> Result<Reply, Refusal>
    ensures { result ≡ as_reply reply.Packed answer }
{
    match answer {
        Ok(bytes) => Ok(Reply::Packed { bytes }),
        Err(reason) => Err(reason),
    }
}

// The reply to an export.
fn wrote(answer: Result<u64, Refusal>) -> Result<Reply, Refusal>
    ensures { result ≡ as_reply reply.Wrote answer }
{
    match answer {
        Ok(bytes) => Ok(Reply::Wrote { bytes }),
        Err(reason) => Err(reason),
    }
}

impl<S: Store> Studio<S> {
    /// Carries a line out by the call that is its own, and fills the answer: the commit number after it, and its reply,
    /// or the reason that refuses it, which is reported besides. A sound that the line names is looked for in the
    /// vault. Where it names none, the vault is as it was. The line is one turn, so no `bounce`.
    ///
    /// It takes the memory that the line's own call takes; `show` and `mix` take 4,096 cells or frames at most for
    /// their answer. Nothing else is copied, and the answer of before is let go.
    ///
    /// # Errors
    ///
    /// Those of the call.
    pub fn apply<V: Vault>(
        &mut self,
        alloc: Global,
        vault: &mut V,
        command: &Command,
        answer: &mut Answer,
    ) -> Result<(), Refusal>
        requires studio { IsStudio S.Store (core_of self.old) }
        requires in_form { IsInForm command.now }
        requires turn { IsTurn command.now }
        ensures applied { Applies S.Store (record {
          old = core_of self.old;
          new = core_of self.new;
          tells = V.tells vault.old;
          old_sounds = V.holds vault.old;
          new_sounds = V.holds vault.new;
        }) (Line command.now) result answer.new }
        ensures tells { V.tells vault.new ≡ V.tells vault.old }
        ensures faults { IsSome (name_in_line command.now)
            → VaultCounted result (V.fault_count vault.old) (V.fault_count vault.new) }
        ensures untouched { name_in_line command.now ≡ None → vault.new ≡ vault.old }
    {
        let told = self.reply_to(alloc, vault, command);
        answer.commit = self.commit_number;
        match told {
            Ok(reply) => {
                answer.reply = reply;
                Ok(())
            }
            Err(reason) => {
                answer.reply = Reply::Refused { reason };
                Err(reason)
            }
        }
    }

    // The reply to a line, or what refuses it.
    pub(crate) fn reply_to<V: Vault>(
        &mut self,
        alloc: Global,
        vault: &mut V,
        command: &Command,
    ) -> Result<Reply, Refusal>
        requires studio { IsStudio S.Store (core_of self.old) }
        requires in_form { IsInForm command.now }
        requires turn { IsTurn command.now }
        ensures took { TookOver S.Store (record {
          old = core_of self.old;
          new = core_of self.new;
          tells = V.tells vault.old;
          old_sounds = V.holds vault.old;
          new_sounds = V.holds vault.new;
        }) (Line command.now) result }
        ensures tells { V.tells vault.new ≡ V.tells vault.old }
        ensures faults { IsSome (name_in_line command.now)
            → VaultCounted result (V.fault_count vault.old) (V.fault_count vault.new) }
        ensures untouched { name_in_line command.now ≡ None → vault.new ≡ vault.old }
    {
        match command {
            Command::Import { name } => done(self.import(alloc, vault, name.as_str())),
            Command::Export { name } => wrote(self.export(vault, name.as_str())),
            Command::Bounce { .. } => unreachable!(),
            _ => self.silent_reply(alloc, command),
        }
    }

    // The reply to a line that names no sound, or what refuses it.
    fn silent_reply(&mut self, alloc: Global, command: &Command) -> Result<Reply, Refusal>
        requires studio { IsStudio S.Store (core_of self.old) }
        requires in_form { IsInForm command.now }
        requires silent { name_in_line command.now ≡ None }
        ensures { (removed : List ℕ) × Took S.Store (core_of self.old) (freeing (Line command.now) result removed)
            (core_of self.new) }
    {
        match command {
            Command::Track => done(self.track(alloc)),
            Command::Drop { track } => done(self.drop(alloc, *track)),
            Command::Level { track, gain } => done(self.level(alloc, *track, *gain)),
            Command::Side { track, side } => done(self.side(alloc, *track, *side)),
            Command::Mute { track, mute } => done(self.mute(alloc, *track, *mute)),
            Command::Put { .. }
            | Command::Ramp { .. }
            | Command::Delete { .. }
            | Command::SplitDelete { .. }
            | Command::Silence { .. }
            | Command::Trim { .. }
            | Command::Gain { .. } => self.cells_reply(alloc, command),
            Command::Cut { .. }
            | Command::SplitCut { .. }
            | Command::Copy { .. }
            | Command::Paste { .. }
            | Command::PasteOver { .. } => self.clipboard_reply(alloc, command),
            Command::Undo => done(self.undo()),
            Command::Redo => done(self.redo()),
            Command::Purge { count } => done(self.purge(*count)),
            Command::PurgeTo { bytes } => purged(self.purge_to(alloc, *bytes)),
            Command::Show { track, from, to } => self.show_reply(alloc, *track, *from, *to),
            Command::Mix { from, to } => self.mix_reply(alloc, *from, *to),
            Command::Envelope {
                track,
                from,
                to,
                columns,
            } => self.envelope_reply(alloc, *track, *from, *to, *columns),
            Command::Tracks => self.tracks_reply(alloc),
            Command::Reclaim { limit } => freed(self.reclaim(*limit)),
            Command::Compact => packed(self.compact(alloc)),
            Command::Import { .. } | Command::Export { .. } | Command::Bounce { .. } => {
                unreachable!()
            }
        }
    }

    // The reply to a line that changes cells of one track, or what refuses it.
    fn cells_reply(&mut self, alloc: Global, command: &Command) -> Result<Reply, Refusal>
        requires studio { IsStudio S.Store (core_of self.old) }
        requires in_form { IsInForm command.now }
        requires kind { ChangesCells command.now }
        ensures { Took S.Store (core_of self.old) (quietly (Line command.now) result) (core_of self.new) }
    {
        match command {
            Command::Put { track, at, samples } => {
                done(self.put(alloc, *track, *at, samples.as_slice()))
            }
            Command::Ramp {
                track,
                at,
                count,
                start,
                step,
            } => done(self.ramp(alloc, *track, *at, *count, *start, *step)),
            Command::Delete { track, from, to } => {
                done(self.edit_range(alloc, *track, *from, *to, RangeEdit::Delete))
            }
            Command::SplitDelete { track, from, to } => {
                done(self.edit_range(alloc, *track, *from, *to, RangeEdit::SplitDelete))
            }
            Command::Silence { track, from, to } => {
                done(self.edit_range(alloc, *track, *from, *to, RangeEdit::Silence))
            }
            Command::Trim { track, from, to } => {
                done(self.edit_range(alloc, *track, *from, *to, RangeEdit::Trim))
            }
            Command::Gain {
                track,
                from,
                to,
                gain,
            } => {
                let edit = RangeEdit::Gain { gain: *gain };
                done(self.edit_range(alloc, *track, *from, *to, edit))
            }
            _ => unreachable!(),
        }
    }

    // The reply to a line that puts cells into the clipboard or takes them from it, or what refuses it.
    fn clipboard_reply(&mut self, alloc: Global, command: &Command) -> Result<Reply, Refusal>
        requires studio { IsStudio S.Store (core_of self.old) }
        requires in_form { IsInForm command.now }
        requires kind { UsesClipboard command.now }
        ensures { Took S.Store (core_of self.old) (quietly (Line command.now) result) (core_of self.new) }
    {
        match command {
            Command::Cut {
                track,
                count,
                from,
                to,
            } => {
                let range = run_range(*track, *count, *from, *to);
                done(self.cut_range(alloc, range, Removing::Close))
            }
            Command::SplitCut {
                track,
                count,
                from,
                to,
            } => {
                let range = run_range(*track, *count, *from, *to);
                done(self.cut_range(alloc, range, Removing::Leave))
            }
            Command::Copy {
                track,
                count,
                from,
                to,
            } => copied(self.copy(alloc, *track, *count, *from, *to)),
            Command::Paste { track, at } => {
                done(self.paste_strips(alloc, *track, *at, Placing::Insert))
            }
            Command::PasteOver { track, at } => {
                done(self.paste_strips(alloc, *track, *at, Placing::Cover))
            }
            _ => unreachable!(),
        }
    }
}
