// What a scan of a track finds.
ghost use Rattle.pcm_base.specs.declared.answer.Reply.TheVariants as reply;
ghost use Rattle.pcm_base.specs.declared.command.Call.TheVariants.{Line};
ghost use Rattle.pcm_base.specs.declared.command.Command.TheVariants.{Envelope};
ghost use Rattle.std.specs.Prelude.{◌≡◌, List, None, IfErr, IsOk};
ghost use Rattle.block_cache.specs.Caches.{SameCache};
ghost use Rattle.clip_track.specs.declared.clips.Clip.{Clip};
ghost use Rattle.envelope_view.specs.Answers.{read_part};
ghost use Rattle.envelope_view.specs.Kept.{HasColumns};
ghost use Rattle.record_body.specs.Saved.{current_tracks};
ghost use Rattle.editor_core.specs.Core.{core_of};
ghost use Rattle.editor_state.specs.Reads.{HasLayout, Looks};
ghost use Rattle.editor_state.specs.Studios.{IsStudio};
ghost use Rattle.editor_state.specs.Took.{as_reply};

use super::current::layout_of;
use super::studio::Studio;
use disk_model::Store;
use envelope_view::columns as scan_columns;
use pcm_base::{Columns, Refusal};
use std::alloc::Global;

impl<S: Store> Studio<S> {
    /// Cuts a range of a track into columns, and tells what a scan of each finds. It takes memory for the columns, and
    /// nothing is changed but the pages that are kept.
    ///
    /// # Errors
    ///
    /// `Stopped` where a change of the disk failed in an earlier call; else `NoTrack` where the project lacks the
    /// track; else `BadRange` where not `from < to <= length`; else `BadColumns` where `columns` is 0, more than 4,096
    /// or more than the range has cells; else `NoMemory`, or `DiskFault` where a read fails: the studio goes on. A disk
    /// that holds what the studio stands for shows no damaged file.
    pub fn envelope(
        &mut self,
        alloc: Global,
        track: u64,
        from: u64,
        to: u64,
        columns: u64,
    ) -> Result<Columns, Refusal>
        requires { IsStudio S.Store (core_of self.old) }
        ensures looks { Looks S.Store (core_of self.old) (Line (Envelope track from to columns))
            (as_reply reply.Columns result)
            (core_of self.new) }
        // Where the cache has all pages that the columns may ask for, the disk refuses nothing, whatever the store would
        // answer, and is asked nothing.
        ensures hit { self.old.stopped ≡ None → (layout : List Clip)
            → HasLayout track (current_tracks self.old.history.history) layout
            → HasColumns self.old.reader.cache from to layout
            → IfErr result (λ why. IsOk (read_part why)) × (self.new.reader.store ≡ self.old.reader.store)
            × SameCache self.old.reader.cache self.new.reader.cache }
    {
        if let Some(faults) = self.stopped {
            return Err(Refusal::Stopped { faults });
        }
        let layout = layout_of(&self.history, track)?;
        let scans = scan_columns(alloc, &mut self.reader, layout, from, to, columns)?;
        Ok(Columns::new(scans))
    }
}
