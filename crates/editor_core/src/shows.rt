// What is shown of a track.
ghost use Rattle.std.specs.Prelude.{◌≡◌, ◌+◌, ◌-◌, ◌≤◌, length, min, take, IsTrue, IsOkUnless, IfOk};
ghost use Rattle.std.specs.Prelude.{List, MatchResult, None, Some};
ghost use Rattle.pcm_base.specs.declared.answer.Reply.TheVariants.{Cells};
ghost use Rattle.pcm_base.specs.declared.command.Call.TheVariants.{Line};
ghost use Rattle.pcm_base.specs.declared.command.Command.TheVariants.{Show};
ghost use Rattle.pcm_base.specs.declared.refusal.Refusal.TheVariants.{BadRange};
ghost use Rattle.pcm_base.specs.Edits.{part};
ghost use Rattle.pcm_base.specs.Refusals.{bad_view};
ghost use Rattle.sample_block.specs.Sources.{sources_of, AllNamed, AllWhole};
ghost use Rattle.block_store.specs.declared.fault.BlockFault.TheVariants as fault;
ghost use Rattle.block_cache.specs.Readers.{Hits, Reads};
ghost use Rattle.cell_reader.specs.Kept.{HasSeen};
ghost use Rattle.clip_track.specs.Clips.{layout_blocks, layout_cells};
ghost use Rattle.clip_track.specs.declared.clips.Clip.{Clip};
ghost use Rattle.editor_core.specs.Core.{core_of};
ghost use Rattle.record_body.specs.Saved.{current_tracks};
ghost use Rattle.editor_state.specs.Reads.{HasLayout, Sees};
ghost use Rattle.editor_state.specs.Studios.{IsStudio};

use super::current::layout_of;
use super::studio::Studio;
use block_cache::BlockReader;
use block_store::BlockFault;
use cell_reader::read_cells;
use clip_track::Layout;
use disk_model::Store;
use pcm_base::{Cell, MAX_VIEW, Refusal};

// Whether a range may be shown.
pub(crate) fn may_view(from: u64, to: u64) -> Result<(), Refusal>
    ensures { MatchResult result (λ _. bad_view from to ≡ None)
        (λ why. (why ≡ BadRange) × (bad_view from to ≡ Some BadRange)) }
{
    if from < to && to - from <= MAX_VIEW {
        Ok(())
    } else {
        Err(Refusal::BadRange)
    }
}

// Puts the cells of a layout from one place to another at the front of `out`, as many as there are, and answers how
// many.
fn read_view<S: Store>(
    reader: &mut BlockReader<S>,
    layout: &Layout,
    from: u64,
    to: u64,
    out: &mut [Cell],
) -> Result<usize, BlockFault>
    requires named { AllNamed (layout_blocks layout.now) }
    requires up { from ≤ to }
    requires room { to ≤ from + length out.old }
    ensures reads { Reads (layout_blocks layout.now) reader.old reader.new result }
    ensures hit { Hits (HasSeen reader.old.cache from to layout.now) reader.old reader.new result }
    ensures count { IfOk result (λ n. n ≤ length out.new) }
    ensures read { IsTrue (S.tells reader.old.store) → AllWhole (S.reads reader.old.store) (layout_blocks layout.now)
        → IfOk result
        (λ n. take n out.new ≡ part from to (layout_cells (sources_of (S.reads reader.old.store)) layout.now)) }
    ensures valid { IsTrue (S.tells reader.old.store) → AllWhole (S.reads reader.old.store) (layout_blocks layout.now)
        → IsOkUnless result fault.DiskFault }
{
    let view = &mut out[..(to - from) as usize];
    read_cells(reader, layout, from, view)
}

impl<S: Store> Studio<S> {
    /// Puts the cells of a track from one place to another, gaps included, at the front of `out`, as many as there are,
    /// and answers how many. Nothing is changed but the pages that are kept, which take memory only where there is
    /// some. After an error `out` may have been written in part.
    ///
    /// # Errors
    ///
    /// `Stopped` where a change of the disk failed in an earlier call; else `NoTrack` where the project lacks the
    /// track; else `BadRange` where not `from < to <= from + 4096`; else `DiskFault` where a read fails: the studio
    /// goes on. A disk that holds what the studio stands for shows no damaged file.
    pub fn show(
        &mut self,
        track: u64,
        from: u64,
        to: u64,
        out: &mut [Cell],
    ) -> Result<usize, Refusal>
        requires studio { IsStudio S.Store (core_of self.old) }
        // There is room for what may be shown.
        requires room { min MAX_VIEW (to - from) ≤ length out.old }
        ensures seen { Sees S.Store (core_of self.old)
            (record { call = Line (Show track from to); reply = Cells; out = out.new; count = result })
            (core_of self.new) }
        // Where the cache has all pages that are seen it is Ok, whatever the store would answer, and asks it nothing.
        ensures hit { self.old.stopped ≡ None → bad_view from to ≡ None → (layout : List Clip)
            → HasLayout track (current_tracks self.old.history.history) layout
            → Hits (HasSeen self.old.reader.cache from to layout) self.old.reader self.new.reader result }
    {
        if let Some(faults) = self.stopped {
            return Err(Refusal::Stopped { faults });
        }
        let layout = layout_of(&self.history, track)?;
        may_view(from, to)?;
        let count = read_view(&mut self.reader, layout, from, to, out)?;
        Ok(count)
    }
}
