// The replies to lines that only look.
ghost use Rattle.std.specs.Prelude.{◌≡◌, ◌-◌, min};
ghost use Rattle.pcm_base.specs.declared.command.Call.TheVariants.{Line};
ghost use Rattle.pcm_base.specs.declared.command.Command.TheVariants as command;
ghost use Rattle.editor_core.specs.Core.{core_of};
ghost use Rattle.editor_state.specs.Studios.{IsStudio};
ghost use Rattle.editor_state.specs.Took.{Took, quietly};

use super::studio::Studio;
use disk_model::Store;
use pcm_base::{Cell, CellList, Frame, Frames, MAX_VIEW, Refusal, Reply};
use std::alloc::Global;

// How many cells or frames a range may show.
fn view_len(from: u64, to: u64) -> usize
    ensures value { result ≡ min MAX_VIEW (to - from) }
{
    to.saturating_sub(from).min(MAX_VIEW) as usize
}

impl<S: Store> Studio<S> {
    // The cells of a range of a track.
    pub(crate) fn show_reply(
        &mut self,
        alloc: Global,
        track: u64,
        from: u64,
        to: u64,
    ) -> Result<Reply, Refusal>
        requires { IsStudio S.Store (core_of self.old) }
        ensures { Took S.Store (core_of self.old) (quietly (Line (command.Show track from to)) result)
            (core_of self.new) }
    {
        let mut cells = vec![in alloc; Cell::Gap; view_len(from, to)]?;
        let count = self.show(track, from, to, cells.as_mut_slice())?;
        cells.truncate(count);
        Ok(Reply::Cells {
            cells: CellList::new(cells),
        })
    }

    // The frames of a range of the mix.
    pub(crate) fn mix_reply(&mut self, alloc: Global, from: u64, to: u64) -> Result<Reply, Refusal>
        requires { IsStudio S.Store (core_of self.old) }
        ensures { Took S.Store (core_of self.old) (quietly (Line (command.Mix from to)) result) (core_of self.new) }
    {
        let mut frames = vec![in alloc; Frame { left: 0, right: 0 }; view_len(from, to)]?;
        let count = self.mix(from, to, frames.as_mut_slice())?;
        frames.truncate(count);
        Ok(Reply::Frames {
            frames: Frames::new(frames),
        })
    }

    // What a scan of each column of a range finds.
    pub(crate) fn envelope_reply(
        &mut self,
        alloc: Global,
        track: u64,
        from: u64,
        to: u64,
        columns: u64,
    ) -> Result<Reply, Refusal>
        requires { IsStudio S.Store (core_of self.old) }
        ensures { Took S.Store (core_of self.old) (quietly (Line (command.Envelope track from to columns)) result)
            (core_of self.new) }
    {
        let columns = self.envelope(alloc, track, from, to, columns)?;
        Ok(Reply::Columns { columns })
    }

    // What is reported of the tracks.
    pub(crate) fn tracks_reply(&self, alloc: Global) -> Result<Reply, Refusal>
        requires { IsStudio S.Store (core_of self.now) }
        ensures { Took S.Store (core_of self.now) (quietly (Line command.Tracks) result) (core_of self.now) }
    {
        let tracks = self.tracks(alloc)?;
        Ok(Reply::Tracks { tracks })
    }
}
