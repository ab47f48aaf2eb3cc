// How many of the oldest points have to go.
ghost use Rattle.std.specs.Prelude.{IfOk};
ghost use Rattle.layout_uses.specs.Layouts.{AreNumbered, history_tracks, track_blocks};
ghost use Rattle.purge_size.specs.Fits.{AreSmall};
ghost use Rattle.purge_size.specs.Sizes.{IsPurgeTo};

use super::fitting::Fitting;
use pcm_base::NoMemory;
use project_state::Point;
use std::alloc::Global;
use undo_history::History;

/// The least number of points, up to the current one, without which the files of the blocks that the others name have
/// at most this many bytes; all those before the current one, where there is none.
///
/// # Errors
///
/// There is no memory for the ids of these blocks and the numbers of their layouts.
pub fn purge_count(alloc: Global, history: &History<Point>, most: u64) -> Result<u64, NoMemory>
    requires numbered { AreNumbered (history_tracks history.now.history) }
    requires small { AreSmall (track_blocks (history_tracks history.now.history)) }
    ensures { IfOk result (IsPurgeTo history.now.history most) }
{
    let mut fitting = Fitting::new(alloc, most);
    let cursor = history.cursor();
    for i in (0..history.len()).rev() {
        if !fitting.take_point(history.point(i))? {
            return Ok(cursor.min(i + 1) as u64);
        }
    }
    Ok(0)
}
