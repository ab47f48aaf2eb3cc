// The summary of the next cells of a layout.
ghost use Rattle.std.specs.Prelude.{ℕ, ◌≡◌, ◌≤◌, ◌+◌, min, take, drop, Contains, IsTrue, IfOk, OnOk};
ghost use Rattle.pcm_base.specs.declared.limits.TheConstants.{MAX_CELLS};
ghost use Rattle.sample_block.specs.Spelling.{IsBlock};
ghost use Rattle.sample_block.specs.Sources.{sources_of};
ghost use Rattle.block_cache.specs.Readers.{Hits, Reads};
ghost use Rattle.block_store.specs.Scans.{samples_among};
ghost use Rattle.peak_summary.specs.Peaks.{summary_of};
ghost use Rattle.pcm_base.specs.Pieces.{Sources};
ghost use Rattle.envelope_view.specs.Ahead.{IsInBlock, ahead_blocks, ahead_cells, ahead_items};
ghost use Rattle.envelope_view.specs.Ahead.{stretch_blocks, stretch_cells, stretch_len};
ghost use Rattle.envelope_view.specs.Kept.{HasItem, HasItems};
ghost use Rattle.block_cache.specs.Caches.{Entries};
ghost use Rattle.clip_track.specs.Rests.{stretch_item};
ghost use Rattle.envelope_view.specs.Halves.{IsKnown};
ghost use Rattle.envelope_view.specs.Named.{AreNamed, AreWhole};
ghost use Rattle.envelope_view.specs.Parts.{Sums};

use super::ahead::{Ahead, behind, len_of};
use super::known::{Known, front_of, summarize_on};
use block_cache::BlockReader;
use block_store::BlockFault;
use clip_track::Stretch;
use disk_model::Store;
use pcm_base::BlockRef;
use peak_summary::{NOTHING, Summary, join};

/// The summary of a part of a block, whose front is read unless it is known.
fn summarize_block<S: Store>(
    reader: &mut BlockReader<S>,
    known: &mut Option<Known>,
    block: BlockRef,
    from: u32,
    to: u32,
    reach: u64,
) -> Result<Summary, BlockFault>
    requires block { IsBlock block.id block.len }
    requires rising { from ≤ to }
    requires within { to ≤ block.len }
    requires known { IsTrue (S.tells reader.old.store) → IsKnown (S.reads reader.old.store) known.old }
    ensures known { IsTrue (S.tells reader.old.store) → IsKnown (S.reads reader.old.store) known.new }
    ensures sum { Sums block from to (min block.len (to + reach)) reader.old reader.new result }
{
    let front = front_of(*known, block, from, to);
    let back = summarize_on(reader, known, block, front.to, to, reach)?;
    Ok(join(front.summary, back))
}

/// The summary of the samples among the first cells of a stretch.
fn summarize_stretch<S: Store>(
    reader: &mut BlockReader<S>,
    known: &mut Option<Known>,
    stretch: Stretch,
    count: u64,
    reach: u64,
) -> Result<Summary, BlockFault>
    requires stretch { IsInBlock stretch }
    requires within { count ≤ stretch_len stretch }
    requires named { AreNamed (stretch_blocks stretch) }
    requires known { IsTrue (S.tells reader.old.store) → IsKnown (S.reads reader.old.store) known.old }
    ensures reads { Reads (stretch_blocks stretch) reader.old reader.new result }
    ensures hit { Hits (HasItem reader.old.cache 0 (count + reach) (stretch_item stretch)) reader.old reader.new
        result }
    ensures known { IsTrue (S.tells reader.old.store) → IsKnown (S.reads reader.old.store) known.new }
    ensures read { IsTrue (S.tells reader.old.store) → AreWhole (S.reads reader.old.store) (stretch_blocks stretch)
        → IfOk result (λ s. s ≡ summary_of (samples_among (take count (stretch_cells
        (sources_of (S.reads reader.old.store)) stretch)))) }
{
    match stretch {
        Stretch::Gaps { .. } => Ok(NOTHING),
        Stretch::Block { block, from } => {
            let to = from + count as u32;
            let summary = summarize_block(reader, known, block, from, to, reach)?;
            Ok(summary)
        }
    }
}

/// The summary of the samples among the next cells, this many or as many as there are. What is left begins after
/// them, and `known` is what is known of a block after them, of which at least `reach` are asked for next.
pub(crate) fn sweep<S: Store>(
    reader: &mut BlockReader<S>,
    known: &mut Option<Known>,
    ahead: &mut Ahead,
    count: u64,
    reach: u64,
) -> Result<Summary, BlockFault>
    requires few { count ≤ MAX_CELLS }
    requires stretch { IsInBlock ahead.old.stretch }
    requires named { AreNamed (ahead_blocks ahead.old) }
    requires known { IsTrue (S.tells reader.old.store) → IsKnown (S.reads reader.old.store) known.old }
    ensures reads { Reads (ahead_blocks ahead.old) reader.old reader.new result }
    ensures hit { Hits (HasItems reader.old.cache 0 (count + reach) (ahead_items ahead.old)) reader.old reader.new
        result }
    ensures kept { OnOk result ((c : Entries) → (n : ℕ) → HasItems c 0 (count + n) (ahead_items ahead.old)
        → HasItems c 0 n (ahead_items ahead.new)) }
    ensures known { IsTrue (S.tells reader.old.store) → IsKnown (S.reads reader.old.store) known.new }
    ensures stretch { IsInBlock ahead.new.stretch }
    ensures blocks { (b : BlockRef) → Contains (ahead_blocks ahead.new) b → Contains (ahead_blocks ahead.old) b }
    ensures passed { OnOk result
        ((src : Sources) → ahead_cells src ahead.new ≡ drop count (ahead_cells src ahead.old)) }
    ensures read { IsTrue (S.tells reader.old.store) → AreWhole (S.reads reader.old.store) (ahead_blocks ahead.old)
        → IfOk result (λ s. s ≡ summary_of (samples_among (take count
        (ahead_cells (sources_of (S.reads reader.old.store)) ahead.old)))) }
{
    let mut all = NOTHING;
    let mut left = count;
    'stretches: while left > 0 {
        let Some(stretch) = ahead.next() else {
            return Ok(all);
        };
        let size = left.min(len_of(stretch));
        let part = summarize_stretch(reader, known, stretch, size, reach)?;
        all = join(all, part);
        ahead.stretch = behind(stretch, size);
        left -= size;
    }
    Ok(all)
}
