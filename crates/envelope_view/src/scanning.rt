// The columns of a layout, in one pass over what stands in its range.
ghost use Rattle.std.specs.Prelude.{◌≡◌, ◌≤◌, ◌<◌, IsTrue, IfOk, IfErr};
ghost use Rattle.pcm_base.specs.declared.limits.TheConstants.{MAX_CELLS, MAX_VIEW};
ghost use Rattle.sample_block.specs.Sources.{AllNamed, AllWhole, sources_of};
ghost use Rattle.block_cache.specs.Readers.{Hits, Reads};
ghost use Rattle.pcm_base.specs.Envelope.{columns_of};
ghost use Rattle.clip_track.specs.Clips.{end_of, layout_blocks, layout_cells};
ghost use Rattle.envelope_view.specs.Kept.{HasColumns};
ghost use Rattle.envelope_view.specs.Answers.{AnswersTest, IsOfReads, IsUndamaged, column_tests, disk_part};

use super::ahead::Ahead;
use super::edges::{edge, test_columns};
use super::sweep::sweep;
use block_cache::BlockReader;
use block_store::scan;
use clip_track::{Layout, Stretch};
use disk_model::Store;
use pcm_base::{Refusal, Scan};
use std::alloc::Global;

/// The columns, where the tests are passed.
fn scan_columns<S: Store>(
    alloc: Global,
    reader: &mut BlockReader<S>,
    layout: &Layout,
    from: u64,
    to: u64,
    columns: u64,
) -> Result<Vec<Option<Scan>>, Refusal>
    requires named { AllNamed (layout_blocks layout.now) }
    requires rising { from ≤ to }
    requires small { to ≤ MAX_CELLS }
    requires some { 0 < columns }
    requires few { columns ≤ MAX_VIEW }
    ensures reads { Reads (layout_blocks layout.now) reader.old reader.new (disk_part result) }
    ensures hit { Hits (HasColumns reader.old.cache from to layout.now) reader.old reader.new (disk_part result) }
    ensures read { IsTrue (S.tells reader.old.store) → AllWhole (S.reads reader.old.store) (layout_blocks layout.now)
        → IfOk result
        (λ v. v.items ≡ columns_of from to columns (layout_cells (sources_of (S.reads reader.old.store)) layout.now)) }
    ensures reasons { IfErr result IsOfReads }
{
    let mut scans = Vec::with_capacity(alloc, columns as usize)?;
    let mut ahead = Ahead {
        stretch: Stretch::Gaps { len: 0 },
        rest: layout.rest(from),
    };
    let mut known = None;
    let mut begin = from;
    'rows: for i in 0..columns {
        let end = edge(from, to, columns, i + 1);
        let count = end - begin;
        let reach = count.saturating_sub(1).min(to - end);
        let summary = sweep(reader, &mut known, &mut ahead, count, reach)?;
        scans.push(scan(summary))?;
        begin = end;
    }
    Ok(scans)
}

/// What a fresh scan finds of the cells of each of some columns of a range of a layout. It reads frames of blocks,
/// and samples at the edges of columns alone, but for those that the reader has kept. Where columns are narrower than a
/// page it reads the whole page and keeps it. It takes memory for the columns.
///
/// # Errors
///
/// `BadRange` where not `from < to <= layout.len()`; else `BadColumns` where `columns` is 0, more than 4,096, or more
/// than the range has cells; else `NoMemory`, or a fault of the disk or of a block that is read.
pub fn columns<S: Store>(
    alloc: Global,
    reader: &mut BlockReader<S>,
    layout: &Layout,
    from: u64,
    to: u64,
    columns: u64,
) -> Result<Vec<Option<Scan>>, Refusal>
    // Each block that the layout names is one that a disk may have.
    requires named { AllNamed (layout_blocks layout.now) }
    // Nothing of the disk changes. Only damage of a block of the layout is reported, as it stands in its file.
    ensures reads { Reads (layout_blocks layout.now) reader.old reader.new (disk_part result) }
    // Where the cache has all pages of what stands in the range no read fails, whatever the store would answer, and
    // it is
    // asked nothing.
    ensures hit { Hits (HasColumns reader.old.cache from to layout.now) reader.old reader.new (disk_part result) }
    ensures read { IsTrue (S.tells reader.old.store) → AllWhole (S.reads reader.old.store) (layout_blocks layout.now)
        → IfOk result
        (λ v. v.items ≡ columns_of from to columns (layout_cells (sources_of (S.reads reader.old.store)) layout.now)) }
    // The tests refuse exactly as the model's do; where they are passed only a read or want of memory refuses.
    ensures tests { AnswersTest (column_tests from to columns (end_of 0 layout.now)) result }
    // No damage is reported where all blocks of the layout are whole.
    ensures valid { IsTrue (S.tells reader.old.store) → AllWhole (S.reads reader.old.store) (layout_blocks layout.now)
        → IfErr result IsUndamaged }
{
    test_columns(from, to, columns, layout.len())?;
    let scans = scan_columns(alloc, reader, layout, from, to, columns)?;
    Ok(scans)
}
