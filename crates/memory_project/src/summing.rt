// What is told of a project after the script of a number.
ghost use Rattle.std.specs.Prelude.{◌≡◌, IfOk, OnOk, length};
ghost use Rattle.pcm_base.specs.Envelope.{scan_of};
ghost use Rattle.editor_core.specs.Core.{core_of};
ghost use Rattle.editor_state.specs.Studios.{studio_of};
ghost use Rattle.memory_project.specs.Sums.{IsSumOf, Looked, MaySum, first_column, first_len, track_cells};

use super::lines::want_of_memory;
use disk_model::Store;
use editor_core::Studio;
use pcm_base::{NoMemory, Scan, TrackLine};
use script_text::Summary;
use std::alloc::Global;

// How many cells the first track has.
fn first_len(lines: &[TrackLine]) -> u64
    ensures { result ≡ first_len lines.now }
{
    match lines.first() {
        Some(line) => line.len,
        None => 0,
    }
}

// How many cells the track of a project has that has one.
fn track_len<S: Store>(alloc: Global, studio: &Studio<S>) -> Result<u64, NoMemory>
    requires { MaySum S.Store (core_of studio.now) }
    ensures { IfOk result (λ n. n ≡ length (track_cells (studio_of S.Store (core_of studio.now)))) }
{
    match studio.tracks(alloc) {
        Ok(lines) => Ok(first_len(lines.as_slice())),
        Err(reason) => Err(want_of_memory(reason)),
    }
}

// What is found in the first of some columns.
fn first_column(columns: &[Option<Scan>]) -> Option<Scan>
    ensures { result ≡ first_column columns.now }
{
    match columns.first() {
        Some(column) => *column,
        None => None,
    }
}

// What a scan of the whole track finds.
fn scan_track<S: Store>(
    alloc: Global,
    studio: &mut Studio<S>,
    len: u64,
) -> Result<Option<Scan>, NoMemory>
    requires sum { MaySum S.Store (core_of studio.old) }
    requires len { len ≡ length (track_cells (studio_of S.Store (core_of studio.old))) }
    ensures scan { IfOk result (λ column. column ≡ scan_of (track_cells (studio_of S.Store (core_of studio.old)))) }
    ensures looks { OnOk result (Looked S.Store (core_of studio.old) (core_of studio.new)) }
{
    match studio.envelope(alloc, 1, 0, len, 1) {
        Ok(columns) => Ok(first_column(columns.as_slice())),
        Err(reason) => Err(want_of_memory(reason)),
    }
}

/// Tells of a project with one track what stands after the script of a number.
///
/// # Errors
///
/// There is no memory to look at it.
pub fn sum_up<S: Store>(
    alloc: Global,
    studio: &mut Studio<S>,
    number: u64,
    lines: u32,
) -> Result<Summary, NoMemory>
    requires { MaySum S.Store (core_of studio.old) }
    ensures sum { IfOk result (λ sum. IsSumOf S.Store number lines (core_of studio.new) sum) }
    ensures looks { OnOk result (Looked S.Store (core_of studio.old) (core_of studio.new)) }
{
    let cells = track_len(alloc, studio)?;
    let column = scan_track(alloc, studio, cells)?;
    Ok(Summary {
        number,
        lines: lines as u64,
        commits: studio.commit_number(),
        cells,
        blocks: studio.facts().blocks,
        column,
    })
}
