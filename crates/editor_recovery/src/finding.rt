// What the journal and the files of a disk amount to.
ghost use Rattle.std.specs.Prelude.{◌≡◌, ◌≤◌, [], None, IsTrue, IfOk, IfErr, IsErrOf, OnOk, Contains, find};
ghost use Rattle.std.specs.List.{All};
ghost use Rattle.std.specs.List.Sorted.{IsStrictlyIncreasing};
ghost use Rattle.pcm_base.specs.declared.limits.TheConstants.{COUNTER_LIMIT, MAX_BLOCK_SAMPLES};
ghost use Rattle.sample_block.specs.Spelling.{IsBlock, size_of};
ghost use Rattle.project_journal.specs.Gate.{IsDurable};
ghost use Rattle.project_journal.specs.Header.{Form, IsForm};
ghost use Rattle.project_journal.specs.Journal.{Contents, Log, HasLog, IsAt};
ghost use Rattle.project_journal.specs.Opening.{IsOpened};
ghost use Rattle.project_journal.specs.Reader.{IsHeading, reader_form};
ghost use Rattle.project_state.specs.Meaning.{point_blocks, history_blocks};
ghost use Rattle.layout_uses.specs.Layouts.{AreNumbered, history_tracks};
ghost use Rattle.disk_model.specs.Frames.{Kept};
ghost use Rattle.editor_recovery.specs.Bounds.{IsValidParts};
ghost use Rattle.editor_recovery.specs.Listing.{AreFiles, IsOpenRefusal};
ghost use Rattle.editor_recovery.specs.Files.{is_foreign, NoForeign};
ghost use Rattle.editor_recovery.specs.Found.{answer_in};
ghost use Rattle.editor_recovery.specs.Finding.{FoldsDisk, IsFoldOf, IsValidFolded, records_fault, TestsMeasured};
ghost use Rattle.editor_recovery.specs.Finding.{TestsSizes, ArePartsOf};
ghost use Rattle.editor_recovery.specs.Measured.{size_in};
ghost use Rattle.editor_recovery.specs.Causes.{Causes};
ghost use Rattle.editor_views.specs.Scans.{HaveOneLength};
ghost use Rattle.editor_recovery.specs.Opening.{Opens};
ghost use Rattle.editor_recovery.specs.Reading.{IsRead};

use super::counting::count_layouts;
use super::disk::{Disk, Folded};
use super::fault::OpenFault;
use super::listing::block_above;
use super::measuring::measure;
use super::sizes::{Sizes, wrong_block};
use disk_model::Store;
use editor_core::Parts;
use journal_replay::{fold_journal, version_in};
use layout_uses::Numbered;
use pcm_base::BlockRef;
use project_journal::{JournalFault, Reader};
use project_state::Point;
use sample_block::file_size;
use std::alloc::Global;
use undo_history::History;

/// How many pages of samples, and of frames, an opened project may keep.
const PAGES: u64 = 64;

/// Why the records are not folded.
fn unfolded(fault: JournalFault) -> OpenFault
    ensures { result ≡ records_fault fault }
{
    match fault {
        JournalFault::Damaged {
            file,
            at,
            want,
            have,
        } => OpenFault::Damaged {
            file,
            at,
            want,
            have,
        },
        JournalFault::DiskFault => OpenFault::DiskFault,
        JournalFault::NoMemory => OpenFault::NoMemory,
        // A fold has none of these answers.
        JournalFault::Absent | JournalFault::Exists | JournalFault::SpaceSpent { .. } => {
            OpenFault::Exists
        }
    }
}

/// The project to which the records lead, and what the journal says beside it. The reader's bytes are given back with
/// its return.
fn fold_disk<S: Store>(alloc: Global, store: &mut S, reader: Reader) -> Result<Folded, OpenFault>
    requires { IsHeading S.Store store.old reader [] }
    ensures folds { FoldsDisk S.Store store.new (reader_form reader) result }
    ensures opening { IfErr result IsOpenRefusal }
    ensures valid { IfOk result IsValidFolded }
    ensures kept { Kept S.Store store.old store.new }
    ensures cause { Causes S.Store store.old store.new result }
{
    let mut reader = reader;
    match fold_journal(alloc, store, &mut reader) {
        Ok(project) => Ok(Folded {
            rate: reader.rate(),
            block_size: reader.block_size(),
            file: reader.file(),
            version: version_in(&reader),
            generation: reader.base().generation,
            end: reader.end(),
            project,
        }),
        Err(fault) => Err(unfolded(fault)),
    }
}

/// The fault of a block whose file has not its size.
fn size_fault(sizes: &Sizes, block: BlockRef) -> OpenFault
    requires { block.len ≤ MAX_BLOCK_SAMPLES }
    ensures { result ≡ OpenFault.Damaged block.id 0 (size_of block.len) (size_in sizes.now block.id) }
{
    OpenFault::Damaged {
        file: block.id,
        at: 0,
        want: file_size(block.len as usize) as u128,
        have: sizes.get(block.id) as u128,
    }
}

/// Whether the file of each block that a point names has its size, by sizes that were measured.
fn test_blocks(alloc: Global, history: &History<Point>, sizes: &Sizes) -> Result<(), OpenFault>
    requires blocks { All (λ p. All (λ b. IsBlock b.id b.len) (point_blocks p.0)) history.now.history.points }
    requires numbered { AreNumbered (history_tracks history.now.history) }
    ensures tests { TestsMeasured (size_in sizes.now) (history_blocks history.now.history) result }
    ensures no_fault { IsErrOf result OpenFault.DiskFault → ⊥ }
{
    match wrong_block(alloc, history, sizes) {
        None => Ok(()),
        Some(block) => Err(size_fault(sizes, block)),
    }
}

/// Whether the file of each block that a point names has its size. Such a file is among those that are listed.
fn test_files<S: Store>(
    alloc: Global,
    store: &mut S,
    files: &[u64],
    history: &History<Point>,
) -> Result<(), OpenFault>
    requires blocks { All (λ p. All (λ b. IsBlock b.id b.len) (point_blocks p.0)) history.now.history.points }
    requires numbered { AreNumbered (history_tracks history.now.history) }
    ensures tests { IsTrue (S.tells store.old) → AreFiles (S.reads store.old) files.now
        → TestsSizes (S.reads store.old) (history_blocks history.now.history) result }
    ensures one_length { OnOk result (HaveOneLength (history_blocks history.now.history)) }
    ensures named { OnOk result
        (All (λ p. All (λ b. (2 ≤ b.id) × Contains files.now b.id) (point_blocks p.0)) history.now.history.points) }
    ensures opening { IfErr result IsOpenRefusal }
    ensures kept { Kept S.Store store.old store.new }
    ensures cause { Causes S.Store store.old store.new result }
{
    match measure(alloc, store, files) {
        Ok(sizes) => test_blocks(alloc, history, &sizes),
        Err(fault) => Err(fault),
    }
}

/// The parts of a project whose blocks are all among the files.
fn parts_of(alloc: Global, files: &[u64], folded: Folded) -> Result<Parts, OpenFault>
    requires known { find is_foreign files.now ≡ None }
    requires rising { IsStrictlyIncreasing files.now }
    requires valid { IsValidFolded folded }
    requires block { folded.project.next_block ≤ COUNTER_LIMIT }
    requires named { All (λ p. All (λ b. (2 ≤ b.id) × Contains files.now b.id) (point_blocks p.0))
        folded.project.numbered.history.history.points }
    ensures parts { IfOk result (ArePartsOf files.now folded) }
    ensures memory { IfErr result (λ e. e ≡ OpenFault.NoMemory) }
{
    let next_block = block_above(files, folded.project.next_block);
    let Folded {
        rate,
        block_size,
        file,
        version,
        generation,
        end,
        project,
    } = folded;
    let Numbered {
        history,
        next: next_layout,
    } = project.numbered;
    let _points = history.len();
    let tally = count_layouts(alloc, files, &history)?;
    Ok(Parts {
        rate,
        pages: PAGES,
        block_size,
        history,
        tally,
        next_block,
        next_track: project.next_track,
        next_layout,
        commit_number: project.commit,
        file,
        version,
        generation,
        journal_end: end,
    })
}

/// The sizes of the files, and then the parts.
fn size_parts<S: Store>(
    alloc: Global,
    store: &mut S,
    files: &[u64],
    folded: Folded,
) -> Result<Parts, OpenFault>
    requires known { find is_foreign files.now ≡ None }
    requires rising { IsStrictlyIncreasing files.now }
    requires valid { IsValidFolded folded }
    ensures opens { (form : Form) (j : Contents) → IsTrue (S.tells store.old)
        → IsRead (S.reads store.old) form j files.now → IsFoldOf form j folded → Opens (S.reads store.old) (answer_in result) }
    ensures valid { IfOk result IsValidParts }
    ensures opening { IfErr result IsOpenRefusal }
    ensures end { IfOk result (λ p. p.journal_end ≡ folded.end) }
    ensures kept { Kept S.Store store.old store.new }
    ensures cause { Causes S.Store store.old store.new result }
{
    match test_files(alloc, store, files, &folded.project.numbered.history) {
        Ok(()) => parts_of(alloc, files, folded),
        Err(fault) => Err(fault),
    }
}

/// What a disk has, by its journal and its files.
pub(crate) fn find_parts<S: Store>(
    alloc: Global,
    store: &mut S,
    disk: Disk,
) -> Result<Parts, OpenFault>
    requires known { find is_foreign disk.files.items ≡ None }
    requires rising { IsStrictlyIncreasing disk.files.items }
    requires heading { IsHeading S.Store store.old disk.reader [] }
    ensures opens { IsTrue (S.tells store.old) → AreFiles (S.reads store.old) disk.files.items
        → NoForeign (S.reads store.old) → IsOpened (S.reads store.old) disk.reader
        → Opens (S.reads store.old) (answer_in result) }
    ensures at_rest { IsTrue (S.tells store.old) → IsDurable S.Store store.old 0 → IsDurable S.Store store.old 1
        → IsOpened (S.reads store.old) disk.reader
        → IfOk result (λ p. (form : Form) (log : Log) → IsForm form → form.file ≤ 1
        → HasLog form log (S.reads store.old) → IsAt form S.Store store.new p.journal_end log) }
    ensures valid { IfOk result IsValidParts }
    ensures opening { IfErr result IsOpenRefusal }
    ensures kept { Kept S.Store store.old store.new }
    ensures cause { Causes S.Store store.old store.new result }
{
    let Disk { reader, files } = disk;
    match fold_disk(alloc, store, reader) {
        Ok(folded) => size_parts(alloc, store, &files, folded),
        Err(fault) => Err(fault),
    }
}
