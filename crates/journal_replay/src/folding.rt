// The records of a journal, one after another.
ghost use Rattle.std.specs.Prelude.{◌≡◌, ◌+◌, ◌*◌, ◌≤◌, ◌<◌, ◌^◌, ◌-◌, [], IfOk, OnOk, IsErrOf, MatchResult, length};
ghost use Rattle.pcm_base.specs.declared.limits.TheConstants.{COUNTER_LIMIT};
ghost use Rattle.disk_model.specs.Frames.{Kept as IsKept};
ghost use Rattle.project_journal.specs.Answer.{Causes};
ghost use Rattle.project_journal.specs.Reader.{IsHeading, IsPlaced, last_record, reader_form};
ghost use Rattle.record_body.specs.FirstFault.{Finds};
ghost use Rattle.record_body.specs.Saved.{new_project, after_body, version_of, IsNextIn};
ghost use Rattle.journal_replay.specs.Faults.{record_tests, says};
ghost use Rattle.journal_replay.specs.Folds.{saved_of, Brings, FoldsOne, FoldsStored, HasLayoutNumbers, IsBrought};
ghost use Rattle.journal_replay.specs.Folds.{IsValid};
ghost use Rattle.journal_replay.specs.Heads.{DrawsFew, ReadsOn};

use super::heading::{in_journal, read_points};
use super::project::Project;
use super::reading::{current_of, read_record};
use super::steps::take_body;
use disk_model::Store;
use project_journal::{JournalFault, Next, Reader};
use record_body::{BadBody, Before};
use std::alloc::Global;

/// Folds one record more, whose body stands at this place of the file.
fn take_record(
    alloc: Global,
    project: &mut Project,
    version: u32,
    m: u32,
    at: u64,
    bytes: &[u8],
) -> Result<(), BadBody>
    requires least { 4 ≤ m }
    requires commit { project.old.commit < 2 ^ 64 - 1 }
    requires valid { IsValid m (saved_of project.old) }
    requires layouts { project.old.numbered.next ≤ COUNTER_LIMIT }
    requires numbers { HasLayoutNumbers project.old }
    ensures finds { Finds (record_tests version m (saved_of project.old) (at, bytes.now))
        (λ _. IsNextIn version m (saved_of project.old) bytes.now (says version (saved_of project.old) bytes.now)
        × (saved_of project.new ≡ after_body (saved_of project.old) (says version (saved_of project.old) bytes.now)))
        result }
    ensures numbers { OnOk result (HasLayoutNumbers project.new) }
    // Each track that a record says has 9 bytes there, and draws one number at most.
    ensures few { OnOk result (9 * project.new.numbered.next ≤ 9 * project.old.numbered.next + length bytes.now) }
{
    let before = Before {
        at,
        next_block: project.next_block,
        next_track: project.next_track,
        commits: project.commit,
    };
    let current = current_of(&project.numbered.history);
    match read_record(alloc, bytes, version, m, before, current) {
        Ok(body) => take_body(alloc, project, at, body),
        Err(fault) => Err(fault),
    }
}

/// The project before the first record, where the header has no points.
fn no_records(alloc: Global, depth: u32) -> Result<Project, JournalFault>
    requires { 1 ≤ depth }
    ensures kept { MatchResult result (λ p. saved_of p ≡ new_project depth) (λ e. e ≡ JournalFault.NoMemory) }
    ensures numbers { IfOk result HasLayoutNumbers }
    ensures first { IfOk result (λ p. p.numbered.next ≤ 1) }
{
    match Project::new(alloc, depth) {
        Ok(project) => Ok(project),
        Err(_) => Err(JournalFault::NoMemory),
    }
}

/// The project before the first record, as the header brings it.
fn bring<S: Store>(
    alloc: Global,
    store: &mut S,
    reader: &mut Reader,
    m: u32,
) -> Result<Project, JournalFault>
    requires heading { IsHeading S.Store store.old reader.old [] }
    requires size { m ≡ reader.old.block_size }
    ensures brings { Brings S.Store store.new m reader.new result }
    ensures later { ReadsOn reader.old reader.new result }
    ensures commit { IfOk result (λ p. p.commit ≤ COUNTER_LIMIT) }
    ensures numbers { IfOk result HasLayoutNumbers }
    ensures few { IfOk result (λ p. DrawsFew p.numbered.next reader.new) }
    ensures cause { Causes S.Store store.old store.new result }
    ensures kept { IsKept S.Store store.old store.new }
{
    let base = reader.base();
    if base.count == 0 {
        return no_records(alloc, reader.depth());
    }
    let numbered = read_points(alloc, store, reader, m)?;
    Ok(Project {
        numbered,
        next_block: base.next_block,
        next_track: base.next_track,
        commit: base.commit,
    })
}

/// The version of the journal's form, 1 to 3.
pub fn version_in(reader: &Reader) -> u32
    ensures { result ≡ version_of (reader_form reader.now) }
{
    if reader.version() < 2 {
        return 1;
    }
    if reader.version() < 3 { 2 } else { 3 }
}

/// Folds the record that was read last.
fn fold_last(
    alloc: Global,
    project: &mut Project,
    version: u32,
    m: u32,
    reader: &Reader,
) -> Result<(), JournalFault>
    requires least { 4 ≤ m }
    requires commit { project.old.commit < 2 ^ 64 - 1 }
    requires valid { IsValid m (saved_of project.old) }
    requires layouts { project.old.numbered.next ≤ COUNTER_LIMIT }
    requires numbers { HasLayoutNumbers project.old }
    requires placed { IsPlaced reader.now }
    ensures folds { FoldsOne version m (saved_of project.old) reader.now.window.file (last_record reader.now)
        (saved_of project.new) result }
    ensures numbers { OnOk result (HasLayoutNumbers project.new) }
    ensures few { OnOk result
        (9 * project.new.numbered.next ≤ 9 * project.old.numbered.next + length (last_record reader.now).1) }
    ensures no_fault { IsErrOf result JournalFault.DiskFault → ⊥ }
{
    let (at, bytes) = reader.record();
    match take_record(alloc, project, version, m, at, bytes) {
        Ok(()) => Ok(()),
        Err(BadBody::NoMemory) => Err(JournalFault::NoMemory),
        Err(BadBody::Damaged { fault }) => Err(in_journal(reader.file(), fault)),
    }
}

/// Folds the records of a journal into the project that its header brings.
fn fold_records<S: Store>(
    alloc: Global,
    store: &mut S,
    reader: &mut Reader,
    version: u32,
    m: u32,
    project: Project,
) -> Result<Project, JournalFault>
    requires version { version ≡ version_of (reader_form reader.old) }
    requires brought { IsBrought S.Store store.old m reader.old (saved_of project) }
    requires size { m ≡ reader.old.block_size }
    requires least { 4 ≤ m }
    requires commit { project.commit ≤ COUNTER_LIMIT }
    requires numbers { HasLayoutNumbers project }
    requires few { DrawsFew project.numbered.next reader.old }
    ensures folds { FoldsStored S.Store store.new reader.new result }
    ensures later { ReadsOn reader.old reader.new result }
    ensures cause { Causes S.Store store.old store.new result }
    ensures kept { IsKept S.Store store.old store.new }
{
    let mut project = project;
    'records: loop {
        let next = reader.next(store)?;
        match next {
            Next::Whole(_len) => fold_last(alloc, &mut project, version, m, reader)?,
            Next::Shut => return Ok(project),
            Next::Early(fault) => return Err(in_journal(reader.file(), fault)),
        }
    }
}

/// The project to which the records of a journal lead from the one that its header brings. It reads each point and
/// record once, and takes memory for the points that the history keeps, for the point of one record and for the bytes
/// that the reader holds, which are those of 64 KiB or of the longest record or point. Each layout gets its number as
/// its point is read.
///
/// # Errors
///
/// `Damaged`: the first field, by its place in the file, that is not as `docs/FORMATS.md` asks. Where the file ends too
/// early, that is reported after all faults of the points and records before. `DiskFault`: the disk failed. `NoMemory`:
/// there is no memory for the points, or for a record's bytes.
pub fn fold_journal<S: Store>(
    alloc: Global,
    store: &mut S,
    reader: &mut Reader,
) -> Result<Project, JournalFault>
    requires { IsHeading S.Store store.old reader.old [] }
    ensures folds { FoldsStored S.Store store.new reader.new result }
    // What is found is found in the reader's journal.
    ensures later { ReadsOn reader.old reader.new result }
    ensures cause { Causes S.Store store.old store.new result }
    ensures kept { IsKept S.Store store.old store.new }
{
    let m = reader.block_size();
    let project = bring(alloc, store, reader, m)?;
    let version = version_in(reader);
    fold_records(alloc, store, reader, version, m, project)
}
