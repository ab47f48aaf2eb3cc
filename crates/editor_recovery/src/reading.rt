// The journal of a disk, and the files beside it.
ghost use Rattle.std.specs.Prelude.{◌≡◌, [], None, IsTrue, IfOk, OnOk, find, IfErr};
ghost use Rattle.std.specs.List.Sorted.{IsStrictlyIncreasing};
ghost use Rattle.project_journal.specs.Gate.{IsDurable};
ghost use Rattle.project_journal.specs.Reader.{IsHeading};
ghost use Rattle.disk_model.specs.Disk.{StaysStep};
ghost use Rattle.disk_model.specs.Frames.{Kept, Changed};
ghost use Rattle.editor_recovery.specs.Listing.{IsOpenRefusal, Lists};
ghost use Rattle.editor_recovery.specs.Files.{is_foreign};
ghost use Rattle.editor_recovery.specs.Causes.{Causes};
ghost use Rattle.editor_recovery.specs.Reading.{ReadsDisk, Refuses};

use super::disk::Disk;
use super::fault::OpenFault;
use super::listing::list_files;
use disk_model::Store;
use project_journal::{JournalFault, Reader, open_journal};
use std::alloc::Global;

/// The files beside a journal whose header was read.
fn with_files<S: Store>(alloc: Global, store: &mut S, reader: Reader) -> Result<Disk, OpenFault>
    ensures reader { IfOk result (λ d. d.reader ≡ reader) }
    ensures lists { IsTrue (S.tells store.old) → Lists (S.reads store.old) (λ d. d.files.items) result }
    ensures known { IfOk result (λ d. find is_foreign d.files.items ≡ None) }
    ensures rising { IfOk result (λ d. IsStrictlyIncreasing d.files.items) }
    ensures opening { IfErr result IsOpenRefusal }
    ensures kept { Kept S.Store store.old store.new }
    ensures cause { Causes S.Store store.old store.new result }
{
    match list_files(alloc, store) {
        Ok(files) => Ok(Disk { reader, files }),
        Err(fault) => Err(fault),
    }
}

/// The fault of the choice between the files or of a header, which is reported where no file is foreign.
fn refused<S: Store>(
    alloc: Global,
    store: &mut S,
    file: u64,
    at: u64,
    want: u128,
    have: u128,
) -> Result<Disk, OpenFault>
    ensures refuses { IsTrue (S.tells store.old) → Refuses (S.reads store.old) file at want have result }
    ensures none { IfOk result (λ d. ⊥) }
    ensures opening { IfErr result IsOpenRefusal }
    ensures kept { Kept S.Store store.old store.new }
    ensures cause { Causes S.Store store.old store.new result }
{
    match list_files(alloc, store) {
        Ok(_files) => Err(OpenFault::Damaged {
            file,
            at,
            want,
            have,
        }),
        Err(fault) => Err(fault),
    }
}

/// Reads the journal's header and lists the files. Absent comes first, then the first foreign file, and then the
/// header's fault.
pub(crate) fn read_disk<S: Store>(alloc: Global, store: &mut S) -> Result<Disk, OpenFault>
    ensures reads { IsTrue (S.tells store.old) → ReadsDisk (S.reads store.old) result }
    ensures heading { IfOk result (λ d. IsHeading S.Store store.new d.reader []) }
    ensures known { IfOk result (λ d. find is_foreign d.files.items ≡ None) }
    ensures rising { IfOk result (λ d. IsStrictlyIncreasing d.files.items) }
    ensures opening { IfErr result IsOpenRefusal }
    ensures cause { Causes S.Store store.old store.new result }
    ensures reads_same { S.reads store.new ≡ S.reads store.old }
    ensures durable { OnOk result (IsDurable S.Store store.new 0) }
    ensures other { OnOk result (IsDurable S.Store store.new 1) }
    ensures changed { Changed S.Store StaysStep (record { files = 0; bytes = 0; calls = 2 }) store.old store.new }
{
    match open_journal(alloc, store) {
        Ok(reader) => with_files(alloc, store, reader),
        Err(
            JournalFault::Damaged {
                file,
                at,
                want,
                have,
            },
        ) => refused(alloc, store, file, at, want, have),
        Err(JournalFault::Absent) => Err(OpenFault::Absent),
        Err(JournalFault::DiskFault) => Err(OpenFault::DiskFault),
        Err(JournalFault::NoMemory) => Err(OpenFault::NoMemory),
        // An opening has neither of these answers.
        Err(JournalFault::Exists | JournalFault::SpaceSpent { .. }) => Err(OpenFault::Exists),
    }
}
