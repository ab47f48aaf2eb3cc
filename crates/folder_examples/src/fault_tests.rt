// Each kind of call of the system fails once below each call of a store that makes it.
use crate::asking::{Asked, Step, first_other};
use crate::watch::Call;
use pcm_base::COUNTER_LIMIT;
use std::alloc::AllocError;
use std::fs;
use std::io::ErrorKind;

/// Calls on file 16, which is there, and on file 17, which is absent, each with the call of the system that fails below
/// it, and how many of that kind are served before.
static FAULTS: [(Asked, u64, Call, u32); 24] = [
    (Asked::Size, 16, Call::Look, 0),
    (Asked::Read, 16, Call::Look, 0),
    (Asked::Read, 16, Call::Open, 0),
    (Asked::Read, 16, Call::Read, 0),
    (Asked::Parts, 16, Call::Look, 0),
    (Asked::Parts, 16, Call::Open, 0),
    (Asked::Parts, 16, Call::Read, 0),
    // The folder, the file where it is to be made, and the file.
    (Asked::Write, 16, Call::Open, 0),
    (Asked::Write, 16, Call::Open, 1),
    (Asked::Write, 16, Call::Look, 0),
    (Asked::Write, 16, Call::Open, 2),
    (Asked::Write, 16, Call::Write, 0),
    (Asked::Write, 17, Call::Open, 0),
    (Asked::Write, 17, Call::Open, 1),
    (Asked::Write, 17, Call::Write, 0),
    (Asked::Sync, 16, Call::Open, 0),
    (Asked::Sync, 16, Call::Look, 0),
    (Asked::Sync, 16, Call::Open, 1),
    (Asked::Sync, 16, Call::SyncFile, 0),
    (Asked::Sync, 16, Call::SyncFolder, 0),
    (Asked::Sync, 17, Call::SyncFolder, 0),
    (Asked::Remove, 16, Call::Open, 0),
    (Asked::Remove, 16, Call::Look, 0),
    (Asked::Remove, 16, Call::Remove, 0),
];

/// Calls of the system below the first write to a folder that is absent.
static FIRST_FAULTS: [(Call, u32); 6] = [
    (Call::Open, 0),
    (Call::MakeFolder, 0),
    (Call::MakeFolder, 1),
    (Call::Open, 1),
    (Call::Open, 2),
    (Call::Write, 0),
];

// Whether the call of a new store over the folder fails where the call of the system does, and raises the count of its
// kind by one.
fn fails(
    rt: HostRuntime,
    asked: Asked,
    file: u64,
    call: Call,
    served: u32,
) -> Result<bool, AllocError> {
    let steps = [
        Step::FailAt(call, served),
        Step::Fails(asked, file),
        Step::Faults(1, u64::from(asked.is_change())),
    ];
    Ok(first_other(rt, "faults-store", &steps)?.is_none())
}

static WRITTEN: [Step; 1] = [Step::Done(Asked::Write, 16)];

#[test]
fn each_fault_of_a_store_is_counted_as_its_call(rt: HostRuntime) -> Result<(), AllocError> {
    let home = "faults-store";
    for (asked, file, call, served) in &FAULTS {
        let _ = fs::remove_dir_all(&rt, home);
        assert!(rt; first_other(rt, home, &WRITTEN)?.is_none());
        let is_fault = fails(rt, *asked, *file, *call, *served)?;
        assert!(rt; is_fault, "{asked:?} {file} {call:?} {served}");
    }
    for (call, served) in &FIRST_FAULTS {
        let _ = fs::remove_dir_all(&rt, home);
        let is_fault = fails(rt, Asked::Write, 16, *call, *served)?;
        assert!(rt; is_fault, "{call:?} {served}");
    }
    let _ = fs::remove_dir_all(&rt, home);
    Ok(())
}

const OPEN: [Step; 13] = [
    Step::Done(Asked::Write, 16),
    Step::FailAt(Call::Look, 0),
    Step::Fails(Asked::Size, 16),
    Step::GrowthFails,
    Step::ListFails,
    Step::Faults(3, 1),
    Step::FailAt(Call::List, 0),
    Step::ListFails,
    Step::FailAt(Call::Read, 0),
    Step::ListFails,
    Step::FailAt(Call::Resize, 0),
    Step::GrowthFails,
    Step::Faults(6, 2),
];

// No sync is trusted after one that failed.
const LOST: [Step; 8] = [
    Step::Done(Asked::Write, 16),
    Step::FailAt(Call::SyncFile, 0),
    Step::Fails(Asked::Sync, 16),
    Step::ServeAll,
    Step::Fails(Asked::Sync, 16),
    Step::Fails(Asked::Sync, 0),
    Step::Faults(3, 3),
    Step::Done(Asked::Read, 16),
];

// After a sync that failed what was written is written again: a byte of the journal, and seven of a block.
const AGAIN: [Step; 16] = [
    Step::Write(0, 60, b"a record"),
    Step::Done(Asked::Sync, 0),
    Step::Write(17, 0, b"synced"),
    Step::Done(Asked::Sync, 17),
    Step::Write(0, 59, b"A"),
    Step::Write(16, 3, b"abc"),
    Step::Write(16, 8, b"d"),
    Step::Counts([7, 0, 5, 2, 4, 0]),
    Step::FailAt(Call::SyncFile, 0),
    Step::Fails(Asked::Sync, 16),
    Step::Counts([0, 0, 2, 1, 0, 0]),
    Step::ServeAll,
    Step::Read(16, 0, b"\0\0\0abc\0\0d"),
    Step::Read(0, 59, b"Aa record"),
    Step::Fails(Asked::Sync, 0),
    Step::Counts([0, 0, 0, 0, 0, 0]),
];

// So it is of a journal in file 1: here of the byte that opens the gate of a record.
const AGAIN_PACKED: [Step; 10] = [
    Step::Write(1, 60, b"a record"),
    Step::Done(Asked::Sync, 1),
    Step::Write(1, 59, b"A"),
    Step::Counts([5, 0, 2, 1, 3, 0]),
    Step::FailAt(Call::SyncFile, 0),
    Step::Fails(Asked::Sync, 1),
    Step::Counts([0, 0, 1, 1, 0, 0]),
    Step::ServeAll,
    Step::Read(1, 59, b"Aa record"),
    Step::Fails(Asked::Sync, 1),
];

// Where the system has no more descriptors the files that are open are synced and closed.
const FEW_OPEN: [Step; 7] = [
    Step::MostOpen(20),
    Step::All(Asked::Write, 0, 100),
    Step::All(Asked::Sync, 0, 100),
    Step::All(Asked::Read, 0, 100),
    Step::All(Asked::Write, 0, 100),
    Step::All(Asked::Remove, 1, 100),
    Step::Faults(0, 0),
];

// Such a sync may fail, also below a read.
const FEW_LOST: [Step; 7] = [
    Step::Done(Asked::Write, 16),
    Step::Done(Asked::Write, 17),
    Step::MostOpen(2),
    Step::FailAt(Call::SyncFile, 0),
    Step::Fails(Asked::Write, 18),
    Step::ServeAll,
    Step::Fails(Asked::Sync, 16),
];

// A sync that comes early, since too many files wait for one, is a fault of the write.
const EARLY: [Step; 7] = [
    Step::FailAt(Call::SyncFile, 0),
    Step::All(Asked::Write, 16, 528),
    Step::Fails(Asked::Write, 528),
    Step::Faults(1, 1),
    Step::ServeAll,
    Step::Fails(Asked::Sync, 16),
    Step::Faults(2, 2),
];

// Calls that move one byte go on. Then the disk is full after two bytes more, and then a writer takes nothing.
const SHORT: [Step; 12] = [
    Step::Most(1),
    Step::Done(Asked::Write, 16),
    Step::Read(16, 0, b"abcd"),
    Step::FailAs(ErrorKind::StorageFull),
    Step::FailAt(Call::Write, 2),
    Step::Fails(Asked::Write, 17),
    Step::Faults(1, 1),
    Step::Size(17, Some(2)),
    Step::ServeAll,
    Step::Most(0),
    Step::Fails(Asked::Write, 16),
    Step::Faults(2, 2),
];

// A file of 2^62 bytes, and one that is longer.
const LONG: [Step; 6] = [
    Step::Done(Asked::Write, 16),
    Step::Length(COUNTER_LIMIT),
    Step::Size(16, Some(COUNTER_LIMIT)),
    Step::Length(COUNTER_LIMIT + 1),
    Step::Fails(Asked::Size, 16),
    Step::Faults(1, 0),
];

// Each in a folder of its own.
static IN_TURN: [(&'static str, &'static [Step]); 9] = [
    ("faults-open", &OPEN),
    ("faults-sync", &LOST),
    ("faults-again", &AGAIN),
    ("faults-packed", &AGAIN_PACKED),
    ("faults-few", &FEW_OPEN),
    ("faults-lost", &FEW_LOST),
    ("faults-early", &EARLY),
    ("faults-short", &SHORT),
    ("faults-long", &LONG),
];

#[test]
fn faults_are_counted_and_go_on_or_not(rt: HostRuntime) -> Result<(), AllocError> {
    for (home, steps) in &IN_TURN {
        let _ = fs::remove_dir_all(&rt, home);
        let other = first_other(rt, home, steps)?;
        assert!(rt; other.is_none(), "{home} {other:?}");
        let _ = fs::remove_dir_all(&rt, home);
    }
    Ok(())
}

// The file that is written, and whether it is then synced where calls of this kind fail after `served` of them, of those on
// the project's folder and the two above it.
fn failing_above(call: Call, served: u32, asked_sync: Step) -> [Step; 3] {
    [
        Step::Done(Asked::Write, 16),
        Step::FailAt(call, served),
        asked_sync,
    ]
}

const SYNCED: Step = Step::Done(Asked::Sync, 16);

const NOT_SYNCED: Step = Step::Fails(Asked::Sync, 16);

// Which calls fail, which folder is removed before, and what the sync comes to: where both folders above are made,
// where none is, and where the inner one alone is. The write has opened the project's own.
static ABOVE: [(Call, u32, &'static str, Step); 9] = [
    (Call::Open, 1, "faults-above", NOT_SYNCED),
    (Call::Open, 0, "", SYNCED),
    (Call::Open, 1, "faults-above/project", SYNCED),
    (Call::Open, 0, "faults-above/project", NOT_SYNCED),
    (Call::SyncFolder, 2, "faults-above", NOT_SYNCED),
    (Call::SyncFolder, 1, "", SYNCED),
    (Call::SyncFolder, 0, "", NOT_SYNCED),
    (Call::SyncFolder, 2, "faults-above/project", SYNCED),
    (Call::SyncFolder, 1, "faults-above/project", NOT_SYNCED),
];

#[test]
fn a_folder_above_in_which_nothing_was_made_may_fail(rt: HostRuntime) -> Result<(), AllocError> {
    for (call, served, removed, want) in &ABOVE {
        if !removed.is_empty() {
            let _ = fs::remove_dir_all(&rt, removed);
        }
        let steps = failing_above(*call, *served, *want);
        let other = first_other(rt, "faults-above", &steps)?;
        assert!(rt; other.is_none(), "{call:?} {served} {removed} {other:?}");
    }
    let _ = fs::remove_dir_all(&rt, "faults-above");
    Ok(())
}
