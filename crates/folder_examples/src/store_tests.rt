// The real folder: each test has one of its own, and removes it.
use crate::asking::{Asked, Step, first_other};
use crate::watch::Call;
use disk_model::Store;
use project_folder::FolderStore;
use std::alloc::AllocError;
use std::fs;
use std::os::unix::fs::symlink;

static KEPT: [Step; 18] = [
    Step::Size(16, None),
    Step::Write(16, 3, b"abc"),
    Step::Write(0, 5, b""),
    Step::Write(16, 1, b"x"),
    Step::Write(16, 2, b""),
    Step::Size(16, Some(6)),
    Step::Size(0, Some(5)),
    Step::Read(16, 1, b"x\0abc"),
    Step::Read(16, 6, b""),
    Step::Read(17, 0, b""),
    Step::Done(Asked::Sync, 16),
    Step::Done(Asked::Sync, 17),
    Step::Done(Asked::Remove, 16),
    Step::Done(Asked::Remove, 16),
    Step::Done(Asked::Sync, 16),
    Step::Size(16, None),
    Step::Size(0, Some(5)),
    Step::Faults(0, 0),
];

#[test]
fn files_are_kept_by_their_numbers(rt: HostRuntime) -> Result<(), AllocError> {
    let _ = fs::remove_dir_all(&rt, "folder-numbers");
    let other = first_other(rt, "folder-numbers", &KEPT)?;
    assert!(rt; other.is_none(), "{other:?}");
    let _ = fs::remove_dir_all(&rt, "folder-numbers");
    Ok(())
}

#[test]
fn decimal_numbers_alone_are_listed(rt: HostRuntime) -> Result<(), AllocError> {
    let _ = fs::remove_dir_all(&rt, "folder-names");
    let mut store = FolderStore::new(rt, rt.alloc(), "folder-names")?;
    let mut listed = Vec::new(rt.alloc());
    assert!(rt; listed.push(7).is_ok());
    assert!(rt; store.files(&mut listed).is_ok() && listed.len() == 0);
    for file in [20, 3, 0, 18446744073709551615] {
        assert!(rt; store.write_at(file, 0, b"a").is_ok());
    }
    for name in ["017", "18446744073709551616", "+5", "a", "5 "] {
        let path = format!(in rt.alloc(); "folder-names/project/{name}")?;
        assert!(rt; fs::write(&rt, path, b"x".as_slice()).is_ok());
    }
    assert!(rt; fs::create_dir(&rt, "folder-names/project/21").is_ok());
    assert!(rt; store.files(&mut listed).is_ok());
    assert!(rt; listed.as_slice() == [0, 3, 20, 18446744073709551615].as_slice());
    let _ = fs::remove_dir_all(&rt, "folder-names");
    Ok(())
}

// File 17 is a link, 18 one that leads nowhere, and 19 a folder.
static NOT_PLAIN: [Step; 16] = [
    Step::Fails(Asked::Size, 17),
    Step::Fails(Asked::Read, 17),
    Step::Fails(Asked::Write, 17),
    Step::Fails(Asked::Remove, 17),
    Step::Fails(Asked::Size, 18),
    Step::Fails(Asked::Read, 18),
    Step::Fails(Asked::Write, 18),
    Step::Fails(Asked::Remove, 18),
    Step::Fails(Asked::Size, 19),
    Step::Fails(Asked::Read, 19),
    Step::Fails(Asked::Write, 19),
    Step::Fails(Asked::Remove, 19),
    Step::Faults(12, 6),
    Step::Fails(Asked::Sync, 17),
    Step::Faults(13, 7),
    Step::Read(16, 0, b"abcd"),
];

#[test]
fn what_is_no_plain_file_fails(rt: HostRuntime) -> Result<(), AllocError> {
    let _ = fs::remove_dir_all(&rt, "folder-links");
    assert!(rt; first_other(rt, "folder-links", &[Step::Done(Asked::Write, 16)])?.is_none());
    assert!(rt; symlink(&rt, "16", "folder-links/project/17").is_ok());
    assert!(rt; symlink(&rt, "none", "folder-links/project/18").is_ok());
    assert!(rt; fs::create_dir(&rt, "folder-links/project/19").is_ok());
    let other = first_other(rt, "folder-links", &NOT_PLAIN)?;
    assert!(rt; other.is_none(), "{other:?}");
    let _ = fs::remove_dir_all(&rt, "folder-links");
    Ok(())
}

static NO_FOLDER: [Step; 5] = [
    Step::Fails(Asked::Write, 0),
    Step::Faults(1, 1),
    Step::Fails(Asked::Size, 0),
    Step::ListFails,
    Step::Faults(3, 1),
];

static NO_FOLDER_ABOVE: [Step; 3] = [
    Step::Done(Asked::Sync, 0),
    Step::Fails(Asked::Write, 0),
    Step::Faults(1, 1),
];

#[test]
fn a_file_in_the_folders_place_fails(rt: HostRuntime) -> Result<(), AllocError> {
    let _ = fs::remove_file(&rt, "folder-file");
    assert!(rt; fs::write(&rt, "folder-file", b"x".as_slice()).is_ok());
    for (home, steps) in [
        ("folder-file", NO_FOLDER.as_slice()),
        ("folder-none/in", NO_FOLDER_ABOVE.as_slice()),
    ] {
        let other = first_other(rt, home, steps)?;
        assert!(rt; other.is_none(), "{home} {other:?}");
    }
    let _ = fs::remove_file(&rt, "folder-file");
    Ok(())
}

// Appends of a record after a gate, a put, an edit of three blocks and its record, and a block that is removed, each
// with the calls of the system that it takes. The first also syncs the folder, and the two above it.
static CALLS: [Step; 34] = [
    Step::Write(0, 60, b"a record"),
    Step::Done(Asked::Sync, 0),
    Step::Write(0, 59, b"A"),
    Step::Done(Asked::Sync, 0),
    Step::Counts([5, 0, 2, 2, 3, 0]),
    Step::Write(0, 60, b"a record"),
    Step::Done(Asked::Sync, 0),
    Step::Write(0, 59, b"A"),
    Step::Done(Asked::Sync, 0),
    Step::Counts([0, 0, 2, 2, 0, 0]),
    Step::Write(16, 0, b"samples"),
    Step::Done(Asked::Sync, 16),
    Step::Counts([1, 0, 1, 1, 1, 0]),
    Step::Write(17, 0, b"samples"),
    Step::Write(18, 0, b"samples"),
    Step::Write(19, 0, b"samples"),
    Step::Counts([3, 0, 3, 0, 0, 0]),
    Step::Done(Asked::Sync, 17),
    Step::Counts([0, 0, 0, 3, 1, 0]),
    Step::Done(Asked::Sync, 18),
    Step::Done(Asked::Sync, 19),
    Step::Counts([0, 0, 0, 0, 0, 0]),
    Step::Write(0, 60, b"a record"),
    Step::Done(Asked::Sync, 0),
    Step::Write(0, 59, b"A"),
    Step::Done(Asked::Sync, 0),
    Step::Counts([0, 0, 2, 2, 0, 0]),
    Step::Done(Asked::Remove, 17),
    Step::Done(Asked::Sync, 17),
    Step::Counts([0, 2, 0, 0, 1, 1]),
    Step::Write(18, 3, b"p"),
    Step::Done(Asked::Sync, 18),
    Step::Counts([0, 0, 1, 1, 0, 0]),
    Step::Faults(0, 0),
];

// The journal goes from file 0 to file 1, in the order of a compact, and a record is added there.
static PACKED: [Step; 22] = [
    Step::Write(0, 0, b"journal"),
    Step::Done(Asked::Sync, 0),
    Step::Counts([5, 0, 1, 1, 3, 0]),
    Step::Size(1, None),
    Step::Done(Asked::Sync, 1),
    Step::Counts([0, 2, 0, 0, 0, 0]),
    Step::Write(1, 0, b"a"),
    Step::Done(Asked::Sync, 1),
    Step::Write(1, 1, b"header"),
    Step::Done(Asked::Sync, 1),
    Step::Write(1, 0, b"A"),
    Step::Done(Asked::Sync, 1),
    Step::Counts([1, 0, 3, 3, 1, 0]),
    Step::Done(Asked::Remove, 0),
    Step::Done(Asked::Sync, 0),
    Step::Counts([0, 2, 0, 0, 1, 1]),
    Step::Write(1, 7, b"record"),
    Step::Done(Asked::Sync, 1),
    Step::Write(1, 6, b"R"),
    Step::Done(Asked::Sync, 1),
    Step::Counts([0, 0, 2, 2, 0, 0]),
    Step::Read(1, 0, b"AheadeRrecord"),
];

// 512 files are kept open up to their sync. One more has all of them synced. The first of them is then
// opened and synced anew, and the last one synced. The folder is opened by the first write, which makes it, and synced
// by the first sync, with the two above it.
static MANY: [Step; 8] = [
    Step::All(Asked::Write, 16, 528),
    Step::Counts([514, 0, 512, 0, 0, 0]),
    Step::Done(Asked::Write, 528),
    Step::Counts([1, 0, 1, 512, 0, 0]),
    Step::All(Asked::Sync, 16, 529),
    Step::Counts([3, 1, 0, 2, 3, 0]),
    Step::All(Asked::Read, 16, 529),
    Step::Faults(0, 0),
];

// 64 files that were read stay open.
static READ: [Step; 5] = [
    Step::All(Asked::Read, 16, 80),
    Step::Counts([64, 64, 0, 0, 0, 0]),
    Step::All(Asked::Read, 16, 80),
    Step::Counts([0, 0, 0, 0, 0, 0]),
    Step::All(Asked::Read, 80, 90),
];

#[test]
fn calls_are_as_few_as_the_disk_asks(rt: HostRuntime) -> Result<(), AllocError> {
    for (home, steps) in [
        ("folder-calls", CALLS.as_slice()),
        ("folder-packed", PACKED.as_slice()),
        ("folder-many", MANY.as_slice()),
    ] {
        let _ = fs::remove_dir_all(&rt, home);
        let other = first_other(rt, home, steps)?;
        assert!(rt; other.is_none(), "{home} {other:?}");
    }
    let other = first_other(rt, "folder-many", &READ)?;
    assert!(rt; other.is_none(), "{other:?}");
    let _ = fs::remove_dir_all(&rt, "folder-calls");
    let _ = fs::remove_dir_all(&rt, "folder-packed");
    let _ = fs::remove_dir_all(&rt, "folder-many");
    Ok(())
}

// The system gives the names of 600 files in several reads, and the second of them, or a later one, may fail.
static LISTED: [Step; 9] = [
    Step::All(Asked::Write, 16, 616),
    Step::Lists(16, 616),
    Step::FailAt(Call::Read, 1),
    Step::ListFails,
    Step::FailAt(Call::Read, 3),
    Step::ListFails,
    Step::Faults(2, 0),
    Step::ServeAll,
    Step::Lists(16, 616),
];

#[test]
fn many_files_are_listed_whole(rt: HostRuntime) -> Result<(), AllocError> {
    let _ = fs::remove_dir_all(&rt, "folder-listed");
    let other = first_other(rt, "folder-listed", &LISTED)?;
    assert!(rt; other.is_none(), "{other:?}");
    let _ = fs::remove_dir_all(&rt, "folder-listed");
    Ok(())
}
