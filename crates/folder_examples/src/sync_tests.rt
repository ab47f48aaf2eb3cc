// Files that are waited for side by side, and folders that are locked.
use crate::asking::{Asked, ask, ask_each};
use crate::swapped::Swapped;
use disk_model::Store;
use project_folder::FolderStore;
use std::alloc::{AllocError, Global};
use std::fs::{self, File};
use std::rt::Files;
use std::thread::Threads;

// Whether this many files, from 16 on, are written and then synced, where the one at this place, if any, can't be synced.
fn are_synced<R: Files<File = File> + Threads + Drop + Copy>(
    rt: R,
    alloc: Global,
    home: &str,
    count: u64,
    place: u64,
) -> Result<bool, AllocError> {
    let file = place.saturating_add(16);
    let files = Swapped {
        inner: rt,
        ending: format!(in alloc; "/project/{file}")?,
    };
    let mut store = FolderStore::side_by_side(files, rt, alloc, home)?;
    let are_written = ask_each(&mut store, Asked::Write, 16, count.saturating_add(16));
    Ok(are_written && ask(&mut store, Asked::Sync, 16))
}

static COUNTS: [u64; 7] = [1, 2, 15, 16, 17, 64, 100];

#[test]
fn one_file_that_cannot_be_synced_fails_all(rt: HostRuntime) -> Result<(), AllocError> {
    let home = "side-by-side";
    let _ = fs::remove_dir_all(&rt, home);
    assert!(rt; are_synced(rt, rt.alloc(), home, 100, 100)?);
    for count in COUNTS {
        for place in [0, count / 2, count.saturating_sub(1), count] {
            assert!(rt;
                are_synced(rt, rt.alloc(), home, count, place)? == (place >= count),
                "{place} of {count}"
            );
        }
    }
    let _ = fs::remove_dir_all(&rt, home);
    Ok(())
}

// Whether the same is written into each file.
fn are_written<S: Store>(store: &mut S) -> bool {
    for file in 16..600 {
        if store.write_at(file, 0, b"some samples").is_err() {
            return false;
        }
    }
    true
}

// Whether these bytes are read of a file.
fn has_bytes<S: Store>(store: &mut S, file: u64, want: &[u8]) -> bool {
    let mut buf = [0; 12];
    matches!(store.read_at(file, 0, &mut buf), Ok(12)) && buf.as_slice() == want
}

// Whether each file is read as it was written, one of them twice.
fn are_read<S: Store>(store: &mut S) -> bool {
    for file in 16..600 {
        let want = if file == 301 {
            b"some words..".as_slice()
        } else {
            b"some samples".as_slice()
        };
        if !has_bytes(store, file, want) {
            return false;
        }
    }
    true
}

// Whether each call on the files is answered as it has to be: more files than are kept open are written, all are synced
// by the sync of one, one is written again, and all are read.
fn are_kept<S: Store>(store: &mut S) -> bool {
    are_written(store)
        && store.sync(300).is_ok()
        && store.write_at(301, 5, b"words..").is_ok()
        && ask_each(store, Asked::Sync, 16, 600)
        && are_read(store)
}

#[test]
fn files_are_kept_whichever_way_they_are_waited_for(rt: HostRuntime) -> Result<(), AllocError> {
    let home = "folder-side";
    let _ = fs::remove_dir_all(&rt, home);
    let mut store = FolderStore::side_by_side(rt, rt, rt.alloc(), home)?;
    assert!(rt; are_kept(&mut store) && store.faults() == 0);
    let _ = fs::remove_dir_all(&rt, home);
    Ok(())
}

#[test]
fn a_folder_has_one_store_at_a_time(rt: HostRuntime) -> Result<(), AllocError> {
    let home = "folder-locked";
    let _ = fs::remove_dir_all(&rt, home);
    let mut first = FolderStore::side_by_side(rt, rt, rt.alloc(), home)?;
    let mut second = FolderStore::side_by_side(rt, rt, rt.alloc(), home)?;
    assert!(rt; ask(&mut first, Asked::Write, 16));
    for asked in [Asked::Write, Asked::Sync, Asked::Remove] {
        assert!(rt; !ask(&mut second, asked, 16) && ask(&mut first, Asked::Sync, 16));
    }
    assert!(rt; second.change_faults() == 3 && matches!(second.size(16), Ok(Some(4))));
    drop(first);
    assert!(rt; ask(&mut second, Asked::Write, 16));
    let _ = fs::remove_dir_all(&rt, home);
    Ok(())
}
