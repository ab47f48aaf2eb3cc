// Calls that are drawn: after each sync nothing of the file waits for one.
ghost use Rattle.std.specs.Prelude.{◌<◌};

use crate::asking::{Asked, ask};
use crate::watched::watch_files;
use disk_model::Store;
use project_folder::FolderStore;
use std::alloc::AllocError;
use std::fs;

/// The calls of which one is drawn.
static CALLS: [Asked; 8] = [
    Asked::Write,
    Asked::Write,
    Asked::Write,
    Asked::Sync,
    Asked::Sync,
    Asked::Read,
    Asked::Remove,
    Asked::Size,
];

// The next state of the generator.
fn next(state: u64) -> u64 {
    state
        .wrapping_mul(6364136223846793005)
        .wrapping_add(1442695040888963407)
}

// A number below 8 that is drawn in this state.
fn drawn(state: u64) -> usize
    ensures { result < 8 }
{
    ((state >> 33) % 8) as usize
}

#[test]
fn what_is_synced_waits_for_nothing(rt: HostRuntime) -> Result<(), AllocError> {
    let home = "folder-drawn";
    let _ = fs::remove_dir_all(&rt, home);
    let (files, watch) = watch_files(rt)?;
    let mut store = FolderStore::new(files, rt.alloc(), home)?;
    // From now on the folder and three files are open at most.
    assert!(rt; ask(&mut store, Asked::Write, 0) && ask(&mut store, Asked::Sync, 0));
    watch.most_open.set(4);
    let mut state = 1;
    for call in 0..1000 {
        state = next(state);
        let asked = CALLS[drawn(state)];
        state = next(state);
        let file = drawn(state);
        assert!(rt;
            ask(&mut store, asked, file as u64),
            "{call} {asked:?} {file}"
        );
        assert!(rt;
            !matches!(asked, Asked::Sync) || watch.flags.is_synced(file),
            "{call} {file}"
        );
    }
    assert!(rt; store.faults() == 0);
    let _ = fs::remove_dir_all(&rt, home);
    Ok(())
}
