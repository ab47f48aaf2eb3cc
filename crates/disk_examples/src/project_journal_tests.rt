// The end of all places, which no disk has.
use super::disks::disk;
use disk_model::Store;
use project_journal::{JournalFault, append, append_small};
use std::alloc::Global;
use std::test::*;

// Whether 7 bytes have no room from this place on.
fn is_spent(answer: Result<u64, JournalFault>, place: u64) -> bool {
    match answer {
        Err(JournalFault::SpaceSpent { have, need }) => have == place && need == 7,
        _ => false,
    }
}

// Whether neither an append nor a small one has room in front of the end.
fn are_spent<S: Store>(store: &mut S, alloc: Global) -> bool {
    let place = (1u64 << 62) - 6;
    is_spent(append_small(store, 0, place, &[2]), place)
        && is_spent(append(store, 0, place, &[2], &mut Vec::new(alloc)), place)
}

#[test]
fn the_end_of_all_places(rt: HostRuntime) -> Result<(), Fail> {
    let mut store = disk(rt.alloc(), Vec::new(rt.alloc()))?;
    assert!(rt; are_spent(&mut store, rt.alloc()));
    Ok(())
}
