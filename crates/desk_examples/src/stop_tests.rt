// A desk whose disk stops while four threads work at it.
use super::desk_tests::MIX;
use super::disks::{commits_in, fresh, has_named_files, opened, seated};
use memory_disk::RamStore;
use pcm_base::Refusal;
use seat_examples::{End, Setting, by_four};
use std::alloc::Global;
use std::process::Abort;
use std::sync::Wait;
use std::test::*;
use std::thread::Threads;

/// An image has the commits that were acknowledged, or one more, and they are the first ramps and the first pieces. Its
/// blocks are whole, and a reclaim leaves the journal and their files.
fn keeps_commits(
    rt: &impl Abort,
    alloc: Global,
    image: RamStore,
    acknowledged: u64,
) -> Result<(), Fail> {
    let mut studio = opened(alloc, image)?;
    let number = studio.commit_number();
    assert!(rt; number == acknowledged || number.saturating_sub(1) == acknowledged);
    let [ramps, pieces] = commits_in(&mut studio)?;
    assert!(rt; number == ramps.wrapping_add(pieces).wrapping_add(3));
    assert!(rt; studio.stopped().is_none());
    has_named_files(rt, alloc, studio)
}

fn is_done(end: End) -> bool {
    matches!(end, End::Done)
}

fn is_stopped(end: End) -> bool {
    matches!(end, End::Refused(Refusal::Stopped { .. }))
}

/// Four threads work at a desk whose disk stops after this many calls, and then four more.
fn stops_after(
    rt: &(impl Abort + Threads + Wait + Sync),
    alloc: Global,
    calls: u64,
) -> Result<(), Fail> {
    let mut store = fresh(alloc)?;
    store.stop_after(calls);
    let (desk, seat, session) = seated(rt, alloc, store)?;
    let (seat, ends) = by_four(rt, alloc, &desk, seat, Setting { session, mix: MIX }, 12);
    let (mut seat, later) = by_four(rt, alloc, &desk, seat, Setting { session, mix: MIX }, 12);
    let unpinned = desk.unpin(rt, &mut seat, session.pin).what;
    let studio = desk.close(seat);
    let acknowledged = studio.commit_number();
    let [edited, recorded, _played, _reclaimed] = ends;
    assert!(rt; !is_done(edited) && !is_done(recorded));
    for end in later {
        assert!(rt; is_stopped(end));
    }
    assert!(rt; unpinned.is_ok());
    let store = studio.into_store();
    for choice in 0..8 {
        let image = store.image(alloc, choice)?;
        keeps_commits(rt, alloc, image, acknowledged)?;
    }
    Ok(())
}

#[test]
fn a_disk_stops_under_four_threads(rt: HostRuntime) -> Result<(), Fail> {
    // The beginning takes 21 calls of the disk, and all edits or all pieces at least 72: so neither job ends.
    for calls in [30, 45, 60, 75] {
        stops_after(&rt, rt.alloc(), calls)?;
    }
    Ok(())
}
