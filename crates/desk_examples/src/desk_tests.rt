// Threads at one desk, whose turns go on and end.
use super::disks::{commits_in, fresh, has_named_files, seated};
use pcm_base::Frame;
use seat_examples::{End, Job, Pair, Setting, by_four, by_two};
use std::test::*;

/// The mix that is pinned.
pub(crate) const MIX: [Frame; 5] = [
    Frame {
        left: 100,
        right: 100,
    },
    Frame {
        left: 200,
        right: 200,
    },
    Frame {
        left: 300,
        right: 300,
    },
    Frame {
        left: 400,
        right: 400,
    },
    Frame {
        left: 500,
        right: 500,
    },
];

#[test]
fn two_threads_at_one_desk(rt: HostRuntime) -> Result<(), Fail> {
    let alloc = rt.alloc();
    let (desk, seat, session) = seated(&rt, alloc, fresh(alloc)?)?;
    let record = Job::Record {
        track: session.track,
        tag: session.tag,
    };
    let (mut seat, ends) = by_two(
        &rt,
        alloc,
        &desk,
        seat,
        Pair(Job::Edit { track: 1 }, record),
        12,
    );
    assert!(rt; matches!(ends, [End::Done, End::Done]));
    // Behind the three commits of the beginning come twelve of each thread.
    assert!(rt; matches!(desk.undo(&rt, &mut seat).what, Ok(28)));
    assert!(rt; matches!(desk.redo(&rt, &mut seat).what, Ok(29)));
    assert!(rt; matches!(desk.purge(&rt, &mut seat, 2).what, Ok(30)));
    assert!(rt; matches!(desk.pin_len(&rt, &mut seat, session.pin).what, Ok(5)));
    let mut studio = desk.close(seat);
    assert!(rt; commits_in(&mut studio)? == [12, 12]);
    Ok(())
}

#[test]
fn four_threads_at_one_desk(rt: HostRuntime) -> Result<(), Fail> {
    let alloc = rt.alloc();
    let (desk, seat, session) = seated(&rt, alloc, fresh(alloc)?)?;
    let (mut seat, ends) = by_four(&rt, alloc, &desk, seat, Setting { session, mix: MIX }, 12);
    let unpinned = desk.unpin(&rt, &mut seat, session.pin).what;
    let mut studio = desk.close(seat);
    assert!(rt; matches!(ends, [End::Done, End::Done, End::Done, End::Done]));
    assert!(rt; unpinned.is_ok());
    assert!(rt; studio.commit_number() == 27);
    assert!(rt; commits_in(&mut studio)? == [12, 12]);
    assert!(rt; studio.stopped().is_none());
    has_named_files(&rt, alloc, studio)
}
