// Loads of a pin, with a commit of another seat between them.
use super::desk_tests::MIX;
use super::disks::{fresh, seated};
use mix_threads::mix_par;
use mixdown::Loaded;
use std::test::*;

#[test]
fn another_seat_commits_between_two_loads(rt: HostRuntime) -> Result<(), Fail> {
    let alloc = rt.alloc();
    let (desk, mut seat, session) = seated(&rt, alloc, fresh(alloc)?)?;
    let mut other = desk.split(&mut seat);
    let mut loaded = Loaded::new(alloc);
    let first = desk
        .load_pin(&rt, &mut seat, session.pin, 0, 3, &mut loaded)
        .what;
    assert!(rt; matches!(first, Ok(3)));
    let front = mix_par(&rt, alloc, &loaded);
    // The track of the recording and the samples are taken back.
    assert!(rt; matches!(desk.undo(&rt, &mut other).what, Ok(4)));
    assert!(rt; matches!(desk.undo(&rt, &mut other).what, Ok(5)));
    let second = desk
        .load_pin(&rt, &mut seat, session.pin, 3, 3, &mut loaded)
        .what;
    assert!(rt; matches!(second, Ok(2)));
    let back = mix_par(&rt, alloc, &loaded);
    desk.join(&mut seat, other);
    let _studio = desk.close(seat);
    assert!(rt; front?.as_slice() == &MIX[..3]);
    assert!(rt; back?.as_slice() == &MIX[3..]);
    Ok(())
}
