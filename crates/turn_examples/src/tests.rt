// That turns go on and end: two threads raise one counter.
use super::count_up;
use std::test::Fail;

#[test]
fn two_threads_raise_one_counter(rt: HostRuntime) -> Result<(), Fail> {
    let Some((count, made)) = count_up(&rt, rt.alloc(), 5, 1000) else {
        return Err(Fail::new("no memory for the turn"));
    };
    assert!(rt; made == 2000);
    assert!(rt; count == 2005);
    Ok(())
}
