// The room of a ledger, which no line shows.
use block_ledger::Ledger;
use std::test::*;

// Ids come and go, one after another, while three stay: there are never places for more than twice as many.
#[test]
fn room_follows_the_ids_that_are_there(rt: HostRuntime) -> Result<(), Fail> {
    let mut ledger = Ledger::new(rt.alloc());
    for id in 16..19 {
        ledger.reserve(2)?;
        ledger.hold(id);
    }
    ledger.reserve(2)?;
    for id in 19..100_000 {
        ledger.reserve(1)?;
        assert!(rt; ledger.spare() <= 3);
        ledger.hold(id);
        ledger.drop_one(id);
        if let Some(0) = ledger.count(id) {
            ledger.forget(id);
        }
    }
    assert!(rt; ledger.named_len() == 3);
    assert!(rt; matches!(ledger.count(18), Some(1)));
    assert!(rt; ledger.count(99_999).is_none());
    Ok(())
}
