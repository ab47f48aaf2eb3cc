// How many rows lists have that share them, and which ids occur as lists go.
use super::tested::Tested;
use std::alloc::Global;
use std::test::*;

// The ids from 0 on, this many.
fn rising(alloc: Global, count: u64) -> Result<Vec<u64>, Fail> {
    let mut out = Vec::new(alloc);
    for id in 0..count {
        out.push(id)?;
    }
    Ok(out)
}

// A ledger that has these ids.
fn with_ids(alloc: Global, count: u64) -> Result<Tested, Fail> {
    let mut ledger = Tested::new(alloc);
    for id in 0..count {
        ledger.add(id)?;
    }
    Ok(ledger)
}

// Another id comes to a place, if there is one.
fn put(ids: &mut Vec<u64>, at: usize, id: u64) {
    if at < ids.len() {
        ids[at] = id;
    }
}

#[test]
fn a_list_that_is_like_another_shares_its_rows(rt: HostRuntime) -> Result<(), Fail> {
    let alloc = rt.alloc();
    let mut ledger = with_ids(alloc, 6000)?;
    let mut ids = rising(alloc, 5000)?;
    ledger.hold_list(1, 0, ids.as_slice())?;
    assert!(rt; ledger.rows_len() == 5);
    put(&mut ids, 2500, 5500);
    ledger.hold_list(2, 1, ids.as_slice())?;
    assert!(rt; ledger.rows_len() == 6);
    assert!(rt; ledger.named_len() == 5001);
    // The base goes, and the rows that the other list has stay.
    ledger.drop_list(1)?;
    assert!(rt; ledger.named_len() == 5000);
    for id in 0..6000_u64 {
        let is_in = id < 5000 && id != 2500 || id == 5500;
        assert!(rt; ledger.is_named(id) == is_in);
    }
    Ok(())
}

#[test]
fn free_places_are_taken_again(rt: HostRuntime) -> Result<(), Fail> {
    let alloc = rt.alloc();
    let mut ledger = with_ids(alloc, 5000)?;
    let ids = rising(alloc, 5000)?;
    for number in 0..4_u64 {
        // The number before has no list any more.
        ledger.hold_list(number + 1, number, ids.as_slice())?;
        assert!(rt; ledger.rows_len() == 5);
        ledger.drop_list(number + 1)?;
        assert!(rt; ledger.named_len() == 0);
    }
    Ok(())
}

#[test]
fn rows_stay_few_over_many_edits(rt: HostRuntime) -> Result<(), Fail> {
    let alloc = rt.alloc();
    let mut ledger = with_ids(alloc, 4100)?;
    let mut ids = rising(alloc, 4000)?;
    ledger.hold_list(0, 0, ids.as_slice())?;
    for n in 0..60_u64 {
        let at = (n.wrapping_mul(7919) % 3900) as usize;
        put(&mut ids, at, 4000 + n);
        ledger.hold_list(n + 1, n, ids.as_slice())?;
        ledger.drop_list(n)?;
        assert!(rt; ledger.rows_len() < 16);
    }
    assert!(rt; ledger.named_len() == 4000);
    Ok(())
}

#[test]
fn an_id_comes_twice_in_a_list(rt: HostRuntime) -> Result<(), Fail> {
    let mut ledger = with_ids(rt.alloc(), 4)?;
    ledger.hold_list(7, 0, &[1, 1, 2])?;
    ledger.hold_list(8, 7, &[1, 1, 2])?;
    assert!(rt; ledger.rows_len() == 1);
    ledger.hold_list(9, 7, &[1, 3, 2])?;
    ledger.drop_list(7)?;
    ledger.drop_list(8)?;
    assert!(rt; ledger.is_named(1) && ledger.is_named(2) && ledger.is_named(3));
    ledger.drop_list(9)?;
    assert!(rt; ledger.named_len() == 0);
    Ok(())
}
