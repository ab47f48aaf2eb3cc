// Which rows a sequence has, and the same blocks as a plain list after many edits.
ghost use Rattle.std.specs.Prelude.{◌≤◌, length};

use super::fours::{made, part, refs, spliced};
use block_sequence::{ROW_MOST, Sequence};
use pcm_base::{BlockRef, Piece};
use std::alloc::Global;
use std::test::*;

// How many references each row has.
fn sizes(alloc: Global, blocks: &Sequence) -> Result<Vec<usize>, Fail> {
    let mut out = Vec::new(alloc);
    for row in blocks.rows() {
        out.push(row.as_slice().len())?;
    }
    Ok(out)
}

// The references of all rows.
fn read(alloc: Global, blocks: &Sequence) -> Result<Vec<BlockRef>, Fail> {
    let mut out = Vec::new(alloc);
    for row in blocks.rows() {
        out.extend_from_slice(row.as_slice())?;
    }
    Ok(out)
}

// Whether the sequence has these blocks, and says how many they and their samples are.
fn is_same(alloc: Global, blocks: &Sequence, wanted: &[BlockRef]) -> Result<bool, Fail> {
    let found = read(alloc, blocks)?;
    let samples = (wanted.len() as u64).wrapping_mul(4);
    Ok(found.as_slice() == wanted && blocks.count() == wanted.len() && blocks.len() == samples)
}

#[test]
fn a_list_is_cut_into_rows_of_one_size(rt: HostRuntime) -> Result<(), Fail> {
    let alloc = rt.alloc();
    let one = made(refs(alloc, 0, 1024)?)?;
    assert!(rt; sizes(alloc, &one)?.as_slice() == [1024].as_slice());
    let none = made(refs(alloc, 0, 0)?)?;
    assert!(rt; none.rows().is_empty() && none.len() == 0);
    let more = made(refs(alloc, 0, 2050)?)?;
    assert!(rt; sizes(alloc, &more)?.as_slice() == [684, 684, 682].as_slice());
    let wanted = refs(alloc, 0, 2050)?;
    assert!(rt; is_same(alloc, &more, wanted.as_slice())?);
    Ok(())
}

#[test]
fn rows_outside_an_edit_stay_as_they_are(rt: HostRuntime) -> Result<(), Fail> {
    let alloc = rt.alloc();
    let old = made(refs(alloc, 0, 4096)?)?;
    let three = refs(alloc, 5000, 5003)?;
    let new = spliced(alloc, &old, 1500, 1501, three.as_slice())?;
    assert!(rt; sizes(alloc, &new)?.as_slice() == [1024, 513, 513, 1024, 1024].as_slice());
    let wanted = read(alloc, &new)?;
    let copy = new.copy()?;
    assert!(rt; is_same(alloc, &copy, wanted.as_slice())?);
    // An end that is full keeps its row, and one that is not grows.
    let first = refs(alloc, 5000, 5001)?;
    let more = spliced(alloc, &old, 4096, 4096, first.as_slice())?;
    assert!(rt; sizes(alloc, &more)?.as_slice() == [1024, 1024, 1024, 1024, 1].as_slice());
    let second = refs(alloc, 5001, 5002)?;
    let more = spliced(alloc, &more, 4097, 4097, second.as_slice())?;
    assert!(rt; sizes(alloc, &more)?.as_slice() == [1024, 1024, 1024, 1024, 2].as_slice());
    // Whole rows go, and none is made.
    let less = spliced(alloc, &old, 1024, 3072, &[])?;
    assert!(rt; sizes(alloc, &less)?.as_slice() == [1024, 1024].as_slice());
    Ok(())
}

// The next number of a row that looks like chance.
fn next(seed: u64) -> u64 {
    seed.wrapping_mul(6364136223846793005)
        .wrapping_add(1442695040888963407)
}

// A number from 0 to `most`.
fn up_to(number: u64, most: usize) -> usize
    ensures { result ≤ most }
{
    let count = (most as u64).saturating_add(1);
    (number % count) as usize
}

// The same blocks with others in place of some, as a plain list.
fn plain_splice(
    alloc: Global,
    plain: &[BlockRef],
    from: usize,
    to: usize,
    middle: &[BlockRef],
) -> Result<Vec<BlockRef>, Fail>
    requires rising { from ≤ to }
    requires within { to ≤ length plain.now }
{
    let mut next = Vec::new(alloc);
    next.extend_from_slice(&plain[..from])?;
    next.extend_from_slice(middle)?;
    next.extend_from_slice(&plain[to..])?;
    Ok(next)
}

#[test]
fn many_edits_give_the_same_as_a_plain_list(rt: HostRuntime) -> Result<(), Fail> {
    let alloc = rt.alloc();
    let mut plain = refs(alloc, 0, 3000)?;
    let mut blocks = made(refs(alloc, 0, 3000)?)?;
    let mut seed: u64 = 1;
    for k in 0..60u64 {
        seed = next(seed);
        let from = up_to(seed >> 33, plain.len());
        let span = up_to(seed >> 20, if k % 10 == 0 { 1999 } else { 3 });
        let to = plain.len().min(from.saturating_add(span));
        let count = up_to(seed >> 13, if k % 7 == 0 { 1899 } else { 4 }) as u64;
        let id = 10_000 * (k + 1);
        let middle = refs(alloc, id, id.saturating_add(count))?;
        blocks = spliced(alloc, &blocks, from, to, middle.as_slice())?;
        plain = plain_splice(alloc, plain.as_slice(), from, to, middle.as_slice())?;
        assert!(rt; is_same(alloc, &blocks, plain.as_slice())?);
        assert!(rt; blocks.rows().len() <= 2 + plain.len() / (ROW_MOST / 4));
    }
    Ok(())
}

// Some samples of a block.
fn old(id: u64, from: u32, to: u32) -> Piece {
    let block = BlockRef { id, len: 4 };
    Piece::Old { block, from, to }
}

#[test]
fn a_part_names_the_blocks_that_it_meets(rt: HostRuntime) -> Result<(), Fail> {
    let alloc = rt.alloc();
    let blocks = made(refs(alloc, 0, 3000)?)?;
    let some = part(&blocks, 3999, 4009)?;
    let wanted = [
        old(999, 3, 4),
        old(1000, 0, 4),
        old(1001, 0, 4),
        old(1002, 0, 1),
    ];
    assert!(rt; some.as_slice() == wanted.as_slice());
    let none = part(&blocks, 12_000, 12_000)?;
    assert!(rt; none.as_slice().is_empty());
    let mut few = Vec::new(alloc);
    blocks.append_to(&mut few, 998, 1003)?;
    let wanted = refs(alloc, 998, 1003)?;
    assert!(rt; few.as_slice() == wanted.as_slice());
    Ok(())
}

#[test]
fn what_two_have_in_common_is_counted_over_rows(rt: HostRuntime) -> Result<(), Fail> {
    let alloc = rt.alloc();
    let one = made(refs(alloc, 0, 4000)?)?;
    let front = refs(alloc, 0, 3)?;
    // The same blocks, with the first rows cut elsewhere.
    let other = spliced(alloc, &one, 0, 3, front.as_slice())?;
    assert!(rt; one.common(&other, 0) == 4000);
    let new = refs(alloc, 9000, 9001)?;
    let changed = spliced(alloc, &other, 2500, 2501, new.as_slice())?;
    assert!(rt; one.common(&changed, 0) == 2500);
    let end = spliced(alloc, &other, 3999, 4000, &[])?;
    assert!(rt; one.common(&end, 0) == 3999);
    Ok(())
}
