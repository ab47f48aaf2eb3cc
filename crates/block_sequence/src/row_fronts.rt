// How many blocks stand at the front of two lists of rows, which may be cut at different places.
ghost use Rattle.std.specs.Prelude.{◌≡◌, ◌≤◌, ◌++◌, [], length, take, drop};
ghost use Rattle.pcm_base.specs.declared.limits.TheConstants.{MAX_CELLS};
ghost use Rattle.block_sequence.specs.Fronts.{common, is_block as is_same};
ghost use Rattle.block_sequence.specs.Rows.{flat};

use super::rows::Row;
use pcm_base::BlockRef;

// What is left: blocks of a row, and the rows after it.
#[derive(Clone, Copy)]
struct Left<'a> {
    blocks: &'a [BlockRef],
    rows: &'a [Row],
}

// The same, with the next row entered where no block is left of the one before.
fn entered<'a>(left: Left<'a>) -> Left<'a>
    ensures all { result.blocks.now ++ flat result.rows.now ≡ left.entry.blocks.now ++ flat left.entry.rows.now }
    ensures first { result.blocks.now ≡ [] → flat result.rows.now ≡ [] }
{
    if !left.blocks.is_empty() {
        return left;
    }
    match left.rows {
        [row, more @ ..] => Left {
            blocks: row.as_slice(),
            rows: more,
        },
        [] => left,
    }
}

// The same, without the first blocks of its row, and with the next row entered where none is left.
fn after<'a>(left: Left<'a>, count: usize) -> Left<'a>
    requires { count ≤ length left.blocks.now }
    ensures all { result.blocks.now ++ flat result.rows.now
        ≡ drop count left.entry.blocks.now ++ flat left.entry.rows.now }
    ensures first { result.blocks.now ≡ [] → flat result.rows.now ≡ [] }
{
    let blocks = &left.blocks[count..];
    entered(Left { blocks, ..left })
}

fn is_block(a: &BlockRef, b: &BlockRef) -> bool
    ensures { result ≡ is_same a.now b.now }
{
    a.id == b.id && a.len == b.len
}

fn common_blocks(a: &[BlockRef], b: &[BlockRef]) -> usize
    ensures value { result ≡ common a.now b.now }
    ensures a { result ≤ length a.now }
    ensures b { result ≤ length b.now }
{
    let most = a.len().min(b.len());
    for i in 0..most {
        if !is_block(&a[i], &b[i]) {
            return i;
        }
    }
    most
}

// What is left of rows without their first blocks. It takes a step for each row.
fn left_after<'a>(rows: &'a [Row], count: usize) -> Left<'a>
    requires { count ≤ length (flat rows.now) }
    ensures all { result.blocks.now ++ flat result.rows.now ≡ drop count (flat rows.now) }
    ensures first { result.blocks.now ≡ [] → flat result.rows.now ≡ [] }
{
    let mut skip = count;
    let mut left = entered(Left { blocks: &[], rows });
    'rows: while left.blocks.len() < skip {
        skip -= left.blocks.len();
        left = after(left, left.blocks.len());
    }
    after(left, skip)
}

/// How many blocks stand at the front of both. The first `kept` are known to be the same, and are not compared.
pub fn common_count(a: &[Row], b: &[Row], kept: usize) -> usize
    requires few { length (flat a.now) ≤ MAX_CELLS }
    requires a { kept ≤ length (flat a.now) }
    requires b { kept ≤ length (flat b.now) }
    requires same { take kept (flat a.now) ≡ take kept (flat b.now) }
    ensures { result ≡ common (flat a.now) (flat b.now) }
{
    let mut count = kept;
    let mut left = left_after(a, kept);
    let mut other = left_after(b, kept);
    let mut same = common_blocks(left.blocks, other.blocks);
    'rows: while same > 0 {
        count += same;
        left = after(left, same);
        other = after(other, same);
        same = common_blocks(left.blocks, other.blocks);
    }
    count
}
