// Lists that are said to begin and to end as another one does.
ghost use Rattle.std.specs.Prelude.{◌≡◌, ◌+◌, ◌-◌, ◌<◌, ◌≤◌, ◌^◌, ℕ, IfOk, IfSome, OnOk, OnErr, length};
ghost use Rattle.pcm_base.specs.declared.limits.TheConstants.{COUNTER_LIMIT};
ghost use Rattle.block_ledger.specs.Counts.{occurrences, times};
ghost use Rattle.row_ledger.specs.Rows.{Adds, AreThere, AreUsed, HasSameRoom, Laid, counts, flat, like};

use super::edges::{IDS_MOST, count_ids};
use super::laying::{append_ids, lay, lay_near, lay_spliced};
use super::table::RowTable;
use pcm_base::NoMemory;
use std::alloc::AllocError;

// Where the last `back` ids of rows begin, if there are no great numbers of ids, and `size` is none.
fn back_of(table: &RowTable, rows: &[usize], back: usize, size: usize) -> Option<usize>
    requires { back ≤ length (flat table.now.rows rows.now) }
    ensures value { IfSome result (λ to. length (flat table.now.rows rows.now) - back ≡ to) }
    ensures all { IfSome result (λ to. length (flat table.now.rows rows.now) ≤ COUNTER_LIMIT) }
    ensures size { IfSome result (λ to. size ≤ COUNTER_LIMIT) }
{
    let count = count_ids(table, rows)?;
    if size > IDS_MOST {
        return None;
    }
    Some(count - back)
}

// The ids of a list that begins and ends as rows do, however many they are.
fn like_ids(
    table: &RowTable,
    rows: &[usize],
    front: usize,
    back: usize,
    middle: &[u64],
) -> Result<Vec<u64>, AllocError>
    requires { front + back ≤ length (flat table.now.rows rows.now) }
    ensures { IfOk result (λ v. v.items ≡ like (flat table.now.rows rows.now) front back middle.now) }
{
    let mut all = Vec::new(table.alloc());
    append_ids(&mut all, table, rows, 0, usize::MAX)?;
    let to = all.len() - back;
    let mut out = Vec::new(table.alloc());
    out.extend_from_slice(&all.as_slice()[..front])?;
    out.extend_from_slice(middle)?;
    out.extend_from_slice(&all.as_slice()[to..])?;
    Ok(out)
}

// The first `front` and the last `back` ids of rows, and others between. The rows outside are shared, and no id of them
// is looked at.
fn lay_kept(
    table: &mut RowTable,
    out: &mut Vec<usize>,
    rows: &[usize],
    front: usize,
    back: usize,
    middle: &[u64],
) -> Result<(), NoMemory>
    requires used { AreUsed table.old.rows rows.now }
    requires within { front + back ≤ length (flat table.old.rows rows.now) }
    requires there { AreThere (counts table.old) (like (flat table.old.rows rows.now) front back middle.now) }
    requires few { (id : ℕ) → occurrences (counts table.old id)
        + times id (like (flat table.old.rows rows.now) front back middle.now) < 2 ^ 128 }
    ensures ok { OnOk result (Laid table.old table.new out.old.items out.new.items
        (like (flat table.old.rows rows.now) front back middle.now)) }
    ensures err { OnErr result (Adds table.old table.new out.old.items out.new.items) }
    ensures room { HasSameRoom table.old.ledger table.new.ledger }
{
    if let Some(to) = back_of(table, rows, back, middle.len()) {
        return lay_spliced(table, out, rows, front, to, middle);
    }
    let ids = like_ids(table, rows, front, back, middle)?;
    lay(table, out, ids.as_slice())
}

// The first `front` and the last `back` ids of rows, and others between. Where both numbers are 0, the others are
// compared with the rows.
pub(crate) fn lay_like(
    table: &mut RowTable,
    out: &mut Vec<usize>,
    rows: &[usize],
    front: usize,
    back: usize,
    middle: &[u64],
) -> Result<(), NoMemory>
    requires used { AreUsed table.old.rows rows.now }
    requires within { front + back ≤ length (flat table.old.rows rows.now) }
    requires there { AreThere (counts table.old) (like (flat table.old.rows rows.now) front back middle.now) }
    requires few { (id : ℕ) → occurrences (counts table.old id)
        + times id (like (flat table.old.rows rows.now) front back middle.now) < 2 ^ 128 }
    ensures ok { OnOk result (Laid table.old table.new out.old.items out.new.items
        (like (flat table.old.rows rows.now) front back middle.now)) }
    ensures err { OnErr result (Adds table.old table.new out.old.items out.new.items) }
    ensures room { HasSameRoom table.old.ledger table.new.ledger }
{
    if front == 0 && back == 0 {
        return lay_near(table, out, rows, middle);
    }
    lay_kept(table, out, rows, front, back, middle)
}
