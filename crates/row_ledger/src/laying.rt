// Rows of a list, shared and new.
ghost use Rattle.std.specs.Prelude.{◌≡◌, ◌+◌, ◌-◌, ◌<◌, ◌≤◌, ◌^◌, ◌++◌, ◌∷◌, ℕ, List, [], IfOk, OnOk, OnErr, length};
ghost use Rattle.pcm_base.specs.declared.limits.TheConstants.{COUNTER_LIMIT};
ghost use Rattle.block_ledger.specs.Counts.{occurrences, times};
ghost use Rattle.row_ledger.specs.Rows.{Adds, AreRowsThere, AreThere, AreUsed, Comes, HasSameRoom, Laid, counts, flat, from_to};
ghost use Rattle.row_ledger.specs.Rows.{ids_at, spliced, uses_at};

use super::edges::{ROW_MOST, Span, change_of, span_of};
use super::table::RowTable;
use pcm_base::NoMemory;
use std::alloc::AllocError;

// A row that a list has just come to have takes its place in the list, or goes again.
fn keep(table: &mut RowTable, out: &mut Vec<usize>, row: usize) -> Result<(), NoMemory>
    requires { 0 < uses_at table.old.rows row }
    ensures ok { OnOk result ((table.new ≡ table.old) × (out.new.items ≡ out.old.items ++ row ∷ [])) }
    ensures err { OnErr result (Comes table.new table.old (row ∷ []) × (out.new.items ≡ out.old.items)) }
    ensures room { HasSameRoom table.old.ledger table.new.ledger }
{
    if out.push(row).is_err() {
        table.drop_row(row);
        return Err(NoMemory);
    }
    Ok(())
}

// A row that lists have is had once more.
fn share_row(table: &mut RowTable, out: &mut Vec<usize>, row: usize) -> Result<(), NoMemory>
    requires { 0 < uses_at table.old.rows row }
    ensures ok { OnOk result (Laid table.old table.new out.old.items out.new.items (ids_at table.old.rows row)) }
    ensures err { OnErr result (Adds table.old table.new out.old.items out.new.items) }
    ensures room { HasSameRoom table.old.ledger table.new.ledger }
{
    table.hold_row(row)?;
    keep(table, out, row)
}

// These rows, which lists have, are had once more.
fn share(table: &mut RowTable, out: &mut Vec<usize>, rows: &[usize]) -> Result<(), NoMemory>
    requires { AreUsed table.old.rows rows.now }
    ensures ok { OnOk result (Laid table.old table.new out.old.items out.new.items (flat table.old.rows rows.now)) }
    ensures err { OnErr result (Adds table.old table.new out.old.items out.new.items) }
    ensures room { HasSameRoom table.old.ledger table.new.ledger }
{
    for row in rows {
        share_row(table, out, *row)?;
    }
    Ok(())
}

// One new row of these ids, which are all there.
fn lay_row(table: &mut RowTable, out: &mut Vec<usize>, ids: &[u64]) -> Result<(), NoMemory>
    requires there { AreThere (counts table.old) ids.now }
    requires few { (id : ℕ) → occurrences (counts table.old id) + times id ids.now < 2 ^ 128 }
    ensures ok { OnOk result (Laid table.old table.new out.old.items out.new.items ids.now) }
    ensures err { OnErr result (Adds table.old table.new out.old.items out.new.items) }
    ensures room { HasSameRoom table.old.ledger table.new.ledger }
{
    let row = table.add_row(ids)?;
    keep(table, out, row)
}

// How long the rows of `count` ids are: all of one size, but for the last.
fn row_size(count: usize) -> usize
    requires { 0 < count }
    ensures some { 0 < result }
    ensures short { result ≤ 1024 }
{
    let rows = count.div_ceil(ROW_MOST);
    count.div_ceil(rows)
}

// New rows of these ids, which are all there.
pub(crate) fn lay(table: &mut RowTable, out: &mut Vec<usize>, ids: &[u64]) -> Result<(), NoMemory>
    requires there { AreThere (counts table.old) ids.now }
    requires few { (id : ℕ) → occurrences (counts table.old id) + times id ids.now < 2 ^ 128 }
    ensures ok { OnOk result (Laid table.old table.new out.old.items out.new.items ids.now) }
    ensures err { OnErr result (Adds table.old table.new out.old.items out.new.items) }
    ensures room { HasSameRoom table.old.ledger table.new.ledger }
{
    if ids.is_empty() {
        return Ok(());
    }
    let size = row_size(ids.len());
    let mut rest = ids;
    while !rest.is_empty() {
        let (first, more) = rest.split_at(size.min(rest.len()));
        lay_row(table, out, first)?;
        rest = more;
    }
    Ok(())
}

// The ids of one row.
fn append_row(out: &mut Vec<u64>, row: &[u64], from: usize, to: usize) -> Result<(), AllocError>
    ensures { OnOk result (out.new.items ≡ out.old.items ++ from_to from to row.now) }
{
    if row.len() <= from || to <= from {
        return Ok(());
    }
    out.extend_from_slice(&row[from..to.min(row.len())])
}

// The ids of rows from one place up to another come after those of `out`.
pub(crate) fn append_ids(
    out: &mut Vec<u64>,
    table: &RowTable,
    rows: &[usize],
    from: usize,
    to: usize,
) -> Result<(), AllocError>
    ensures { OnOk result (out.new.items ≡ out.old.items ++ from_to from to (flat table.now.rows rows.now)) }
{
    let mut skip = from;
    let mut end = to;
    for row in rows {
        let ids = table.ids(*row);
        append_row(out, ids, skip, end)?;
        let size = ids.len();
        skip = skip.saturating_sub(size);
        end = end.saturating_sub(size);
    }
    Ok(())
}

// The ids of the rows that become new.
fn new_ids(
    table: &RowTable,
    rows: &[usize],
    span: Span,
    from: usize,
    to: usize,
    middle: &[u64],
) -> Result<Vec<u64>, AllocError>
    ensures there { AreRowsThere table.now }
    ensures ids { IfOk result (λ v. v.items ≡ from_to span.start.at from (flat table.now.rows rows.now)
        ++ (middle.now ++ from_to to span.end.at (flat table.now.rows rows.now))) }
{
    let mut out = Vec::new(table.alloc());
    append_ids(&mut out, table, rows, span.start.at, from)?;
    out.extend_from_slice(middle)?;
    append_ids(&mut out, table, rows, to, span.end.at)?;
    Ok(out)
}

// The rows with other ids in place of those from one place up to another: those outside are shared.
pub(crate) fn lay_spliced(
    table: &mut RowTable,
    out: &mut Vec<usize>,
    rows: &[usize],
    from: usize,
    to: usize,
    middle: &[u64],
) -> Result<(), NoMemory>
    requires used { AreUsed table.old.rows rows.now }
    requires all { length (flat table.old.rows rows.now) ≤ COUNTER_LIMIT }
    requires size { length middle.now ≤ COUNTER_LIMIT }
    requires rising { from ≤ to }
    requires within { to ≤ length (flat table.old.rows rows.now) }
    requires there { AreThere (counts table.old) middle.now }
    requires few { (id : ℕ) → occurrences (counts table.old id)
        + times id (spliced (flat table.old.rows rows.now) from to middle.now) < 2 ^ 128 }
    ensures ok { OnOk result (Laid table.old table.new out.old.items out.new.items
        (spliced (flat table.old.rows rows.now) from to middle.now)) }
    ensures err { OnErr result (Adds table.old table.new out.old.items out.new.items) }
    ensures room { HasSameRoom table.old.ledger table.new.ledger }
{
    let span = span_of(table, rows, from, to, middle.len());
    let ids = new_ids(table, rows, span, from, to, middle)?;
    share(table, out, &rows[..span.start.row])?;
    lay(table, out, ids.as_slice())?;
    share(table, out, &rows[span.end.row..])
}

// New rows of these ids, which are all there. Of the rows that are given, those at the front and at the end that have
// the same ids are shared.
pub(crate) fn lay_near(
    table: &mut RowTable,
    out: &mut Vec<usize>,
    rows: &[usize],
    ids: &[u64],
) -> Result<(), NoMemory>
    requires used { AreUsed table.old.rows rows.now }
    requires there { AreThere (counts table.old) ids.now }
    requires few { (id : ℕ) → occurrences (counts table.old id) + times id ids.now < 2 ^ 128 }
    ensures ok { OnOk result (Laid table.old table.new out.old.items out.new.items ids.now) }
    ensures err { OnErr result (Adds table.old table.new out.old.items out.new.items) }
    ensures room { HasSameRoom table.old.ledger table.new.ledger }
{
    match change_of(table, rows, ids) {
        Some(change) => lay_spliced(table, out, rows, change.from, change.to, change.middle),
        None => lay(table, out, ids),
    }
}
