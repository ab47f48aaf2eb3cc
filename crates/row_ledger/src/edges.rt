// Which rows a list shares with another one: those before one edge and those after another.
ghost use Rattle.std.specs.Prelude.{◌≡◌, ◌+◌, ◌-◌, ◌*◌, ◌≤◌, ◌++◌, IfSome, length, take, drop};
ghost use Rattle.pcm_base.specs.declared.limits.TheConstants.{COUNTER_LIMIT};
ghost use Rattle.row_ledger.specs.Rows.{IsChange, IsEdge, flat};

use super::table::RowTable;
use pcm_base::COUNTER_LIMIT;

// How many ids a new row has at most.
pub(crate) const ROW_MOST: usize = 1024;

// A row of fewer ids is short.
const ROW_LEAST: usize = 256;

// How many ids a list has at most.
pub(crate) const IDS_MOST: usize = COUNTER_LIMIT as usize;

// A place between two rows: how many rows lie before it, and how many ids.
#[derive(Clone, Copy)]
pub(crate) struct Edge {
    pub(crate) row: usize,
    pub(crate) at: usize,
}

// The rows that become new.
#[derive(Clone, Copy)]
pub(crate) struct Span {
    pub(crate) start: Edge,
    pub(crate) end: Edge,
}

// How many ids the rows have, if that is no great number.
#[tactic(auto, using(crate::proofs::FlatRows::flat_count))]
pub(crate) fn count_ids(table: &RowTable, rows: &[usize]) -> Option<usize>
    ensures value { IfSome result (λ count. length (flat table.now.rows rows.now) ≡ count) }
    ensures few { IfSome result (λ count. count ≤ COUNTER_LIMIT) }
{
    let mut count: usize = 0;
    for row in rows {
        let size = table.ids(*row).len();
        if size > IDS_MOST - count {
            return None;
        }
        count += size;
    }
    Some(count)
}

// What is left of some ids without those of a row, where these stand at the front.
fn without_front<'a>(ids: &'a [u64], row: &[u64]) -> Option<&'a [u64]>
    ensures { IfSome result (λ rest. ids.now ≡ row.now ++ rest.now) }
{
    ids.strip_prefix(row)
}

// And where they stand at the end.
fn without_end<'a>(ids: &'a [u64], row: &[u64]) -> Option<&'a [u64]>
    ensures { IfSome result (λ rest. ids.now ≡ rest.now ++ row.now) }
{
    ids.strip_suffix(row)
}

// The edge up to which rows have what some ids have.
fn front_of(table: &RowTable, rows: &[usize], ids: &[u64]) -> Edge
    ensures edge { IsEdge table.now.rows rows.now result.row result.at }
    ensures within { result.at ≤ length ids.now }
    ensures same { flat table.now.rows (take result.row rows.now) ≡ take result.at ids.now }
{
    let mut row = 0;
    let mut rest = ids;
    while row < rows.len() {
        let Some(more) = without_front(rest, table.ids(rows[row])) else {
            break;
        };
        rest = more;
        row += 1;
    }
    let at = ids.len() - rest.len();
    Edge { row, at }
}

// From which row on rows have what some ids have at their end, and from which of these on.
fn end_of(table: &RowTable, rows: &[usize], ids: &[u64]) -> Edge
    ensures within { result.at ≤ length ids.now }
    ensures same { flat table.now.rows (drop result.row rows.now) ≡ drop result.at ids.now }
{
    let mut row = rows.len();
    let mut rest = ids;
    while row > 0 {
        let Some(less) = without_end(rest, table.ids(rows[row - 1])) else {
            break;
        };
        rest = less;
        row -= 1;
    }
    let at = rest.len();
    Edge { row, at }
}

// What a list has in place of the ids of rows from one place up to another.
#[derive(Clone, Copy)]
pub(crate) struct Change<'a> {
    pub(crate) from: usize,
    pub(crate) to: usize,
    pub(crate) middle: &'a [u64],
}

// How a list differs from rows, by whole rows at its front and at its end. There are no great numbers of ids.
pub(crate) fn change_of<'a>(table: &RowTable, rows: &[usize], ids: &'a [u64]) -> Option<Change<'a>>
    ensures { IfSome result (λ c. IsChange (flat table.now.rows rows.now) ids.now c.from c.to c.middle.now) }
{
    let count = count_ids(table, rows)?;
    if ids.len() > IDS_MOST {
        return None;
    }
    let front = front_of(table, rows, ids);
    let rest = &ids[front.at..];
    let end = end_of(table, &rows[front.row..], rest);
    let to = count - (rest.len() - end.at);
    Some(Change {
        from: front.at,
        to,
        middle: &rest[..end.at],
    })
}

#[tactic(auto, using(crate::proofs::FlatRows::flat_more, crate::proofs::FlatRows::flat_within))]
// The last edge that is not after a place.
fn edge_before(table: &RowTable, rows: &[usize], place: usize) -> Edge
    requires within { place ≤ length (flat table.now.rows rows.now) }
    ensures edge { IsEdge table.now.rows rows.now result.row result.at }
    ensures before { result.at ≤ place }
{
    let mut row = 0;
    let mut at = 0;
    while row < rows.len() {
        let size = table.ids(rows[row]).len();
        if place - at < size {
            break;
        }
        at += size;
        row += 1;
    }
    Edge { row, at }
}

#[tactic(auto, using(crate::proofs::FlatRows::flat_more, crate::proofs::FlatRows::flat_all, crate::proofs::FlatRows::flat_within))]
// The first edge that is not before a place.
fn edge_after(table: &RowTable, rows: &[usize], place: usize) -> Edge
    requires few { length (flat table.now.rows rows.now) ≤ COUNTER_LIMIT }
    requires within { place ≤ length (flat table.now.rows rows.now) }
    ensures edge { IsEdge table.now.rows rows.now result.row result.at }
    ensures after { place ≤ result.at }
{
    let mut row = 0;
    let mut at = 0;
    while at < place {
        at += table.ids(rows[row]).len();
        row += 1;
    }
    Edge { row, at }
}

// Whether a row becomes one with the `size` new ids beside it: if it is short, or if all fit in one row.
fn is_joined(row: usize, size: usize) -> bool {
    0 < size && (row < ROW_LEAST || row <= ROW_MOST && size <= ROW_MOST - row)
}

#[tactic(auto, using(crate::proofs::FlatRows::flat_more))]
// The edge before the row that ends at an edge, if that row is joined with what follows.
fn joined_before(table: &RowTable, rows: &[usize], edge: Edge, size: usize) -> Edge
    requires edge { IsEdge table.now.rows rows.now edge.row edge.at }
    ensures edge { IsEdge table.now.rows rows.now result.row result.at }
    ensures before { result.at ≤ edge.at }
{
    if edge.row == 0 {
        return edge;
    }
    let row = edge.row - 1;
    let len = table.ids(rows[row]).len();
    if is_joined(len, size) {
        let at = edge.at - len;
        Edge { row, at }
    } else {
        edge
    }
}

#[tactic(auto, using(crate::proofs::FlatRows::flat_more, crate::proofs::FlatRows::flat_within))]
// The edge after the row that begins at an edge, if that row is joined with what comes before.
fn joined_after(table: &RowTable, rows: &[usize], edge: Edge, size: usize) -> Edge
    requires few { length (flat table.now.rows rows.now) ≤ COUNTER_LIMIT }
    requires edge { IsEdge table.now.rows rows.now edge.row edge.at }
    ensures edge { IsEdge table.now.rows rows.now result.row result.at }
    ensures after { edge.at ≤ result.at }
{
    if edge.row == rows.len() {
        return edge;
    }
    let len = table.ids(rows[edge.row]).len();
    if is_joined(len, size) {
        let at = edge.at + len;
        let row = edge.row + 1;
        Edge { row, at }
    } else {
        edge
    }
}

#[tactic(auto, using(crate::proofs::FlatRows::edge_within))]
// The rows that become new if `size` ids stand in place of those from one place up to another.
pub(crate) fn span_of(table: &RowTable, rows: &[usize], from: usize, to: usize, size: usize) -> Span
    requires few { length (flat table.now.rows rows.now) ≤ COUNTER_LIMIT }
    requires size { size ≤ COUNTER_LIMIT }
    requires rising { from ≤ to }
    requires within { to ≤ length (flat table.now.rows rows.now) }
    ensures start { IsEdge table.now.rows rows.now result.start.row result.start.at }
    ensures end { IsEdge table.now.rows rows.now result.end.row result.end.at }
    ensures before { result.start.at ≤ from }
    ensures after { to ≤ result.end.at }
{
    let start = edge_before(table, rows, from);
    let end = edge_after(table, rows, to);
    let size = from - start.at + size + (end.at - to);
    let first = joined_before(table, rows, start, size);
    let size = size + (start.at - first.at);
    let end = joined_after(table, rows, end, size);
    Span { start: first, end }
}
