// Which rows an edit shares: those before one edge and those after another.
ghost use Rattle.std.specs.Prelude.{◌≡◌, ◌+◌, ◌-◌, ◌*◌, ◌≤◌, length};
ghost use Rattle.pcm_base.specs.declared.limits.TheConstants.{MAX_CELLS};
ghost use Rattle.block_sequence.specs.Rows.{flat, IsEdge};

use super::rows::{ROW_MOST, Row};

/// A place between two rows: how many rows lie before it, and how many references.
#[derive(Clone, Copy)]
pub struct Edge {
    pub row: usize,
    pub at: usize,
}

/// The rows that an edit makes anew.
#[derive(Clone, Copy)]
pub struct Span {
    pub start: Edge,
    pub end: Edge,
}

/// A row of fewer references is short.
pub const ROW_LEAST: usize = 256;

#[tactic(auto, using(crate::proofs::FlatRows::flat_more, crate::proofs::FlatRows::flat_within))]
/// The last edge that is not after a place.
pub fn edge_before(rows: &[Row], place: usize) -> Edge
    requires within { place ≤ length (flat rows.now) }
    ensures edge { IsEdge rows.now result.row result.at }
    ensures before { result.at ≤ place }
{
    let mut row = 0;
    let mut at = 0;
    while row < rows.len() {
        let size = rows[row].as_slice().len();
        if place - at < size {
            break;
        }
        at += size;
        row += 1;
    }
    Edge { row, at }
}

#[tactic(auto, using(crate::proofs::FlatRows::flat_more, crate::proofs::FlatRows::flat_all, crate::proofs::FlatRows::flat_within))]
/// The first edge that is not before a place.
pub fn edge_after(rows: &[Row], place: usize) -> Edge
    requires few { length (flat rows.now) ≤ MAX_CELLS }
    requires within { place ≤ length (flat rows.now) }
    ensures edge { IsEdge rows.now result.row result.at }
    ensures after { place ≤ result.at }
{
    let mut row = 0;
    let mut at = 0;
    while at < place {
        at += rows[row].as_slice().len();
        row += 1;
    }
    Edge { row, at }
}

// Whether a row becomes one with the `size` new references beside it: if it is short, or if all fit in one row.
fn is_joined(row: usize, size: usize) -> bool
    requires row { row ≤ 1024 }
    requires few { size ≤ 4 * MAX_CELLS }
{
    0 < size && (row < ROW_LEAST || row + size <= ROW_MOST)
}

#[tactic(auto, using(crate::proofs::FlatRows::flat_more))]
// The edge before the row that ends at an edge, if that row is joined with what follows.
fn joined_before(rows: &[Row], edge: Edge, size: usize) -> Edge
    requires edge { IsEdge rows.now edge.row edge.at }
    requires few { size ≤ 4 * MAX_CELLS }
    ensures edge { IsEdge rows.now result.row result.at }
    ensures before { result.at ≤ edge.at }
{
    if edge.row == 0 {
        return edge;
    }
    let row = edge.row - 1;
    let len = rows[row].as_slice().len();
    if is_joined(len, size) {
        let at = edge.at - len;
        Edge { row, at }
    } else {
        edge
    }
}

#[tactic(auto, using(crate::proofs::FlatRows::flat_more, crate::proofs::FlatRows::flat_within))]
// The edge after the row that begins at an edge, if that row is joined with what comes before.
fn joined_after(rows: &[Row], edge: Edge, size: usize) -> Edge
    requires all { length (flat rows.now) ≤ MAX_CELLS }
    requires edge { IsEdge rows.now edge.row edge.at }
    requires few { size ≤ 4 * MAX_CELLS }
    ensures edge { IsEdge rows.now result.row result.at }
    ensures after { edge.at ≤ result.at }
{
    if edge.row == rows.len() {
        return edge;
    }
    let len = rows[edge.row].as_slice().len();
    if is_joined(len, size) {
        let at = edge.at + len;
        let row = edge.row + 1;
        Edge { row, at }
    } else {
        edge
    }
}

#[tactic(auto, using(crate::proofs::FlatRows::edge_within))]
/// The rows that become new if `size` references stand in place of those from one place up to another.
pub fn span_of(rows: &[Row], from: usize, to: usize, size: usize) -> Span
    requires all { length (flat rows.now) ≤ MAX_CELLS }
    requires few { size ≤ MAX_CELLS }
    requires rising { from ≤ to }
    requires within { to ≤ length (flat rows.now) }
    ensures start { IsEdge rows.now result.start.row result.start.at }
    ensures end { IsEdge rows.now result.end.row result.end.at }
    ensures before { result.start.at ≤ from }
    ensures after { to ≤ result.end.at }
{
    let start = edge_before(rows, from);
    let end = edge_after(rows, to);
    let size = from - start.at + size + (end.at - to);
    let first = joined_before(rows, start, size);
    let size = size + (start.at - first.at);
    let end = joined_after(rows, end, size);
    Span { start: first, end }
}
