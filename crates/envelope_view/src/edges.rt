// Where the columns of a range begin, and which ranges and numbers of columns are refused.
ghost use Rattle.std.specs.Prelude.{◌≡◌, ◌≤◌, ◌<◌, IfErr, OnOk};
ghost use Rattle.pcm_base.specs.Envelope as envelope;
ghost use Rattle.envelope_view.specs.Answers.{IsOfTests, Passes, column_tests};

use pcm_base::{MAX_VIEW, Refusal};

/// The place where a column begins.
pub(crate) fn edge(from: u64, to: u64, columns: u64, i: u64) -> u64
    requires order { from ≤ to }
    requires some { 0 < columns }
    requires among { i ≤ columns }
    ensures value { result ≡ envelope.edge from to columns i }
    ensures within { result ≤ to }
{
    from + (u128::from(i) * u128::from(to - from) / u128::from(columns)) as u64
}

/// A range of a layout of this many cells may be cut into this many columns.
pub(crate) fn test_columns(from: u64, to: u64, columns: u64, len: u64) -> Result<(), Refusal>
    ensures tests { Passes (column_tests from to columns len) result }
    ensures reasons { IfErr result IsOfTests }
    ensures rising { OnOk result (from < to) }
    ensures within { OnOk result (to ≤ len) }
    ensures some { OnOk result (0 < columns) }
    ensures few { OnOk result (columns ≤ MAX_VIEW) }
{
    if from >= to || to > len {
        return Err(Refusal::BadRange);
    }
    if columns == 0 || columns > MAX_VIEW || columns > to - from {
        return Err(Refusal::BadColumns);
    }
    Ok(())
}
