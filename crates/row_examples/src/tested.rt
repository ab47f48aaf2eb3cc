// A ledger of rows whose calls test what the ledger asks for.
ghost use Rattle.std.specs.Prelude.{◌≡◌, ◌+◌, ◌^◌, ◌<◌, IsTrue, IfOk, length};
ghost use Rattle.row_ledger.specs.Lists.{counts_of};
ghost use Rattle.row_examples.specs.Bounds.{AreAllThere};

use row_ledger::RowLedger;
use std::alloc::Global;
use std::marker::Model;
use std::test::*;

/// A ledger, with a number that no count of an id is above.
#[derive(Drop)]
pub(crate) struct Tested {
    ledger: RowLedger,
    most: u64,
}

impl Model for Tested {
    ghost use Rattle.row_ledger.specs.Lists.{RowsState, counts_of};
    ghost use Rattle.row_examples.specs.Bounds.{AreAtMost};

    ghost Value = { RowsState };

    ghost view = { λ t. t.ledger };

    ghost invariant = { λ t. AreAtMost t.most (counts_of t.ledger) };
}

impl Tested {
    /// A ledger without ids and lists.
    pub(crate) fn new(alloc: Global) -> Tested {
        Tested {
            ledger: RowLedger::new(alloc),
            most: 0,
        }
    }

    /// The ledger comes to have an id, if it had not.
    pub(crate) fn add(&mut self, id: u64) -> Result<(), Fail> {
        self.ledger.reserve(1)?;
        self.ledger.hold(id);
        self.ledger.drop_one(id);
        Ok(())
    }

    /// A new number comes to have a list of ids that the ledger has.
    pub(crate) fn hold_list(&mut self, number: u64, base: u64, ids: &[u64]) -> Result<(), Fail> {
        if self.ledger.has_list(number) {
            return Err("the number has a list".into());
        }
        if !has_all(&self.ledger, ids) {
            return Err("an id is not there".into());
        }
        let most = with_more(self.most, ids)?;
        self.ledger.hold_list(number, base, 0, 0, ids)?;
        self.most = most;
        Ok(())
    }

    /// A number has its list no more.
    pub(crate) fn drop_list(&mut self, number: u64) -> Result<(), Fail> {
        if !self.ledger.has_list(number) {
            return Err("the number has no list".into());
        }
        self.ledger.drop_list(number);
        Ok(())
    }

    /// Whether an id occurs.
    pub(crate) fn is_named(&self, id: u64) -> bool {
        self.ledger.is_named(id)
    }

    /// How many ids occur.
    pub(crate) fn named_len(&self) -> u64 {
        self.ledger.named_len()
    }

    /// How many places for rows there are.
    pub(crate) fn rows_len(&self) -> usize {
        self.ledger.rows_len()
    }
}

/// A bound of all counts after a list of ids more.
fn with_more(most: u64, ids: &[u64]) -> Result<u64, Fail>
    ensures sum { IfOk result (λ sum. most + length ids.now ≡ sum) }
    ensures few { IfOk result (λ sum. sum < 2 ^ 64) }
{
    let Some(sum) = most.checked_add(ids.len() as u64) else {
        return Err("too many ids".into());
    };
    Ok(sum)
}

/// Whether the ledger has each of these ids.
fn has_all(ledger: &RowLedger, ids: &[u64]) -> bool
    ensures { IsTrue result → AreAllThere (counts_of ledger.now) ids.now }
{
    for i in 0..ids.len() {
        if !ledger.has(ids[i]) {
            return false;
        }
    }
    true
}
