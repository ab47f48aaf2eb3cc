// Ids that come and go in a ledger.
ghost use Rattle.std.specs.Prelude.{◌≡◌, ◌+◌, ◌<◌, ◌≤◌, ◌^◌, ℕ};
ghost use Rattle.block_ledger.specs.Counts.{occurrences, times};
ghost use Rattle.block_ledger.specs.Entries.{count_of};
ghost use Rattle.row_ledger.specs.Rows.{AreThere, HasSameRoom, Held};

use block_ledger::Ledger;

// These ids, which are all there, occur once more.
pub(crate) fn hold_ids(ledger: &mut Ledger, ids: &[u64])
    requires there { AreThere (count_of ledger.old) ids.now }
    requires few { (id : ℕ) → occurrences (count_of ledger.old id) + times id ids.now < 2 ^ 128 }
    ensures held { Held (count_of ledger.old) (count_of ledger.new) ids.now }
    ensures room { HasSameRoom ledger.old ledger.new }
{
    for id in ids {
        ledger.hold(*id);
    }
}

// These ids occur once less.
pub(crate) fn drop_ids(ledger: &mut Ledger, ids: &[u64])
    requires { (id : ℕ) → times id ids.now ≤ occurrences (count_of ledger.old id) }
    ensures held { Held (count_of ledger.new) (count_of ledger.old) ids.now }
    ensures room { HasSameRoom ledger.old ledger.new }
{
    for id in ids {
        ledger.drop_one(*id);
    }
}
