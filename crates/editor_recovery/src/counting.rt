// The counts of a disk's files, by the layouts of a history.
ghost use Rattle.std.specs.Prelude.{◌≡◌, ◌⊎◌, ◌+◌, ◌^◌, ◌≤◌, ◌<◌, ℕ, [], None, Some, IfOk, Contains, length};
ghost use Rattle.std.specs.List.{AllByRecursion};
ghost use Rattle.block_ledger.specs.Counts.{SetsCount};
ghost use Rattle.row_ledger.specs.Lists.{counts_of, list_of, singles_of, spare_of};
ghost use Rattle.project_state.specs.Meaning.{history_blocks};
ghost use Rattle.layout_uses.specs.Layouts.{history_tracks};
ghost use Rattle.layout_uses.specs.Occurrences.{times_named};
ghost use Rattle.layout_uses.specs.Tallies.{IsTally};
ghost use Rattle.editor_recovery.specs.Ledgers.{AreCounted, AreNoted};

use block_ledger::Ledger;
use layout_uses::{Tally, count_points};
use pcm_base::NoMemory;
use project_state::Point;
use row_ledger::RowLedger;
use std::alloc::Global;
use undo_history::History;

// Notes a file, that no block names yet.
fn note_file(ledger: &mut RowLedger, file: u64)
    requires room { 0 < spare_of ledger.old }
    requires fresh { (counts_of ledger.old file ≡ None) ⊎ (counts_of ledger.old file ≡ Some 0) }
    ensures counts { SetsCount (counts_of ledger.old) (counts_of ledger.new) file (Some 0) }
    ensures spare { spare_of ledger.old ≤ spare_of ledger.new + 1 }
    ensures singles { (other : ℕ) → singles_of ledger.new other ≡ singles_of ledger.old other }
    ensures lists { (number : ℕ) → list_of ledger.new number ≡ list_of ledger.old number }
{
    ledger.hold(file);
    ledger.drop_one(file);
}

// Each of these files but 0 and 1, which no block names yet.
fn note_files(alloc: Global, files: &[u64]) -> Result<RowLedger, NoMemory>
    ensures noted { IfOk result (λ l. AreNoted files.now (counts_of l)) }
    ensures single { IfOk result (λ l. (id : ℕ) → singles_of l id ≡ 0) }
    ensures lists { IfOk result (λ l. (number : ℕ) → list_of l number ≡ None) }
{
    let mut ledger = RowLedger::new(alloc);
    ledger.reserve(files.len() as u64)?;
    for i in 0..files.len() {
        if files[i] > 1 {
            note_file(&mut ledger, files[i]);
        }
    }
    Ok(ledger)
}

// Nothing is used yet, and each of these files but 0 and 1 is named by nothing.
fn no_uses(alloc: Global, files: &[u64]) -> Result<Tally, NoMemory>
    ensures counted { IfOk result (IsTally [] []) }
    ensures noted { IfOk result (λ t. AreNoted files.now (counts_of t.ledger)) }
{
    let ledger = note_files(alloc, files)?;
    Ok(Tally {
        uses: Ledger::new(alloc),
        ledger,
    })
}

/// The uses of a history's layouts, and the counts of these files, of which 0 and 1 are none of a block.
pub(crate) fn count_layouts(
    alloc: Global,
    files: &[u64],
    history: &History<Point>,
) -> Result<Tally, NoMemory>
    requires named { AllByRecursion (λ b. (2 ≤ b.id) × Contains files.now b.id) (history_blocks history.now.history) }
    requires few { (id : ℕ) → times_named id (history_blocks history.now.history) < 2 ^ 128 }
    requires fits { length (history_tracks history.now.history) < 2 ^ 128 }
    ensures counted { IfOk result (IsTally (history_tracks history.now.history) []) }
    ensures ids { IfOk result (λ t. AreCounted files.now (counts_of t.ledger)) }
{
    let mut tally = no_uses(alloc, files)?;
    count_points(&mut tally, history)?;
    Ok(tally)
}
