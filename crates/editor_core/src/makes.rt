// New blocks, which are written and then synced before a record names them.
ghost use Rattle.std.specs.Prelude.{◌≡◌, ℕ, ℤ, IsSome, ◌+◌, ◌≤◌, ◌<◌, ◌^◌, IsTrue, IfErr, MatchResult, None, false};
ghost use Rattle.std.specs.Prelude.{length};
ghost use Rattle.pcm_base.specs.declared.limits.TheConstants.{COUNTER_LIMIT, FIRST_BLOCK, MAX_BLOCK_SAMPLES};
ghost use Rattle.pcm_base.specs.Pieces.{total};
ghost use Rattle.sample_block.specs.Spelling.{IsBlock};
ghost use Rattle.block_cache.specs.Caches.{AllPass};
ghost use Rattle.row_ledger.specs.Lists.{counts_of, list_of, singles_of, spare_of};
ghost use Rattle.block_writer.specs.Brought.{AreInOrder, MayBring};
ghost use Rattle.block_writer.specs.Bringers.{StillBrings};
ghost use Rattle.block_writer.specs.Reading.{AllReadable, AllThere};
ghost use Rattle.edit_ops.specs.Plans.{AreNew};
ghost use Rattle.editor_core.specs.Core.{core_of};
ghost use Rattle.editor_state.specs.Made.{AllInOrder, PiecesReadable, batch_of, ids_from};
ghost use Rattle.editor_state.specs.Makes.{AddsFree, IsBroughtRefusal, IsDamageAmong, IsOfDevices, MadeOne, Makes};
ghost use Rattle.editor_state.specs.Makes.{NotMade, RefusedBrought, Syncs, Writes};
ghost use Rattle.editor_state.specs.Given.{is_given};

use super::studio::Studio;
use block_writer::{Brings, MakeFault};
use disk_model::Store;
use edit_ops::NewBlock;
use pcm_base::Refusal;
use row_ledger::RowLedger;

// The ledger has the id of a file that nothing names.
fn count_free(ledger: &mut RowLedger, id: u64)
    requires spare { 0 < spare_of ledger.old }
    requires fresh { counts_of ledger.old id ≡ None }
    ensures counts { AddsFree id 1 (counts_of ledger.old) (counts_of ledger.new) }
    ensures spare { spare_of ledger.old ≤ spare_of ledger.new + 1 }
    ensures singles { (other : ℕ) → singles_of ledger.new other ≡ singles_of ledger.old other }
    ensures lists { (number : ℕ) → list_of ledger.new number ≡ list_of ledger.old number }
{
    ledger.hold(id);
    ledger.drop_one(id);
}

impl<S: Store> Studio<S> {
    // Writes the next block. After a failed change the studio is stopped.
    fn write_one<G: Brings>(&mut self, block: &NewBlock, given: &mut G) -> Result<(), Refusal>
        requires id { block.now.id ≡ self.old.next_block }
        requires block { IsBlock block.now.id block.now.len }
        requires pieces { AllReadable (G.brings given.old).count block.now.pieces }
        requires order { (G.brings given.old).tells ≡ false
            → AreInOrder 0 (G.brings given.old).count block.now.pieces }
        requires total { total block.now.pieces ≡ block.now.len }
        requires size { block.now.len ≤ self.old.buffers }
        requires spare { 0 < spare_of self.old.tally.ledger }
        requires fresh { counts_of self.old.tally.ledger block.now.id ≡ None }
        requires few { self.old.next_block < COUNTER_LIMIT }
        requires pages { AllPass (is_given self.old.next_block) self.old.reader.cache }
        ensures made { MatchResult result
            (λ _. (samples : ℕ → ℤ) × MayBring (G.brings given.old) samples
            × MadeOne S.Store (core_of self.old) samples block.now (core_of self.new))
            (λ e. NotMade S.Store (core_of self.old) e (core_of self.new)) }
        ensures valid { IsTrue (S.tells self.old.reader.store)
            → AllThere (S.reads self.old.reader.store) block.now.pieces
            → IfErr result IsOfDevices }
        ensures refused { IfErr result (IsBroughtRefusal (G.brings given.old)) }
        ensures damaged { IsTrue (S.tells self.old.reader.store)
            → IfErr result (IsDamageAmong (S.reads self.old.reader.store) block.now.pieces) }
        ensures still { StillBrings G.Brings given.old given.new }
        ensures given { RefusedBrought result (G.fault_count given.old) (G.fault_count given.new) }
        ensures spare { spare_of self.old.tally.ledger ≤ spare_of self.new.tally.ledger + 1 }
        ensures history { self.new.history ≡ self.old.history }
        ensures body { self.new.body ≡ self.old.body }
        ensures row { self.new.row ≡ self.old.row }
        ensures uses { self.new.tally.uses ≡ self.old.tally.uses }
    {
        match self.buffers.write_new(&mut self.reader, block, given) {
            Ok(()) => {
                count_free(&mut self.tally.ledger, block.id);
                self.next_block += 1;
                Ok(())
            }
            Err(MakeFault::Read { fault }) => Err(Refusal::from(fault)),
            Err(MakeFault::Bring { fault }) => Err(Refusal::from(fault)),
            Err(MakeFault::Put) => {
                self.stopped = Some(self.reader.store.faults());
                Err(Refusal::DiskFault)
            }
        }
    }

    // Writes new blocks, one after another. After a fault the blocks so far are there, and nothing names them. It takes
    // no memory.
    fn write_blocks<G: Brings>(&mut self, makes: &[NewBlock], given: &mut G) -> Result<(), Refusal>
        requires new { AreNew self.old.buffers self.old.next_block makes.now }
        requires pieces { PiecesReadable (G.brings given.old).count makes.now }
        requires order { (G.brings given.old).tells ≡ false
            → AllInOrder 0 (G.brings given.old).count makes.now }
        requires least { FIRST_BLOCK ≤ self.old.next_block }
        requires most { self.old.next_block + length makes.now ≤ COUNTER_LIMIT }
        requires size { self.old.buffers ≤ MAX_BLOCK_SAMPLES }
        requires spare { length makes.now ≤ spare_of self.old.tally.ledger }
        requires below { (id : ℕ) → IsSome (counts_of self.old.tally.ledger id) → id < self.old.next_block }
        requires pages { AllPass (is_given self.old.next_block) self.old.reader.cache }
        ensures written { (samples : ℕ → ℤ) × MayBring (G.brings given.old) samples
            × Writes S.Store (core_of self.old) (batch_of samples makes.now) result (core_of self.new) }
        ensures refused { IfErr result (IsBroughtRefusal (G.brings given.old)) }
        ensures still { StillBrings G.Brings given.old given.new }
        ensures given { RefusedBrought result (G.fault_count given.old) (G.fault_count given.new) }
        ensures history { self.new.history ≡ self.old.history }
        ensures body { self.new.body ≡ self.old.body }
        ensures row { self.new.row ≡ self.old.row }
        ensures uses { self.new.tally.uses ≡ self.old.tally.uses }
    {
        'rows: for block in makes {
            self.write_one(block, given)?;
        }
        Ok(())
    }

    // Syncs the files of this many blocks from an id on. After a failed sync the studio is stopped.
    fn sync_blocks(&mut self, first: u64, count: u64) -> Result<(), Refusal>
        requires { first + count ≤ COUNTER_LIMIT }
        ensures synced { Syncs S.Store (core_of self.old) (ids_from first count) result (core_of self.new) }
        ensures history { self.new.history ≡ self.old.history }
        ensures body { self.new.body ≡ self.old.body }
        ensures row { self.new.row ≡ self.old.row }
        ensures uses { self.new.tally.uses ≡ self.old.tally.uses }
    {
        'rows: for i in 0..count {
            if let Err(_) = self.reader.sync(first + i) {
                let faults = self.reader.store.faults();
                self.stopped = Some(faults);
                return Err(Refusal::DiskFault);
            }
        }
        Ok(())
    }

    // Makes new blocks: writes all of them and then syncs them, so that one sync of a folder can serve them all. After
    // a fault of a piece, or where samples do not come, the blocks so far are there, and nothing names them. It takes no
    // memory.
    pub(crate) fn make_blocks<G: Brings>(
        &mut self,
        makes: &[NewBlock],
        given: &mut G,
    ) -> Result<(), Refusal>
        requires new { AreNew self.old.buffers self.old.next_block makes.now }
        requires pieces { PiecesReadable (G.brings given.old).count makes.now }
        requires order { (G.brings given.old).tells ≡ false
            → AllInOrder 0 (G.brings given.old).count makes.now }
        requires least { FIRST_BLOCK ≤ self.old.next_block }
        requires most { self.old.next_block + length makes.now ≤ COUNTER_LIMIT }
        requires size { self.old.buffers ≤ MAX_BLOCK_SAMPLES }
        requires spare { length makes.now ≤ spare_of self.old.tally.ledger }
        requires below { (id : ℕ) → IsSome (counts_of self.old.tally.ledger id) → id < self.old.next_block }
        requires pages { AllPass (is_given self.old.next_block) self.old.reader.cache }
        ensures made { (samples : ℕ → ℤ) × MayBring (G.brings given.old) samples
            × Makes S.Store (core_of self.old) (batch_of samples makes.now) result (core_of self.new) }
        ensures refused { IfErr result (IsBroughtRefusal (G.brings given.old)) }
        ensures still { StillBrings G.Brings given.old given.new }
        ensures given { RefusedBrought result (G.fault_count given.old) (G.fault_count given.new) }
        ensures history { self.new.history ≡ self.old.history }
        ensures body { self.new.body ≡ self.old.body }
        ensures row { self.new.row ≡ self.old.row }
        ensures uses { self.new.tally.uses ≡ self.old.tally.uses }
    {
        let first = self.next_block;
        self.write_blocks(makes, given)?;
        self.sync_blocks(first, makes.len() as u64)
    }
}
