// The files of blocks that nothing names.
ghost use Rattle.std.specs.Prelude.{◌≡◌, ◌≤◌, ◌<◌, ◌^◌, ℕ, Some, IsSome};
ghost use Rattle.pcm_base.specs.declared.limits.TheConstants.{COUNTER_LIMIT, FIRST_BLOCK};
ghost use Rattle.row_ledger.specs.Lists.{counts_of};
ghost use Rattle.editor_core.specs.Core.{core_of};
ghost use Rattle.editor_cleanup.specs.Frees.{Reclaims};
ghost use Rattle.editor_cleanup.specs.Passes.{DropsFirst, ForgetsFirst, RemovesFirst, SyncsFirst};
ghost use Rattle.editor_state.specs.Removals.{Drops};
ghost use Rattle.editor_state.specs.Studios.{IsStudio};

use super::studio::Studio;
use block_store::BlockFault;
use disk_model::Store;
use pcm_base::Refusal;

impl<S: Store> Studio<S> {
    /// Removes block files that nothing names, those of the least ids first: all, or this many at most. It answers how
    /// many went, and takes no memory. It removes all of them and then syncs each, so that one sync of a folder can
    /// serve them all.
    ///
    /// # Errors
    ///
    /// `Stopped` where a change of the disk failed in an earlier call. `DiskFault` where a removal or a sync fails: the
    /// studio stops, and what went before stays gone as it reads. A stop may bring it back.
    pub fn reclaim(&mut self, limit: Option<u64>) -> Result<u64, Refusal>
        requires { IsStudio S.Store (core_of self.old) }
        ensures { Reclaims S.Store (core_of self.old) limit result (core_of self.new) }
    {
        if let Some(faults) = self.stopped {
            return Err(Refusal::Stopped { faults });
        }
        let (count, dropped) = self.drop_first(limit.unwrap_or(u64::MAX));
        self.forget_first(count);
        match dropped {
            Ok(()) => Ok(count),
            Err(_) => {
                self.stopped = Some(self.reader.store.faults());
                Err(Refusal::DiskFault)
            }
        }
    }

    // Removes the files of the first blocks that nothing names, this many at most, and waits until they are gone. It
    // answers how many were removed, also where the disk failed.
    fn drop_first(&mut self, most: u64) -> (u64, Result<(), BlockFault>)
        requires low { (id : ℕ) → IsSome (counts_of self.old.tally.ledger id) → FIRST_BLOCK ≤ id }
        requires high { (id : ℕ) → IsSome (counts_of self.old.tally.ledger id) → id < COUNTER_LIMIT }
        ensures { DropsFirst S.Store (core_of self.old) most result.0 result.1 (core_of self.new) }
    {
        let (count, removed) = self.remove_first(most);
        match removed {
            Ok(()) => (count, self.sync_first(count)),
            Err(fault) => (count, Err(fault)),
        }
    }

    // Removes the files of the first blocks that nothing names, this many at most, without a sync. It answers how many
    // were removed, also where the disk failed.
    fn remove_first(&mut self, most: u64) -> (u64, Result<(), BlockFault>)
        requires low { (id : ℕ) → IsSome (counts_of self.old.tally.ledger id) → FIRST_BLOCK ≤ id }
        requires high { (id : ℕ) → IsSome (counts_of self.old.tally.ledger id) → id < COUNTER_LIMIT }
        ensures { RemovesFirst S.Store (core_of self.old) 1 most result.0 result.1 (core_of self.new) }
    {
        let mut from = 0;
        for count in 0..most {
            let Some(id) = self.tally.ledger.next_free(from) else {
                return (count, Ok(()));
            };
            if let Err(fault) = self.remove_unnamed(id) {
                return (count, Err(fault));
            }
            from = id + 1;
        }
        (most, Ok(()))
    }

    // Removes the file of a block, without a sync, and its pages of the cache before.
    fn remove_unnamed(&mut self, id: u64) -> Result<(), BlockFault>
        requires low { FIRST_BLOCK ≤ id }
        requires high { id < COUNTER_LIMIT }
        ensures { Drops S.Store (core_of self.old) id result (core_of self.new) }
    {
        self.reader.remove(id)
    }

    // Syncs the files of the first blocks that nothing names, this many at most.
    fn sync_first(&mut self, count: u64) -> Result<(), BlockFault>
        requires { (id : ℕ) → IsSome (counts_of self.old.tally.ledger id) → id < COUNTER_LIMIT }
        ensures { SyncsFirst S.Store (core_of self.old) count result (core_of self.new) }
    {
        let mut from = 0;
        for i in 0..count {
            let Some(id) = self.tally.ledger.next_free(from) else {
                return Ok(());
            };
            self.reader.sync(id)?;
            from = id + 1;
        }
        Ok(())
    }

    // Forgets the first blocks that nothing names, this many at most.
    fn forget_first(&mut self, count: u64)
        ensures { ForgetsFirst (core_of self.old) count (core_of self.new) }
    {
        for i in 0..count {
            let Some(id) = self.tally.ledger.first_free() else {
                return;
            };
            self.tally.ledger.forget(id);
        }
    }
}
