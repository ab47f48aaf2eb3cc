// A commit: whether it may be made, and its record.
ghost use Rattle.std.specs.Prelude.{◌≡◌, ℕ, ◌+◌, ◌≤◌, ◌<◌, ◌^◌, List, [], ◌∷◌, length, vec_capacity, IfErr, OnOk};
ghost use Rattle.block_cache.specs.Caches.{AllPass};
ghost use Rattle.project_journal.specs.Journal.{AreWaiting};
ghost use Rattle.envelope_view.specs.Answers.{IsUndamaged};
ghost use Rattle.editor_state.specs.Adding.{Adds, Exceeds, IsNoWant, Settles, Tested};
ghost use Rattle.editor_core.specs.Core.{core_of};
ghost use Rattle.editor_state.specs.Given.{is_block};

use super::studio::Studio;
use disk_model::Store;
use pcm_base::{COUNTER_LIMIT, LONGEST_BODY, Refusal};
use project_journal::{JournalFault, append, append_records, append_small};

impl<S: Store> Studio<S> {
    // Whether a commit may be made that its own tests answer so, and that needs this many track ids.
    pub(crate) fn may_commit(&self, own: Option<Refusal>, tracks: u64) -> Result<(), Refusal>
        requires number { self.now.commit_number ≤ COUNTER_LIMIT }
        requires ids { self.now.next_track ≤ COUNTER_LIMIT }
        ensures { Tested (core_of self.now) own tracks result }
    {
        if let Some(faults) = self.stopped {
            return Err(Refusal::Stopped { faults });
        }
        if let Some(reason) = own {
            return Err(reason);
        }
        if tracks > COUNTER_LIMIT - self.next_track {
            let have = self.next_track;
            return Err(Refusal::SpaceSpent { have, need: tracks });
        }
        if self.commit_number == COUNTER_LIMIT {
            return Err(Refusal::SpaceSpent {
                have: COUNTER_LIMIT,
                need: 1,
            });
        }
        Ok(())
    }

    // Whether the journal has the places for a record with a body of this many bytes, and the body is short enough.
    pub(crate) fn may_add(&self, len: u64) -> Result<(), Refusal>
        requires small { len ≤ 2 ^ 53 }
        requires end { self.now.journal_end ≤ COUNTER_LIMIT }
        ensures ok { OnOk result ((self.now.journal_end + (6 + len) ≤ COUNTER_LIMIT) × (len ≤ LONGEST_BODY)) }
        ensures err { IfErr result (Exceeds self.now.journal_end len) }
    {
        if len + 6 > COUNTER_LIMIT - self.journal_end {
            return Err(Refusal::SpaceSpent {
                have: self.journal_end,
                need: len + 6,
            });
        }
        if len > LONGEST_BODY {
            return Err(Refusal::RecordLimit { len });
        }
        Ok(())
    }

    // Adds a small record, and counts the commit. After a fault of the disk the studio is stopped. It takes no memory.
    pub(crate) fn commit_small(&mut self, body: &[u8]) -> Result<(), Refusal>
        requires small { length body.now ≤ 9 }
        requires room { self.old.commit_number < COUNTER_LIMIT }
        requires file { self.old.file ≤ 1 }
        requires pages { AllPass is_block self.old.reader.cache }
        ensures record { Adds S.Store (core_of self.old) (body.now ∷ []) 1 (length body.now) result (core_of self.new) }
        ensures memory { IfErr result IsNoWant }
        ensures undamaged { IfErr result IsUndamaged }
    {
        let added = append_small(&mut self.reader.store, self.file, self.journal_end, body);
        self.settle(added, 1)
    }

    // Adds the record whose body was written, and counts the commit. After a fault of the disk the studio is stopped.
    pub(crate) fn commit_written(&mut self) -> Result<(), Refusal>
        requires room { self.old.commit_number < COUNTER_LIMIT }
        requires short { length self.old.body.items ≤ LONGEST_BODY }
        requires file { self.old.file ≤ 1 }
        requires pages { AllPass is_block self.old.reader.cache }
        ensures record { (whole : ℕ) → Adds S.Store (core_of self.old) (self.old.body.items ∷ []) 1 whole result
            (core_of self.new) }
        ensures memory { 5 + length self.old.body.items ≤ vec_capacity self.old.row → IfErr result IsNoWant }
        ensures undamaged { IfErr result IsUndamaged }
        ensures history { self.new.history ≡ self.old.history }
        ensures ledger { self.new.tally ≡ self.old.tally }
    {
        let added = append(
            &mut self.reader.store,
            self.file,
            self.journal_end,
            &self.body,
            &mut self.row,
        );
        self.settle(added, 1)
    }

    // Adds the records that wait in the row, this many, and counts their commits. After a fault of the disk the studio
    // is stopped.
    pub(crate) fn commit_rows(&mut self, count: u64) -> Result<(), Refusal>
        requires room { self.old.commit_number + count ≤ COUNTER_LIMIT }
        requires some { 5 ≤ length self.old.row.items }
        requires short { length self.old.row.items ≤ LONGEST_BODY + 5 }
        requires file { self.old.file ≤ 1 }
        requires pages { AllPass is_block self.old.reader.cache }
        ensures records { (whole : ℕ) (bodies : List (List ℕ)) → AreWaiting self.old.row.items bodies
            → length bodies ≡ count → Adds S.Store (core_of self.old) bodies count whole result (core_of self.new) }
        ensures memory { 1 + length self.old.row.items ≤ vec_capacity self.old.row → IfErr result IsNoWant }
        ensures undamaged { IfErr result IsUndamaged }
        ensures history { self.new.history ≡ self.old.history }
        ensures ledger { self.new.tally ≡ self.old.tally }
    {
        let end = self.journal_end;
        let added = append_records(&mut self.reader.store, self.file, end, &mut self.row);
        self.settle(added, count)
    }

    // Counts this many commits whose records were added, or stops the studio after a fault of the disk.
    fn settle(&mut self, added: Result<u64, JournalFault>, count: u64) -> Result<(), Refusal>
        requires { self.old.commit_number + count ≤ COUNTER_LIMIT }
        ensures fields { Settles S.Store (core_of self.old) count added result (core_of self.new) }
        ensures history { self.new.history ≡ self.old.history }
        ensures ledger { self.new.tally ≡ self.old.tally }
    {
        match added {
            Ok(next) => {
                self.journal_end = next;
                self.commit_number += count;
                Ok(())
            }
            Err(JournalFault::DiskFault) => {
                self.stopped = Some(self.reader.store.faults());
                Err(Refusal::DiskFault)
            }
            Err(JournalFault::SpaceSpent { have, need }) => {
                Err(Refusal::SpaceSpent { have, need })
            }
            Err(
                JournalFault::Absent
                | JournalFault::Exists
                | JournalFault::Damaged { .. }
                | JournalFault::NoMemory,
            ) => Err(Refusal::NoMemory),
        }
    }
}
