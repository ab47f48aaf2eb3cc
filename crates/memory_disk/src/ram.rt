// A disk in memory.
ghost use Rattle.std.specs.Prelude.{◌≡◌, ◌⊎◌, ◌+◌, ◌-◌, ◌≤◌, ◌↔◌, ◌++◌, min, ℕ, IsTrue, IfSome, IsErr, IsErrOf};
ghost use Rattle.std.specs.Prelude.{OnErr, OnOk, None, Some, length, take, drop, true, refl, IfOk, Contains, IsSome};
ghost use Rattle.std.specs.List.Sorted.{IsStrictlyIncreasing};
ghost use Rattle.std.specs.Option.{option_map};
ghost use Rattle.pcm_base.specs.declared.limits.TheConstants.{COUNTER_LIMIT};
ghost use Rattle.pcm_base.specs.Causes.{HasCause};
ghost use Rattle.disk_model.specs.Disk.{Files, bytes_of, written, TornFile, SameElsewhere, WriteStep, RemoveStep};
ghost use Rattle.disk_model.specs.Disk.{StaysStep, Follows};
ghost use Rattle.disk_model.specs.Faults.{HasListCause};
ghost use Rattle.disk_model.specs.Parts.{AllThere, AreParts, filled};
ghost use Rattle.memory_disk.specs.History.{SinceMoment, reads_of};
ghost use Rattle.memory_disk.specs.Histories.{image_since, reads_is_image, fewer_moment};
ghost use Rattle.disk_model.specs.Moment.{At};
ghost use Rattle.memory_disk.specs.Ram.{IsDue, IsFull, with_sync, with_removal, with_change, after_read, room_of};
ghost use Rattle.memory_disk.specs.Ram.{after_failed_read, after_failed_change, after_write, after_failed_write};
ghost use Rattle.disk_model.specs.Room.{raised, met, IsSpent, StaysRoom};

mod making;

use crate::log::CallLog;
use crate::parts::read_in_turn;
use crate::tally::Tally;
use disk_model::{ListFault, Part, Store};
use pcm_base::Failed;
use std::marker::Model;

/// A disk in memory. It keeps each call that changed it, so that a stop at any moment may leave all that a disk may.
#[derive(Drop)]
pub struct RamStore {
    log: CallLog,
    tally: Tally,
}

impl Model for RamStore {
    ghost use Rattle.memory_disk.specs.Ram.{Ram};

    ghost Value = { Ram };

    ghost view = { λ s. record { log = s.log; tally = s.tally } };
}

impl Store for RamStore {
    ghost tells = { λ _. true };

    ghost reads = { λ s. reads_of s.log.history };

    ghost keeps_model = { λ _. true };

    ghost clock = { λ s. At (length s.log.history) };

    ghost may_leave = { λ s. SinceMoment s.log.history };

    ghost read_fault_count = { λ s. s.tally.read_faults };

    ghost change_fault_count = { λ s. s.tally.change_faults };

    ghost change_calls = { λ s. s.tally.change_calls };

    ghost asked_bytes = { λ s. s.tally.asked_bytes };

    ghost absent_writes = { λ s. s.tally.absent_writes };

    ghost room = { room_of };

    ghost may_stay = { λ s _. (
      refl,
      image_since s.log.history (length s.log.history) (reads_of s.log.history) (reads_is_image s.log.history),
    ) };

    ghost may_fewer = { λ s t u c le now since. fewer_moment s.log.history t u c le since };

    fn faults(&self) -> u64 {
        self.tally.faults()
    }

    fn change_faults(&self) -> u64 {
        self.tally.change_faults()
    }

    #[tactic(auto, using(crate::proofs::Following::follows_same))]
    fn size(&mut self, file: u64) -> Result<Option<u64>, Failed>
        ensures size { IsTrue true → IfOk result (λ n. n ≡ option_map length (reads_of self.old.log.history file)) }
        ensures bound { IfOk result (λ n. IfSome n (λ n. n ≤ COUNTER_LIMIT)) }
        ensures tells { true ≡ true }
        ensures reads { reads_of self.new.log.history ≡ reads_of self.old.log.history }
        ensures model { true ≡ true }
        ensures calls { self.new.tally.change_calls ≡ self.old.tally.change_calls }
        ensures bytes { self.new.tally.asked_bytes ≡ self.old.tally.asked_bytes }
        ensures absent { self.new.tally.absent_writes ≡ self.old.tally.absent_writes }
        ensures room { room_of self.new ≡ room_of self.old }
        ensures unfailing { IsSome (room_of self.old) → self.new.tally.read_faults ≡ self.old.tally.read_faults }
        ensures clock { At (length self.new.log.history) ≡ At (length self.old.log.history) }
        ensures images { Follows StaysStep (At (length self.old.log.history)) (At (length self.new.log.history))
            (SinceMoment self.old.log.history) (SinceMoment self.new.log.history) }
        ensures faults { HasCause self.old.tally.read_faults self.new.tally.read_faults result }
        ensures changes { self.new.tally.change_faults ≡ self.old.tally.change_faults }
        // It fails exactly at the calls that are listed and after the stop.
        ensures due { IsErr result ↔ IsDue self.old.tally }
        ensures served { OnOk result (self.new ≡ after_read self.old) }
        ensures failed { OnErr result (self.new ≡ after_failed_read self.old) }
    {
        if self.tally.count_read() {
            return Err(self.tally.fail_read());
        }
        Ok(self.log.size(file))
    }

    #[tactic(auto, using(crate::proofs::Following::follows_same))]
    fn read_at(&mut self, file: u64, at: u64, buf: &mut [u8]) -> Result<usize, Failed>
        requires { at + length buf.old ≤ COUNTER_LIMIT }
        ensures read { IsTrue true → IfOk result
            (λ n. buf.new ≡ take n (drop at (bytes_of (reads_of self.old.log.history file))) ++ drop n buf.old) }
        ensures count { IsTrue true → IfOk result
            (λ n. n ≡ min (length buf.old) (length (bytes_of (reads_of self.old.log.history file)) - at)) }
        ensures within { IfOk result (λ n. n ≤ length buf.old) }
        ensures tells { true ≡ true }
        ensures reads { reads_of self.new.log.history ≡ reads_of self.old.log.history }
        ensures model { true ≡ true }
        ensures calls { self.new.tally.change_calls ≡ self.old.tally.change_calls }
        ensures bytes { self.new.tally.asked_bytes ≡ self.old.tally.asked_bytes }
        ensures absent { self.new.tally.absent_writes ≡ self.old.tally.absent_writes }
        ensures room { room_of self.new ≡ room_of self.old }
        ensures unfailing { IsSome (room_of self.old) → self.new.tally.read_faults ≡ self.old.tally.read_faults }
        ensures clock { At (length self.new.log.history) ≡ At (length self.old.log.history) }
        ensures images { Follows StaysStep (At (length self.old.log.history)) (At (length self.new.log.history))
            (SinceMoment self.old.log.history) (SinceMoment self.new.log.history) }
        ensures faults { HasCause self.old.tally.read_faults self.new.tally.read_faults result }
        ensures changes { self.new.tally.change_faults ≡ self.old.tally.change_faults }
        ensures due { IsErr result ↔ IsDue self.old.tally }
        ensures served { OnOk result (self.new ≡ after_read self.old) }
        ensures failed { OnErr result (self.new ≡ after_failed_read self.old) }
    {
        if self.tally.count_read() {
            return Err(self.tally.fail_read());
        }
        Ok(self.log.read(file, at, buf))
    }

    // It is one call, however many parts there are.
    #[tactic(auto, using(crate::proofs::Following::follows_same))]
    fn read_parts(&mut self, parts: &[Part], out: &mut [i16]) -> Result<bool, Failed>
        requires { AreParts 0 (length out.old) parts.now }
        ensures there { IsTrue true
            → IfOk result (λ all. (all ≡ true) ↔ AllThere (reads_of self.old.log.history) parts.now) }
        ensures read { IsTrue true → IfOk result
            (λ all. all ≡ true → out.new ≡ filled (reads_of self.old.log.history) parts.now out.old) }
        ensures tells { true ≡ true }
        ensures reads { reads_of self.new.log.history ≡ reads_of self.old.log.history }
        ensures model { true ≡ true }
        ensures calls { self.new.tally.change_calls ≡ self.old.tally.change_calls }
        ensures bytes { self.new.tally.asked_bytes ≡ self.old.tally.asked_bytes }
        ensures absent { self.new.tally.absent_writes ≡ self.old.tally.absent_writes }
        ensures room { room_of self.new ≡ room_of self.old }
        ensures unfailing { IsSome (room_of self.old) → self.new.tally.read_faults ≡ self.old.tally.read_faults }
        ensures clock { At (length self.new.log.history) ≡ At (length self.old.log.history) }
        ensures images { Follows StaysStep (At (length self.old.log.history)) (At (length self.new.log.history))
            (SinceMoment self.old.log.history) (SinceMoment self.new.log.history) }
        ensures faults { HasCause self.old.tally.read_faults self.new.tally.read_faults result }
        ensures changes { self.new.tally.change_faults ≡ self.old.tally.change_faults }
        ensures due { IsErr result ↔ IsDue self.old.tally }
        ensures served { OnOk result (self.new ≡ after_read self.old) }
        ensures failed { OnErr result (self.new ≡ after_failed_read self.old) }
    {
        if self.tally.count_read() {
            return Err(self.tally.fail_read());
        }
        Ok(read_in_turn(&self.log, parts, out))
    }

    #[tactic(auto, using(crate::proofs::Following::write_same, crate::proofs::Following::write_more))]
    fn write_at(&mut self, file: u64, at: u64, bytes: &[u8]) -> Result<(), Failed>
        requires { at + length bytes.now ≤ COUNTER_LIMIT }
        ensures written { IsTrue true → OnOk result (reads_of self.new.log.history file
            ≡ Some (written (bytes_of (reads_of self.old.log.history file)) at bytes.now)) }
        ensures torn { IsTrue true → OnErr result
            (TornFile at (length bytes.now) (reads_of self.old.log.history file) (reads_of self.new.log.history file)) }
        ensures others { IsTrue true
            → SameElsewhere file (reads_of self.old.log.history) (reads_of self.new.log.history) }
        ensures tells { true ≡ true }
        ensures model { true ≡ true }
        ensures calls { self.new.tally.change_calls ≡ raised self.old.tally.change_calls 1 }
        ensures bytes { self.new.tally.asked_bytes ≡ raised self.old.tally.asked_bytes (length bytes.now) }
        ensures absent { IsTrue true
            → self.new.tally.absent_writes ≡ met (reads_of self.old.log.history file) self.old.tally.absent_writes }
        ensures absent_later { self.old.tally.absent_writes ≤ self.new.tally.absent_writes }
        ensures room { StaysRoom (room_of self.old) (room_of self.new) }
        ensures spent { (self.new.tally.change_faults ≡ self.old.tally.change_faults)
            ⊎ IsSpent (room_of self.old) (record {
              files = self.new.tally.absent_writes;
              bytes = self.new.tally.asked_bytes;
              calls = self.new.tally.change_calls;
            }) }
        ensures images { Follows (WriteStep file at (length bytes.now)) (At (length self.old.log.history))
            (At (length self.new.log.history)) (SinceMoment self.old.log.history) (SinceMoment self.new.log.history) }
        ensures faults { HasCause self.old.tally.change_faults self.new.tally.change_faults result }
        ensures read_faults { self.new.tally.read_faults ≡ self.old.tally.read_faults }
        // It fails exactly at the calls that are listed, after the stop and where there is no room, and then does
        // nothing.
        ensures due { IsErr result ↔ (IsDue self.old.tally ⊎ IsFull self.old.log file (length bytes.now)) }
        ensures served { OnOk result (self.new ≡ after_write self.old file at bytes.now) }
        ensures failed { OnErr result (self.new ≡ after_failed_write self.old file (length bytes.now)) }
    {
        let size = self.log.size(file);
        if self.tally.count_write(size, bytes.len()) {
            return Err(self.tally.fail_change());
        }
        match self.log.write(file, at, bytes) {
            Ok(()) => Ok(()),
            Err(_) => Err(self.tally.fail_change()),
        }
    }

    #[tactic(auto, using(crate::proofs::Following::follows_same, crate::proofs::Following::sync_more))]
    fn sync(&mut self, file: u64) -> Result<(), Failed>
        ensures durable { OnOk result ((c : Files) → SinceMoment self.new.log.history
            (At (length self.new.log.history)) c → c file ≡ reads_of self.old.log.history file) }
        ensures tells { true ≡ true }
        ensures reads { reads_of self.new.log.history ≡ reads_of self.old.log.history }
        ensures model { true ≡ true }
        ensures calls { self.new.tally.change_calls ≡ raised self.old.tally.change_calls 1 }
        ensures bytes { self.new.tally.asked_bytes ≡ self.old.tally.asked_bytes }
        ensures absent { self.new.tally.absent_writes ≡ self.old.tally.absent_writes }
        ensures room { StaysRoom (room_of self.old) (room_of self.new) }
        ensures spent { (self.new.tally.change_faults ≡ self.old.tally.change_faults)
            ⊎ IsSpent (room_of self.old) (record {
              files = self.new.tally.absent_writes;
              bytes = self.new.tally.asked_bytes;
              calls = self.new.tally.change_calls;
            }) }
        ensures images { Follows StaysStep (At (length self.old.log.history)) (At (length self.new.log.history))
            (SinceMoment self.old.log.history) (SinceMoment self.new.log.history) }
        ensures faults { HasCause self.old.tally.change_faults self.new.tally.change_faults result }
        ensures read_faults { self.new.tally.read_faults ≡ self.old.tally.read_faults }
        ensures due { IsErr result ↔ (IsDue self.old.tally ⊎ (self.old.log.calls_left ≡ 0)) }
        ensures served { OnOk result (self.new ≡ record {
          log = with_sync self.old.log file;
          tally = with_change self.old.tally;
        }) }
        ensures failed { OnErr result (self.new ≡ after_failed_change self.old) }
    {
        if self.tally.count_change() {
            return Err(self.tally.fail_change());
        }
        match self.log.sync(file) {
            Ok(()) => Ok(()),
            Err(_) => Err(self.tally.fail_change()),
        }
    }

    #[tactic(auto, using(crate::proofs::Following::remove_same, crate::proofs::Following::remove_more))]
    fn remove(&mut self, file: u64) -> Result<(), Failed>
        ensures removed { IsTrue true → OnOk result (reads_of self.new.log.history file ≡ None) }
        ensures part { IsTrue true → RemoveStep file (reads_of self.old.log.history) (reads_of self.new.log.history) }
        ensures tells { true ≡ true }
        ensures model { true ≡ true }
        ensures calls { self.new.tally.change_calls ≡ raised self.old.tally.change_calls 1 }
        ensures bytes { self.new.tally.asked_bytes ≡ self.old.tally.asked_bytes }
        ensures absent { self.new.tally.absent_writes ≡ self.old.tally.absent_writes }
        ensures room { StaysRoom (room_of self.old) (room_of self.new) }
        ensures spent { (self.new.tally.change_faults ≡ self.old.tally.change_faults)
            ⊎ IsSpent (room_of self.old) (record {
              files = self.new.tally.absent_writes;
              bytes = self.new.tally.asked_bytes;
              calls = self.new.tally.change_calls;
            }) }
        ensures images { Follows (RemoveStep file) (At (length self.old.log.history)) (At (length self.new.log.history))
            (SinceMoment self.old.log.history) (SinceMoment self.new.log.history) }
        ensures faults { HasCause self.old.tally.change_faults self.new.tally.change_faults result }
        ensures read_faults { self.new.tally.read_faults ≡ self.old.tally.read_faults }
        ensures due { IsErr result ↔ (IsDue self.old.tally ⊎ (self.old.log.calls_left ≡ 0)) }
        ensures served { OnOk result (self.new ≡ record {
          log = with_removal self.old.log file;
          tally = with_change self.old.tally;
        }) }
        ensures failed { OnErr result (self.new ≡ after_failed_change self.old) }
    {
        if self.tally.count_change() {
            return Err(self.tally.fail_change());
        }
        match self.log.remove(file) {
            Ok(()) => Ok(()),
            Err(_) => Err(self.tally.fail_change()),
        }
    }

    #[tactic(auto, using(crate::proofs::Following::follows_same))]
    fn files(&mut self, out: &mut Vec<u64>) -> Result<(), ListFault>
        ensures listed { IsTrue true
            → OnOk result ((n : ℕ) → Contains out.new.items n ↔ IsSome (reads_of self.old.log.history n)) }
        ensures rising { OnOk result (IsStrictlyIncreasing out.new.items) }
        ensures tells { true ≡ true }
        ensures reads { reads_of self.new.log.history ≡ reads_of self.old.log.history }
        ensures model { true ≡ true }
        ensures calls { self.new.tally.change_calls ≡ self.old.tally.change_calls }
        ensures bytes { self.new.tally.asked_bytes ≡ self.old.tally.asked_bytes }
        ensures absent { self.new.tally.absent_writes ≡ self.old.tally.absent_writes }
        ensures room { room_of self.new ≡ room_of self.old }
        ensures unfailing { IsSome (room_of self.old) → self.new.tally.read_faults ≡ self.old.tally.read_faults }
        ensures clock { At (length self.new.log.history) ≡ At (length self.old.log.history) }
        ensures images { Follows StaysStep (At (length self.old.log.history)) (At (length self.new.log.history))
            (SinceMoment self.old.log.history) (SinceMoment self.new.log.history) }
        ensures faults { HasListCause self.old.tally.read_faults self.new.tally.read_faults result }
        ensures changes { self.new.tally.change_faults ≡ self.old.tally.change_faults }
        ensures due { IsErrOf result ListFault.Failed ↔ IsDue self.old.tally }
        ensures served { (IsErrOf result ListFault.Failed → ⊥) → self.new ≡ after_read self.old }
        ensures failed { IsErrOf result ListFault.Failed → self.new ≡ after_failed_read self.old }
    {
        if self.tally.count_read() {
            let _ = self.tally.fail_read();
            return Err(ListFault::Failed);
        }
        match self.log.list(out) {
            Ok(()) => Ok(()),
            Err(_) => Err(ListFault::NoMemory),
        }
    }
}
