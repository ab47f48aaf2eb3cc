// A disk in memory from its making: empty, or as a stop leaves another; and its count of calls.
ghost use Rattle.std.specs.Prelude.{◌≡◌, ◌+◌, ◌-◌, ◌^◌, min, [], None, Some, IfOk};
ghost use Rattle.disk_model.specs.Disk.{Files};
ghost use Rattle.memory_disk.specs.History.{SinceMoment, IsImage, reads_of};
ghost use Rattle.memory_disk.specs.Images.{image_of, synced_of};
ghost use Rattle.disk_model.specs.Moment.{At};
ghost use Rattle.memory_disk.specs.Settled.{IsSettled};
ghost use Rattle.memory_disk.specs.Ram.{fresh_tally, room_of, room_if};

use super::RamStore;
use crate::log::CallLog;
use crate::tally::Tally;
use disk_model::Store;
use pcm_base::{NoMemory, Numbers};
use std::alloc::Global;

impl RamStore {
    /// An empty disk with room for this many files that are made, bytes that are written and changing calls that are
    /// served; room that is used is not given back. Calls are counted from 1, and those of the numbers that it is given
    /// fail.
    pub fn new(
        alloc: Global,
        files: usize,
        bytes: usize,
        calls: usize,
        fails: Numbers,
    ) -> Result<RamStore, NoMemory>
        ensures log { IfOk result (λ s. s.log ≡ record {
          history = [];
          files_left = files;
          bytes_left = bytes;
          calls_left = calls;
        }) }
        ensures tally { IfOk result (λ s. s.tally ≡ fresh_tally fails) }
        ensures room { IfOk result (λ s. room_of s ≡ room_if fails None (record {
          files = files;
          bytes = bytes;
          calls = calls;
        })) }
        // It may be left empty alone.
        ensures empty { IfOk result (λ s. (c : Files) → SinceMoment s.log.history (At 0) c → c ≡ (λ _. None)) }
    {
        let log = CallLog::new(alloc, files, bytes, calls)?;
        Ok(RamStore {
            log,
            tally: Tally::new(fails),
        })
    }

    /// The disk that a stop at this moment leaves, by a choice: 0 leaves it as it reads, 1 leaves nothing of what is
    /// pending, and any other number draws what has reached the disk: for the files rising and in each in order of
    /// making two draws for a pending write, of its bytes and of its length, and one for a pending removal.
    /// It has nothing pending, the room that is left here, and a new count of calls, of which none fails.
    pub fn image(&self, alloc: Global, choice: u64) -> Result<RamStore, NoMemory>
        ensures reads { IfOk result (λ s. reads_of s.log.history ≡ image_of choice self.now.log.history) }
        ensures all { choice ≡ 0 → IfOk result (λ s. reads_of s.log.history ≡ reads_of self.now.log.history) }
        ensures nothing { choice ≡ 1 → IfOk result (λ s. reads_of s.log.history ≡ synced_of self.now.log.history) }
        ensures left { IfOk result (λ s. IsImage self.now.log.history (reads_of s.log.history)) }
        // In the words of the trait: a stop now may leave it.
        ensures may_be_left { IfOk result (λ s. ⟦<RamStore as Store>⟧.may_leave self.now
            (⟦<RamStore as Store>⟧.clock self.now) (⟦<RamStore as Store>⟧.reads s)) }
        ensures settled { IfOk result (λ s. IsSettled s.log.history) }
        ensures room { IfOk result (λ s. s.log ≡ record self.now.log { history = s.log.history }) }
        ensures tally { IfOk result (λ s. s.tally ≡ fresh_tally []) }
    {
        let log = self.log.image(alloc, choice)?;
        Ok(RamStore {
            log,
            tally: Tally::new(Numbers::new(Vec::new(alloc))),
        })
    }

    /// How many calls there were of those that are counted, up to the greatest u64: all but `faults` and
    /// `change_faults`.
    pub fn call_count(&self) -> u64
        ensures { result ≡ self.now.tally.made }
    {
        self.tally.made()
    }

    /// Lets the next `n` calls be served, and each call after them fail.
    pub fn stop_after(&mut self, n: u64)
        ensures log { self.new.log ≡ self.old.log }
        ensures tally { self.new.tally
            ≡ record self.old.tally { last = Some (min (self.old.tally.made + n) (2 ^ 64 - 1)) } }
    {
        self.tally.stop_after(n);
    }
}
