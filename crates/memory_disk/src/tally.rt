// The count of a store's calls: which of them fail, and how many have failed.
ghost use Rattle.std.specs.Prelude.{◌≡◌, ◌+◌, ◌-◌, ◌^◌, ◌≤◌, ◌↔◌, min, IsTrue, Some};
ghost use Rattle.memory_disk.specs.Ram.{IsDue, IsPast, fresh_tally, with_read, with_change, with_asked};
ghost use Rattle.memory_disk.specs.Ram.{with_read_fault, with_change_fault};
ghost use Rattle.disk_model.specs.Room.{counted};

use pcm_base::{Failed, Numbers};
use std::marker::Model;

/// Calls are counted from 1. Those whose numbers are listed fail, and those after the last that is served.
#[derive(Drop)]
pub(crate) struct Tally {
    made: u64,
    fails: Numbers,
    last: Option<u64>,
    read_faults: u64,
    change_faults: u64,
    change_calls: u64,
    asked_bytes: u64,
    absent_writes: u64,
}

impl Model for Tally {
    ghost use Rattle.memory_disk.specs.Ram.{Tally};

    ghost Value = { Tally };

    ghost view = { λ s. record {
      made = s.made;
      fails = s.fails;
      last = s.last;
      read_faults = s.read_faults;
      change_faults = s.change_faults;
      change_calls = s.change_calls;
      asked_bytes = s.asked_bytes;
      absent_writes = s.absent_writes;
    } };
}

impl Tally {
    // No call yet.
    pub(crate) fn new(fails: Numbers) -> Tally
        ensures { result ≡ fresh_tally fails }
    {
        Tally {
            made: 0,
            fails,
            last: None,
            read_faults: 0,
            change_faults: 0,
            change_calls: 0,
            asked_bytes: 0,
            absent_writes: 0,
        }
    }

    // Counts a call that reads, and says whether it is to fail.
    pub(crate) fn count_read(&mut self) -> bool
        ensures due { IsTrue result ↔ IsDue self.old }
        ensures counted { self.new ≡ with_read self.old }
    {
        self.made = self.made.saturating_add(1);
        self.fails.as_slice().contains(&self.made) || is_past(self.last, self.made)
    }

    // Counts a call that is to change the disk, and says whether it is to fail.
    pub(crate) fn count_change(&mut self) -> bool
        ensures due { IsTrue result ↔ IsDue self.old }
        ensures counted { self.new ≡ with_change self.old }
    {
        self.change_calls = self.change_calls.saturating_add(1);
        self.count_read()
    }

    // Counts a write of this many bytes to a file of this size, and says whether it is to fail.
    pub(crate) fn count_write(&mut self, size: Option<u64>, bytes: usize) -> bool
        ensures due { IsTrue result ↔ IsDue self.old }
        ensures counted { self.new ≡ with_asked (with_change self.old) size bytes }
    {
        self.asked_bytes = self.asked_bytes.saturating_add(bytes as u64);
        if size.is_none() {
            self.absent_writes = self.absent_writes.saturating_add(1);
        }
        self.count_change()
    }

    // Counts the fault of a call that reads.
    pub(crate) fn fail_read(&mut self) -> Failed
        ensures counted { self.new ≡ with_read_fault self.old }
        ensures later { self.old.read_faults ≤ self.new.read_faults }
    {
        self.read_faults = self.read_faults.saturating_add(1);
        Failed
    }

    // Counts the fault of a call that was to change the disk.
    pub(crate) fn fail_change(&mut self) -> Failed
        ensures counted { self.new ≡ with_change_fault self.old }
        ensures later { self.old.change_faults ≤ self.new.change_faults }
    {
        self.change_faults = self.change_faults.saturating_add(1);
        Failed
    }

    // How many calls there have been.
    pub(crate) fn made(&self) -> u64
        ensures { result ≡ self.now.made }
    {
        self.made
    }

    // Lets each call after the next n fail.
    pub(crate) fn stop_after(&mut self, n: u64)
        ensures { self.new ≡ record self.old { last = Some (min (self.old.made + n) (2 ^ 64 - 1)) } }
    {
        self.last = Some(self.made.saturating_add(n));
    }

    pub(crate) fn faults(&self) -> u64
        ensures { result ≡ min (self.now.read_faults + self.now.change_faults) (2 ^ 64 - 1) }
    {
        self.read_faults.saturating_add(self.change_faults)
    }

    pub(crate) fn change_faults(&self) -> u64
        ensures { result ≡ self.now.change_faults }
    {
        self.change_faults
    }
}

// Whether the number comes after the last that is served.
fn is_past(last: Option<u64>, number: u64) -> bool
    ensures { IsTrue result ↔ IsPast last number }
{
    match last {
        Some(last) => last < number,
        None => false,
    }
}
