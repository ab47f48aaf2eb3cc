// The counts of a store over files.
ghost use Rattle.std.specs.Prelude.{◌≡◌, ◌≤◌, ◌+◌, ◌-◌, ◌^◌, min};
ghost use Rattle.disk_model.specs.Room.{counted, raised};

use pcm_base::Failed;

/// How many reading and how many changing calls failed, how many changing calls there were, how many bytes were to be
/// written, and how many writes met an absent file. Each goes up to the greatest u64.
#[derive(Drop)]
pub(crate) struct Counts {
    pub(crate) read_faults: u64,
    pub(crate) change_faults: u64,
    pub(crate) change_calls: u64,
    pub(crate) asked_bytes: u64,
    pub(crate) absent_writes: u64,
}

impl Counts {
    ghost use Rattle.project_folder.specs.Counts.{no_counts};

    // No call yet.
    pub(crate) fn new() -> Counts
        ensures { result ≡ no_counts }
    {
        Counts {
            read_faults: 0,
            change_faults: 0,
            change_calls: 0,
            asked_bytes: 0,
            absent_writes: 0,
        }
    }

    // Counts the fault of a reading call.
    pub(crate) fn fail_read(&mut self) -> Failed
        ensures counted { self.new ≡ record self.old { read_faults = counted self.old.read_faults } }
        ensures later { self.old.read_faults ≤ self.new.read_faults }
    {
        self.read_faults = self.read_faults.saturating_add(1);
        Failed
    }

    // Counts a changing call.
    pub(crate) fn count_change(&mut self)
        ensures { self.new ≡ record self.old { change_calls = raised self.old.change_calls 1 } }
    {
        self.change_calls = self.change_calls.saturating_add(1);
    }

    // Counts a changing call that is to write this many bytes.
    pub(crate) fn count_write(&mut self, bytes: usize)
        ensures { self.new ≡ record self.old {
          change_calls = raised self.old.change_calls 1;
          asked_bytes = raised self.old.asked_bytes bytes;
        } }
    {
        self.change_calls = self.change_calls.saturating_add(1);
        self.asked_bytes = self.asked_bytes.saturating_add(bytes as u64);
    }

    // Counts a write that met an absent file.
    pub(crate) fn count_absent(&mut self)
        ensures counted { self.new ≡ record self.old { absent_writes = counted self.old.absent_writes } }
        ensures later { self.old.absent_writes ≤ self.new.absent_writes }
    {
        self.absent_writes = self.absent_writes.saturating_add(1);
    }

    // Counts the fault of a changing call.
    pub(crate) fn fail_change(&mut self) -> Failed
        ensures counted { self.new ≡ record self.old { change_faults = counted self.old.change_faults } }
        ensures later { self.old.change_faults ≤ self.new.change_faults }
    {
        self.change_faults = self.change_faults.saturating_add(1);
        Failed
    }

    pub(crate) fn faults(&self) -> u64
        ensures { result ≡ min (self.now.read_faults + self.now.change_faults) (2 ^ 64 - 1) }
    {
        self.read_faults.saturating_add(self.change_faults)
    }
}
