// The journal put into one header.
ghost use Rattle.std.specs.Prelude.{◌≡◌};
ghost use Rattle.editor_cleanup.specs.Compacts.{Compacts};
ghost use Rattle.editor_core.specs.Core.{core_of};
ghost use Rattle.editor_state.specs.Studios.{IsStudio};

use super::studio::Studio;
use disk_model::Store;
use pcm_base::{COUNTER_LIMIT, Refusal};
use project_journal::{compact, is_there};
use std::alloc::Global;

// The version of a journal that is one header.
const PACKED_VERSION: u32 = 3;

impl<S: Store> Studio<S> {
    /// Puts the journal into one header, in the other of its two files, and removes the file that it was in. It answers
    /// how many bytes the new file has. The history stays as it is, and it is no commit. It takes memory for as many
    /// bytes.
    ///
    /// # Errors
    ///
    /// `Stopped` where a change of the disk failed in an earlier call; else `SpaceSpent` where no generation is left;
    /// else `NoMemory`. Nothing has changed then. `DiskFault` where the disk failed: the studio goes on where a read
    /// failed, and is stopped where a change did.
    pub fn compact(&mut self, alloc: Global) -> Result<u64, Refusal>
        requires { IsStudio S.Store (core_of self.old) }
        ensures { Compacts S.Store (core_of self.old) result (core_of self.new) }
    {
        if let Some(faults) = self.stopped {
            return Err(Refusal::Stopped { faults });
        }
        if self.generation == COUNTER_LIMIT {
            return Err(Refusal::SpaceSpent {
                have: COUNTER_LIMIT,
                need: 1,
            });
        }
        let text = self.packed_text(alloc)?;
        let Ok(there) = is_there(&mut self.reader.store, 1 - self.file) else {
            return Err(Refusal::DiskFault);
        };
        match compact(&mut self.reader.store, self.file, there, &text) {
            Ok(()) => {
                self.file = 1 - self.file;
                self.version = PACKED_VERSION;
                self.generation += 1;
                self.journal_end = text.len() as u64;
                Ok(self.journal_end + 1)
            }
            Err(_) => {
                self.stopped = Some(self.reader.store.faults());
                Err(Refusal::DiskFault)
            }
        }
    }
}
