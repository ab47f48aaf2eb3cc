// The sounds of a project's folder, as a vault.
ghost use Rattle.std.specs.Prelude.{◌≡◌, ◌≤◌, false, None, IfOk};
ghost use Rattle.edit_ports.specs.Mem.{counted};

use crate::sounds::Sounds;
use edit_ports::Vault;
use pcm_base::Failed;
use std::alloc::{AllocError, Global};
use std::os::unix::fs::FileExt;
use std::rt::Files;

/// The sound of a name is `sounds/NAME` of a folder. It tells nothing of what its sounds hold.
///
/// A folder that is absent has no sounds, and is made at the first start or append. A name that no line of a script can
/// give makes a call fail, so none leads out of the folder; and so does what stands in a sound's place and is no plain
/// file, as a link or a folder. No sound is synced.
#[derive(Drop)]
pub struct FolderVault<R: Files> {
    sounds: Sounds<R>,
    faults: u64,
}

impl<R: Files + Drop> FolderVault<R> {
    /// The sounds in the folder `home`; an empty name is the current folder. Nothing is opened yet.
    ///
    /// # Errors
    /// There is no memory for the paths.
    pub fn new(files: R, alloc: Global, home: &str) -> Result<FolderVault<R>, AllocError>
        ensures { IfOk result (λ vault. vault.faults ≡ 0) }
    {
        Ok(FolderVault {
            sounds: Sounds::new(files, alloc, home)?,
            faults: 0,
        })
    }

    // Counts a fault.
    fn fail(&mut self) -> Failed
        ensures counted { self.new ≡ record self.old { faults = counted self.old.faults } }
        ensures later { self.old.faults ≤ self.new.faults }
    {
        self.faults = self.faults.saturating_add(1);
        Failed
    }
}

impl<R: Files + Drop> Vault for FolderVault<R>
where
    R::File: FileExt,
{
    ghost tells = { λ _. false };

    ghost holds = { λ _ _. None };

    ghost fault_count = { λ v. v.faults };

    fn size(&mut self, name: &str) -> Result<Option<u64>, Failed> {
        match self.sounds.size(name) {
            Ok(size) => Ok(size),
            Err(_) => Err(self.fail()),
        }
    }

    fn read_at(&mut self, name: &str, at: u64, buf: &mut [u8]) -> Result<usize, Failed> {
        match self.sounds.read_at(name, at, buf) {
            Ok(count) => Ok(count),
            Err(_) => Err(self.fail()),
        }
    }

    fn start(&mut self, name: &str) -> Result<(), Failed> {
        match self.sounds.start(name) {
            Ok(()) => Ok(()),
            Err(_) => Err(self.fail()),
        }
    }

    fn append(&mut self, name: &str, bytes: &[u8]) -> Result<(), Failed> {
        match self.sounds.append(name, bytes) {
            Ok(()) => Ok(()),
            Err(_) => Err(self.fail()),
        }
    }

    fn faults(&self) -> u64 {
        self.faults
    }
}
