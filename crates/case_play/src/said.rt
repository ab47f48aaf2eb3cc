// A vault in memory that may say of each sound that it has this many bytes, whether it has fewer or more.
ghost use Rattle.std.specs.Prelude.{false, None};

use edit_ports::{MemVault, Vault};
use pcm_base::Failed;

/// The sounds, and how many bytes each is said to have, if it is not what it has.
#[derive(Drop)]
pub struct SaidVault {
    pub(crate) vault: MemVault,
    pub(crate) said: Option<u64>,
}

impl Vault for SaidVault {
    ghost tells = { λ _. false };

    ghost holds = { λ _. λ name. None };

    ghost fault_count = { λ v. v.vault.calls.faults };

    fn size(&mut self, name: &str) -> Result<Option<u64>, Failed> {
        if self.said.is_some() {
            return Ok(self.said);
        }
        self.vault.size(name)
    }

    fn read_at(&mut self, name: &str, at: u64, buf: &mut [u8]) -> Result<usize, Failed> {
        self.vault.read_at(name, at, buf)
    }

    fn start(&mut self, name: &str) -> Result<(), Failed> {
        self.vault.start(name)
    }

    fn append(&mut self, name: &str, bytes: &[u8]) -> Result<(), Failed> {
        self.vault.append(name, bytes)
    }

    fn faults(&self) -> u64 {
        self.vault.faults()
    }
}
