// A vault without sounds.
use edit_ports::MemVault;
use pcm_base::Numbers;
use std::alloc::Global;
use std::test::*;

pub(crate) fn vault(alloc: Global) -> Result<MemVault, Fail> {
    let vault = MemVault::new(alloc, 2, 4096, Numbers::new(Vec::new(alloc)))?;
    Ok(vault)
}
