// Disks in memory.
use memory_disk::RamStore;
use pcm_base::Numbers;
use std::alloc::Global;
use std::test::*;

// A disk with ample room for four files, on which the calls of these numbers fail.
pub(crate) fn disk(alloc: Global, fails: Vec<u64>) -> Result<RamStore, Fail> {
    let store = RamStore::new(alloc, 4, 200_000, 64, Numbers::new(fails))
        .ok()
        .ok_or("no memory")?;
    Ok(store)
}
