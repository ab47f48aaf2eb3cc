// Measures files.
ghost use Rattle.std.specs.Prelude.{◌≡◌, ◌⊎◌, ◌==◌, ℕ, IsTrue, IfOk, IfErr, OnOk, Contains, if◌then◌else◌};
ghost use Rattle.disk_model.specs.Frames.{Kept};
ghost use Rattle.editor_recovery.specs.Listing.{AreFiles, IsRefusal};
ghost use Rattle.editor_recovery.specs.Measured.{size_in};
ghost use Rattle.editor_recovery.specs.Causes.{Causes};
ghost use Rattle.editor_recovery.specs.Sizes.{file_size};

use super::fault::OpenFault;
use super::sizes::Sizes;
use disk_model::Store;
use std::alloc::Global;

fn measure_one<S: Store>(store: &mut S, sizes: &mut Sizes, file: u64) -> Result<(), OpenFault>
    ensures same { OnOk result ((other : ℕ) → (other ≡ file → ⊥) → size_in sizes.new other ≡ size_in sizes.old other) }
    ensures sizes { IsTrue (S.tells store.old) → OnOk result ((other : ℕ) → size_in sizes.new other
        ≡ (if other == file then file_size (S.reads store.old) file else size_in sizes.old other)) }
    ensures kept { Kept S.Store store.old store.new }
    ensures refused { IfErr result IsRefusal }
    ensures cause { Causes S.Store store.old store.new result }
{
    let size = store.size(file)?.unwrap_or(0);
    sizes.put(file, size)?;
    Ok(())
}

/// The sizes of these files.
pub(crate) fn measure<S: Store>(
    alloc: Global,
    store: &mut S,
    files: &[u64],
) -> Result<Sizes, OpenFault>
    ensures listed { IfOk result (λ s. (file : ℕ) → (size_in s file ≡ 0) ⊎ Contains files.now file) }
    ensures sizes { IsTrue (S.tells store.old) → IfOk result (λ s. AreFiles (S.reads store.old) files.now → (file : ℕ)
        → size_in s file ≡ file_size (S.reads store.old) file) }
    ensures kept { Kept S.Store store.old store.new }
    ensures refused { IfErr result IsRefusal }
    ensures cause { Causes S.Store store.old store.new result }
{
    let mut sizes = Sizes::new(alloc);
    for i in 0..files.len() {
        measure_one(store, &mut sizes, files[i])?;
    }
    Ok(sizes)
}
