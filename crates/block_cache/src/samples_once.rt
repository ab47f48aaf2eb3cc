// Samples of a block that are read once: from the first page on that is not kept they are read alone.
ghost use Rattle.std.specs.Prelude.{◌≡◌, ◌+◌, ◌-◌, ◌*◌, ◌/◌, ◌%◌, ◌<◌, ◌≤◌, [], ◌∷◌, length, take, drop, IsTrue, IsOk};
ghost use Rattle.std.specs.Prelude.{IsOkUnless, List, ℤ, Some, OnOk, IfErr, true, false};
ghost use Rattle.disk_model.specs.Disk.{Files, bytes_of};
ghost use Rattle.disk_model.specs.Frames.{Kept};
ghost use Rattle.sample_block.specs.Spelling.{IsBlock};
ghost use Rattle.sample_block.specs.Faults.{samples_in};
ghost use Rattle.sample_block.specs.Blocks.{blocks};
ghost use Rattle.block_store.specs.declared.fault.BlockFault.TheVariants as fault;
ghost use Rattle.block_store.specs.Reads.{Counted, HasHeader, IsReadFault};
ghost use Rattle.block_cache.specs.Entries.{HasKey};
ghost use Rattle.block_cache.specs.Pages.{HasPart, sample_key as key_at};
ghost use Rattle.block_cache.specs.Caches.{HasSamples, IsCacheOf, KeepsCache, SameCache};

use super::cache::Cache;
use super::headers::compare_kept;
use super::keys::sample_key;
use super::samples::PAGE;
use block_store::{BlockFault, read_compared_samples};
use disk_model::Store;
use pcm_base::BlockRef;

/// Reads samples alone, and keeps none.
fn read_alone<S: Store>(
    store: &mut S,
    cache: &mut Cache,
    block: BlockRef,
    from: usize,
    out: &mut [i16],
) -> Result<(), BlockFault>
    requires block { IsBlock block.id block.len }
    requires within { from + length out.old ≤ block.len }
    requires some { 0 < length out.old }
    requires cached { IsTrue (S.tells store.old) → IsCacheOf (S.reads store.old) cache.old }
    ensures cache { KeepsCache (S.tells store.old) (S.reads store.old) (block ∷ []) cache.old cache.new }
    ensures samples { IsTrue (S.tells store.old)
        → OnOk result (out.new ≡ samples_in (bytes_of (S.reads store.old block.id)) (16 + 2 * from) (length out.old)) }
    ensures header { IsTrue (S.tells store.old)
        → OnOk result (HasHeader block.id block.len (bytes_of (S.reads store.old block.id))) }
    ensures whole { IsTrue (S.tells store.old) → OnOk result
        (16 + 2 * (from + length out.old) ≤ length (bytes_of (S.reads store.old block.id))) }
    ensures damaged { IsTrue (S.tells store.old) → IfErr result (λ e. IsReadFault block.id block.len
        (16 + 2 * (from + length out.old)) (bytes_of (S.reads store.old block.id)) e) }
    ensures kept { Kept S.Store store.old store.new }
    ensures faults { Counted result (S.read_fault_count store.old) (S.read_fault_count store.new) }
{
    if let Err(fault) = compare_kept(store, cache, block) {
        return Err(fault);
    }
    read_compared_samples(store, block, from as u32, out)
}

/// Copies samples that lie on one page, where it is kept, and answers whether it is.
fn copy_part(cache: &mut Cache, block: BlockRef, from: usize, out: &mut [i16]) -> bool
    requires block { IsBlock block.id block.len }
    requires within { from + length out.old ≤ block.len }
    requires some { 0 < length out.old }
    requires one { from % 4096 + length out.old ≤ 4096 }
    ensures there { (files : Files) → IsCacheOf files cache.old → result ≡ true
        → HasPart files block from (length out.old) out.new }
    ensures missed { result ≡ false → HasKey cache.old.samples (key_at block (from / 4096)) → ⊥ }
    ensures same { SameCache cache.old cache.new }
{
    let key = sample_key(block, (from / PAGE) as u32);
    cache.copy_samples(key, from % PAGE, out)
}

/// Copies samples from the pages that are kept, up to the first that is not, and answers how many.
fn copy_kept(cache: &mut Cache, block: BlockRef, from: usize, out: &mut [i16]) -> usize
    requires block { IsBlock block.id block.len }
    requires within { from + length out.old ≤ block.len }
    ensures within { result ≤ length out.old }
    ensures there { (files : Files) → IsCacheOf files cache.old → HasPart files block from result (take result out.new) }
    ensures hit { HasSamples cache.old block from (length out.old) → result ≡ length out.old }
    ensures same { SameCache cache.old cache.new }
{
    let mut done = 0;
    'pages: while done < out.len() {
        let at = from + done;
        let next = done + (PAGE - at % PAGE).min(out.len() - done);
        if !copy_part(cache, block, at, &mut out[done..next]) {
            return done;
        }
        done = next;
    }
    done
}

/// Reads samples: those that are kept, page by page, and then all others at once.
fn read_parts<S: Store>(
    store: &mut S,
    cache: &mut Cache,
    block: BlockRef,
    from: usize,
    out: &mut [i16],
) -> Result<(), BlockFault>
    requires block { IsBlock block.id block.len }
    requires within { from + length out.old ≤ block.len }
    requires cached { IsTrue (S.tells store.old) → IsCacheOf (S.reads store.old) cache.old }
    ensures cache { KeepsCache (S.tells store.old) (S.reads store.old) (block ∷ []) cache.old cache.new }
    ensures hit { HasSamples cache.old block from (length out.old)
        → IsOk result × (store.new ≡ store.old) × SameCache cache.old cache.new }
    ensures samples { IsTrue (S.tells store.old)
        → OnOk result (out.new ≡ samples_in (bytes_of (S.reads store.old block.id)) (16 + 2 * from) (length out.old)) }
    ensures header { IsTrue (S.tells store.old) → OnOk result (0 < length out.old
        → HasHeader block.id block.len (bytes_of (S.reads store.old block.id))) }
    ensures whole { IsTrue (S.tells store.old) → OnOk result (0 < length out.old
        → 16 + 2 * (from + length out.old) ≤ length (bytes_of (S.reads store.old block.id))) }
    ensures damaged { IsTrue (S.tells store.old) → IfErr result (λ e. IsReadFault block.id block.len
        (16 + 2 * (from + length out.old)) (bytes_of (S.reads store.old block.id)) e) }
    ensures kept { Kept S.Store store.old store.new }
    ensures faults { Counted result (S.read_fault_count store.old) (S.read_fault_count store.new) }
{
    let done = copy_kept(cache, block, from, out);
    if done == out.len() {
        return Ok(());
    }
    read_alone(store, cache, block, from + done, &mut out[done..])
}

/// Reads the samples of a block as `read_samples` does, for a reader that asks for no others of their pages next. They
/// are copied from the pages that the cache has. From the first page on that it does not have, they are read alone, and
/// no page is kept. So a file that ends after them is no fault here. Of no samples nothing is read. After an error `out`
/// may have been written in part.
#[tactic(auto, using(block_store::proofs::FaultLaws::read_result))]
pub fn read_samples_once<S: Store>(
    store: &mut S,
    cache: &mut Cache,
    block: BlockRef,
    from: u32,
    out: &mut [i16],
) -> Result<(), BlockFault>
    requires block { IsBlock block.id block.len }
    requires within { from + length out.old ≤ block.len }
    // Each entry is what a read of that page gives of the files as they stand. It stays so.
    requires cached { IsTrue (S.tells store.old) → IsCacheOf (S.reads store.old) cache.old }
    ensures cache { KeepsCache (S.tells store.old) (S.reads store.old) (block ∷ []) cache.old cache.new }
    // Where all pages are there it is Ok, whatever the store would answer, and the store is not called.
    ensures hit { HasSamples cache.old block from (length out.old)
        → IsOk result × (store.new ≡ store.old) × SameCache cache.old cache.new }
    // Of a block of the disk they are its samples, and then nothing but the disk refuses.
    ensures read { (xs : List ℤ) → IsTrue (S.tells store.old) → blocks (S.reads store.old) block.id ≡ Some xs
        → length xs ≡ block.len
        → OnOk result (out.new ≡ take (length out.old) (drop from xs)) }
    ensures valid { (xs : List ℤ) → IsTrue (S.tells store.old) → blocks (S.reads store.old) block.id ≡ Some xs
        → length xs ≡ block.len
        → IsOkUnless result fault.DiskFault }
    // Of any file they are what stands there.
    ensures samples { IsTrue (S.tells store.old)
        → OnOk result (out.new ≡ samples_in (bytes_of (S.reads store.old block.id)) (16 + 2 * from) (length out.old)) }
    // Ok comes for the header of this block alone, and where the file has all of them.
    ensures header { IsTrue (S.tells store.old) → OnOk result (0 < length out.old
        → HasHeader block.id block.len (bytes_of (S.reads store.old block.id))) }
    ensures whole { IsTrue (S.tells store.old) → OnOk result (0 < length out.old
        → 16 + 2 * (from + length out.old) ≤ length (bytes_of (S.reads store.old block.id))) }
    // A fault is a header of another block, or else that the file ends before the last of them does.
    ensures damaged { IsTrue (S.tells store.old) → IfErr result (λ e. IsReadFault block.id block.len
        (16 + 2 * (from + length out.old)) (bytes_of (S.reads store.old block.id)) e) }
    ensures kept { Kept S.Store store.old store.new }
    ensures faults { Counted result (S.read_fault_count store.old) (S.read_fault_count store.new) }
{
    read_parts(store, cache, block, from as usize, out)
}
