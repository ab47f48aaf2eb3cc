// A store and its cache, as one.
ghost use Rattle.std.specs.Prelude.{IsTrue};
ghost use Rattle.block_cache.specs.Caches.{IsCacheOf};
ghost use Rattle.block_cache.specs.Rights.{right_prop};

use super::cache::Cache;
use super::drops::remove_block_cached;
use super::frames::{FramePart, join_pages, read_frames_cached, read_frames_once};
use super::headers::compare_kept;
use super::keys::sample_key;
use super::parts::read_together;
use super::samples::{PAGE, read_samples_cached};
use super::samples_once::read_samples_once;
use block_store::{BlockFault, Level, sync_block};
use disk_model::{Part, Store};
use pcm_base::BlockRef;
use peak_summary::Summary;

/// A store and the pages of its blocks that were read. Who reads blocks calls its methods.
///
/// The cache is right of the store: each entry is what a read of that page gives of the files as they stand. Who writes
/// to the store leaves it so, as a change of files of blocks that have no entry does.
#[derive(Drop)]
pub struct BlockReader<S: Store> {
    pub store: S,
    pub cache: Cache,
    pub ghost right: { IsTrue (S.tells store) → IsCacheOf (S.reads store) cache } by { right_prop (S.tells store) (S.reads store) cache },
}

impl<S: Store> BlockReader<S> {
    ghost use Rattle.std.specs.Prelude.{◌≡◌, ◌^◌, ◌+◌, ◌-◌, ◌*◌, ◌/◌, ◌<◌, ◌≤◌, ◌↔◌, [], ◌∷◌, List, ℤ, length, take};
    ghost use Rattle.std.specs.Prelude.{drop, true, false, Some, None, IsOk, OnOk, IfOk, IfErr, IsOkUnless, Contains};
    ghost use Rattle.std.specs.Prelude.{Bool, fold};
    ghost use Rattle.pcm_base.specs.declared.limits.TheConstants.{COUNTER_LIMIT, FIRST_BLOCK};
    ghost use Rattle.pcm_base.specs.Causes.{HasCause};
    ghost use Rattle.disk_model.specs.Disk.{Files, RemoveStep, StaysStep, bytes_of};
    ghost use Rattle.disk_model.specs.Frames.{Changed};
    ghost use Rattle.disk_model.specs.Parts.{AllThere, AreParts, filled};
    ghost use Rattle.pcm_base.specs.declared.block.BlockRef.{BlockRef as block_of};
    ghost use Rattle.peak_summary.specs.Peaks.{frame_count, frames_of, joined, nothing};
    ghost use Rattle.sample_block.specs.Spelling.{IsBlock};
    ghost use Rattle.sample_block.specs.Blocks.{blocks};
    ghost use Rattle.sample_block.specs.Faults.{samples_in};
    ghost use Rattle.block_store.specs.declared.fault.BlockFault.TheVariants as fault;
    ghost use Rattle.block_store.specs.Reads.{HasHeader, IsReadFault, frame_len, level_place, stored_frames};
    ghost use Rattle.block_cache.specs.Entries.{HasKey};
    ghost use Rattle.block_cache.specs.Pages.{frames_end, page_end, sample_key as key_at};
    ghost use Rattle.block_cache.specs.Caches.{HasFrames, HasSamples, IsCacheWithout, SameCache};
    ghost use Rattle.block_cache.specs.Readers.{Reads};

    /// Gives the store back.
    pub fn into_store(self) -> S
        ensures { result ≡ self.store }
    {
        let BlockReader { store, .. } = self;
        store
    }

    /// Reads the samples of a block as `read_samples` does, by whole pages of 4,096 samples, the last of fewer: each
    /// that the cache has is not read again, and each that is read is kept where there is memory. The answer is that
    /// of uncached reads of all pages concerned: a file that ends before the end of the last one is refused. Of no
    /// samples nothing is read. After an error `out` may have been written in part.
    #[tactic(auto, using(crate::proofs::CacheLaws::cached_on))]
    pub fn samples(&mut self, block: BlockRef, from: u32, out: &mut [i16]) -> Result<(), BlockFault>
        requires block { IsBlock block.id block.len }
        requires within { from + length out.old ≤ block.len }
        ensures reads { Reads (block ∷ []) self.old self.new result }
        // Where all pages are there it is Ok, whatever the store would answer, and the store is not called.
        ensures hit { HasSamples self.old.cache block from (length out.old)
            → IsOk result × (self.new.store ≡ self.old.store) × SameCache self.old.cache self.new.cache }
        // Of a block of the disk they are its samples, and then nothing but the disk refuses.
        ensures read { (xs : List ℤ) → IsTrue (S.tells self.old.store)
            → blocks (S.reads self.old.store) block.id ≡ Some xs → length xs ≡ block.len
            → OnOk result (out.new ≡ take (length out.old) (drop from xs)) }
        ensures valid { (xs : List ℤ) → IsTrue (S.tells self.old.store)
            → blocks (S.reads self.old.store) block.id ≡ Some xs → length xs ≡ block.len
            → IsOkUnless result fault.DiskFault }
        // Of any file they are what stands there.
        ensures samples { IsTrue (S.tells self.old.store) → OnOk result (out.new
            ≡ samples_in (bytes_of (S.reads self.old.store block.id)) (16 + 2 * from) (length out.old)) }
        // Ok comes for the header of this block alone, and where the file has all of the pages.
        ensures header { IsTrue (S.tells self.old.store) → OnOk result (0 < length out.old
            → HasHeader block.id block.len (bytes_of (S.reads self.old.store block.id))) }
        ensures whole { IsTrue (S.tells self.old.store) → OnOk result (0 < length out.old
            → 16 + 2 * page_end 4096 block.len (from + length out.old - 1)
            ≤ length (bytes_of (S.reads self.old.store block.id))) }
        // A fault is a header of another block, or else that the file ends before the end of the last page.
        ensures damaged { IsTrue (S.tells self.old.store) → IfErr result (λ e. IsReadFault block.id block.len
            (16 + 2 * page_end 4096 block.len (from + length out.old - 1))
            (bytes_of (S.reads self.old.store block.id)) e) }
    {
        read_samples_cached(&mut self.store, &mut self.cache, block, from, out)
    }

    /// Reads them for a reader that asks for no others of their pages next. They are copied from the pages that the
    /// cache has. From the first page on that it does not have, they are read alone, and no page is kept. So a file that
    /// ends after them is no fault here.
    #[tactic(auto, using(crate::proofs::CacheLaws::cached_on))]
    pub fn samples_once(
        &mut self,
        block: BlockRef,
        from: u32,
        out: &mut [i16],
    ) -> Result<(), BlockFault>
        requires block { IsBlock block.id block.len }
        requires within { from + length out.old ≤ block.len }
        ensures reads { Reads (block ∷ []) self.old self.new result }
        // Where all pages are there it is Ok, whatever the store would answer, and the store is not called.
        ensures hit { HasSamples self.old.cache block from (length out.old)
            → IsOk result × (self.new.store ≡ self.old.store) × SameCache self.old.cache self.new.cache }
        // Of a block of the disk they are its samples, and then nothing but the disk refuses.
        ensures read { (xs : List ℤ) → IsTrue (S.tells self.old.store)
            → blocks (S.reads self.old.store) block.id ≡ Some xs → length xs ≡ block.len
            → OnOk result (out.new ≡ take (length out.old) (drop from xs)) }
        ensures valid { (xs : List ℤ) → IsTrue (S.tells self.old.store)
            → blocks (S.reads self.old.store) block.id ≡ Some xs → length xs ≡ block.len
            → IsOkUnless result fault.DiskFault }
        // Of any file they are what stands there.
        ensures samples { IsTrue (S.tells self.old.store) → OnOk result (out.new
            ≡ samples_in (bytes_of (S.reads self.old.store block.id)) (16 + 2 * from) (length out.old)) }
        // Ok comes for the header of this block alone, and where the file has all of them.
        ensures header { IsTrue (S.tells self.old.store) → OnOk result (0 < length out.old
            → HasHeader block.id block.len (bytes_of (S.reads self.old.store block.id))) }
        ensures whole { IsTrue (S.tells self.old.store) → OnOk result (0 < length out.old
            → 16 + 2 * (from + length out.old) ≤ length (bytes_of (S.reads self.old.store block.id))) }
        // A fault is a header of another block, or else that the file ends before the last of them does.
        ensures damaged { IsTrue (S.tells self.old.store) → IfErr result (λ e. IsReadFault block.id block.len
            (16 + 2 * (from + length out.old)) (bytes_of (S.reads self.old.store block.id)) e) }
    {
        read_samples_once(&mut self.store, &mut self.cache, block, from, out)
    }

    /// Whether the cache has the page of a sample. It stays in its place there.
    pub fn has_page(&self, block: BlockRef, from: u32) -> bool
        ensures { result ≡ false → HasKey self.now.cache.samples (key_at block (from / 4096)) → ⊥ }
    {
        self.cache
            .has_samples(sample_key(block, from / PAGE as u32))
    }

    /// Compares the header of a block as `compare_header` does, unless the cache has that it was.
    #[tactic(auto, using(crate::proofs::CacheLaws::cached_on))]
    pub fn compare(&mut self, block: BlockRef) -> Result<(), BlockFault>
        requires { IsBlock block.id block.len }
        ensures reads { Reads (block ∷ []) self.old self.new result }
        ensures header { IsTrue (S.tells self.old.store)
            → OnOk result (HasHeader block.id block.len (bytes_of (S.reads self.old.store block.id))) }
    {
        compare_kept(&mut self.store, &mut self.cache, block)
    }

    /// Reads parts of files past the cache, each at its place, in one call of the store. It answers whether each file
    /// has all of its parts. It compares no header, and keeps no page. Where a part is not there, and after an error,
    /// `out` may have been written in part.
    pub fn read_parts(&mut self, parts: &[Part], out: &mut [i16]) -> Result<bool, BlockFault>
        requires { AreParts 0 (length out.old) parts.now }
        // Nothing but the disk refuses. So these are reads of whatever blocks the caller has.
        ensures reads { (b : block_of) (bs : List block_of) → Contains bs b → Reads bs self.old self.new result }
        ensures there { IsTrue (S.tells self.old.store)
            → IfOk result (λ all. (all ≡ true) ↔ AllThere (S.reads self.old.store) parts.now) }
        ensures read { IsTrue (S.tells self.old.store)
            → IfOk result (λ all. all ≡ true → out.new ≡ filled (S.reads self.old.store) parts.now out.old) }
        ensures same { self.new.cache ≡ self.old.cache }
    {
        read_together(&mut self.store, parts, out)
    }

    /// Reads frames of a level of a block as `read_frames` does, by whole pages of 256 frames, the last of fewer, and
    /// keeps them, as `samples` does. After an error `out` may have been written in part.
    #[tactic(auto, using(crate::proofs::CacheLaws::cached_on))]
    pub fn frames(
        &mut self,
        block: BlockRef,
        level: Level,
        from: u32,
        out: &mut [Summary],
    ) -> Result<(), BlockFault>
        requires block { IsBlock block.id block.len }
        requires within { from + length out.old ≤ frame_count (frame_len level) block.len }
        ensures reads { Reads (block ∷ []) self.old self.new result }
        // Where all pages are there it is Ok, whatever the store would answer, and the store is not called.
        ensures hit { HasFrames self.old.cache level block from (length out.old)
            → IsOk result × (self.new.store ≡ self.old.store) × SameCache self.old.cache self.new.cache }
        // Of a block of the disk they are the summaries of its stretches, and then nothing but the disk refuses.
        ensures read { (xs : List ℤ) → IsTrue (S.tells self.old.store)
            → blocks (S.reads self.old.store) block.id ≡ Some xs → length xs ≡ block.len
            → OnOk result (out.new ≡ take (length out.old) (drop from (frames_of (frame_len level) xs))) }
        ensures valid { (xs : List ℤ) → IsTrue (S.tells self.old.store)
            → blocks (S.reads self.old.store) block.id ≡ Some xs → length xs ≡ block.len
            → IsOkUnless result fault.DiskFault }
        // Of any file they are what stands there.
        ensures frames { IsTrue (S.tells self.old.store) → OnOk result (out.new
            ≡ stored_frames (bytes_of (S.reads self.old.store block.id)) level block.len from (length out.old)) }
        // Ok comes for the header of this block alone, and where the file has all of the pages.
        ensures header { IsTrue (S.tells self.old.store) → OnOk result (0 < length out.old
            → HasHeader block.id block.len (bytes_of (S.reads self.old.store block.id))) }
        ensures whole { IsTrue (S.tells self.old.store) → OnOk result (0 < length out.old
            → level_place level block.len + 12 * page_end 256 (frame_count (frame_len level) block.len)
            (from + length out.old - 1)
            ≤ length (bytes_of (S.reads self.old.store block.id))) }
        // A fault is a header of another block, or else that the file ends before the end of the last page.
        ensures damaged { IsTrue (S.tells self.old.store) → IfErr result (λ e. IsReadFault block.id block.len
            (level_place level block.len + 12 * page_end 256 (frame_count (frame_len level) block.len)
            (from + length out.old - 1)) (bytes_of (S.reads self.old.store block.id)) e) }
    {
        read_frames_cached(&mut self.store, &mut self.cache, block, level, from, out)
    }

    /// Reads them for a reader that asks for no others of their pages next, as `samples_once` does with samples. After
    /// an error `out` may have been written in part.
    #[tactic(auto, using(crate::proofs::CacheLaws::cached_on))]
    pub fn frames_once(
        &mut self,
        block: BlockRef,
        level: Level,
        from: u32,
        out: &mut [Summary],
    ) -> Result<(), BlockFault>
        requires block { IsBlock block.id block.len }
        requires within { from + length out.old ≤ frame_count (frame_len level) block.len }
        ensures reads { Reads (block ∷ []) self.old self.new result }
        // Where all pages are there it is Ok, whatever the store would answer, and the store is not called.
        ensures hit { HasFrames self.old.cache level block from (length out.old)
            → IsOk result × (self.new.store ≡ self.old.store) × SameCache self.old.cache self.new.cache }
        // Of a block of the disk they are the summaries of its stretches, and then nothing but the disk refuses.
        ensures read { (xs : List ℤ) → IsTrue (S.tells self.old.store)
            → blocks (S.reads self.old.store) block.id ≡ Some xs → length xs ≡ block.len
            → OnOk result (out.new ≡ take (length out.old) (drop from (frames_of (frame_len level) xs))) }
        ensures valid { (xs : List ℤ) → IsTrue (S.tells self.old.store)
            → blocks (S.reads self.old.store) block.id ≡ Some xs → length xs ≡ block.len
            → IsOkUnless result fault.DiskFault }
        // Of any file they are what stands there.
        ensures frames { IsTrue (S.tells self.old.store) → OnOk result (out.new
            ≡ stored_frames (bytes_of (S.reads self.old.store block.id)) level block.len from (length out.old)) }
        // Ok comes for the header of this block alone, and where the file has all of them.
        ensures header { IsTrue (S.tells self.old.store) → OnOk result (0 < length out.old
            → HasHeader block.id block.len (bytes_of (S.reads self.old.store block.id))) }
        ensures whole { IsTrue (S.tells self.old.store) → OnOk result (0 < length out.old
            → level_place level block.len + 12 * (from + length out.old)
            ≤ length (bytes_of (S.reads self.old.store block.id))) }
        // A fault is a header of another block, or else that the file ends before the last of them does.
        ensures damaged { IsTrue (S.tells self.old.store) → IfErr result (λ e. IsReadFault block.id block.len
            (level_place level block.len + 12 * (from + length out.old))
            (bytes_of (S.reads self.old.store block.id)) e) }
    {
        read_frames_once(&mut self.store, &mut self.cache, block, level, from, out)
    }

    /// Joins a number of frames of a level of a block, from a frame on. They come as those of `frames`, or `once` as those
    /// of `frames_once`. Of a page that the cache has they are joined where they are, and not copied. With a page
    /// that it does not have those of the block after it are read and kept, unless `once`, if the file has them.
    #[tactic(auto, using(crate::proofs::CacheLaws::cached_on))]
    pub fn join_frames(
        &mut self,
        block: BlockRef,
        level: Level,
        from: u32,
        count: u32,
        once: bool,
    ) -> Result<Summary, BlockFault>
        requires block { IsBlock block.id block.len }
        requires within { from + count ≤ frame_count (frame_len level) block.len }
        ensures reads { Reads (block ∷ []) self.old self.new result }
        // Where all pages are there it is Ok, whatever the store would answer, and the store is not called.
        ensures hit { HasFrames self.old.cache level block from count
            → IsOk result × (self.new.store ≡ self.old.store) × SameCache self.old.cache self.new.cache }
        // Of a block of the disk it joins the summaries of its stretches, and then nothing but the disk refuses.
        ensures read { (xs : List ℤ) → IsTrue (S.tells self.old.store)
            → blocks (S.reads self.old.store) block.id ≡ Some xs → length xs ≡ block.len
            → IfOk result (λ s. s ≡ fold joined nothing (take count (drop from (frames_of (frame_len level) xs)))) }
        ensures valid { (xs : List ℤ) → IsTrue (S.tells self.old.store)
            → blocks (S.reads self.old.store) block.id ≡ Some xs → length xs ≡ block.len
            → IsOkUnless result fault.DiskFault }
        // Of any file it joins what stands there.
        ensures sum { IsTrue (S.tells self.old.store) → IfOk result (λ s. s ≡ fold joined nothing
            (stored_frames (bytes_of (S.reads self.old.store block.id)) level block.len from count)) }
        // Ok comes for the header of this block alone, and where the file has all of the pages, or of them if `once`.
        ensures header { IsTrue (S.tells self.old.store) → OnOk result (0 < count
            → HasHeader block.id block.len (bytes_of (S.reads self.old.store block.id))) }
        ensures whole { IsTrue (S.tells self.old.store) → OnOk result (0 < count
            → frames_end once level block (from + count) ≤ length (bytes_of (S.reads self.old.store block.id))) }
        // A fault is a header of another block, or else that the file ends before the last of these does.
        ensures damaged { IsTrue (S.tells self.old.store) → IfErr result (λ e. IsReadFault block.id block.len
            (frames_end once level block (from + count)) (bytes_of (S.reads self.old.store block.id)) e) }
    {
        let part = FramePart {
            block,
            level,
            from: from as usize,
            once,
        };
        join_pages(&mut self.store, &mut self.cache, part, count as usize)
    }

    /// Takes the entries of a block out of the cache and then removes its file, as `remove_block` does: it does not
    /// wait until the file is gone. It takes no memory.
    pub fn remove(&mut self, id: u64) -> Result<(), BlockFault>
        requires low { FIRST_BLOCK ≤ id }
        requires high { id < COUNTER_LIMIT }
        // After any answer the block has no entry left, and the others are there.
        ensures dropped { IsCacheWithout id self.old.cache self.new.cache }
        ensures gone { IsTrue (S.tells self.old.store) → OnOk result (S.reads self.new.store id ≡ None) }
        // A stop leaves what it could leave before, or that without this file.
        ensures changed { Changed S.Store (RemoveStep id) (record { files = 0; bytes = 0; calls = 1 })
            self.old.store self.new.store }
        ensures fault { IsOkUnless result fault.DiskFault }
        ensures faults { HasCause (S.change_fault_count self.old.store) (S.change_fault_count self.new.store) result }
        ensures read_faults { S.read_fault_count self.new.store ≡ S.read_fault_count self.old.store }
    {
        remove_block_cached(&mut self.store, &mut self.cache, id)
    }

    /// Waits until the file of a block is on the disk as it reads, as `sync_block` does. The file may be absent. The
    /// pages stay as they are.
    pub fn sync(&mut self, id: u64) -> Result<(), BlockFault>
        // In every image from then on the file is as it reads.
        ensures durable { OnOk result ((c : Files) → S.may_leave self.new.store (S.clock self.new.store) c
            → c id ≡ S.reads self.new.store id) }
        ensures reads { S.reads self.new.store ≡ S.reads self.old.store }
        ensures cache { self.new.cache ≡ self.old.cache }
        // A stop at any moment of the call leaves what it could leave before. No room is asked but for the call.
        ensures changed { Changed S.Store StaysStep (record { files = 0; bytes = 0; calls = 1 })
            self.old.store self.new.store }
        ensures fault { IsOkUnless result fault.DiskFault }
        ensures faults { HasCause (S.change_fault_count self.old.store) (S.change_fault_count self.new.store) result }
        ensures read_faults { S.read_fault_count self.new.store ≡ S.read_fault_count self.old.store }
    {
        sync_block(&mut self.store, id)
    }
}
