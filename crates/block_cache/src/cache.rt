// The cache.
ghost use Rattle.std.specs.Prelude.{◌≡◌, ◌⊎◌, ◌+◌, ◌*◌, ◌≤◌, Bool, true, false, ℕ, ℤ, List, IfOk, length, take, drop};
ghost use Rattle.std.specs.Prelude.{Contains, IfSome, None, fold};
ghost use Rattle.disk_model.specs.Disk.{Files};
ghost use Rattle.peak_summary.specs.Peaks.{frame_count, joined};
ghost use Rattle.block_store.specs.Reads.{frame_len};
ghost use Rattle.peak_summary.specs.declared.stretch.Summary.{Summary as summary_of};
ghost use Rattle.block_cache.specs.declared.keys.PageKey.{PageKey as key_of};
ghost use Rattle.block_cache.specs.Entries.{HasKey};
ghost use Rattle.block_cache.specs.Pages.{IsPage, page_len, run_frames};
ghost use Rattle.block_cache.specs.Caches.{AllPass, IsBounded, IsCacheOf, IsCacheWithout, SameCache, no_entries};

use super::frame_page::FramePage;
use super::keys::PageKey;
use super::pages::{
    copy_frame_page, copy_page, drop_pages, join_page, keep_frame_page, keep_page, release_page,
};
use super::runs::FrameRun;
use lru::LruCache;
use pcm_base::NoMemory;
use peak_summary::Summary;
use std::alloc::Global;
use std::marker::Model;
use std::num::NonZeroUsize;

/// Pages of blocks that were read: this many of samples, as many of frames, and of as many blocks that their header was
/// compared. A new one takes the place of the one that was used longest ago. A page of samples that was read to its end
/// goes before all others: who reads on does not ask for it again.
///
/// Contracts see the entries as lists, and how many each may have.
#[derive(Drop)]
pub struct Cache {
    headers: LruCache<PageKey, ()>,
    samples: LruCache<PageKey, Vec<i16>>,
    frames: LruCache<PageKey, FramePage>,
}

impl Model for Cache {
    ghost use Rattle.std.specs.Prelude.{◌≡◌};
    ghost use Rattle.block_cache.specs.Caches.{Entries, ArePages, entries_of};

    ghost Value = { Entries };

    ghost view = { λ c. entries_of c.headers.entries c.samples.entries c.frames.entries c.samples.cap };

    ghost invariant = { λ c. ArePages (entries_of c.headers.entries c.samples.entries c.frames.entries c.samples.cap)
        × (c.headers.cap ≡ c.samples.cap) × (c.frames.cap ≡ c.samples.cap) };
}

impl Cache {
    /// A cache of at most this many pages of each kind, from 1 to 1,024. There are none yet.
    pub fn new(alloc: Global, pages: u64) -> Result<Cache, NoMemory>
        requires least { 1 ≤ pages }
        requires most { pages ≤ 1024 }
        ensures empty { IfOk result (λ c. c ≡ no_entries pages) }
        // So they are right of any files.
        ensures right { (files : Files) → IfOk result (λ c. IsCacheOf files c) }
        ensures ids { (test : ℕ → Bool) → IfOk result (λ c. AllPass test c) }
    {
        Cache::empty(alloc, pages)
    }

    // As `new`, whose other clauses are laws on what this one says.
    fn empty(alloc: Global, pages: u64) -> Result<Cache, NoMemory>
        requires least { 1 ≤ pages }
        requires most { pages ≤ 1024 }
        ensures { IfOk result (λ c. c ≡ no_entries pages) }
    {
        let Some(pages) = NonZeroUsize::new(pages as usize) else {
            unreachable!();
        };
        Ok(Cache {
            headers: LruCache::new(alloc, pages)?,
            samples: LruCache::new(alloc, pages)?,
            frames: LruCache::new(alloc, pages)?,
        })
    }

    /// How many pages of each kind there may be.
    pub fn pages(&self) -> u64
        ensures value { result ≡ self.now.pages }
        ensures bounded { IsBounded self.now }
    {
        let _headers = self.headers.len();
        let _samples = self.samples.len();
        let _frames = self.frames.len();
        self.samples.cap().get() as u64
    }

    // Whether the header of the block was compared. It is then the one that was used last.
    pub(crate) fn has_header(&mut self, key: PageKey) -> bool
        ensures there { result ≡ true → Contains self.old.headers key }
        ensures same { SameCache self.old self.new }
    {
        self.headers.promote(&key)
    }

    // Keeps that it was, where there is memory.
    pub(crate) fn keep_header(&mut self, key: PageKey)
        ensures headers { (k : key_of) → Contains self.new.headers k → Contains self.old.headers k ⊎ (k ≡ key) }
        ensures samples { self.new.samples ≡ self.old.samples }
        ensures frames { self.new.frames ≡ self.old.frames }
        ensures pages { self.new.pages ≡ self.old.pages }
    {
        let _ = self.headers.put(key, ());
    }

    // Has the header of a block give its place before all others.
    pub(crate) fn release_header(&mut self, key: PageKey)
        ensures { SameCache self.old self.new }
    {
        let _ = self.headers.demote(&key);
    }

    // Whether a page of samples is there.
    pub(crate) fn has_samples(&self, key: PageKey) -> bool
        ensures { result ≡ false → HasKey self.now.samples key → ⊥ }
    {
        self.samples.contains(&key)
    }

    // Copies samples of a page from a number on, where the page is there, and answers whether it is.
    pub(crate) fn copy_samples(&mut self, key: PageKey, skip: usize, out: &mut [i16]) -> bool
        requires { skip + length out.old ≤ page_len key }
        ensures there { result ≡ true → (xs : List ℤ) × Contains self.old.samples (key, xs) × IsPage key (length xs)
            × (out.new ≡ take (length out.old) (drop skip xs)) }
        ensures missed { result ≡ false → HasKey self.old.samples key → ⊥ }
        ensures same { SameCache self.old self.new }
    {
        copy_page(&mut self.samples, key, skip, out)
    }

    // Keeps a page of samples, where there is memory.
    pub(crate) fn keep_samples(&mut self, key: PageKey, samples: &[i16])
        requires { IsPage key (length samples.now) }
        ensures samples { (e : key_of × List ℤ) → Contains self.new.samples e
            → Contains self.old.samples e ⊎ ((e.0 ≡ key) × (e.1 ≡ samples.now)) }
        ensures headers { self.new.headers ≡ self.old.headers }
        ensures frames { self.new.frames ≡ self.old.frames }
        ensures pages { self.new.pages ≡ self.old.pages }
    {
        keep_page(&mut self.samples, key, samples);
    }

    // Has a page of samples give its place before all others.
    pub(crate) fn release_samples(&mut self, key: PageKey)
        ensures { SameCache self.old self.new }
    {
        release_page(&mut self.samples, key);
    }

    // The same of frames.
    pub(crate) fn copy_frames(&mut self, key: PageKey, skip: usize, out: &mut [Summary]) -> bool
        requires { skip + length out.old ≤ page_len key }
        ensures there { result ≡ true → (fs : List summary_of) × Contains self.old.frames (key, fs)
            × IsPage key (length fs) × (out.new ≡ take (length out.old) (drop skip fs)) }
        ensures missed { result ≡ false → HasKey self.old.frames key → ⊥ }
        ensures same { SameCache self.old self.new }
    {
        copy_frame_page(&mut self.frames, key, skip, out)
    }

    // Joins frames of a page from a number on to what is before them, where the page is there.
    pub(crate) fn join_frames(
        &mut self,
        key: PageKey,
        skip: usize,
        count: usize,
        before: Summary,
    ) -> Option<Summary>
        requires { skip + count ≤ page_len key }
        ensures there { IfSome result (λ s. (fs : List summary_of) × Contains self.old.frames (key, fs)
            × IsPage key (length fs) × (s ≡ fold joined before (take count (drop skip fs)))) }
        ensures missed { result ≡ None → HasKey self.old.frames key → ⊥ }
        ensures same { SameCache self.old self.new }
    {
        join_page(&mut self.frames, key, skip, count, before)
    }

    // Keeps a page of frames from its bytes, where there is memory.
    pub(crate) fn keep_frames(&mut self, key: PageKey, run: FrameRun, bytes: &[u8])
        requires page { IsPage key run.count }
        requires size { length bytes.now ≡ 12 * run.count }
        requires few { run.count ≤ 256 }
        requires within { run.from + run.count ≤ frame_count (frame_len run.level) run.block.len }
        ensures frames { (e : key_of × List summary_of) → Contains self.new.frames e → Contains self.old.frames e
            ⊎ ((e.0 ≡ key) × (e.1 ≡ run_frames bytes.now run.level run.block.len run.from run.count)) }
        ensures headers { self.new.headers ≡ self.old.headers }
        ensures samples { self.new.samples ≡ self.old.samples }
        ensures pages { self.new.pages ≡ self.old.pages }
    {
        keep_frame_page(&mut self.frames, key, run, bytes);
    }

    // Takes out all entries of a block.
    pub(crate) fn drop_entries(&mut self, id: u64)
        ensures { IsCacheWithout id self.old self.new }
    {
        drop_pages(&mut self.headers, id);
        drop_pages(&mut self.samples, id);
        drop_pages(&mut self.frames, id);
    }
}
