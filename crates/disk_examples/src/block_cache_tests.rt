// A block that is read by pages, and whose removal fails. In the program a removal that fails stops the studio.
ghost use Rattle.std.specs.Prelude.{◌≤◌, ◌<◌, ◌+◌, ◌^◌, length, IsTrue, IfOk};
ghost use Rattle.disk_model.specs.Disk.{Files};
ghost use Rattle.peak_summary.specs.Peaks.{frame_count};
ghost use Rattle.sample_block.specs.Spelling.{IsBlock};
ghost use Rattle.block_store.specs.Reads.{frame_len};
ghost use Rattle.block_cache.specs.Caches.{IsCacheOf};

use super::block_store_tests::BLOCK;
use super::disks::disk;
use block_cache::{Cache, read_frames_cached, read_samples_cached, remove_block_cached};
use block_store::{BlockFault, Level, put};
use disk_model::Store;
use pcm_base::BlockRef;
use peak_summary::{NOTHING, Summary};
use std::alloc::Global;
use std::test::*;

/// Takes what can be sent to another thread.
fn can_be_sent<T: Send>(_value: &T) {}

// A new cache, and the three calls with a cache that is right, and stays so.

fn new_cache(alloc: Global, pages: u64) -> Result<Cache, Fail>
    requires least { 1 ≤ pages }
    requires most { pages ≤ 1024 }
    ensures { (files : Files) → IfOk result (λ cache. IsCacheOf files cache) }
{
    match Cache::new(alloc, pages) {
        Ok(cache) => Ok(cache),
        Err(_) => Err("no memory".into()),
    }
}

fn samples<S: Store>(
    store: &mut S,
    cache: &mut Cache,
    block: BlockRef,
    from: u32,
    out: &mut [i16],
) -> Result<(), BlockFault>
    requires block { IsBlock block.id block.len }
    requires within { from + length out.old ≤ block.len }
    requires cached { IsTrue (S.tells store.old) → IsCacheOf (S.reads store.old) cache.old }
    ensures { IsTrue (S.tells store.new) → IsCacheOf (S.reads store.new) cache.new }
{
    read_samples_cached(store, cache, block, from, out)
}

fn frames<S: Store>(
    store: &mut S,
    cache: &mut Cache,
    block: BlockRef,
    level: Level,
    from: u32,
    out: &mut [Summary],
) -> Result<(), BlockFault>
    requires block { IsBlock block.id block.len }
    requires within { from + length out.old ≤ frame_count (frame_len level) block.len }
    requires cached { IsTrue (S.tells store.old) → IsCacheOf (S.reads store.old) cache.old }
    ensures { IsTrue (S.tells store.new) → IsCacheOf (S.reads store.new) cache.new }
{
    read_frames_cached(store, cache, block, level, from, out)
}

fn dropped<S: Store>(store: &mut S, cache: &mut Cache, id: u64) -> Result<(), BlockFault>
    requires low { 16 ≤ id }
    requires high { id < 2 ^ 62 }
    requires cached { IsTrue (S.tells store.old) → IsCacheOf (S.reads store.old) cache.old }
    ensures { IsTrue (S.tells store.new) → IsCacheOf (S.reads store.new) cache.new }
{
    remove_block_cached(store, cache, id)
}

// Whether it is a fault of the disk.
fn is_fault(answer: Result<(), BlockFault>) -> bool {
    matches!(answer, Err(BlockFault::DiskFault))
}

// Whether the samples are read, and read again from their page, and no frame is.
fn are_kept<S: Store>(store: &mut S, cache: &mut Cache) -> bool
    requires { IsTrue (S.tells store.old) → IsCacheOf (S.reads store.old) cache.old }
    ensures { IsTrue (S.tells store.new) → IsCacheOf (S.reads store.new) cache.new }
{
    let mut out = [0; 2];
    let mut frame = [NOTHING; 1];
    let mut one = [0; 1];
    let whole = samples(store, cache, BLOCK, 0, &mut out);
    let other = frames(store, cache, BLOCK, Level::Long, 0, &mut frame);
    let again = samples(store, cache, BLOCK, 1, &mut one);
    whole.is_ok() && is_fault(other) && again.is_ok() && out[0] == 1 && out[1] == -2 && one[0] == -2
}

// Whether the removal fails, and then a read of its samples.
fn are_gone<S: Store>(store: &mut S, cache: &mut Cache) -> bool
    requires { IsTrue (S.tells store.old) → IsCacheOf (S.reads store.old) cache.old }
    ensures { IsTrue (S.tells store.new) → IsCacheOf (S.reads store.new) cache.new }
{
    let mut one = [0; 1];
    let removed = dropped(store, cache, 16);
    let read = samples(store, cache, BLOCK, 1, &mut one);
    is_fault(removed) && is_fault(read)
}

// All calls after the header and the first page fail, but for the two of the removal.
#[test]
fn a_disk_that_fails_later(rt: HostRuntime) -> Result<(), Fail> {
    let mut store = disk(rt.alloc(), vec![in rt.alloc(); 5, 6, 7, 8]?)?;
    let mut scratch = Vec::with_capacity(rt.alloc(), 44)?;
    assert!(rt; put(&mut store, 16, &[1, -2], &mut scratch).is_ok());
    let mut cache = new_cache(rt.alloc(), 1)?;
    can_be_sent(&cache);
    assert!(rt; are_kept(&mut store, &mut cache));
    assert!(rt; are_gone(&mut store, &mut cache));
    assert!(rt; store.call_count() == 7);
    assert!(rt; cache.pages() == 1);
    Ok(())
}
