// Pages of one kind of item, in the order in which they give their places, the next one last.
ghost use Rattle.std.specs.Prelude.{◌≡◌, ◌≢◌, ◌⊎◌, ◌+◌, ◌*◌, ◌≤◌, None, IfSome, true, false, List, length, take, drop};
ghost use Rattle.std.specs.Prelude.{Contains, fold};
ghost use Rattle.std.specs.Global.{Vec as vec_of};
ghost use Rattle.peak_summary.specs.Peaks.{frame_count, joined};
ghost use Rattle.peak_summary.specs.declared.stretch.Summary.{Summary as summary_of};
ghost use Rattle.block_cache.specs.declared.keys.PageKey.{PageKey as key_of};
ghost use Rattle.block_store.specs.Reads.{frame_len};
ghost use Rattle.block_cache.specs.Entries.{HasKey, SameEntries, IsWithout};
ghost use Rattle.block_cache.specs.Pages.{run_frames};

use super::frame_page::FramePage;
use super::keys::PageKey;
use super::runs::FrameRun;
use lru::LruCache;
use peak_summary::Summary;

/// Copies items of a page from a number on, as many as `out` holds, where the page is there, and answers whether it
/// is. It is then the one that was used last.
pub(crate) fn copy_page<T: Copy + Drop>(
    pages: &mut LruCache<PageKey, Vec<T>>,
    key: PageKey,
    skip: usize,
    out: &mut [T],
) -> bool
    requires { (v : vec_of T) → Contains pages.old.entries (key, v) → skip + length out.old ≤ length v.items }
    ensures there { result ≡ true → (v : vec_of T) × Contains pages.old.entries (key, v)
        × (out.new ≡ take (length out.old) (drop skip v.items)) }
    ensures missed { result ≡ false → HasKey pages.old.entries key → ⊥ }
    ensures same { SameEntries pages.old.entries pages.new.entries }
    ensures cap { pages.new.cap ≡ pages.old.cap }
{
    match pages.get(&key) {
        Some(page) => {
            out.copy_from_slice(&page[skip..skip + out.len()]);
            true
        }
        None => false,
    }
}

/// Takes frames of a page as `copy_page` copies items.
pub(crate) fn copy_frame_page(
    pages: &mut LruCache<PageKey, FramePage>,
    key: PageKey,
    skip: usize,
    out: &mut [Summary],
) -> bool
    requires { (fs : List summary_of) → Contains pages.old.entries (key, fs) → skip + length out.old ≤ length fs }
    ensures there { result ≡ true → (fs : List summary_of) × Contains pages.old.entries (key, fs)
        × (out.new ≡ take (length out.old) (drop skip fs)) }
    ensures missed { result ≡ false → HasKey pages.old.entries key → ⊥ }
    ensures same { SameEntries pages.old.entries pages.new.entries }
    ensures cap { pages.new.cap ≡ pages.old.cap }
{
    match pages.get(&key) {
        Some(page) => {
            page.copy(skip, out);
            true
        }
        None => false,
    }
}

/// Joins frames of a page from a number on, where the page is there: nothing is copied.
pub(crate) fn join_page(
    pages: &mut LruCache<PageKey, FramePage>,
    key: PageKey,
    skip: usize,
    count: usize,
    before: Summary,
) -> Option<Summary>
    requires { (fs : List summary_of) → Contains pages.old.entries (key, fs) → skip + count ≤ length fs }
    ensures there { IfSome result (λ s. (fs : List summary_of) × Contains pages.old.entries (key, fs)
        × (s ≡ fold joined before (take count (drop skip fs)))) }
    ensures missed { result ≡ None → HasKey pages.old.entries key → ⊥ }
    ensures same { SameEntries pages.old.entries pages.new.entries }
    ensures cap { pages.new.cap ≡ pages.old.cap }
{
    match pages.get(&key) {
        Some(page) => Some(page.join(before, skip, count)),
        None => None,
    }
}

/// Keeps a page, in the place of the one that was used longest ago where there is no room. Where memory is refused it
/// is not kept.
pub(crate) fn keep_page<T: Copy + Drop>(
    pages: &mut LruCache<PageKey, Vec<T>>,
    key: PageKey,
    items: &[T],
)
    ensures kept { (e : key_of × vec_of T) → Contains pages.new.entries e
        → Contains pages.old.entries e ⊎ ((e.0 ≡ key) × (e.1.items ≡ items.now)) }
    ensures cap { pages.new.cap ≡ pages.old.cap }
{
    let Ok(mut page) = Vec::with_capacity(*pages.allocator(), items.len()) else {
        return;
    };
    if page.extend_from_slice(items).is_err() {
        return;
    }
    let _ = pages.put(key, page);
}

/// Keeps a page of frames, as `keep_page` does.
pub(crate) fn keep_frame_page(
    pages: &mut LruCache<PageKey, FramePage>,
    key: PageKey,
    run: FrameRun,
    bytes: &[u8],
)
    requires size { length bytes.now ≡ 12 * run.count }
    requires few { run.count ≤ 256 }
    requires within { run.from + run.count ≤ frame_count (frame_len run.level) run.block.len }
    ensures kept { (e : key_of × List summary_of) → Contains pages.new.entries e → Contains pages.old.entries e
        ⊎ ((e.0 ≡ key) × (e.1 ≡ run_frames bytes.now run.level run.block.len run.from run.count)) }
    ensures cap { pages.new.cap ≡ pages.old.cap }
{
    let Ok(page) = FramePage::new(*pages.allocator(), run, bytes) else {
        return;
    };
    let _ = pages.put(key, page);
}

/// Has a page that is there give its place before all others.
pub(crate) fn release_page<T: Copy + Drop>(pages: &mut LruCache<PageKey, Vec<T>>, key: PageKey)
    ensures same { SameEntries pages.old.entries pages.new.entries }
    ensures cap { pages.new.cap ≡ pages.old.cap }
{
    let _ = pages.demote(&key);
}

/// The first key of a page of a block.
fn key_of_block<V: Drop>(pages: &LruCache<PageKey, V>, id: u64) -> Option<PageKey>
    ensures found { IfSome result (λ k. (k.id ≡ id) × HasKey pages.now.entries k) }
    ensures none { result ≡ None → (e : key_of × V) → Contains pages.now.entries e → e.0.id ≢ id }
{
    for (key, _) in pages.iter() {
        if key.id == id {
            return Some(*key);
        }
    }
    None
}

/// Takes out all pages of a block.
pub(crate) fn drop_pages<V: Drop>(pages: &mut LruCache<PageKey, V>, id: u64)
    ensures without { IsWithout id pages.old.entries pages.new.entries }
    ensures cap { pages.new.cap ≡ pages.old.cap }
{
    'keys: while let Some(key) = key_of_block(pages, id) {
        let _ = pages.pop(&key);
    }
}
