// Tracks whose stretch lies within one block, or in one and the next, are read together.
ghost use Rattle.std.specs.Prelude.{◌≡◌, ◌≤◌, ◌<◌, ◌+◌, ◌*◌, ◌^◌, ℕ, List, length, IsTrue, IfOk, IfSome, Ok, true, false};
ghost use Rattle.std.specs.Prelude.{OnOk, Contains, if◌then◌else◌, [], ◌∷◌};
ghost use Rattle.clip_track.specs.Clips.{layout_blocks};
ghost use Rattle.pcm_base.specs.declared.limits.TheConstants.{COUNTER_LIMIT};
ghost use Rattle.pcm_base.specs.declared.block.BlockRef.{BlockRef as block_of};
ghost use Rattle.disk_model.specs.Disk.{bytes_of};
ghost use Rattle.disk_model.specs.Parts.{AreParts, filled};
ghost use Rattle.project_state.specs.Meaning.{point_blocks};
ghost use Rattle.sample_block.specs.Sources.{AllNamed, IsNamed};
ghost use Rattle.block_store.specs.Reads.{HasHeader};
ghost use Rattle.block_cache.specs.Caches.{SameCache};
ghost use Rattle.block_cache.specs.Readers.{Hits, Reads};
ghost use Rattle.cell_reader.specs.Kept.{HasSeen};
ghost use Rattle.mix_reader.specs.Heard.{heard_count, HasHeard};
ghost use Rattle.mix_reader.specs.Plans.{ArePlans, IsAlone, IsPlan};

use block_cache::BlockReader;
use block_store::BlockFault;
use cell_reader::rest_at;
use clip_track::Layout;
use disk_model::{Part, Store};
use pcm_base::{BlockRef, MAX_TRACKS};
use project_state::{Point, Track};

/// Up to this many samples of a track are read by pages, which are kept.
const LARGE: usize = 8192;

/// How many parts there are for the tracks: two for each.
const PARTS: usize = 2 * MAX_TRACKS;

/// What is read of each track together with the others, by its two parts, and how many samples a track's first part has
/// at most.
#[derive(Clone, Copy)]
pub(crate) struct Plan {
    pub(crate) parts: [Part; PARTS],
    pub(crate) most: usize,
}

/// Samples of a block, as many as `len` from number `skip` on.
#[derive(Clone, Copy)]
struct Run {
    block: BlockRef,
    skip: u32,
    len: usize,
}

/// The first cells of a stretch that one block has as samples, if the first of all is a sample.
fn run_at(layout: &Layout, from: u64, len: usize) -> Option<Run>
    requires named { AllNamed (layout_blocks layout.now) }
    requires few { from + len < 2 ^ 64 }
    ensures alone { IfSome result (λ x. IsAlone from x.len layout.now x.block x.skip) }
    ensures some { IfSome result (λ x. 0 < len → 0 < x.len) }
    ensures most { IfSome result (λ x. x.len ≤ len) }
{
    let rest = rest_at(layout, from);
    match rest.blocks {
        [block, ..] => {
            let skip = from.checked_sub(rest.start)?;
            if block.len as u64 <= skip {
                return None;
            }
            Some(Run {
                block: *block,
                skip: skip as u32,
                len: len.min((block.len as u64 - skip) as usize),
            })
        }
        [] => None,
    }
}

/// All cells of a stretch as samples of one block, or of one and the next, if these have them. The second run has no
/// samples where the first has all.
fn runs_at(layout: &Layout, from: u64, len: usize) -> Option<(Run, Run)>
    requires named { AllNamed (layout_blocks layout.now) }
    requires few { from + len < 2 ^ 64 }
    ensures first { IfSome result (λ x. IsAlone from x.0.len layout.now x.0.block x.0.skip) }
    ensures second { IfSome result (λ x. IsAlone (from + x.0.len) x.1.len layout.now x.1.block x.1.skip) }
    ensures some { IfSome result (λ x. 0 < len → 0 < x.0.len) }
    ensures all { IfSome result (λ x. x.0.len + x.1.len ≡ len) }
{
    let first = run_at(layout, from, len)?;
    if first.len == len {
        return Some((first, Run { len: 0, ..first }));
    }
    let left = len - first.len;
    let second = run_at(layout, from + first.len as u64, left)?;
    if second.len < left {
        return None;
    }
    Some((first, second))
}

/// The same of a track that is heard, where many samples are wanted and the page of the first is not kept.
fn runs_missed<S: Store>(
    reader: &BlockReader<S>,
    track: &Track,
    from: u64,
    len: usize,
) -> Option<(Run, Run)>
    requires named { AllNamed (layout_blocks track.now.layout) }
    requires few { from + len < 2 ^ 64 }
    ensures first { IfSome result (λ x. IsAlone from x.0.len track.now.layout x.0.block x.0.skip) }
    ensures second { IfSome result (λ x. IsAlone (from + x.0.len) x.1.len track.now.layout x.1.block x.1.skip) }
    ensures all { IfSome result (λ x. x.0.len + x.1.len ≡ len) }
    ensures missed { IfSome result (λ x. HasSeen reader.now.cache from (from + len) track.now.layout → ⊥) }
{
    if len <= LARGE {
        return None;
    }
    let (first, second) = runs_at(&track.layout, from, len)?;
    if reader.has_page(first.block, first.skip) {
        return None;
    }
    Some((first, second))
}

/// No samples, at a place.
fn no_part(to: usize) -> Part
    ensures { result ≡ record { file = 0; at = 0; to = to; len = 0 } }
{
    Part {
        file: 0,
        at: 0,
        to,
        len: 0,
    }
}

/// The part that has a run, to be read to a place. The header of its block is compared, if it has samples.
fn plan_run<S: Store>(reader: &mut BlockReader<S>, run: Run, to: usize) -> Result<Part, BlockFault>
    requires named { IsNamed run.block }
    requires within { run.skip + run.len ≤ run.block.len }
    ensures reads { (bs : List block_of) → Contains bs run.block → Reads bs reader.old reader.new result }
    ensures header { IsTrue (S.tells reader.old.store) → OnOk result (0 < run.len
        → HasHeader run.block.id run.block.len (bytes_of (S.reads reader.old.store run.block.id))) }
    ensures part { IfOk result (λ p. p
        ≡ record { file = run.block.id; at = 16 + 2 * run.skip; to = to; len = run.len }) }
{
    let part = Part {
        file: run.block.id,
        at: 16 + 2 * run.skip as u64,
        to,
        len: run.len,
    };
    if run.len == 0 {
        return Ok(part);
    }
    reader.compare(run.block)?;
    Ok(part)
}

/// The two parts of a track before those that stand from `end` on. The second has no samples where one block has all,
/// and neither has any where the track is not read together with others. No samples are read yet.
fn plan_track<S: Store>(
    reader: &mut BlockReader<S>,
    track: &Track,
    from: u64,
    len: usize,
    end: usize,
) -> Result<(Part, Part), BlockFault>
    requires named { AllNamed (layout_blocks track.now.layout) }
    requires room { (if track.now.mute then 0 else 1) * len ≤ end }
    requires few { from + len < 2 ^ 64 }
    ensures reads { Reads (layout_blocks track.now.layout) reader.old reader.new result }
    ensures hit { Hits (track.now.mute ≡ false → HasSeen reader.old.cache from (from + len) track.now.layout)
        reader.old reader.new result }
    ensures spared { (track.now.mute ≡ false → HasSeen reader.old.cache from (from + len) track.now.layout)
        → IfOk result (λ x. x.0.len ≡ 0) }
    ensures place { IfOk result (λ x. x.0.to + (if track.now.mute then 0 else 1) * len ≡ end) }
    ensures parts { IfOk result (λ x. AreParts x.0.to end (x.0 ∷ x.1 ∷ [])) }
    ensures among { IfOk result (λ x. 0 < x.0.len → (b : block_of) × Contains (layout_blocks track.now.layout) b) }
    ensures plan { IfOk result (λ x. IsPlan from len track.now x.0 x.1) }
{
    if track.mute {
        return Ok((no_part(end), no_part(end)));
    }
    let at = end - len;
    let Some((first, second)) = runs_missed(reader, track, from, len) else {
        return Ok((no_part(at), no_part(at)));
    };
    let part = plan_run(reader, first, at)?;
    let next = plan_run(reader, second, at + first.len)?;
    Ok((part, next))
}

/// What is read of the tracks of a point together, into a buffer that has `room` for a stretch of each that is heard.
pub(crate) fn plan_tracks<S: Store>(
    reader: &mut BlockReader<S>,
    point: &Point,
    from: u64,
    len: usize,
    room: usize,
) -> Result<Plan, BlockFault>
    requires named { AllNamed (point_blocks point.now) }
    requires room { room ≡ heard_count point.now * len }
    requires few { from + len < 2 ^ 64 }
    ensures reads { Reads (point_blocks point.now) reader.old reader.new result }
    // Where the cache has all pages nothing is left to be read, and the store is not called.
    ensures hit { Hits (HasHeard reader.old.cache from (from + len) point.now) reader.old reader.new result }
    ensures spared { HasHeard reader.old.cache from (from + len) point.now
        → IfOk result (λ plan. plan.most ≡ 0) }
    ensures among { IfOk result (λ plan. 0 < plan.most → (b : block_of) × Contains (point_blocks point.now) b) }
    ensures parts { IfOk result (λ plan. AreParts 0 room plan.parts) }
    ensures plans { IfOk result (λ plan. ArePlans from len point.now plan.parts) }
{
    let mut parts = [no_part(room); PARTS];
    let mut most = 0;
    let mut end = room;
    let mut i = point.len();
    'rows: while 0 < i {
        i -= 1;
        let track = point.track_at(i);
        match plan_track(reader, track, from, len, end) {
            Ok((part, next)) => {
                most = part.len.max(most);
                end = part.to;
                parts[2 * i + 1] = next;
                parts[2 * i] = part;
            }
            Err(fault) => return Err(fault),
        }
    }
    Ok(Plan { parts, most })
}

/// Reads what is planned, and answers whether all of it was there and is in its place.
pub(crate) fn read_plan<S: Store>(
    reader: &mut BlockReader<S>,
    plan: &Plan,
    samples: &mut [i16],
) -> Result<bool, BlockFault>
    requires { AreParts 0 (length samples.old) plan.now.parts }
    ensures reads { (bs : List block_of) → (0 < plan.now.most → (b : block_of) × Contains bs b)
        → Reads bs reader.old reader.new result }
    ensures hit { plan.now.most ≡ 0 → (result ≡ Ok false) × (reader.new.store ≡ reader.old.store)
        × SameCache reader.old.cache reader.new.cache }
    ensures read { IsTrue (S.tells reader.old.store) → IfOk result (λ all. all ≡ true
        → samples.new ≡ filled (S.reads reader.old.store) plan.now.parts samples.old) }
{
    if plan.most == 0 {
        return Ok(false);
    }
    reader.read_parts(&plan.parts, samples)
}
