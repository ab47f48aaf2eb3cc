// Stretches of the tracks of a point that are heard, loaded from any store.
ghost use Rattle.std.specs.Prelude.{◌≡◌, ◌≤◌, ◌<◌, ◌+◌, ◌-◌, ◌*◌, ◌^◌, ◌++◌, ℕ, List, [], ◌∷◌, length, take, drop, min};
ghost use Rattle.std.specs.Prelude.{Err, IsTrue, OnOk, IfOk, IfErr, true, false, if◌then◌else◌, slice_index_or};
ghost use Rattle.disk_model.specs.declared.parts.Part.{Part as part_of};
ghost use Rattle.clip_track.specs.Clips.{layout_blocks};
ghost use Rattle.pcm_base.specs.declared.limits.TheConstants.{MAX_LOADED, MAX_TRACKS};
ghost use Rattle.pcm_base.specs.Cells.{Project};
ghost use Rattle.pcm_base.specs.Mix.{mix_length, unmuted};
ghost use Rattle.pcm_base.specs.Pieces.{Sources};
ghost use Rattle.project_state.specs.Meaning.{meant, meant_track, point_blocks};
ghost use Rattle.sample_block.specs.Sources.{sources_of, AllNamed, AllWhole};
ghost use Rattle.block_cache.specs.Readers.{Hits, Reads};
ghost use Rattle.cell_reader.specs.Kept.{HasSeen};
ghost use Rattle.cell_reader.specs.Stored.{stored_of};
ghost use Rattle.mixdown.specs.Stretches.{AreStretches, IsStretch};
ghost use Rattle.mixdown.specs.Loads.{IsLoaded, Shows};
ghost use Rattle.mix_reader.specs.declared.loads.LoadFault.TheVariants as fault;
ghost use Rattle.mix_reader.specs.Heard.{heard_count, heard_gains, heard_sides, refusal_of, disk_part, HasHeard};
ghost use Rattle.mix_reader.specs.Heard.{IsNoDamage};
ghost use Rattle.mix_reader.specs.Plans.{ArePut};
ghost use Rattle.mix_reader.specs.Tracks.{mix_length_of};

use super::passes::{TrackPass, read_track};
use super::plans::{plan_tracks, read_plan};
use super::tracks::mix_len;
use block_cache::BlockReader;
use block_store::BlockFault;
use cell_reader::rest_at;
use disk_model::{Part, Store};
use mixdown::Loaded;
use pcm_base::{NoMemory, Refusal, Side};
use project_state::{Point, Track};

/// Why tracks are not loaded.
#[derive(Clone, Copy, Debug, PartialEq, Eq)]
pub enum LoadFault {
    /// The disk failed, or a block is damaged.
    Block { fault: BlockFault },
    /// There is no memory for the samples.
    NoMemory,
}

impl From<BlockFault> for LoadFault {
    ghost from_gives = { λ why load. load ≡ fault.Block why };

    fn from(fault: BlockFault) -> LoadFault {
        LoadFault::Block { fault }
    }
}

impl From<NoMemory> for LoadFault {
    ghost from_gives = { λ _ load. load ≡ fault.NoMemory };

    fn from(_: NoMemory) -> LoadFault {
        LoadFault::NoMemory
    }
}

impl From<LoadFault> for Refusal {
    ghost from_gives = { λ fault reason. reason ≡ refusal_of fault };

    fn from(fault: LoadFault) -> Refusal {
        match fault {
            LoadFault::Block { fault } => Refusal::from(fault),
            LoadFault::NoMemory => Refusal::NoMemory,
        }
    }
}

/// Reads what is heard of a track that is not muted, from a place on, by a pass of its own.
fn read_once<S: Store>(
    reader: &mut BlockReader<S>,
    track: &Track,
    from: u64,
    out: &mut [i16],
) -> Result<(), BlockFault>
    requires heard { track.now.mute ≡ false }
    requires named { AllNamed (layout_blocks track.now.layout) }
    requires few { from + length out.old < 2 ^ 64 }
    ensures reads { Reads (layout_blocks track.now.layout) reader.old reader.new result }
    ensures hit { Hits (HasSeen reader.old.cache from (from + length out.old) track.now.layout)
        reader.old reader.new result }
    ensures stored { IsTrue (S.tells reader.old.store) → OnOk result
        (IsStretch from (length out.old) (meant_track (stored_of (S.reads reader.old.store)) track.now) out.new) }
{
    let rest = rest_at(&track.layout, from);
    let mut left = TrackPass { rest };
    read_track(reader, &mut left, track, from, out)
}

/// Whether what is heard of a track stands in its place already: its first part, of number `i`, has some samples there.
fn is_put(parts: &[Part], i: usize, at: usize) -> bool
    ensures { (d : part_of) → result ≡ true
        → (i < length parts.now) × (0 < (slice_index_or parts.now i d).len) × ((slice_index_or parts.now i d).to ≡ at) }
{
    match parts.get(i) {
        Some(part) => 0 < part.len && part.to == at,
        None => false,
    }
}

/// Reads a track before those that stand from `end` on, unless it is muted or stands there already, and answers where
/// the tracks begin then.
fn read_before<S: Store>(
    reader: &mut BlockReader<S>,
    track: &Track,
    from: u64,
    len: usize,
    end: usize,
    is_there: bool,
    samples: &mut [i16],
) -> Result<usize, BlockFault>
    requires named { AllNamed (layout_blocks track.now.layout) }
    requires room { (if track.now.mute then 0 else 1) * len ≤ end }
    requires within { end ≤ length samples.old }
    requires few { from + len < 2 ^ 64 }
    requires there { IsTrue (S.tells reader.old.store) → track.now.mute ≡ false → is_there ≡ true → IsStretch from len
        (meant_track (stored_of (S.reads reader.old.store)) track.now) (take len (drop (end - len) samples.old)) }
    ensures reads { Reads (layout_blocks track.now.layout) reader.old reader.new result }
    ensures hit { Hits (track.now.mute ≡ false → HasSeen reader.old.cache from (from + len) track.now.layout)
        reader.old reader.new result }
    ensures place { IfOk result (λ at. at + (if track.now.mute then 0 else 1) * len ≡ end) }
    ensures before { IfOk result (λ at. take at samples.new ≡ take at samples.old) }
    ensures stored { IsTrue (S.tells reader.old.store) → (ts : Project)
        → AreStretches from len (unmuted ts) (drop end samples.old)
        → IfOk result (λ at. AreStretches from len
        (unmuted (meant_track (stored_of (S.reads reader.old.store)) track.now ∷ ts)) (drop at samples.new)) }
{
    if track.mute {
        return Ok(end);
    }
    let at = end - len;
    if is_there {
        return Ok(at);
    }
    read_once(reader, track, from, &mut samples[at..end])?;
    Ok(at)
}

/// Reads a stretch of `len` samples of each track that is heard from a place on, one after the other, but for those that
/// stand in their place already by parts of some samples.
fn read_tracks<S: Store>(
    reader: &mut BlockReader<S>,
    point: &Point,
    from: u64,
    len: usize,
    parts: &[Part],
    samples: &mut [i16],
) -> Result<(), BlockFault>
    requires named { AllNamed (point_blocks point.now) }
    requires room { length samples.old ≡ heard_count point.now * len }
    requires few { from + len < 2 ^ 64 }
    requires put { IsTrue (S.tells reader.old.store)
        → ArePut (stored_of (S.reads reader.old.store)) from len point.now parts.now samples.old }
    ensures reads { Reads (point_blocks point.now) reader.old reader.new result }
    ensures hit { Hits (HasHeard reader.old.cache from (from + len) point.now) reader.old reader.new result }
    ensures stored { IsTrue (S.tells reader.old.store) → OnOk result
        (AreStretches from len (unmuted (meant (stored_of (S.reads reader.old.store)) point.now)) samples.new) }
{
    let mut end = samples.len();
    let mut i = point.len();
    'rows: while 0 < i {
        i -= 1;
        let track = point.track_at(i);
        let is_there = is_put(parts, 2 * i, end.saturating_sub(len));
        match read_before(reader, track, from, len, end, is_there, samples) {
            Ok(at) => end = at,
            Err(fault) => return Err(fault),
        }
    }
    Ok(())
}

/// Reads a stretch of `len` samples of each track that is heard from a place on. Those that lie within one block each,
/// or in one and the next, are read together, in one call of the store, and then the others. Where a file has not all
/// that it is asked for then, each track is read by itself, which tells what is wrong.
fn read_heard<S: Store>(
    reader: &mut BlockReader<S>,
    point: &Point,
    from: u64,
    len: usize,
    samples: &mut [i16],
) -> Result<(), BlockFault>
    requires named { AllNamed (point_blocks point.now) }
    requires room { length samples.old ≡ heard_count point.now * len }
    requires few { from + len < 2 ^ 64 }
    ensures reads { Reads (point_blocks point.now) reader.old reader.new result }
    ensures hit { Hits (HasHeard reader.old.cache from (from + len) point.now) reader.old reader.new result }
    ensures stored { IsTrue (S.tells reader.old.store) → OnOk result
        (AreStretches from len (unmuted (meant (stored_of (S.reads reader.old.store)) point.now)) samples.new) }
{
    let plan = plan_tracks(reader, point, from, len, samples.len())?;
    if read_plan(reader, &plan, samples)? {
        return read_tracks(reader, point, from, len, &plan.parts, samples);
    }
    read_tracks(reader, point, from, len, &[], samples)
}

/// The same into the first samples of a buffer.
fn read_front<S: Store>(
    reader: &mut BlockReader<S>,
    point: &Point,
    from: u64,
    len: usize,
    room: usize,
    samples: &mut [i16],
) -> Result<(), BlockFault>
    requires named { AllNamed (point_blocks point.now) }
    requires room { room ≡ heard_count point.now * len }
    requires within { room ≤ length samples.old }
    requires few { from + len < 2 ^ 64 }
    ensures reads { Reads (point_blocks point.now) reader.old reader.new result }
    ensures hit { Hits (HasHeard reader.old.cache from (from + len) point.now) reader.old reader.new result }
    ensures stored { IsTrue (S.tells reader.old.store) → OnOk result (AreStretches from len
        (unmuted (meant (stored_of (S.reads reader.old.store)) point.now)) (take room samples.new)) }
{
    read_heard(reader, point, from, len, &mut samples[..room])
}

/// Puts the gain and the side of a track after others, unless it is muted.
fn list_track(track: &Track, gains: &mut Vec<u32>, sides: &mut Vec<Side>) -> Result<(), NoMemory>
    ensures gains { OnOk result (gains.new.items ≡ gains.old.items ++ heard_gains (track.now ∷ [])) }
    ensures sides { OnOk result (sides.new.items ≡ sides.old.items ++ heard_sides (track.now ∷ [])) }
{
    if !track.mute {
        gains.push(track.gain)?;
        sides.push(track.side)?;
    }
    Ok(())
}

/// Lists the gains and the sides of the tracks that are heard.
fn list_heard(point: &Point, gains: &mut Vec<u32>, sides: &mut Vec<Side>) -> Result<(), NoMemory>
    ensures gains { OnOk result (gains.new.items ≡ heard_gains point.now) }
    ensures sides { OnOk result (sides.new.items ≡ heard_sides point.now) }
    ensures few { length point.now ≤ MAX_TRACKS }
{
    gains.clear();
    sides.clear();
    'rows: for i in 0..point.len() {
        list_track(point.track_at(i), gains, sides)?;
    }
    Ok(())
}

/// Gives at least this many samples, whatever is in them.
fn make_room(samples: &mut Vec<i16>, count: usize) -> Result<(), NoMemory>
    ensures { OnOk result (count ≤ length samples.new.items) }
{
    if samples.len() < count {
        samples.resize(count, 0)?;
    }
    Ok(())
}

/// Lists the tracks that are heard, and gives each this many samples.
fn make_ready(point: &Point, count: usize, loaded: &mut Loaded) -> Result<(), NoMemory>
    requires { count ≤ MAX_LOADED }
    ensures loaded { OnOk result (IsLoaded loaded.new) }
    ensures gains { OnOk result (loaded.new.gains.items ≡ heard_gains point.now) }
    ensures sides { OnOk result (loaded.new.sides.items ≡ heard_sides point.now) }
    ensures len { OnOk result (loaded.new.len ≡ count) }
{
    list_heard(point, &mut loaded.gains, &mut loaded.sides)?;
    let room = loaded.gains.len() * count;
    make_room(&mut loaded.samples, room)?;
    loaded.len = count;
    Ok(())
}

/// Reads what is heard of the tracks that are listed, from a place on.
fn fill<S: Store>(
    reader: &mut BlockReader<S>,
    point: &Point,
    from: u64,
    loaded: &mut Loaded,
) -> Result<(), BlockFault>
    requires named { AllNamed (point_blocks point.now) }
    requires few { from + loaded.old.len < 2 ^ 64 }
    requires loaded { IsLoaded loaded.old }
    requires gains { loaded.old.gains.items ≡ heard_gains point.now }
    requires sides { loaded.old.sides.items ≡ heard_sides point.now }
    ensures reads { Reads (point_blocks point.now) reader.old reader.new result }
    ensures hit { Hits (HasHeard reader.old.cache from (from + loaded.old.len) point.now) reader.old reader.new result }
    ensures loaded { IsLoaded loaded.new }
    ensures len { loaded.new.len ≡ loaded.old.len }
    ensures gains { loaded.new.gains.items ≡ loaded.old.gains.items }
    ensures stored { IsTrue (S.tells reader.old.store) → OnOk result
        (Shows from (meant (stored_of (S.reads reader.old.store)) point.now) loaded.new) }
{
    let room = loaded.gains.len() * loaded.len;
    let len = loaded.len;
    read_front(
        reader,
        point,
        from,
        len,
        room,
        loaded.samples.as_mut_slice(),
    )
}

/// Loads the samples of the tracks that are heard, with their gains and sides, from a place on: as many frames as there
/// are, up to `n`. A gap is a sample of 0. It answers how many. All memory is asked for before the disk is. After an
/// error what is loaded may have been replaced in part.
pub fn load_stretch<S: Store>(
    reader: &mut BlockReader<S>,
    point: &Point,
    from: u64,
    n: usize,
    loaded: &mut Loaded,
) -> Result<usize, LoadFault>
    requires named { AllNamed (point_blocks point.now) }
    requires most { n ≤ MAX_LOADED }
    requires few { from + n < 2 ^ 64 }
    ensures reads { Reads (point_blocks point.now) reader.old reader.new (disk_part result) }
    // Where the cache has all pages of the tracks that are heard, the disk refuses nothing and is asked nothing.
    ensures hit { Hits (HasHeard reader.old.cache from (from + n) point.now) reader.old reader.new (disk_part result) }
    ensures count { IfOk result (λ k. k ≡ min n (mix_length_of point.now - from)) }
    ensures length { (src : Sources) → mix_length (meant src point.now) ≡ mix_length_of point.now }
    ensures len { IfOk result (λ k. loaded.new.len ≡ k) }
    ensures loaded { OnOk result (IsLoaded loaded.new) }
    ensures gains { OnOk result (loaded.new.gains.items ≡ heard_gains point.now) }
    // It shows what stands in the files of the blocks, and where the disk has all blocks what the tracks mean.
    ensures stored { IsTrue (S.tells reader.old.store) → OnOk result
        (Shows from (meant (stored_of (S.reads reader.old.store)) point.now) loaded.new) }
    ensures read { IsTrue (S.tells reader.old.store) → AllWhole (S.reads reader.old.store) (point_blocks point.now)
        → OnOk result (Shows from (meant (sources_of (S.reads reader.old.store)) point.now) loaded.new) }
    // Where the disk has all blocks no file is at fault.
    ensures valid { IsTrue (S.tells reader.old.store) → AllWhole (S.reads reader.old.store) (point_blocks point.now)
        → IfErr result (λ e. IsNoDamage e) }
    // Memory is asked for before the disk is.
    ensures memory { result ≡ Err fault.NoMemory
        → (reader.new.store ≡ reader.old.store) × (reader.new.cache ≡ reader.old.cache) }
{
    let left = mix_len(point).saturating_sub(from);
    let count = (n as u64).min(left) as usize;
    make_ready(point, count, loaded)?;
    fill(reader, point, from, loaded)?;
    Ok(count)
}
