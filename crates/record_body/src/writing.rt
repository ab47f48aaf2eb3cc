// The one spelling of a body.
ghost use Rattle.std.specs.Prelude.{◌≡◌, ℕ, ◌+◌, ◌*◌, ◌≤◌, ◌<◌, ◌^◌, List, ◌∷◌, [], ◌++◌, length, drop, IsOk, OnOk};
ghost use Rattle.std.specs.Prelude.{OnErr};
ghost use Rattle.std.specs.Prelude.{vec_capacity};
ghost use Rattle.std.specs.List.{flat_map};
ghost use Rattle.pcm_base.specs.declared.limits.TheConstants.{MAX_TRACKS};
ghost use Rattle.block_sequence.specs.Rows.{flat};
ghost use Rattle.byteorder.specs.Endian.{little_bytes};
ghost use Rattle.pcm_base.specs.Pieces.{Sources};
ghost use Rattle.clip_track.specs.Clips.{IsLayout};
ghost use Rattle.pcm_base.specs.Sizes.{project_body_most};
ghost use Rattle.record_body.specs.declared.kinds.TheConstants.{EDIT_KIND, PURGE_KIND};
ghost use Rattle.project_state.specs.declared.track.Track.{Track};
ghost use Rattle.record_body.specs.Changes.{delta_spelling};
ghost use Rattle.project_state.specs.Meaning.{meant};
ghost use Rattle.record_body.specs.Saved.{point_bytes};
ghost use Rattle.record_body.specs.Lengths.{AreHalfFull, AreLayouts, body_tracks};
ghost use Rattle.record_body.specs.Spelling.{block_bytes, clip_bytes, track_bytes, project_bytes, side_byte, mute_byte};
ghost use Rattle.record_body.specs.Spelling.{spelling};

use super::body::Body;
use super::kinds::{EDIT_KIND, PURGE_KIND, REDO_KIND, UNDO_KIND};
use block_sequence::Row;
use byteorder::{ByteOrder, LittleEndian};
use clip_track::Clip;
use pcm_base::{BlockRef, NoMemory, Side};
use project_state::{Point, Track};

const BLOCK_LEN: usize = 12;

const CLIP_HEAD: usize = 12;

const TRACK_HEAD: usize = 18;

const EDIT_HEAD: usize = 25;

#[tactic(auto, using(crate::proofs::Parts::length_clip))]
pub(crate) fn clip_len(clip: &Clip) -> usize
    ensures { result ≡ length (clip_bytes clip.now) }
{
    CLIP_HEAD + BLOCK_LEN * clip.blocks.count()
}

fn clips_len(clips: &[Clip]) -> usize
    requires { IsLayout clips.now }
    ensures value { result ≡ length (flat_map clip_bytes clips.now) }
    ensures few { result ≤ 24 * 2 ^ 32 }
{
    let mut len = 0;
    for i in 0..clips.len() {
        len += clip_len(&clips[i]);
    }
    len
}

pub(crate) fn track_len(track: &Track) -> usize
    ensures value { result ≡ length (track_bytes track.now) }
    ensures few { result ≤ 2 ^ 37 }
    ensures layout { IsLayout track.now.layout }
{
    TRACK_HEAD + clips_len(track.layout.as_slice())
}

fn tracks_len(point: &Point) -> usize
    ensures value { result ≡ length (flat_map track_bytes point.now) }
    ensures few { result ≤ 2 ^ 43 }
    ensures tracks { length point.now ≤ MAX_TRACKS }
    ensures layouts { AreLayouts point.now }
{
    let mut len = 0;
    for i in 0..point.len() {
        len += track_len(point.track_at(i));
    }
    len
}

/// How many bytes the body has.
pub fn body_len(body: &Body) -> usize
    ensures value { result ≡ length (spelling body.now) }
    ensures few { result ≤ 2 ^ 44 }
    ensures most { (src : Sources) (m : ℕ) → 0 < m → AreHalfFull m (body_tracks body.now) →
        result ≤ project_body_most m (meant src (body_tracks body.now)) }
    // That is room for it by any current point too.
    ensures told { (src : Sources) (m : ℕ) (current : List Track) → 0 < m → AreHalfFull m (body_tracks body.now) →
        length (delta_spelling current body.now) ≤ project_body_most m (meant src (body_tracks body.now)) }
{
    match body {
        Body::Edit { point, .. } => EDIT_HEAD + 4 + tracks_len(point),
        Body::Undo => 1,
        Body::Redo => 1,
        Body::Purge { .. } => 9,
    }
}

/// A count, as the lowest four of its bytes.
pub(crate) fn write_count(count: usize, out: &mut [u8])
    requires { 4 ≤ length out.old }
    ensures { out.new ≡ little_bytes 4 count ++ drop 4 out.old }
{
    LittleEndian::write_u32(out, (count % 4_294_967_296) as u32);
}

fn write_block(block: &BlockRef, out: &mut [u8])
    requires { length out.old ≡ 12 }
    ensures { out.new ≡ block_bytes block.now }
{
    LittleEndian::write_u64(out, block.id);
    LittleEndian::write_u32(&mut out[8..], block.len);
}

fn write_blocks(blocks: &[BlockRef], out: &mut [u8])
    requires { length out.old ≡ 12 * length blocks.now }
    ensures { out.new ≡ flat_map block_bytes blocks.now }
{
    for i in 0..blocks.len() {
        write_block(&blocks[i], &mut out[12 * i..12 * i + 12]);
    }
}

/// The blocks of a row but the first.
#[tactic(auto, using(crate::proofs::Parts::length_blocks))]
fn write_after(from: usize, blocks: &[BlockRef], out: &mut [u8])
    requires within { from ≤ length blocks.now }
    requires size { length out.old + 12 * from ≡ 12 * length blocks.now }
    ensures { out.new ≡ flat_map block_bytes (drop from blocks.now) }
{
    write_blocks(&blocks[from..], out);
}

/// The blocks of some rows but the first.
#[tactic(auto, using(block_sequence::proofs::FlatRows::flat_count))]
pub(crate) fn write_rows(skip: usize, rows: &[Row], out: &mut [u8])
    requires within { skip ≤ length (flat rows.now) }
    requires size { length out.old + 12 * skip ≡ 12 * length (flat rows.now) }
    ensures { out.new ≡ flat_map block_bytes (drop skip (flat rows.now)) }
{
    let mut left = skip;
    let mut at = 0;
    for row in rows {
        let blocks = row.as_slice();
        let from = left.min(blocks.len());
        let end = at + BLOCK_LEN * (blocks.len() - from);
        write_after(from, blocks, &mut out[at..end]);
        left -= from;
        at = end;
    }
}

#[tactic(auto, using(crate::proofs::Parts::length_clip, crate::proofs::Parts::length_blocks))]
fn write_clip(clip: &Clip, out: &mut [u8])
    requires { length out.old ≡ length (clip_bytes clip.now) }
    ensures { out.new ≡ clip_bytes clip.now }
{
    LittleEndian::write_u64(out, clip.start);
    write_count(clip.blocks.count(), &mut out[8..]);
    write_rows(0, clip.blocks.rows(), &mut out[CLIP_HEAD..]);
}

pub(crate) fn write_clips(clips: &[Clip], out: &mut [u8])
    requires { length out.old ≡ length (flat_map clip_bytes clips.now) }
    ensures { out.new ≡ flat_map clip_bytes clips.now }
{
    let mut at = 0;
    for i in 0..clips.len() {
        let clip = &clips[i];
        let end = at + clip_len(clip);
        write_clip(clip, &mut out[at..end]);
        at = end;
    }
}

fn side_number(side: Side) -> u8
    ensures { result ≡ side_byte side }
{
    match side {
        Side::Both => 0,
        Side::Left => 1,
        Side::Right => 2,
    }
}

/// Id, gain, side and mute.
fn write_settings(track: &Track, out: &mut [u8])
    requires { length out.old ≡ 14 }
    ensures { out.new ≡ little_bytes 8 track.now.id
        ++ (little_bytes 4 track.now.gain ++ side_byte track.now.side ∷ mute_byte track.now.mute ∷ []) }
{
    LittleEndian::write_u64(out, track.id);
    LittleEndian::write_u32(&mut out[8..], track.gain);
    out[12] = side_number(track.side);
    out[13] = track.mute as u8;
}

fn write_track(track: &Track, out: &mut [u8])
    requires { length out.old ≡ length (track_bytes track.now) }
    ensures { out.new ≡ track_bytes track.now }
{
    let clips = track.layout.as_slice();
    write_settings(track, &mut out[..14]);
    write_count(clips.len(), &mut out[14..]);
    write_clips(clips, &mut out[TRACK_HEAD..]);
}

fn write_tracks(point: &Point, out: &mut [u8])
    requires { length out.old ≡ length (flat_map track_bytes point.now) }
    ensures { out.new ≡ flat_map track_bytes point.now }
{
    let mut at = 0;
    for i in 0..point.len() {
        let track = point.track_at(i);
        let end = at + track_len(track);
        write_track(track, &mut out[at..end]);
        at = end;
    }
}

fn write_project(point: &Point, out: &mut [u8])
    requires { length out.old ≡ length (project_bytes point.now) }
    ensures { out.new ≡ project_bytes point.now }
{
    write_count(point.len(), out);
    write_tracks(point, &mut out[4..]);
}

/// How many bytes a point of a history has in the header of a journal.
pub fn point_len(point: &Point) -> usize
    ensures value { (tag : ℕ) → result ≡ length (point_bytes (point.now, tag)) }
    ensures few { result ≤ 2 ^ 44 }
{
    8 + 4 + tracks_len(point)
}

/// Writes a point and its tag as they stand in the header of a journal.
pub fn write_point(point: &Point, tag: u64, out: &mut [u8])
    requires { length out.old ≡ length (point_bytes (point.now, tag)) }
    ensures { out.new ≡ point_bytes (point.now, tag) }
{
    LittleEndian::write_u64(out, tag);
    write_project(point, &mut out[8..]);
}

pub(crate) fn write_numbers(tag: u64, next_block: u64, next_track: u64, out: &mut [u8])
    requires { length out.old ≡ 24 }
    ensures { out.new ≡ little_bytes 8 tag ++ (little_bytes 8 next_block ++ little_bytes 8 next_track) }
{
    LittleEndian::write_u64(out, tag);
    LittleEndian::write_u64(&mut out[8..], next_block);
    LittleEndian::write_u64(&mut out[16..], next_track);
}

fn write_edit(tag: u64, next_block: u64, next_track: u64, point: &Point, out: &mut [u8])
    requires { length out.old ≡ 25 + length (project_bytes point.now) }
    ensures { out.new ≡ EDIT_KIND ∷ (little_bytes 8 tag
        ++ (little_bytes 8 next_block ++ (little_bytes 8 next_track ++ project_bytes point.now))) }
{
    write_numbers(tag, next_block, next_track, &mut out[1..EDIT_HEAD]);
    write_project(point, &mut out[EDIT_HEAD..]);
    out[0] = EDIT_KIND;
}

fn write_purge(n: u64, out: &mut [u8])
    requires { length out.old ≡ 9 }
    ensures { out.new ≡ PURGE_KIND ∷ little_bytes 8 n }
{
    LittleEndian::write_u64(&mut out[1..], n);
    out[0] = PURGE_KIND;
}

fn write_whole(body: &Body, out: &mut [u8])
    requires { length out.old ≡ length (spelling body.now) }
    ensures { out.new ≡ spelling body.now }
{
    match body {
        Body::Edit {
            tag,
            next_block,
            next_track,
            point,
        } => write_edit(*tag, *next_block, *next_track, point, out),
        Body::Undo => out[0] = UNDO_KIND,
        Body::Redo => out[0] = REDO_KIND,
        Body::Purge { n } => write_purge(*n, out),
    }
}

/// Makes `out` the body's bytes. Where `out` has room for them, it takes no memory and is Ok.
///
/// # Errors
///
/// There is no memory for the bytes. What was in `out` is left.
pub fn write_body(body: &Body, out: &mut Vec<u8>) -> Result<(), NoMemory>
    ensures spelled { OnOk result (out.new.items ≡ spelling body.now) }
    ensures room { length (spelling body.now) ≤ vec_capacity out.old → IsOk result }
    ensures same { OnErr result (out.new.items ≡ out.old.items) }
    ensures capacity { vec_capacity out.old ≤ vec_capacity out.new }
{
    let len = body_len(body);
    match out.resize_with(len, || 0) {
        Ok(()) => {}
        Err(_) => return Err(NoMemory),
    }
    write_whole(body, out.as_mut_slice());
    Ok(())
}
