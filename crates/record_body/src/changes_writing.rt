// The spelling of an edit by the current point.
ghost use Rattle.std.specs.Prelude.{◌≡◌, ◌+◌, ◌*◌, ◌-◌, ◌≤◌, ◌<◌, ◌^◌, ◌∷◌, [], ◌++◌, length, drop, IsOk, OnOk, OnErr};
ghost use Rattle.std.specs.Prelude.{vec_capacity};
ghost use Rattle.std.specs.List.{flat_map};
ghost use Rattle.byteorder.specs.Endian.{little_bytes};
ghost use Rattle.record_body.specs.Changes as change;
ghost use Rattle.record_body.specs.Choices.{change_by, LiesWithin};
ghost use Rattle.record_body.specs.declared.kinds.TheConstants.{DELTA_KIND};
ghost use Rattle.record_body.specs.Lengths.{body_tracks};
ghost use Rattle.project_state.specs.Kept.{KeepsTrack, KeepsTracks};
ghost use Rattle.project_state.specs.Numbers.{AgreeById, AgreesIfAny};
ghost use Rattle.record_body.specs.Numbers.{BodyAgrees, BodyKeeps};
ghost use Rattle.record_body.specs.Spelling.{block_bytes, side_byte, mute_byte, spelling};
ghost use Rattle.project_state.specs.Tracks.{track_of};

use super::body::Body;
use super::changes::{Choice, choose, last_blocks, side_number};
use super::kinds::DELTA_KIND;
use super::writing::{
    body_len, track_len, write_body, write_clips, write_count, write_numbers, write_rows,
};
use block_sequence::Sequence;
use byteorder::{ByteOrder, LittleEndian};
use clip_track::Kept;
use pcm_base::NoMemory;
use project_state::{Point, Track};

/// How a track is written by the current point.
fn choice_in(current: &Point, track: &Track, kept: Kept) -> Choice
    requires numbers { AgreesIfAny (track_of track.now.id current.now) track.now }
    requires kept { KeepsTrack kept current.now track.now }
    ensures value { change_by track.now result ≡ change.change_of (track_of track.now.id current.now) track.now }
    ensures within { LiesWithin track.now result }
{
    match current.track(track.id) {
        Ok(old) => choose(old, track, kept),
        Err(_) => Choice::Whole,
    }
}

/// How many blocks come after those of the last clip that are kept.
fn fresh(track: &Track, kept: usize) -> usize
    requires some { 0 < length track.now.layout }
    requires within { kept ≤ length (change.last_blocks track.now.layout) }
    ensures value { result ≡ length (drop kept (change.last_blocks track.now.layout)) }
    ensures few { result ≤ 2 ^ 32 }
{
    last_blocks(track.layout.as_slice()).count() - kept
}

/// How many bytes tell a track that is written so.
fn diff_len(choice: Choice, track: &Track) -> usize
    requires within { LiesWithin track.now choice }
    ensures value { result ≡ 8 + length (change.change_bytes (change_by track.now choice)) }
    ensures few { result ≤ 2 ^ 38 }
{
    match choice {
        Choice::Same => 9,
        Choice::Whole => 1 + track_len(track),
        Choice::Tail { kept, .. } => 17 + 12 * fresh(track, kept),
    }
}

/// Gain, side and mute.
fn write_how(track: &Track, out: &mut [u8])
    requires { length out.old ≡ 6 }
    ensures { out.new ≡ little_bytes 4 track.now.gain ++ side_byte track.now.side ∷ mute_byte track.now.mute ∷ [] }
{
    LittleEndian::write_u32(out, track.gain);
    out[4] = side_number(track.side);
    out[5] = track.mute as u8;
}

/// All but the id.
fn write_heard(track: &Track, out: &mut [u8])
    requires { length out.old ≡ length (change.heard_bytes track.now) }
    ensures { out.new ≡ change.heard_bytes track.now }
{
    let clips = track.layout.as_slice();
    write_how(track, &mut out[..6]);
    write_count(clips.len(), &mut out[6..]);
    write_clips(clips, &mut out[10..]);
}

fn write_same(out: &mut [u8])
    requires { length out.old ≡ 1 }
    ensures { out.new ≡ change.change_bytes change.Same }
{
    out[0] = 0;
}

fn write_whole(track: &Track, out: &mut [u8])
    requires { length out.old ≡ length (change.change_bytes (change.Whole track.now)) }
    ensures { out.new ≡ change.change_bytes (change.Whole track.now) }
{
    write_heard(track, &mut out[1..]);
    out[0] = 1;
}

/// How many blocks go, and those that come after the first `kept`.
#[tactic(auto, using(crate::proofs::Parts::length_blocks))]
fn write_tail(gone: usize, kept: usize, blocks: &Sequence, out: &mut [u8])
    requires within { kept ≤ length blocks.now }
    requires size { length out.old ≡ 9 + 12 * length (drop kept blocks.now) }
    ensures { out.new ≡ change.change_bytes (change.Tail gone (drop kept blocks.now)) }
{
    write_count(gone, &mut out[1..]);
    write_count(blocks.count() - kept, &mut out[5..]);
    write_rows(kept, blocks.rows(), &mut out[9..]);
    out[0] = 2;
}

/// The mark, and what belongs to it.
#[tactic(auto, using(crate::proofs::Parts::length_blocks))]
fn write_change(choice: Choice, track: &Track, out: &mut [u8])
    requires size { length out.old ≡ length (change.change_bytes (change_by track.now choice)) }
    requires within { LiesWithin track.now choice }
    ensures { out.new ≡ change.change_bytes (change_by track.now choice) }
{
    match choice {
        Choice::Same => write_same(out),
        Choice::Whole => write_whole(track, out),
        Choice::Tail { gone, kept } => {
            write_tail(gone, kept, last_blocks(track.layout.as_slice()), out)
        }
    }
}

/// The id, and how the track is written.
fn write_diff(choice: Choice, track: &Track, out: &mut [u8])
    requires within { LiesWithin track.now choice }
    requires size { length out.old ≡ 8 + length (change.change_bytes (change_by track.now choice)) }
    ensures { out.new ≡ little_bytes 8 track.now.id ++ change.change_bytes (change_by track.now choice) }
{
    LittleEndian::write_u64(out, track.id);
    write_change(choice, track, &mut out[8..]);
}

fn all_diff_len(current: &Point, point: &Point, kept: Kept) -> usize
    requires numbers { AgreeById current.now point.now }
    requires kept { KeepsTracks kept current.now point.now }
    ensures value { result ≡ length (flat_map (change.diff_bytes current.now) point.now) }
    ensures few { result ≤ 2 ^ 44 }
{
    let mut len = 0;
    for i in 0..point.len() {
        let track = point.track_at(i);
        len += diff_len(choice_in(current, track, kept), track);
    }
    len
}

fn write_all_diff(current: &Point, point: &Point, kept: Kept, out: &mut [u8])
    requires numbers { AgreeById current.now point.now }
    requires kept { KeepsTracks kept current.now point.now }
    requires size { length out.old ≡ length (flat_map (change.diff_bytes current.now) point.now) }
    ensures { out.new ≡ flat_map (change.diff_bytes current.now) point.now }
{
    let mut at = 0;
    for i in 0..point.len() {
        let track = point.track_at(i);
        let choice = choice_in(current, track, kept);
        let end = at + diff_len(choice, track);
        write_diff(choice, track, &mut out[at..end]);
        at = end;
    }
}

fn write_delta(current: &Point, point: &Point, kept: Kept, out: &mut [u8])
    requires numbers { AgreeById current.now point.now }
    requires kept { KeepsTracks kept current.now point.now }
    requires size { length out.old ≡ length (change.delta_bytes current.now point.now) }
    ensures { out.new ≡ change.delta_bytes current.now point.now }
{
    write_count(point.len(), out);
    write_all_diff(current, point, kept, &mut out[4..]);
}

fn write_edit_by(
    current: &Point,
    tag: u64,
    next_block: u64,
    next_track: u64,
    point: &Point,
    kept: Kept,
    out: &mut [u8],
)
    requires numbers { AgreeById current.now point.now }
    requires kept { KeepsTracks kept current.now point.now }
    requires size { length out.old ≡ 25 + length (change.delta_bytes current.now point.now) }
    ensures { out.new ≡ DELTA_KIND ∷ (little_bytes 8 tag
        ++ (little_bytes 8 next_block ++ (little_bytes 8 next_track ++ change.delta_bytes current.now point.now))) }
{
    write_numbers(tag, next_block, next_track, &mut out[1..25]);
    write_delta(current, point, kept, &mut out[25..]);
    out[0] = DELTA_KIND;
}

/// How many bytes the body has by the current point. Tracks that have one number there and in the body, other than 0,
/// have the same layout, and none of their clips is read. Blocks that a track is known to keep at its front are not
/// compared.
pub fn delta_len(body: &Body, current: &Point, kept: Kept) -> usize
    requires numbers { BodyAgrees current.now body.now }
    requires kept { BodyKeeps kept current.now body.now }
    ensures value { result ≡ length (change.delta_spelling current.now body.now) }
    ensures few { result ≤ 2 ^ 45 }
    // It passes the length of the body that is written by no point by one byte a track at most.
    ensures more { result ≤ length (spelling body.now) + length (body_tracks body.now) }
{
    match body {
        Body::Edit { point, .. } => 29 + all_diff_len(current, point, kept),
        _ => body_len(body),
    }
}

/// Makes `out` the body's bytes, by the current point: tracks that stay as they are there are written as their ids
/// alone, and a track of which only the end of the last clip differs by the blocks that differ. Where `out` has room
/// for the bytes, it takes no memory and is Ok. Layouts of one number, other than 0, are the same.
///
/// # Errors
///
/// There is no memory for the bytes. What was in `out` is left.
pub fn write_delta_body(
    body: &Body,
    current: &Point,
    kept: Kept,
    out: &mut Vec<u8>,
) -> Result<(), NoMemory>
    requires numbers { BodyAgrees current.now body.now }
    requires kept { BodyKeeps kept current.now body.now }
    ensures spelled { OnOk result (out.new.items ≡ change.delta_spelling current.now body.now) }
    ensures room { length (change.delta_spelling current.now body.now) ≤ vec_capacity out.old → IsOk result }
    ensures same { OnErr result (out.new.items ≡ out.old.items) }
    ensures capacity { vec_capacity out.old ≤ vec_capacity out.new }
{
    match body {
        Body::Edit {
            tag,
            next_block,
            next_track,
            point,
        } => {
            let len = delta_len(body, current, kept);
            match out.resize_with(len, || 0) {
                Ok(()) => {}
                Err(_) => return Err(NoMemory),
            }
            write_edit_by(
                current,
                *tag,
                *next_block,
                *next_track,
                point,
                kept,
                out.as_mut_slice(),
            );
            Ok(())
        }
        _ => write_body(body, out),
    }
}
