// The one spelling of a block.
ghost use Rattle.std.specs.Prelude.{◌≡◌, ◌≤◌, ◌<◌, ◌^◌, ◌+◌, ◌-◌, ◌*◌, ◌++◌, length, min, take, drop, vec_capacity};
ghost use Rattle.std.specs.Prelude.{vec_len, IsOk};
ghost use Rattle.std.specs.Prelude.{OnOk, OnErr};
ghost use Rattle.std.specs.List.{flat_map};
ghost use Rattle.pcm_base.specs.declared.limits.TheConstants.{MAX_BLOCK_SAMPLES};
ghost use Rattle.peak_summary.specs.Peaks.{frame_count, frames_of};
ghost use Rattle.sample_block.specs.Spelling.{IsBlock, IsSpelled, spelling, size_of, field_bytes, frame_fields};
ghost use Rattle.sample_block.specs.Spelling.{header_fields, body_fields, sample_bytes};

use super::levels::{LONG_FRAME, MAX_LONG_FRAMES, MAX_SHORT_FRAMES};
use byteorder::{ByteOrder, LittleEndian};
use pcm_base::NoMemory;
use peak_summary::{NOTHING, Summary, all_fit, fill_long, of};

/// The size in bytes of the file of a block of `count` samples, at most 262,144.
pub fn file_size(count: usize) -> usize
    requires { count ≤ MAX_BLOCK_SAMPLES }
    ensures value { result ≡ size_of count }
    ensures bound { result ≤ 2 ^ 20 }
{
    16 + 2 * count + 12 * (count.div_ceil(256) + count.div_ceil(LONG_FRAME as usize))
}

/// Magic, id and count.
fn write_header(id: u64, count: u32, out: &mut [u8])
    requires { length out.old ≡ 16 }
    ensures { out.new ≡ flat_map field_bytes (header_fields id count) }
{
    LittleEndian::write_u32(out, super::MAGIC);
    LittleEndian::write_u64(&mut out[4..], id);
    LittleEndian::write_u32(&mut out[12..], count);
}

/// Minimum, maximum and sum of squares.
fn write_frame(summary: &Summary, out: &mut [u8])
    requires { length out.old ≡ 12 }
    ensures { out.new ≡ flat_map field_bytes (frame_fields summary.now) }
{
    LittleEndian::write_i16(out, summary.min);
    LittleEndian::write_i16(&mut out[2..], summary.max);
    LittleEndian::write_u64(&mut out[4..], summary.squares);
}

/// The frames of one level, one after the other.
fn write_level(frames: &[Summary], out: &mut [u8])
    requires { length out.old ≡ 12 * length frames.now }
    ensures { out.new ≡ flat_map field_bytes (flat_map frame_fields frames.now) }
{
    for i in 0..frames.len() {
        write_frame(&frames[i], &mut out[12 * i..12 * i + 12]);
    }
}

/// Both levels, the short one first.
fn write_both(short: &[Summary], long: &[Summary], out: &mut [u8])
    requires { length out.old ≡ 12 * (length short.now + length long.now) }
    ensures { out.new ≡ flat_map field_bytes (flat_map frame_fields short.now ++ flat_map frame_fields long.now) }
{
    let at = 12 * short.len();
    write_level(short, &mut out[..at]);
    write_level(long, &mut out[at..]);
}

/// The samples of frame `i` of 256, or the fewer that there are.
fn frame_samples(samples: &[i16], i: usize) -> &[i16]
    requires { 256 * i ≤ length samples.now }
    ensures value { result.now ≡ take 256 (drop (256 * i) samples.now) }
    ensures count { length result.now ≡ min 256 (length samples.now - 256 * i) }
{
    let count = (samples.len() - 256 * i).min(256);
    &samples[256 * i..256 * i + count]
}

/// The samples, and their frames of 256. Those of a frame are written and then summed, while they are near.
fn write_samples(samples: &[i16], out: &mut [u8], short: &mut [Summary])
    requires few { length samples.now ≤ MAX_BLOCK_SAMPLES }
    requires room { length out.old ≡ 2 * length samples.now }
    requires count { length short.old ≡ frame_count 256 (length samples.now) }
    ensures written { out.new ≡ flat_map sample_bytes samples.now }
    ensures short { short.new ≡ frames_of 256 samples.now }
{
    for i in 0..short.len() {
        let part = frame_samples(samples, i);
        LittleEndian::write_i16_into(part, &mut out[512 * i..512 * i + 2 * part.len()]);
        short[i] = of(part);
    }
}

/// The samples, and their frames of both levels.
fn write_measured(samples: &[i16], out: &mut [u8], short: &mut [Summary], long: &mut [Summary])
    requires few { length samples.now ≤ MAX_BLOCK_SAMPLES }
    requires room { length out.old ≡ 2 * length samples.now }
    requires short { length short.old ≡ frame_count 256 (length samples.now) }
    requires long { length long.old ≡ frame_count LONG_FRAME (length samples.now) }
    ensures written { out.new ≡ flat_map sample_bytes samples.now }
    ensures short { short.new ≡ frames_of 256 samples.now }
    ensures long { long.new ≡ frames_of LONG_FRAME samples.now }
{
    all_fit(samples);
    write_samples(samples, out, short);
    fill_long(short, long);
}

/// What follows the header: the samples and both levels.
fn write_body(samples: &[i16], out: &mut [u8])
    requires few { length samples.now ≤ MAX_BLOCK_SAMPLES }
    requires room { length out.old + 16 ≡ size_of (length samples.now) }
    ensures { out.new ≡ flat_map field_bytes (body_fields samples.now) }
{
    let mut short = [NOTHING; MAX_SHORT_FRAMES];
    let mut long = [NOTHING; MAX_LONG_FRAMES];
    let short = &mut short[..samples.len().div_ceil(256)];
    let long = &mut long[..samples.len().div_ceil(LONG_FRAME as usize)];
    let at = 2 * samples.len();
    write_measured(samples, &mut out[..at], short, long);
    write_both(short, long, &mut out[at..]);
}

/// The whole file.
fn write_file(id: u64, samples: &[i16], out: &mut [u8])
    requires few { length samples.now ≤ MAX_BLOCK_SAMPLES }
    requires room { length out.old ≡ size_of (length samples.now) }
    ensures { out.new ≡ spelling id samples.now }
{
    write_header(id, samples.len() as u32, &mut out[..16]);
    write_body(samples, &mut out[16..]);
}

/// Makes `out` the file of the block with this id, from 16 to below 2^62, and these samples, 1 to 262,144. Where `out`
/// has room for the file, it takes no memory and is Ok. NoMemory leaves what was in `out`.
pub fn encode(id: u64, samples: &[i16], out: &mut Vec<u8>) -> Result<(), NoMemory>
    requires { IsBlock id (length samples.now) }
    ensures spelled { OnOk result (IsSpelled id samples.now out.new.items) }
    ensures len { OnOk result (vec_len out.new ≡ size_of (length samples.now)) }
    ensures room { size_of (length samples.now) ≤ vec_capacity out.old → IsOk result }
    ensures same { OnErr result (out.new.items ≡ out.old.items) }
    ensures capacity { vec_capacity out.old ≤ vec_capacity out.new }
{
    let size = file_size(samples.len());
    match out.resize_with(size, || 0) {
        Ok(()) => {}
        Err(_) => return Err(NoMemory),
    }
    all_fit(samples);
    write_file(id, samples, out.as_mut_slice());
    Ok(())
}
