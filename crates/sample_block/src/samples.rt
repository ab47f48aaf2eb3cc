// The samples of a block file, and those of one frame of 256.
ghost use Rattle.std.specs.Prelude.{◌≡◌, ◌≤◌, ◌<◌, ◌+◌, ◌*◌, ◌++◌, length, take, drop, IfOk, OnOk};
ghost use Rattle.pcm_base.specs.declared.limits.TheConstants.{MAX_BLOCK_SAMPLES};
ghost use Rattle.peak_summary.specs.Peaks.{frame_count, frame_of};
ghost use Rattle.sample_block.specs.Faults.{samples_in};

use byteorder::{ByteOrder, LittleEndian};
use peak_summary::{Summary, of};
use std::alloc::AllocError;

/// The samples from a place on.
fn read_samples(bytes: &[u8], at: usize, out: &mut [i16])
    requires { at + 2 * length out.old ≤ length bytes.now }
    ensures { out.new ≡ samples_in bytes.now at (length out.old) }
{
    LittleEndian::read_i16_into(&bytes[at..at + 2 * out.len()], out);
}

/// Reads the samples of frame `i` of 256 into `room`, and returns the part that has them. The file has `len` samples.
fn read_frame<'a>(bytes: &[u8], len: usize, i: usize, room: &'a mut [i16; 256]) -> &'a [i16]
    requires few { len ≤ MAX_BLOCK_SAMPLES }
    requires whole { 16 + 2 * len ≤ length bytes.now }
    requires within { i < frame_count 256 len }
    ensures samples { result.now ≡ take 256 (drop (256 * i) (samples_in bytes.now 16 len)) }
    ensures few { length result.now ≤ 256 }
{
    let count = (len - 256 * i).min(256);
    let samples = &mut room[..count];
    read_samples(bytes, 16 + 512 * i, samples);
    samples
}

/// The summary of the samples of frame `i` of 256, in a file of `len` samples.
pub(crate) fn short_frame(bytes: &[u8], len: usize, i: usize) -> Summary
    requires few { len ≤ MAX_BLOCK_SAMPLES }
    requires whole { 16 + 2 * len ≤ length bytes.now }
    requires within { i < frame_count 256 len }
    ensures { result ≡ frame_of 256 (samples_in bytes.now 16 len) i }
{
    let mut room = [0i16; 256];
    of(read_frame(bytes, len, i, &mut room))
}

/// Appends the samples of frame `i` of 256, and returns their summary. The file has `len` samples.
pub(crate) fn take_frame(
    bytes: &[u8],
    len: usize,
    i: usize,
    out: &mut Vec<i16>,
) -> Result<Summary, AllocError>
    requires few { len ≤ MAX_BLOCK_SAMPLES }
    requires whole { 16 + 2 * len ≤ length bytes.now }
    requires within { i < frame_count 256 len }
    ensures frame { IfOk result (λ s. s ≡ frame_of 256 (samples_in bytes.now 16 len) i) }
    ensures samples { OnOk result (out.new.items
        ≡ out.old.items ++ take 256 (drop (256 * i) (samples_in bytes.now 16 len))) }
{
    let mut room = [0i16; 256];
    let samples = read_frame(bytes, len, i, &mut room);
    out.extend_from_slice(samples)?;
    Ok(of(samples))
}
