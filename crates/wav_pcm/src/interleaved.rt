// More than two channels are read, in one pass over the bytes.
ghost use Rattle.std.specs.Prelude.{◌≡◌, ◌≤◌, ◌<◌, ◌*◌, ◌/◌, ◌++◌, [], length, map, All, IfOk, OnOk};
ghost use Rattle.std.specs.List.{range_with_len};
ghost use Rattle.pcm_base.specs.Wave.{channel_of};
ghost use Rattle.wav_pcm.specs.Wavs.{HaveGrown};

use super::bytes::i16_at;
use super::wav::Channels;
use pcm_base::Samples;
use std::alloc::{AllocError, Global};

/// How many frames are a buffer. Its bytes, 16 KiB at eight channels, stay in the processor's cache while each channel
/// takes its samples from them.
const BUFFER_LEN: usize = 1024;

/// The samples of channel `c` of `n`, from frames.
pub(crate) fn take_channel(body: &[u8], n: usize, c: usize, out: &mut [i16])
    requires few { n ≤ 8 }
    requires within { c < n }
    requires size { length out.old ≡ length body.now / (2 * n) }
    ensures { out.new ≡ channel_of n body.now c }
{
    for k in 0..out.len() {
        out[k] = i16_at(body, 2 * (n * k + c));
    }
}

/// Appends the samples of channel `c` of `n` in a buffer to the list of the channel.
fn append_channel(buffer: &[u8], n: usize, c: usize, list: &mut Vec<i16>) -> Result<(), AllocError>
    requires few { n ≤ 8 }
    requires within { c < n }
    requires small { length buffer.now ≤ 2 * n * BUFFER_LEN }
    ensures { OnOk result (list.new.items ≡ list.old.items ++ channel_of n buffer.now c) }
{
    let mut samples = [0; BUFFER_LEN];
    let count = buffer.len() / (2 * n);
    take_channel(buffer, n, c, &mut samples[..count]);
    list.extend_from_slice(&samples[..count])
}

/// Appends the samples of a buffer to the lists, one list for each channel.
fn append_channels(buffer: &[u8], lists: &mut [Vec<i16>]) -> Result<(), AllocError>
    requires few { length lists.old ≤ 8 }
    requires small { length buffer.now ≤ 2 * length lists.old * BUFFER_LEN }
    ensures { OnOk result (HaveGrown buffer.now lists.old lists.new) }
{
    let n = lists.len();
    for c in 0..n {
        append_channel(buffer, n, c, &mut lists[c])?;
    }
    Ok(())
}

/// Appends the samples of frames to the lists, one list for each channel, buffer by buffer.
fn append_buffers(body: &[u8], lists: &mut [Vec<i16>]) -> Result<(), AllocError>
    requires some { 0 < length lists.old }
    requires few { length lists.old ≤ 8 }
    ensures { OnOk result (HaveGrown body.now lists.old lists.new) }
{
    let size = 2 * lists.len() * BUFFER_LEN;
    let mut rest = body;
    while rest.len() > size {
        append_channels(&rest[..size], lists)?;
        rest = &rest[size..];
    }
    append_channels(rest, lists)
}

/// `n` empty lists, each with room for `room` samples.
fn empty_lists(alloc: Global, n: usize, room: usize) -> Result<Vec<Vec<i16>>, AllocError>
    ensures many { IfOk result (λ lists. length lists.items ≡ n) }
    ensures empty { IfOk result (λ lists. All (λ list. list.items ≡ []) lists.items) }
{
    let mut lists = Vec::with_capacity(alloc, n)?;
    for _ in 0..n {
        lists.push(Vec::with_capacity(alloc, room)?)?;
    }
    Ok(lists)
}

/// The lists as channels.
fn channels_of(alloc: Global, lists: Vec<Vec<i16>>) -> Result<Channels, AllocError>
    ensures { IfOk result (λ cs. cs ≡ map (λ list. list.items) lists.items) }
{
    let mut out = Vec::with_capacity(alloc, lists.len())?;
    for list in lists {
        out.push(Samples::new(list))?;
    }
    Ok(Channels::new(out))
}

/// The channels of frames.
pub(crate) fn interleaved(alloc: Global, body: &[u8], n: usize) -> Result<Channels, AllocError>
    requires some { 0 < n }
    requires few { n ≤ 8 }
    ensures { IfOk result (λ cs. cs ≡ map (channel_of n body.now) (range_with_len 0 n)) }
{
    let mut lists = empty_lists(alloc, n, body.len() / (2 * n))?;
    append_buffers(body, lists.as_mut_slice())?;
    channels_of(alloc, lists)
}
