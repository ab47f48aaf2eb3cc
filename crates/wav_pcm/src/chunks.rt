// The chunks of a file, up to the `data` chunk.
ghost use Rattle.std.specs.Prelude.{◌≡◌, ◌≤◌, ◌<◌, ◌+◌, Err, length, take, drop, IfOk, IfSome, OnSome};
ghost use Rattle.pcm_base.specs.Wave.{wav_of, data_of, ended, format_of, some_format, seen_after, chunks_from};
ghost use Rattle.pcm_base.specs.Wave.{is_riff as says_riff, padded};
ghost use Rattle.wav_pcm.specs.Wavs.{Says, seen_in, sound_in_data};

use super::bytes::u32_at;
use super::format::read_format;
use super::shape::Format;
use pcm_base::WavFault;

/// The `data` chunk: the format of its frames, and its bytes.
#[derive(Clone, Copy)]
pub(crate) struct Data<'a> {
    pub(crate) format: Format,
    pub(crate) body: &'a [u8],
}

pub(crate) fn is_riff(bytes: &[u8]) -> bool
    ensures { result ≡ says_riff bytes.now }
{
    bytes.len() >= 12 && &bytes[..4] == b"RIFF".as_slice() && &bytes[8..12] == b"WAVE".as_slice()
}

/// The bytes after a chunk of this size and its pad byte, which may be missing.
fn after_chunk(bytes: &[u8], size: u32) -> &[u8]
    requires { 8 ≤ length bytes.now }
    ensures { result.now ≡ drop (8 + padded size) bytes.now }
{
    let size = size as usize;
    let end = 8 + size + size % 2;
    if end > bytes.len() {
        return &bytes[bytes.len()..];
    }
    &bytes[end..]
}

/// The front of the bytes, as many as the size says or fewer.
fn front(bytes: &[u8], size: u32) -> &[u8]
    ensures { result.now ≡ take size bytes.now }
{
    let size = size as usize;
    if size > bytes.len() {
        return bytes;
    }
    &bytes[..size]
}

/// The format of a `fmt ` chunk, from its body.
fn see_format(body: &[u8]) -> Result<Option<Format>, WavFault>
    ensures { Says seen_in result (some_format (format_of body.now)) }
{
    read_format(body).map(Some)
}

/// The format that was seen after a chunk other than `data`: that of the first `fmt ` chunk.
fn see(
    format: Option<Format>,
    name: &[u8],
    size: u32,
    body: &[u8],
) -> Result<Option<Format>, WavFault>
    ensures { Says seen_in result (seen_after (seen_in format) name.now size body.now) }
{
    match format {
        Some(format) => Ok(Some(format)),
        None if name == b"fmt ".as_slice() => see_format(front(body, size)),
        None => Ok(None),
    }
}

/// The `data` chunk, of which these are the bytes to the end of the file.
fn take_data(format: Option<Format>, size: u32, body: &[u8]) -> Result<Data<'_>, WavFault>
    ensures { Says sound_in_data result (data_of (seen_in format) size body.now) }
{
    let Some(format) = format else {
        return Err(WavFault::NoFmt);
    };
    if size == u32::MAX {
        return Ok(Data { format, body });
    }
    let want = size as usize;
    if body.len() < want {
        return Err(WavFault::Truncated {
            want: u64::from(size),
            have: body.len() as u64,
        });
    }
    Ok(Data {
        format,
        body: &body[..want],
    })
}

pub(crate) fn end(format: Option<Format>) -> WavFault
    ensures { ended (seen_in format) ≡ Err result }
{
    match format {
        None => WavFault::NoFmt,
        Some(_) => WavFault::NoData,
    }
}

/// The `data` chunk among the chunks, or the first that refuses the file.
fn find_chunk(chunks: &[u8]) -> Result<Data<'_>, WavFault>
    ensures { Says sound_in_data result (chunks_from None 0 chunks.now) }
{
    let mut format = None;
    let mut rest = chunks;
    'chunks: while rest.len() >= 8 {
        let size = u32_at(rest, 4);
        if &rest[..4] == b"data".as_slice() {
            return take_data(format, size, &rest[8..]);
        }
        match see(format, &rest[..4], size, &rest[8..]) {
            Ok(seen) => format = seen,
            Err(fault) => return Err(fault),
        }
        rest = after_chunk(rest, size);
    }
    Err(end(format))
}

/// The `data` chunk of a file, or the first that refuses the file.
pub(crate) fn find_data(bytes: &[u8]) -> Result<Data<'_>, WavFault>
    ensures { Says sound_in_data result (wav_of bytes.now) }
{
    if !is_riff(bytes) {
        return Err(WavFault::NotRiff);
    }
    find_chunk(&bytes[12..])
}
