// Sounds of a vault in memory, read and written in parts, with buffers of several lengths.
ghost use Rattle.wav_pcm.specs.Heads.{HasShape};

use edit_ports::{MemVault, Vault};
use pcm_base::{Frame, NoMemory, Numbers, Refusal, WavFault};
use std::alloc::{AllocError, Global};
use std::test::*;
use wav_pcm::{ChannelOf, Wav, WavHead, append_frames, channel, head, read, start_wav, write};

/// One channel of the samples 1 and -1, at 8,000 frames in a second.
static MONO: [u8; 48] = [
    0x52, 0x49, 0x46, 0x46, 0x28, 0x00, 0x00, 0x00, 0x57, 0x41, 0x56, 0x45, 0x66, 0x6D, 0x74, 0x20,
    0x10, 0x00, 0x00, 0x00, 0x01, 0x00, 0x01, 0x00, 0x40, 0x1F, 0x00, 0x00, 0x80, 0x3E, 0x00, 0x00,
    0x02, 0x00, 0x10, 0x00, 0x64, 0x61, 0x74, 0x61, 0x04, 0x00, 0x00, 0x00, 0x01, 0x00, 0xFF, 0xFF,
];

/// Two channels, each of the samples 1 and -1.
static TWO: [u8; 52] = [
    0x52, 0x49, 0x46, 0x46, 0x2C, 0x00, 0x00, 0x00, 0x57, 0x41, 0x56, 0x45, 0x66, 0x6D, 0x74, 0x20,
    0x10, 0x00, 0x00, 0x00, 0x01, 0x00, 0x02, 0x00, 0x40, 0x1F, 0x00, 0x00, 0x00, 0x7D, 0x00, 0x00,
    0x04, 0x00, 0x10, 0x00, 0x64, 0x61, 0x74, 0x61, 0x08, 0x00, 0x00, 0x00, 0x01, 0x00, 0x01, 0x00,
    0xFF, 0xFF, 0xFF, 0xFF,
];

/// The first with a `LIST` chunk of 3 bytes and its pad byte before `data`.
static LISTED: [u8; 60] = [
    0x52, 0x49, 0x46, 0x46, 0x28, 0x00, 0x00, 0x00, 0x57, 0x41, 0x56, 0x45, 0x66, 0x6D, 0x74, 0x20,
    0x10, 0x00, 0x00, 0x00, 0x01, 0x00, 0x01, 0x00, 0x40, 0x1F, 0x00, 0x00, 0x80, 0x3E, 0x00, 0x00,
    0x02, 0x00, 0x10, 0x00, 0x4C, 0x49, 0x53, 0x54, 0x03, 0x00, 0x00, 0x00, 0x61, 0x62, 0x63, 0x00,
    0x64, 0x61, 0x74, 0x61, 0x04, 0x00, 0x00, 0x00, 0x01, 0x00, 0xFF, 0xFF,
];

/// The front of a file of three channels. Its frames are all the bytes after it.
static THREE: [u8; 44] = [
    0x52, 0x49, 0x46, 0x46, 0xFF, 0xFF, 0xFF, 0xFF, 0x57, 0x41, 0x56, 0x45, 0x66, 0x6D, 0x74, 0x20,
    0x10, 0x00, 0x00, 0x00, 0x01, 0x00, 0x03, 0x00, 0x40, 0x1F, 0x00, 0x00, 0x80, 0xBB, 0x00, 0x00,
    0x06, 0x00, 0x10, 0x00, 0x64, 0x61, 0x74, 0x61, 0xFF, 0xFF, 0xFF, 0xFF,
];

/// The 16 bits of a sample of three channels: 31 times the frame's number and 10,007 times the channel's.
fn sample_of(frame: u16, channel: u16) -> u16 {
    frame
        .wrapping_mul(31)
        .wrapping_add(channel.wrapping_mul(10_007))
}

/// A file of three channels with `frames` frames, and one byte of another.
fn three_channels(alloc: Global, frames: u16) -> Result<Vec<u8>, AllocError> {
    let mut bytes = THREE.to_vec(alloc)?;
    for frame in 0..frames {
        for channel in 0..3 {
            let sample = sample_of(frame, channel);
            bytes.push((sample % 256) as u8)?;
            bytes.push((sample / 256) as u8)?;
        }
    }
    bytes.push(1)?;
    Ok(bytes)
}

/// A vault with this sound, which fails at the calls of these numbers.
fn vault(alloc: Global, bytes: &[u8], fails: &[u64]) -> Result<MemVault, NoMemory> {
    let fails = Numbers::new(Vec::from_slice(alloc, fails)?);
    let mut vault = MemVault::new(alloc, 4, 100_000, fails)?;
    vault.place("a.wav", bytes)?;
    Ok(vault)
}

/// Whether a channel, read in parts, has these samples.
fn has_samples<V: Vault>(
    alloc: Global,
    vault: &mut V,
    head: &WavHead,
    c: u16,
    samples: &[i16],
    buf: &mut [u8],
) -> Result<bool, NoMemory>
    requires { HasShape head.now }
{
    if buf.len() < 64 || c >= head.channels || head.frames != samples.len() as u64 {
        return Ok(false);
    }
    let mut out = vec![in alloc; 7i16; samples.len()]?;
    let is_read = channel(
        vault,
        "a.wav",
        ChannelOf { head: *head, c },
        0,
        buf,
        &mut out,
    )
    .is_ok();
    Ok(is_read && out.as_slice() == samples)
}

/// Whether the channels, read in parts, are those of the sound read whole.
fn has_channels<V: Vault>(
    alloc: Global,
    vault: &mut V,
    head: &WavHead,
    whole: &Wav,
    buf: &mut [u8],
) -> Result<bool, NoMemory>
    requires { HasShape head.now }
{
    let channels = whole.channels.as_slice();
    if head.rate != whole.rate || usize::from(head.channels) != channels.len() {
        return Ok(false);
    }
    let mut c = 0u16;
    for samples in channels {
        if !has_samples(alloc, vault, head, c, samples.as_slice(), buf)? {
            return Ok(false);
        }
        c = c.saturating_add(1);
    }
    Ok(true)
}

/// Whether the sound read in parts is the sound read whole.
fn is_read<V: Vault>(
    alloc: Global,
    vault: &mut V,
    bytes: &[u8],
    room: usize,
) -> Result<bool, NoMemory> {
    if room < 64 {
        return Ok(false);
    }
    let mut buf = vec![in alloc; 7u8; room]?;
    let Ok(head) = head(vault, "a.wav", &mut buf) else {
        return Ok(false);
    };
    match read(alloc, bytes) {
        Ok(whole) => has_channels(alloc, vault, &head, &whole, &mut buf),
        Err(_) => Ok(false),
    }
}

/// Whether these bytes, as the sound of a vault, are read in parts as they are read whole.
fn are_read(alloc: Global, bytes: &[u8], room: usize) -> Result<bool, NoMemory> {
    let mut vault = vault(alloc, bytes, &[])?;
    is_read(alloc, &mut vault, bytes, room)
}

#[test]
fn read_in_parts(rt: HostRuntime) -> Result<(), Fail> {
    let alloc = rt.alloc();
    let three = three_channels(alloc, 40)?;
    for room in [64, 65, 65_536] {
        for bytes in [
            MONO.as_slice(),
            TWO.as_slice(),
            LISTED.as_slice(),
            three.as_slice(),
        ] {
            assert!(rt; are_read(alloc, bytes, room)?);
        }
    }
    Ok(())
}

/// A refusal as numbers. An equality of reasons takes long to prove.
fn numbers_of(reason: Refusal) -> [u64; 3] {
    match reason {
        Refusal::NoFile => [1, 0, 0],
        Refusal::VaultFault => [2, 0, 0],
        Refusal::BadWav { fault } => match fault {
            WavFault::Truncated { want, have } => [3, want, have],
            WavFault::NotRiff => [4, 0, 0],
            WavFault::NoFmt => [5, 0, 0],
            WavFault::NoData => [6, 0, 0],
            _ => [7, 0, 0],
        },
        _ => [8, 0, 0],
    }
}

fn are_same(one: [u64; 3], other: [u64; 3]) -> bool {
    one[0] == other[0] && one[1] == other[1] && one[2] == other[2]
}

/// The numbers of what a head is refused with, or zeros.
fn head_refusal<V: Vault>(vault: &mut V, name: &str) -> [u64; 3] {
    let mut buf = [0u8; 64];
    match head(vault, name, &mut buf) {
        Ok(_) => [0; 3],
        Err(reason) => numbers_of(reason),
    }
}

/// What a head is refused with, of this many of the bytes of `MONO`.
fn refusal(alloc: Global, len: usize, name: &str) -> Result<[u64; 3], NoMemory> {
    let Some(bytes) = MONO.get(..len) else {
        return Ok([9; 3]);
    };
    let mut vault = vault(alloc, bytes, &[])?;
    Ok(head_refusal(&mut vault, name))
}

/// How many bytes there are, and the numbers of the refusal.
static REFUSALS: [(usize, [u64; 3]); 4] = [
    (47, [3, 4, 3]),
    (0, [4, 0, 0]),
    (12, [5, 0, 0]),
    (36, [6, 0, 0]),
];

#[test]
fn refused(rt: HostRuntime) -> Result<(), Fail> {
    assert!(rt; are_same(refusal(rt.alloc(), 48, "b.wav")?, [1, 0, 0]));
    for (len, told) in &REFUSALS {
        assert!(rt; are_same(refusal(rt.alloc(), *len, "a.wav")?, *told));
    }
    Ok(())
}

/// What a channel of 100 frames is refused with, where there are two, with a buffer of this length.
fn cut_with<V: Vault>(alloc: Global, vault: &mut V, room: usize) -> Result<[u64; 3], NoMemory> {
    if room < 64 {
        return Ok([9; 3]);
    }
    let head = WavHead {
        rate: 8_000,
        channels: 1,
        at: 44,
        frames: 100,
    };
    let mut buf = vec![in alloc; 7u8; room]?;
    let mut out = [0i16; 100];
    let of = ChannelOf { head, c: 0 };
    match channel(vault, "a.wav", of, 0, &mut buf, &mut out) {
        Ok(()) => Ok([0; 3]),
        Err(reason) => Ok(numbers_of(reason)),
    }
}

/// A head with more frames than there are: the same two numbers for each buffer.
#[test]
fn cut(rt: HostRuntime) -> Result<(), Fail> {
    for room in [64, 65, 65_536] {
        let mut vault = vault(rt.alloc(), &MONO, &[])?;
        assert!(rt; are_same(cut_with(rt.alloc(), &mut vault, room)?, [3, 200, 4]));
    }
    Ok(())
}

/// Frames that rise on the left and fall on the right.
fn ramp(alloc: Global, from: i16, to: i16) -> Result<Vec<Frame>, NoMemory> {
    let mut frames = Vec::new(alloc);
    for left in from..to {
        let right = left.wrapping_neg();
        frames.push(Frame { left, right })?;
    }
    Ok(frames)
}

/// Whether a sound of 100 frames is begun with a buffer of this length.
fn is_begun<V: Vault>(alloc: Global, vault: &mut V, room: usize) -> Result<bool, NoMemory> {
    if room < 64 {
        return Ok(false);
    }
    let mut buf = vec![in alloc; 7u8; room]?;
    Ok(start_wav(vault, "b.wav", 100, 8_000, &mut buf).is_ok())
}

/// Whether frames are appended to it.
fn are_appended<V: Vault>(
    alloc: Global,
    vault: &mut V,
    frames: &[Frame],
    room: usize,
) -> Result<bool, NoMemory> {
    if room < 64 {
        return Ok(false);
    }
    let mut buf = vec![in alloc; 7u8; room]?;
    Ok(append_frames(vault, "b.wav", frames, &mut buf).is_ok())
}

/// Whether it has these bytes and no more.
fn has_bytes<V: Vault>(alloc: Global, vault: &mut V, want: &[u8]) -> Result<bool, NoMemory> {
    let mut out = vec![in alloc; 7u8; want.len().saturating_add(1)]?;
    match vault.read_at("b.wav", 0, &mut out) {
        Ok(count) => {
            out.truncate(count);
            Ok(out.as_slice() == want)
        }
        Err(_) => Ok(false),
    }
}

/// Whether frames that are appended in two parts are the sound of these bytes.
fn is_written<V: Vault>(
    alloc: Global,
    vault: &mut V,
    parts: [&[Frame]; 2],
    want: &[u8],
    room: usize,
) -> Result<bool, NoMemory> {
    let [first, rest] = parts;
    Ok(
        is_begun(alloc, vault, room)?
            && are_appended(alloc, vault, first, room)?
            && are_appended(alloc, vault, rest, room)?
            && has_bytes(alloc, vault, want)?,
    )
}

#[test]
fn written_in_parts(rt: HostRuntime) -> Result<(), Fail> {
    let alloc = rt.alloc();
    let first = ramp(alloc, 0, 37)?;
    let rest = ramp(alloc, 37, 100)?;
    let Ok(want) = write(alloc, &ramp(alloc, 0, 100)?, 8_000) else {
        return Err(Fail::new("refused"));
    };
    for room in [64, 65, 65_536] {
        let mut vault = vault(alloc, &MONO, &[])?;
        assert!(rt;
            is_written(
                alloc,
                &mut vault,
                [first.as_slice(), rest.as_slice()],
                want.as_slice(),
                room
            )?
        );
    }
    Ok(())
}

/// What a head is refused with, where the call of this number fails.
fn fails_at(alloc: Global, call: u64) -> Result<u64, NoMemory> {
    let mut vault = vault(alloc, &MONO, &[call])?;
    Ok(head_refusal(&mut vault, "a.wav")[0])
}

/// Each call of the vault fails in turn: the size, the four reads of this head, and then none.
#[test]
fn each_call_fails(rt: HostRuntime) -> Result<(), Fail> {
    for call in 1..7u64 {
        let told = fails_at(rt.alloc(), call)?;
        assert!(rt; told == if call < 6 { 2 } else { 0 });
    }
    Ok(())
}
