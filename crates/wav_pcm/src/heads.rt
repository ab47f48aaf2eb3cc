// Where the frames of a WAV file of a vault are, found without reading them.
ghost use Rattle.std.specs.Prelude.{◌≡◌, ◌≢◌, ◌≤◌, ◌<◌, ◌+◌, ◌-◌, ◌*◌, ◌^◌, ℕ, List, None, length, drop, take, codes};
ghost use Rattle.std.specs.Prelude.{IsTrue, IfOk, IfErr};
ghost use Rattle.std.specs.Str.{bytes_eq};
ghost use Rattle.pcm_base.specs.Wave.{format_of, seen_after, data_of, chunks_from, wav_of, padded};
ghost use Rattle.edit_ports.specs.Sounds.{sound_bytes};
ghost use Rattle.wav_pcm.specs.Wavs.{seen_in, format_in};
ghost use Rattle.wav_pcm.specs.Parts.{IsFound, SoundCounted, RefusalCounted, IsFor, IsOfSome, IsSomeReason};
ghost use Rattle.wav_pcm.specs.Heads.{HasShape, IsHeadFound, IsDataFound, IsSized, IsHeadOf, IsRefusedFor};
ghost use Rattle.pcm_base.specs.declared.wav.WavFault.TheVariants as wav;

use super::chunks::end;
use super::fault::SoundFault;
use super::format::read_format;
use super::parts::{Chunk, chunk_at, read_part, riff_at};
use super::shape::Format;
use edit_ports::Vault;
use pcm_base::{Refusal, WavFault};

/// What stands in front of the frames of a WAV file, and where they are.
#[derive(Clone, Copy, Debug, PartialEq, Eq)]
pub struct WavHead {
    /// Frames in a second, at least 1.
    pub rate: u32,
    /// 1 to 8.
    pub channels: u16,
    /// The place of the first frame's first byte.
    pub at: u64,
    /// How many whole frames there are.
    pub frames: u64,
}

/// The last bytes of a sound: the place of the first of them, and how many they are.
#[derive(Clone, Copy)]
struct Tail {
    at: u64,
    left: u64,
}

/// The format that the body of a chunk says, of whose sound a number of bytes is left. No more than 40 of them are
/// looked at.
fn format_at<V: Vault>(
    vault: &mut V,
    name: &str,
    tail: Tail,
    size: u32,
    buf: &mut [u8],
) -> Result<Format, SoundFault>
    requires room { 40 ≤ length buf.old }
    requires left { IsTrue (V.tells vault.old)
        → length (sound_bytes (V.holds vault.old name.now)) ≡ tail.at + tail.left }
    ensures says { IsTrue (V.tells vault.old)
        → IsFound format_in result (format_of (take size (drop tail.at (sound_bytes (V.holds vault.old name.now))))) }
    ensures reason { IfErr result IsSomeReason }
    ensures same { V.holds vault.new ≡ V.holds vault.old }
    ensures tells { V.tells vault.new ≡ V.tells vault.old }
    ensures faults { SoundCounted result (V.fault_count vault.old) (V.fault_count vault.new) }
{
    let count = tail.left.min(u64::from(size)).min(40) as usize;
    let body = &mut buf[..count];
    if let Err(why) = read_part(vault, name, tail.at, body) {
        return Err(why);
    }
    match read_format(body) {
        Ok(format) => Ok(format),
        Err(fault) => Err(SoundFault::from(fault)),
    }
}

/// The format that was seen after a chunk other than `data`: that of the first `fmt ` chunk.
fn see_at<V: Vault>(
    vault: &mut V,
    name: &str,
    seen: Option<Format>,
    chunk: Chunk,
    tail: Tail,
    buf: &mut [u8],
) -> Result<Option<Format>, SoundFault>
    requires room { 40 ≤ length buf.old }
    requires left { IsTrue (V.tells vault.old)
        → length (sound_bytes (V.holds vault.old name.now)) ≡ tail.at + tail.left }
    ensures says { IsTrue (V.tells vault.old)
        → (name_bytes : List ℕ) → chunk.is_format ≡ bytes_eq name_bytes (codes "fmt ") → IsFound seen_in result
        (seen_after (seen_in seen) name_bytes chunk.size (drop tail.at (sound_bytes (V.holds vault.old name.now)))) }
    ensures reason { IfErr result IsSomeReason }
    ensures same { V.holds vault.new ≡ V.holds vault.old }
    ensures tells { V.tells vault.new ≡ V.tells vault.old }
    ensures faults { SoundCounted result (V.fault_count vault.old) (V.fault_count vault.new) }
{
    match seen {
        Some(format) => Ok(Some(format)),
        None if chunk.is_format => {
            match format_at(vault, name, tail, chunk.size, buf) {
                Ok(format) => Ok(Some(format)),
                Err(why) => Err(why),
            }
        }
        None => Ok(None),
    }
}

/// How many bytes a `data` chunk of this size has, of those that are left. The size 0xFFFFFFFF means all of them.
fn data_size(size: u32, left: u64) -> Result<u64, WavFault>
    ensures sized { IfOk result (IsSized size left) }
    ensures refused { IfErr result (λ why. (size ≢ 0xFFFFFFFF) × (left < size) × (why ≡ wav.Truncated size left)) }
{
    if size == u32::MAX {
        return Ok(left);
    }
    let want = u64::from(size);
    if left < want {
        return Err(WavFault::Truncated { want, have: left });
    }
    Ok(want)
}

/// The head of a sound whose `data` chunk begins at a place, with the number of bytes left there.
fn head_at(seen: Option<Format>, size: u32, tail: Tail) -> Result<WavHead, WavFault>
    requires { tail.at + tail.left < 2 ^ 64 }
    ensures says { (rest : List ℕ) → length rest ≡ tail.left
        → IsDataFound tail.at rest result (data_of (seen_in seen) size rest) }
    ensures reason { IfErr result IsOfSome }
    ensures shape { IfOk result HasShape }
    ensures rate { IfOk result (λ head. 0 < head.rate) }
{
    let Some(format) = seen else {
        return Err(WavFault::NoFmt);
    };
    match data_size(size, tail.left) {
        Ok(count) => Ok(WavHead {
            rate: format.rate,
            channels: format.channels,
            at: tail.at,
            frames: count / (2 * u64::from(format.channels)),
        }),
        Err(fault) => Err(fault),
    }
}

/// How many bytes are left after a chunk of this size and its pad byte, which may be missing, of those that are left
/// from its body on.
fn left_after(left: u64, size: u32) -> u64
    ensures { result ≡ left - padded size }
{
    let size = u64::from(size);
    left.saturating_sub(size + size % 2)
}

/// The head of a sound, from its first chunk on.
fn find_head<V: Vault>(
    vault: &mut V,
    name: &str,
    size: u64,
    buf: &mut [u8],
) -> Result<WavHead, SoundFault>
    requires room { 40 ≤ length buf.old }
    requires riff { 12 ≤ size }
    requires size { IsTrue (V.tells vault.old) → length (sound_bytes (V.holds vault.old name.now)) ≡ size }
    ensures says { IsTrue (V.tells vault.old) → IsHeadFound (sound_bytes (V.holds vault.old name.now)) result
        (chunks_from None 0 (drop 12 (sound_bytes (V.holds vault.old name.now)))) }
    ensures reason { IfErr result IsSomeReason }
    ensures shape { IfOk result HasShape }
    ensures rate { IfOk result (λ head. 0 < head.rate) }
    ensures same { V.holds vault.new ≡ V.holds vault.old }
    ensures tells { V.tells vault.new ≡ V.tells vault.old }
    ensures faults { SoundCounted result (V.fault_count vault.old) (V.fault_count vault.new) }
{
    let mut seen = None;
    let mut left = size - 12;
    'chunks: while left >= 8 {
        let chunk = match chunk_at(vault, name, size - left, &mut buf[..8]) {
            Ok(chunk) => chunk,
            Err(why) => return Err(why),
        };
        left -= 8;
        let at = size - left;
        let tail = Tail { at, left };
        if chunk.is_data {
            return match head_at(seen, chunk.size, tail) {
                Ok(head) => Ok(head),
                Err(fault) => Err(SoundFault::from(fault)),
            };
        }
        match see_at(vault, name, seen, chunk, tail, buf) {
            Ok(next) => seen = next,
            Err(why) => return Err(why),
        }
        left = left_after(left, chunk.size);
    }
    Err(SoundFault::from(end(seen)))
}

/// The head of a sound with this number of bytes.
fn head_of<V: Vault>(
    vault: &mut V,
    name: &str,
    size: u64,
    buf: &mut [u8],
) -> Result<WavHead, SoundFault>
    requires room { 40 ≤ length buf.old }
    requires size { IsTrue (V.tells vault.old) → length (sound_bytes (V.holds vault.old name.now)) ≡ size }
    ensures says { IsTrue (V.tells vault.old) → IsHeadFound (sound_bytes (V.holds vault.old name.now)) result
        (wav_of (sound_bytes (V.holds vault.old name.now))) }
    ensures reason { IfErr result IsSomeReason }
    ensures shape { IfOk result HasShape }
    ensures rate { IfOk result (λ head. 0 < head.rate) }
    ensures same { V.holds vault.new ≡ V.holds vault.old }
    ensures tells { V.tells vault.new ≡ V.tells vault.old }
    ensures faults { SoundCounted result (V.fault_count vault.old) (V.fault_count vault.new) }
{
    match riff_at(vault, name, size, &mut buf[..12]) {
        Ok(true) => find_head(vault, name, size, buf),
        Ok(false) => Err(SoundFault::from(WavFault::NotRiff)),
        Err(why) => Err(why),
    }
}

/// As [`head`], with a reason of this crate.
pub fn sound_head<V: Vault>(
    vault: &mut V,
    name: &str,
    buf: &mut [u8],
) -> Result<WavHead, SoundFault>
    requires { 64 ≤ length buf.old }
    ensures found { IsTrue (V.tells vault.old) → IfOk result (IsHeadOf (V.holds vault.old name.now)) }
    ensures refused { IsTrue (V.tells vault.old) → IfErr result (IsRefusedFor (V.holds vault.old name.now)) }
    // Whatever the vault tells.
    ensures reason { IfErr result IsSomeReason }
    ensures shape { IfOk result HasShape }
    ensures rate { IfOk result (λ head. 0 < head.rate) }
    ensures same { V.holds vault.new ≡ V.holds vault.old }
    ensures tells { V.tells vault.new ≡ V.tells vault.old }
    ensures faults { SoundCounted result (V.fault_count vault.old) (V.fault_count vault.new) }
{
    match vault.size(name) {
        Ok(Some(size)) => head_of(vault, name, size, buf),
        Ok(None) => Err(SoundFault::NoFile),
        Err(_) => Err(SoundFault::Vault),
    }
}

/// Reads what stands in front of the frames of a WAV file of a vault, and where they are, as [`read`](super::read)
/// reads a whole file. The chunks are walked: of each the first 8 bytes are read, and of the first `fmt ` chunk at most
/// 40 more. It takes no memory. `buf` has at least 64 bytes. Errors: NoFile, BadWav, VaultFault.
pub fn head<V: Vault>(vault: &mut V, name: &str, buf: &mut [u8]) -> Result<WavHead, Refusal>
    requires { 64 ≤ length buf.old }
    // The frames that are found are the sound that the bytes say.
    ensures found { IsTrue (V.tells vault.old) → IfOk result (IsHeadOf (V.holds vault.old name.now)) }
    // NoFile comes for an absent sound, and BadWav with what the bytes say.
    ensures refused { IsTrue (V.tells vault.old) → IfErr result (IsFor (IsRefusedFor (V.holds vault.old name.now))) }
    // Whatever the vault tells, the reason is that of some sound, or of one that is cut short.
    ensures reason { IfErr result (IsFor IsSomeReason) }
    ensures shape { IfOk result HasShape }
    ensures rate { IfOk result (λ head. 0 < head.rate) }
    ensures same { V.holds vault.new ≡ V.holds vault.old }
    ensures tells { V.tells vault.new ≡ V.tells vault.old }
    ensures faults { RefusalCounted result (V.fault_count vault.old) (V.fault_count vault.new) }
{
    match sound_head(vault, name, buf) {
        Ok(head) => Ok(head),
        Err(why) => Err(Refusal::from(why)),
    }
}
