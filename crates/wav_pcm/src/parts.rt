// Bytes of a sound of a vault: its RIFF header, and the head of a chunk.
ghost use Rattle.std.specs.Prelude.{◌≡◌, ◌≤◌, ◌+◌, ◌-◌, length, drop, min, IsTrue, IfOk, IfErr, OnOk};
ghost use Rattle.pcm_base.specs.Wave.{is_riff as says_riff};
ghost use Rattle.edit_ports.specs.Sounds.{sound_bytes};
ghost use Rattle.wav_pcm.specs.declared.fault.SoundFault.TheVariants as fault;
ghost use Rattle.wav_pcm.specs.Parts.{part, SoundCounted, IsChunk, IsShort, IsVaultAlone};

use super::bytes::u32_at;
use super::chunks::is_riff;
use super::fault::SoundFault;
use edit_ports::Vault;
use pcm_base::WavFault;

/// The name of a chunk, as far as it matters, and the size of its body.
#[derive(Clone, Copy)]
pub(crate) struct Chunk {
    pub(crate) is_data: bool,
    pub(crate) is_format: bool,
    pub(crate) size: u32,
}

/// Reads bytes of a sound from a place on, and answers how many there are, as many as fit or fewer at its end.
pub(crate) fn read_some<V: Vault>(
    vault: &mut V,
    name: &str,
    at: u64,
    buf: &mut [u8],
) -> Result<usize, SoundFault>
    ensures read { IsTrue (V.tells vault.old) → OnOk result (length buf.old
        ≤ length (sound_bytes (V.holds vault.old name.now)) - at
        → buf.new ≡ part at (length buf.old) (sound_bytes (V.holds vault.old name.now))) }
    ensures count { IsTrue (V.tells vault.old) → IfOk result (λ count.
        count ≡ min (length buf.old) (length (sound_bytes (V.holds vault.old name.now)) - at)) }
    ensures within { IfOk result (λ count. count ≤ length buf.old) }
    ensures failed { IfErr result (λ why. why ≡ fault.Vault) }
    ensures same { V.holds vault.new ≡ V.holds vault.old }
    ensures tells { V.tells vault.new ≡ V.tells vault.old }
    ensures faults { SoundCounted result (V.fault_count vault.old) (V.fault_count vault.new) }
{
    match vault.read_at(name, at, buf) {
        Ok(count) => Ok(count),
        Err(_) => Err(SoundFault::Vault),
    }
}

/// Fills `buf` with the sound's bytes from a place on. The sound has as many, or else it is Truncated.
pub(crate) fn read_part<V: Vault>(
    vault: &mut V,
    name: &str,
    at: u64,
    buf: &mut [u8],
) -> Result<(), SoundFault>
    requires there { IsTrue (V.tells vault.old)
        → at + length buf.old ≤ length (sound_bytes (V.holds vault.old name.now)) }
    ensures read { IsTrue (V.tells vault.old)
        → OnOk result (buf.new ≡ part at (length buf.old) (sound_bytes (V.holds vault.old name.now))) }
    ensures refused { IsTrue (V.tells vault.old) → IfErr result IsVaultAlone }
    ensures short { IfErr result IsShort }
    ensures same { V.holds vault.new ≡ V.holds vault.old }
    ensures tells { V.tells vault.new ≡ V.tells vault.old }
    ensures faults { SoundCounted result (V.fault_count vault.old) (V.fault_count vault.new) }
{
    let want = buf.len();
    match read_some(vault, name, at, buf) {
        Ok(have) if have < want => Err(SoundFault::BadWav {
            fault: WavFault::Truncated {
                want: want as u64,
                have: have as u64,
            },
        }),
        Ok(_) => Ok(()),
        Err(why) => Err(why),
    }
}

/// Whether the sound begins with a RIFF header of the form WAVE.
pub(crate) fn riff_at<V: Vault>(
    vault: &mut V,
    name: &str,
    size: u64,
    buf: &mut [u8],
) -> Result<bool, SoundFault>
    requires room { length buf.old ≡ 12 }
    requires size { IsTrue (V.tells vault.old) → length (sound_bytes (V.holds vault.old name.now)) ≡ size }
    ensures says { IsTrue (V.tells vault.old)
        → IfOk result (λ is. is ≡ says_riff (sound_bytes (V.holds vault.old name.now))) }
    ensures long { IfOk result (λ is. IsTrue is → 12 ≤ size) }
    ensures refused { IsTrue (V.tells vault.old) → IfErr result IsVaultAlone }
    ensures short { IfErr result IsShort }
    ensures same { V.holds vault.new ≡ V.holds vault.old }
    ensures tells { V.tells vault.new ≡ V.tells vault.old }
    ensures faults { SoundCounted result (V.fault_count vault.old) (V.fault_count vault.new) }
{
    if size < 12 {
        return Ok(false);
    }
    match read_part(vault, name, 0, buf) {
        Ok(()) => Ok(is_riff(buf)),
        Err(why) => Err(why),
    }
}

/// The chunk at a place.
pub(crate) fn chunk_at<V: Vault>(
    vault: &mut V,
    name: &str,
    at: u64,
    buf: &mut [u8],
) -> Result<Chunk, SoundFault>
    requires room { length buf.old ≡ 8 }
    requires there { IsTrue (V.tells vault.old) → at + 8 ≤ length (sound_bytes (V.holds vault.old name.now)) }
    ensures says { IsTrue (V.tells vault.old)
        → IfOk result (λ chunk. IsChunk chunk (drop at (sound_bytes (V.holds vault.old name.now)))) }
    ensures refused { IsTrue (V.tells vault.old) → IfErr result IsVaultAlone }
    ensures short { IfErr result IsShort }
    ensures same { V.holds vault.new ≡ V.holds vault.old }
    ensures tells { V.tells vault.new ≡ V.tells vault.old }
    ensures faults { SoundCounted result (V.fault_count vault.old) (V.fault_count vault.new) }
{
    match read_part(vault, name, at, buf) {
        Ok(()) => Ok(Chunk {
            is_data: &buf[..4] == b"data".as_slice(),
            is_format: &buf[..4] == b"fmt ".as_slice(),
            size: u32_at(buf, 4),
        }),
        Err(why) => Err(why),
    }
}
