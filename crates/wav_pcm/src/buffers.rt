// A WAV file of a vault, written a buffer at a time.
ghost use Rattle.std.specs.Prelude.{◌≡◌, ◌≤◌, ◌<◌, ◌+◌, ◌*◌, ◌++◌, ℕ, List, length, min, Some, Err, IsTrue, OnOk};
ghost use Rattle.std.specs.Prelude.{OnErr, IfErr};
ghost use Rattle.pcm_base.specs.declared.refusal.Refusal.TheVariants as refusal;
ghost use Rattle.pcm_base.specs.declared.sound.Frame.{Frame as OneFrame};
ghost use Rattle.pcm_base.specs.Causes.{HasCause};
ghost use Rattle.pcm_base.specs.Outside.{SameElsewhere};
ghost use Rattle.pcm_base.specs.Recordings.{frame_bytes};
ghost use Rattle.pcm_base.specs.Wave.{wav_text};
ghost use Rattle.edit_ports.specs.Sounds.{sound_bytes, MayHaveGrown};
ghost use Rattle.wav_pcm.specs.Wavs.{FitsFile, wav_head};
ghost use Rattle.wav_pcm.specs.Parts.{SoundCounted, RefusalCounted, IsFor};
ghost use Rattle.wav_pcm.specs.declared.fault.SoundFault.TheVariants as fault;
ghost use Rattle.wav_pcm.specs.Written.{MayBegin, IsNotStarted, IsThere};

use super::fault::SoundFault;
use super::writing::{MAX_FRAMES, write_frames, write_head};
use edit_ports::Vault;
use pcm_base::{Failed, Frame, Refusal};

/// Makes the sound of a vault hold what stands before the first of this number of frames. `rate` is in frames a second,
/// `buf` has at least 44 bytes. It takes no memory.
pub fn write_start<V: Vault>(
    vault: &mut V,
    name: &str,
    frames: u32,
    rate: u32,
    buf: &mut [u8],
) -> Result<(), Failed>
    requires room { 44 ≤ length buf.old }
    requires few { FitsFile frames }
    ensures started { IsTrue (V.tells vault.old)
        → OnOk result (V.holds vault.new name.now ≡ Some (wav_head frames rate)) }
    ensures failed { IsTrue (V.tells vault.old)
        → OnErr result (MayBegin (wav_head frames rate) (V.holds vault.old name.now) (V.holds vault.new name.now)) }
    ensures others { IsTrue (V.tells vault.old) → SameElsewhere name.now (V.holds vault.old) (V.holds vault.new) }
    ensures tells { V.tells vault.new ≡ V.tells vault.old }
    ensures cause { HasCause (V.fault_count vault.old) (V.fault_count vault.new) result }
{
    write_head(frames, rate, &mut buf[..44]);
    vault.start(name)?;
    vault.append(name, &buf[..44])
}

// As `start_wav`, with a reason of this crate.
fn start_frames<V: Vault>(
    vault: &mut V,
    name: &str,
    frames: u64,
    rate: u32,
    buf: &mut [u8],
) -> Result<(), SoundFault>
    requires { 64 ≤ length buf.old }
    ensures started { IsTrue (V.tells vault.old)
        → OnOk result (V.holds vault.new name.now ≡ Some (wav_head frames rate)) }
    ensures fits { OnOk result (FitsFile frames) }
    ensures refused { IfErr result (IsNotStarted frames) }
    ensures long { 4294967295 < 36 + 4 * frames → (result ≡ Err (fault.TooLong frames)) × (vault.new ≡ vault.old) }
    ensures failed { IsTrue (V.tells vault.old)
        → OnErr result (MayBegin (wav_head frames rate) (V.holds vault.old name.now) (V.holds vault.new name.now)) }
    ensures others { IsTrue (V.tells vault.old) → SameElsewhere name.now (V.holds vault.old) (V.holds vault.new) }
    ensures tells { V.tells vault.new ≡ V.tells vault.old }
    ensures faults { SoundCounted result (V.fault_count vault.old) (V.fault_count vault.new) }
{
    if frames > MAX_FRAMES as u64 {
        return Err(SoundFault::TooLong { frames });
    }
    match write_start(vault, name, frames as u32, rate, buf) {
        Ok(()) => Ok(()),
        Err(_) => Err(SoundFault::Vault),
    }
}

/// Makes the sound of a vault the front of a WAV file of this number of frames, as [`write`](super::write) writes it:
/// all that stands before the first frame. `rate` is in frames a second, `buf` has at least 64 bytes. TooLong is tested
/// before anything is written. It takes no memory. Errors: TooLong, VaultFault. After VaultFault the sound is as it
/// was, or holds the first of these bytes.
pub fn start_wav<V: Vault>(
    vault: &mut V,
    name: &str,
    frames: u64,
    rate: u32,
    buf: &mut [u8],
) -> Result<(), Refusal>
    requires { 64 ≤ length buf.old }
    ensures started { IsTrue (V.tells vault.old)
        → OnOk result (V.holds vault.new name.now ≡ Some (wav_head frames rate)) }
    ensures fits { OnOk result (FitsFile frames) }
    ensures refused { IfErr result (IsFor (IsNotStarted frames)) }
    ensures long { 4294967295 < 36 + 4 * frames → (result ≡ Err (refusal.TooLong frames)) × (vault.new ≡ vault.old) }
    ensures failed { IsTrue (V.tells vault.old)
        → OnErr result (MayBegin (wav_head frames rate) (V.holds vault.old name.now) (V.holds vault.new name.now)) }
    ensures others { IsTrue (V.tells vault.old) → SameElsewhere name.now (V.holds vault.old) (V.holds vault.new) }
    ensures tells { V.tells vault.new ≡ V.tells vault.old }
    ensures faults { RefusalCounted result (V.fault_count vault.old) (V.fault_count vault.new) }
{
    match start_frames(vault, name, frames, rate, buf) {
        Ok(()) => Ok(()),
        Err(why) => Err(Refusal::from(why)),
    }
}

/// Appends frames, whose bytes fit into `buf`, to a sound of a vault. It takes no memory.
pub fn append_buffer<V: Vault>(
    vault: &mut V,
    name: &str,
    frames: &[Frame],
    buf: &mut [u8],
) -> Result<(), Failed>
    requires room { 4 * length frames.now ≤ length buf.old }
    ensures appended { IsTrue (V.tells vault.old)
        → OnOk result (V.holds vault.new name.now ≡ Some (sound_bytes (V.holds vault.old name.now)
        ++ frame_bytes frames.now)) }
    ensures failed { IsTrue (V.tells vault.old)
        → OnErr result (MayHaveGrown (frame_bytes frames.now) (V.holds vault.old name.now)
        (V.holds vault.new name.now)) }
    ensures others { IsTrue (V.tells vault.old) → SameElsewhere name.now (V.holds vault.old) (V.holds vault.new) }
    ensures tells { V.tells vault.new ≡ V.tells vault.old }
    ensures cause { HasCause (V.fault_count vault.old) (V.fault_count vault.new) result }
{
    let room = 4 * frames.len();
    write_frames(frames, &mut buf[..room]);
    vault.append(name, &buf[..room])
}

// As `append_frames`, with a fault of the vault.
fn append_all<V: Vault>(
    vault: &mut V,
    name: &str,
    frames: &[Frame],
    buf: &mut [u8],
) -> Result<(), Failed>
    requires { 64 ≤ length buf.old }
    ensures appended { IsTrue (V.tells vault.old) → IsThere (V.holds vault.old name.now)
        → OnOk result (V.holds vault.new name.now ≡ Some (sound_bytes (V.holds vault.old name.now)
        ++ frame_bytes frames.now)) }
    ensures failed { IsTrue (V.tells vault.old) → IsThere (V.holds vault.old name.now)
        → OnErr result (MayHaveGrown (frame_bytes frames.now) (V.holds vault.old name.now)
        (V.holds vault.new name.now)) }
    ensures others { IsTrue (V.tells vault.old) → SameElsewhere name.now (V.holds vault.old) (V.holds vault.new) }
    ensures tells { V.tells vault.new ≡ V.tells vault.old }
    ensures cause { HasCause (V.fault_count vault.old) (V.fault_count vault.new) result }
{
    let room = buf.len() / 4;
    let all = frames.len();
    let mut done = 0;
    'buffers: while done < all {
        let count = room.min(all - done);
        match append_buffer(vault, name, &frames[done..done + count], buf) {
            Ok(()) => {}
            Err(failed) => return Err(failed),
        }
        done += count;
    }
    Ok(())
}

/// Appends frames to a sound of a vault, as they stand in a WAV file, a buffer at a time: as many as fit into `buf`.
/// `buf` has at least 64 bytes. It takes no memory. Its only error is VaultFault. After it a part of their bytes, from
/// the front, may have been appended.
pub fn append_frames<V: Vault>(
    vault: &mut V,
    name: &str,
    frames: &[Frame],
    buf: &mut [u8],
) -> Result<(), Refusal>
    requires { 64 ≤ length buf.old }
    ensures appended { IsTrue (V.tells vault.old) → IsThere (V.holds vault.old name.now)
        → OnOk result (V.holds vault.new name.now ≡ Some (sound_bytes (V.holds vault.old name.now)
        ++ frame_bytes frames.now)) }
    // After the front of a file and its first frames the last ones make the file whole.
    ensures text { IsTrue (V.tells vault.old) → (before : List OneFrame) (rate : ℕ)
        → V.holds vault.old name.now
        ≡ Some (wav_head (length before + length frames.now) rate ++ frame_bytes before)
        → OnOk result (V.holds vault.new name.now ≡ Some (wav_text (before ++ frames.now) rate)) }
    ensures refused { IfErr result (λ reason. reason ≡ refusal.VaultFault) }
    ensures failed { IsTrue (V.tells vault.old) → IsThere (V.holds vault.old name.now)
        → OnErr result (MayHaveGrown (frame_bytes frames.now) (V.holds vault.old name.now)
        (V.holds vault.new name.now)) }
    ensures others { IsTrue (V.tells vault.old) → SameElsewhere name.now (V.holds vault.old) (V.holds vault.new) }
    ensures tells { V.tells vault.new ≡ V.tells vault.old }
    ensures cause { HasCause (V.fault_count vault.old) (V.fault_count vault.new) result }
{
    match append_all(vault, name, frames, buf) {
        Ok(()) => Ok(()),
        Err(_) => Err(Refusal::VaultFault),
    }
}
