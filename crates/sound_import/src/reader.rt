// The samples of a sound of a vault, brought a buffer at a time.
ghost use Rattle.std.specs.Prelude.{◌≡◌, ◌≤◌, ◌<◌, ◌+◌, ◌*◌, length, IsTrue, OnOk, IfErr};
ghost use Rattle.pcm_base.specs.Pieces.{stretch};
ghost use Rattle.edit_ports.specs.Sounds.{sound_bytes};
ghost use Rattle.wav_pcm.specs.Parts.{IsShort, IsVaultAlone, SoundCounted};
ghost use Rattle.wav_pcm.specs.Heads.{HasShape, FitSamples};
ghost use Rattle.sound_import.specs.Reading.{AreThere, fault_from, sample_at};

use block_writer::{BringFault, Brings};
use edit_ports::Vault;
use pcm_base::WavFault;
use wav_pcm::{ChannelOf, SoundFault, WavHead, read_channel};

/// The samples of a sound of a vault: those of each channel after those of the one before. The head says where they
/// are.
#[derive(Drop)]
pub struct SoundReader<'a, V> {
    vault: &'a mut V,
    name: &'a str,
    head: WavHead,
    ghost shape: { HasShape head },
}

/// Why samples of a sound did not come.
fn bring_fault(why: SoundFault) -> BringFault
    requires { IsShort why }
    ensures { result ≡ fault_from why }
{
    match why {
        SoundFault::BadWav {
            fault: WavFault::Truncated { want, have },
        } => BringFault::Short { want, have },
        _ => BringFault::Vault,
    }
}

/// Reads samples of the sound from a place on, channel by channel: each stretch of a channel by one call.
fn read_samples<V: Vault>(
    vault: &mut V,
    name: &str,
    head: &WavHead,
    from: u64,
    out: &mut [i16],
    buf: &mut [u8],
) -> Result<(), SoundFault>
    requires shape { HasShape head.now }
    requires within { from + length out.old ≤ head.now.channels * head.now.frames }
    requires room { 64 ≤ length buf.old }
    ensures read { IsTrue (V.tells vault.old) → AreThere head.now (sound_bytes (V.holds vault.old name.now))
        → OnOk result (out.new
        ≡ stretch (sample_at head.now (sound_bytes (V.holds vault.old name.now))) from (length out.old)) }
    ensures fit { OnOk result (FitSamples out.new) }
    ensures short { IfErr result IsShort }
    ensures whole { IsTrue (V.tells vault.old) → AreThere head.now (sound_bytes (V.holds vault.old name.now))
        → IfErr result IsVaultAlone }
    ensures same { V.holds vault.new ≡ V.holds vault.old }
    ensures tells { V.tells vault.new ≡ V.tells vault.old }
    ensures faults { SoundCounted result (V.fault_count vault.old) (V.fault_count vault.new) }
{
    let all = out.len();
    let mut done = 0;
    'channels: while done < all {
        let place = from + done as u64;
        let c = place / head.frames;
        let at = place % head.frames;
        let count = (head.frames - at).min((all - done) as u64) as usize;
        let part = &mut out[done..done + count];
        let of = ChannelOf {
            head: *head,
            c: c as u16,
        };
        if let Err(why) = read_channel(vault, name, of, at, buf, part) {
            return Err(why);
        }
        done += count;
    }
    Ok(())
}

impl<'a, V: Vault> Brings for SoundReader<'a, V> {
    ghost use Rattle.sound_import.specs.Reading.{brought_from};

    ghost brings = { λ r. brought_from (V.tells r.vault.now) (V.holds r.vault.now) r.name.now r.head };

    ghost fault_count = { λ r. V.fault_count r.vault.now };

    // It reads by the same reference still, and the vault tells its bytes where it did.
    ghost follows = { λ first r. (r.vault.ghost_name ≡ first.vault.ghost_name)
        × (V.tells r.vault.now ≡ V.tells first.vault.now) };

    fn fill(&mut self, from: u64, out: &mut [i16], buf: &mut [u8]) -> Result<(), BringFault> {
        match read_samples(self.vault, self.name, &self.head, from, out, buf) {
            Ok(()) => Ok(()),
            Err(why) => Err(bring_fault(why)),
        }
    }
}

impl<'a, V: Vault> SoundReader<'a, V> {
    ghost use Rattle.sound_import.specs.Reading.{brought_from};

    /// A reader of the sound of this name, whose samples are where the head says.
    pub fn new(vault: &'a mut V, name: &'a str, head: WavHead) -> SoundReader<'a, V>
        requires { HasShape head }
        ensures of { result.vault.ghost_name ≡ vault.entry.ghost_name }
        ensures vault { result.vault.now ≡ vault.old }
        ensures name { result.name.now ≡ name.now }
        ensures head { result.head ≡ head }
    {
        SoundReader { vault, name, head }
    }
}
