// A sound of a vault, found without reading its samples.
ghost use Rattle.std.specs.Prelude.{◌≡◌, ◌≢◌, ◌⊎◌, ◌≤◌, ◌<◌, ℕ, length, IsTrue, IfOk, IfErr, Option, List};
ghost use Rattle.pcm_base.specs.declared.wav.WavFault.TheVariants.{Truncated};
ghost use Rattle.wav_pcm.specs.declared.fault.SoundFault.TheVariants.{BadWav};
ghost use Rattle.wav_pcm.specs.Heads.{HasShape, IsHeadOf};
ghost use Rattle.sound_import.specs.declared.fault.ImportFault.TheVariants as fault;
ghost use Rattle.sound_import.specs.Imported.{IsRefused, IsCutShort, ImportCounted};

use super::fault::ImportFault;
use edit_ports::Vault;
use wav_pcm::{WavHead, sound_head};

/// Finds the frames of a WAV file of this rate. What stands before them is read by `buf`, which has at least 64 bytes.
pub fn find_sound<V: Vault>(
    vault: &mut V,
    name: &str,
    rate: u32,
    buf: &mut [u8],
) -> Result<WavHead, ImportFault>
    requires { 64 ≤ length buf.old }
    ensures found { IsTrue (V.tells vault.old) → IfOk result (IsHeadOf (V.holds vault.old name.now)) }
    ensures rate { IfOk result (λ head. head.rate ≡ rate) }
    ensures some { IfOk result (λ head. 0 < head.rate) }
    ensures shape { IfOk result HasShape }
    // Each reason is the first that the model has for these bytes at this rate, in any project.
    ensures refused { IsTrue (V.tells vault.old) → IfErr result (IsRefused (V.holds vault.old name.now) rate) }
    // Whatever the vault tells, also where it gives other than it said: a reason is that of some sound, or of one that
    // is cut short.
    ensures reason { IfErr result (λ why. IsCutShort why ⊎ ((sound : Option (List ℕ)) × IsRefused sound rate why)) }
    ensures short { (want have : ℕ)
        → IfErr result (λ why. why ≡ fault.Sound (BadWav (Truncated want have)) → have < want) }
    ensures same { V.holds vault.new ≡ V.holds vault.old }
    ensures tells { V.tells vault.new ≡ V.tells vault.old }
    ensures faults { ImportCounted result (V.fault_count vault.old) (V.fault_count vault.new) }
{
    match sound_head(vault, name, buf) {
        Ok(head) => at_rate(head, rate),
        Err(fault) => Err(ImportFault::Sound { fault }),
    }
}

/// The head, where it has the rate that is wanted.
fn at_rate(head: WavHead, rate: u32) -> Result<WavHead, ImportFault>
    ensures taken { IfOk result (λ taken. (taken ≡ head) × (head.rate ≡ rate)) }
    ensures refused { IfErr result (λ why. (why ≡ fault.RateDiffers head.rate rate) × (head.rate ≢ rate)) }
    ensures fits { IfErr result (λ _. head.rate < 4294967296) }
{
    if head.rate != rate {
        return Err(ImportFault::RateDiffers {
            have: head.rate,
            want: rate,
        });
    }
    Ok(head)
}
