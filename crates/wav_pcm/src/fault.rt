// Why a sound of a vault is not read or written.
ghost use Rattle.std.specs.Prelude.{◌≡◌};
ghost use Rattle.wav_pcm.specs.Parts.{sound_refusal};
ghost use Rattle.wav_pcm.specs.declared.fault.SoundFault.TheVariants as fault;

use pcm_base::{Refusal, WavFault};

/// Why a sound of a vault is not read or written.
#[derive(Clone, Copy, Debug, PartialEq, Eq)]
pub enum SoundFault {
    /// The vault has no sound of this name.
    NoFile,
    /// The vault failed. It has counted that.
    Vault,
    /// Its bytes are no sound that is read.
    BadWav { fault: WavFault },
    /// The number of frames, for which the sizes in the file would pass 32 bits.
    TooLong { frames: u64 },
}

impl From<WavFault> for SoundFault {
    ghost from_gives = { λ wrong why. why ≡ fault.BadWav wrong };

    fn from(fault: WavFault) -> SoundFault {
        SoundFault::BadWav { fault }
    }
}

impl From<SoundFault> for Refusal {
    ghost from_gives = { λ why reason. reason ≡ sound_refusal why };

    fn from(why: SoundFault) -> Refusal {
        match why {
            SoundFault::NoFile => Refusal::NoFile,
            SoundFault::Vault => Refusal::VaultFault,
            SoundFault::BadWav { fault } => Refusal::BadWav { fault },
            SoundFault::TooLong { frames } => Refusal::TooLong { frames },
        }
    }
}
