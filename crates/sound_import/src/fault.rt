// Why a sound is not taken.
ghost use Rattle.std.specs.Prelude.{◌≡◌};
ghost use Rattle.sound_import.specs.Imported.{import_refusal};

use pcm_base::Refusal;
use wav_pcm::SoundFault;

/// Why a sound is not taken.
#[derive(Clone, Copy, Debug, PartialEq, Eq)]
pub enum ImportFault {
    /// It is absent, the vault failed, or its bytes are no sound that is read.
    Sound { fault: SoundFault },
    /// It has `have` frames in a second, and `want` are wanted.
    RateDiffers { have: u32, want: u32 },
}

impl From<ImportFault> for Refusal {
    ghost from_gives = { λ why reason. reason ≡ import_refusal why };

    fn from(why: ImportFault) -> Refusal {
        match why {
            ImportFault::Sound { fault } => Refusal::from(fault),
            ImportFault::RateDiffers { have, want } => Refusal::RateDiffers { have, want },
        }
    }
}
