// A recording or a playback of a session.
ghost use Rattle.std.specs.Prelude.{◌≡◌, true};
ghost use Rattle.desk_session.specs.Sides.{is_asked, made_by, side_number};

use pcm_base::Refusal;

/// A recording or a playback, by what was made for it before the script.
#[derive(Clone, Copy, Debug)]
pub enum Side {
    /// It was not asked for.
    NotAsked,
    /// Its track or its pin was refused.
    Refused { reason: Refusal },
    /// The number of a recording is the commit number of its new track, and that of a playback is its pin.
    Made { number: u64 },
}

impl Side {
    /// The number of one that was made.
    pub fn number(self) -> Option<u64>
        ensures { result ≡ side_number self }
    {
        match self {
            Side::Made { number } => Some(number),
            Side::NotAsked | Side::Refused { .. } => None,
        }
    }

    // One that was asked for, by what the call for its track or its pin returned.
    pub(crate) fn made_by(answer: Result<u64, Refusal>) -> Side
        ensures is { result ≡ made_by answer }
        ensures asked { is_asked result ≡ true }
    {
        match answer {
            Ok(number) => Side::Made { number },
            Err(reason) => Side::Refused { reason },
        }
    }
}
