// What a seat says that found no turn left.
ghost use Rattle.std.specs.Prelude.{◌≡◌, Err, MatchResult};
ghost use Rattle.studio_seats.specs.Desks.{spent};

use pcm_base::{COUNTER_LIMIT, Refusal, Said};
use pin_turn::Spent;

/// What was said in the turn, or that none was left.
pub(crate) fn said_by<T>(turn: Result<Said<T>, Spent>) -> Said<T>
    ensures { MatchResult turn (λ said. result ≡ said) (λ _. (result.at ≡ 0) × (result.what ≡ Err spent)) }
{
    match turn {
        Ok(said) => said,
        Err(Spent) => Said {
            at: 0,
            what: Err(Refusal::Spent {
                turns: COUNTER_LIMIT,
            }),
        },
    }
}
