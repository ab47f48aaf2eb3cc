// The player's side of a session.
ghost use Rattle.std.specs.Prelude.{◌≡◌, IsSomeAnd, MatchResult, None, is_some};
ghost use Rattle.pin_turn.specs.Calls.{known};
ghost use Rattle.studio_seats.specs.Desks.{IsAt};
ghost use Rattle.desk_session.specs.Opening.{IsPinIn};
ghost use Rattle.desk_session.specs.Sides.{Lends, is_asked};

use super::outcome::PlayOutcome;
use super::side::Side;
use disk_model::Store;
use edit_ports::{Sink, Vault};
use session_threads::{LentSink, PlayRing, Playback, Played};
use studio_seats::{Desk, DeskGiver, DeskSeat};

/// Lends the seat and the speaker to a playback, where there is a pin, else they are kept.
pub fn lend_player<'a, 'b, S: Store, V: Vault, P: Sink>(
    desk: &'a Desk<S, V>,
    seat: DeskSeat<S, V>,
    speaker: &'b mut P,
    ring: Option<PlayRing>,
    pin: Side,
) -> Result<Playback<DeskGiver<'a, S, V>, LentSink<'b, P>>, (DeskSeat<S, V>, &'b mut P)>
    requires at { IsAt desk.now seat }
    requires made { IsPinIn pin (known seat).seen }
    requires ring { is_some ring ≡ is_asked pin }
    ensures { Lends pin
        (λ number w. (w.speaker.sink.ghost_name ≡ speaker.entry.ghost_name) × (w.speaker.sink.now ≡ speaker.old)
        × (w.giver.desk.now ≡ desk.now) × (known w.giver.seat ≡ known seat) × (w.giver.pin ≡ number)
        × (w.giver.refused ≡ None))
        (λ r. (known r.0 ≡ known seat) × IsAt desk.now r.0 × (r.1.ghost_name ≡ speaker.entry.ghost_name)
        × (r.1.now ≡ speaker.old))
        result }
{
    match (pin, ring) {
        (Side::Made { number }, Some(ring)) => {
            let giver = DeskGiver::new(desk, seat, number);
            Ok(Playback::new(ring, giver, LentSink { sink: speaker }))
        }
        _ => Err((seat, speaker)),
    }
}

/// The seat, the speaker, and what was played.
pub fn take_player<'a, 'b, S: Store, V: Vault, P: Sink>(
    played: Result<Played<DeskGiver<'a, S, V>, LentSink<'b, P>>, (DeskSeat<S, V>, &'b mut P)>,
) -> (DeskSeat<S, V>, &'b mut P, Option<PlayOutcome>)
    ensures { MatchResult played.entry
        (λ d. IsAt d.giver.desk.now result.0 × (known result.0 ≡ known d.giver.seat)
        × (result.1.ghost_name ≡ d.speaker.sink.ghost_name) × (result.1.now ≡ d.speaker.sink.now)
        × IsSomeAnd result.2 (λ h. (h.refused ≡ d.refused) × (h.frames ≡ d.frames) × (h.fault ≡ d.fault)))
        (λ r. (result.0 ≡ r.0) × (result.1.ghost_name ≡ r.1.ghost_name) × (result.1.now ≡ r.1.now)
        × (result.2 ≡ None)) }
{
    match played {
        Ok(played) => {
            let Played {
                giver,
                speaker: LentSink { sink },
                refused,
                frames,
                fault,
            } = played;
            let heard = PlayOutcome {
                refused,
                frames,
                fault,
            };
            (giver.into_seat(), sink, Some(heard))
        }
        Err((seat, speaker)) => (seat, speaker, None),
    }
}
