// The recorder's side of a session.
ghost use Rattle.std.specs.Prelude.{◌≡◌, IsSomeAnd, MatchResult, None, is_some, true};
ghost use Rattle.pin_turn.specs.Calls.{known};
ghost use Rattle.studio_seats.specs.Desks.{IsAt, start_at};
ghost use Rattle.studio_seats.specs.Recording.{FreesTo};
ghost use Rattle.desk_session.specs.Opening.{IsTagTo, number_seen};
ghost use Rattle.desk_session.specs.Sides.{Lends, is_asked};

use super::outcome::RecordOutcome;
use super::side::Side;
use disk_model::Store;
use edit_ports::{Source, Vault};
use session_threads::{LentSource, RecordRing, Recorded, Recording};
use std::sync::Wait;
use studio_seats::{Desk, DeskSeat, DeskTaker};

/// Lends the seat and the microphone to a recording, where there is a track, else they are kept.
pub fn lend_recorder<'a, 'b, S: Store, V: Vault, M: Source>(
    desk: &'a Desk<S, V>,
    seat: DeskSeat<S, V>,
    mic: &'b mut M,
    ring: Option<RecordRing>,
    track: u64,
    recording: Side,
) -> Result<Recording<LentSource<'b, M>, DeskTaker<'a, S, V>>, (DeskSeat<S, V>, &'b mut M)>
    requires at { IsAt desk.now seat }
    requires tag { IsTagTo recording (number_seen (start_at desk.now) (known seat)) }
    requires ring { is_some ring ≡ is_asked recording }
    ensures { Lends recording
        (λ tag w. (w.mic.source.ghost_name ≡ mic.entry.ghost_name) × (w.mic.source.now ≡ mic.old)
        × (w.taker.desk.now ≡ desk.now) × (known w.taker.seat ≡ known seat) × (w.taker.track ≡ track)
        × (w.taker.tag ≡ tag) × (w.taker.refused ≡ None) × (w.taker.since ≡ 0))
        (λ r. (known r.0 ≡ known seat) × IsAt desk.now r.0 × (r.1.ghost_name ≡ mic.entry.ghost_name)
        × (r.1.now ≡ mic.old))
        result }
{
    match (recording, ring) {
        (Side::Made { number: tag }, Some(ring)) => {
            let taker = DeskTaker::new(desk, seat, track, tag);
            Ok(Recording::new(ring, LentSource { source: mic }, taker))
        }
        _ => Err((seat, mic)),
    }
}

/// The seat, after it freed what its last pieces replaced, the microphone, and what was recorded.
pub fn take_recorder<'a, 'b, R: Wait, S: Store, V: Vault, M: Source>(
    rt: &R,
    recorded: Result<Recorded<LentSource<'b, M>, DeskTaker<'a, S, V>>, (DeskSeat<S, V>, &'b mut M)>,
) -> (DeskSeat<S, V>, &'b mut M, Option<RecordOutcome>)
    ensures { MatchResult recorded.entry
        (λ d. IsAt d.taker.desk.now result.0
        × FreesTo true d.taker.since (known d.taker.seat) 0 (known result.0)
        × (result.1.ghost_name ≡ d.mic.source.ghost_name) × (result.1.now ≡ d.mic.source.now)
        × IsSomeAnd result.2 (λ k. (k.end ≡ d.end) × (k.numbers ≡ d.numbers) × (k.samples ≡ d.samples)
        × (k.refused ≡ d.refused)))
        (λ r. (result.0 ≡ r.0) × (result.1.ghost_name ≡ r.1.ghost_name) × (result.1.now ≡ r.1.now)
        × (result.2 ≡ None)) }
{
    match recorded {
        Ok(recorded) => {
            let Recorded {
                mic: LentSource { source },
                taker,
                end,
                numbers,
                samples,
                refused,
            } = recorded;
            let kept = RecordOutcome {
                end,
                numbers,
                samples,
                refused,
            };
            (taker.finish(rt), source, Some(kept))
        }
        Err((seat, mic)) => (seat, mic, None),
    }
}
