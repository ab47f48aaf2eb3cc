// Seats are made and joined, and the studio is handed out.
ghost use Rattle.std.specs.Prelude.{◌≡◌, ◌⊎◌, ℕ, ◌<◌, true, [], ◌∷◌, ◌++◌, length, IfOk, IfErr};
ghost use Rattle.pcm_base.specs.declared.limits.TheConstants.{COUNTER_LIMIT};
ghost use Rattle.pin_turn.specs.Calls.{known, Begins};
ghost use Rattle.pin_turn.specs.Counts.{times, once_below};
ghost use Rattle.pin_turn.specs.Rule.{IsNewNumber};
ghost use Rattle.pin_turn.specs.Views.{joined};
ghost use Rattle.editor_core.specs.Core.{core_of};
ghost use Rattle.editor_state.specs.Studios.{IsStudio};
ghost use Rattle.studio_seats.specs.Deeds.{actor_of};
ghost use Rattle.studio_seats.specs.Desks.{IsAt, IsFirst, start_at};
ghost use Rattle.studio_seats.specs.Stands.{StandsFor, origin};

use super::Desk;
use crate::held::{DeskSeat, Held};
use disk_model::Store;
use edit_ports::Vault;
use editor_core::Studio;
use pin_turn::Turn;
use std::alloc::Global;
use std::marker::PhantomData;

impl<S: Store, V: Vault> Desk<S, V> {
    /// A desk with this studio, and its first seat.
    ///
    /// # Errors
    ///
    /// The studio itself, where there is no memory for the turn.
    pub fn new(alloc: Global, studio: Studio<S>) -> Result<(Desk<S, V>, DeskSeat<S, V>), Studio<S>>
        requires { IsStudio S.Store (core_of studio) }
        ensures ok { IfOk result (λ d. IsAt d.0 d.1 × (start_at d.0 ≡ core_of studio) × IsFirst (known d.1)) }
        ensures err { IfErr result (λ s. s ≡ studio) }
    {
        let rate = studio.facts().rate;
        let held = Held {
            studio,
            vaults: PhantomData,
        };
        match Turn::new(alloc, held) {
            Ok((turn, seat)) => Ok((Desk { turn, rate }, seat)),
            Err(Held { studio, vaults: _ }) => Err(studio),
        }
    }

    /// How many frames there are in a second. It takes no turn.
    pub fn rate(&self) -> u32
        ensures { result ≡ (start_at self.now).rate }
    {
        self.rate
    }

    /// Splits a new seat off, which has seen as much.
    pub fn split(&self, seat: &mut DeskSeat<S, V>) -> DeskSeat<S, V>
        requires { IsAt self.now seat.old }
        ensures kept { IsAt self.now seat.new × (known seat.new ≡ record (known seat.old) {
          away = (known seat.old).away ++ (known result).number ∷ [];
        }) }
        ensures new { IsAt self.now result × (known result ≡ record (known seat.old) {
          number = (known result).number;
          mine = [];
          away = [];
        }) }
        ensures number { IsNewNumber actor_of (known seat.old) (known result).number }
    {
        self.turn.split(seat)
    }

    /// Takes in a seat that was split from this one, and that has none away itself.
    pub fn join(&self, seat: &mut DeskSeat<S, V>, other: DeskSeat<S, V>)
        requires desk { IsAt self.now seat.old × IsAt self.now other }
        requires away { (0 < times (known other).number (known seat.old).away) × ((known other).away ≡ []) }
        ensures kept { IsAt self.now seat.new × (known seat.new ≡ joined (known seat.old) (known other)) }
        ensures alike { Begins actor_of (known seat.old) (known other)
            ⊎ Begins actor_of (known other) (known seat.old) }
    {
        self.turn.join(seat, other);
    }

    /// Hands the studio out, by the first seat, once all others are joined.
    pub fn close(self, seat: DeskSeat<S, V>) -> Studio<S>
        requires { IsAt self seat × ((known seat).number ≡ 0) × ((known seat).away ≡ []) }
        ensures stands { StandsFor (origin S.Store V.Vault (start_at self)) (core_of result) (known seat).seen }
        ensures mine { (k : ℕ) → times k (known seat).mine ≡ once_below k (length (known seat).seen) }
        ensures spent { (known seat).used_up ≡ true → length (known seat).seen ≡ COUNTER_LIMIT }
    {
        let Desk { turn, rate: _ } = self;
        let Held { studio, vaults: _ } = turn.close(seat);
        studio
    }
}
