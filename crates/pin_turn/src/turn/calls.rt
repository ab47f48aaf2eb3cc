//! The public calls of a turn.
ghost use Rattle.std.specs.Prelude.{◌≡◌, ◌⊎◌, ℕ, ◌<◌, ◌^◌, true, [], ◌∷◌, ◌++◌, length, IfOk, IfErr, MatchResult};
ghost use Rattle.pin_turn.specs.Counts.{times, once_below};
ghost use Rattle.pin_turn.specs.Views.{first_view, joined};
ghost use Rattle.pin_turn.specs.Rule.{IsNewNumber};
ghost use Rattle.pin_turn.specs.Calls.{known, start_of, IsOf, Begins, FitsTurn, TookTurn, addition, called_as, meaning};

use super::Turn;
use crate::plays::{Compare, DrawNumber, SplitOff, TakeIn};
use crate::view::{Seat, Spent};
use crate::{AddsEntry, Stands};
use atomic_table::{Refused, Table};
use std::alloc::Global;
use std::marker::Brand;
use std::snapshot::Snapshot;
use std::sync::Wait;

impl<T: Stands> Turn<T> {
    /// A turn of the value, and its first seat, which has number 0 and has seen nothing.
    ///
    /// # Errors
    ///
    /// The value itself, where there is no memory for the word and the slot.
    pub fn new(alloc: Global, value: T) -> Result<(Turn<T>, Seat<T, T::Entry>), T>
        requires { T.stands value value [] }
        ensures ok { IfOk result (λ t. IsOf t.0 t.1
            × (start_of t.0 ≡ value)
            × (known t.1 ≡ first_view value)) }
        ensures err { IfErr result (λ x. x ≡ value) }
    {
        let about = Snapshot::of(&value);
        let mut slots = match Vec::with_capacity(alloc, 1) {
            Ok(slots) => slots,
            Err(_) => return Err(value),
        };
        slots.push_reserved(Some(value));
        match Table::new(alloc, &[0], slots, &about) {
            Ok((table, place)) => Ok((Turn { table }, Seat { place })),
            Err(refused) => {
                let Refused { mut slots } = refused;
                let value = slots.pop().unwrap().unwrap();
                slots.destroy_empty();
                Err(value)
            }
        }
    }

    /// Splits a new seat off, which has seen as much. Its number is away from this one until it is joined.
    /// No seat had that number before.
    pub fn split(&self, seat: &mut Seat<T, T::Entry>) -> Seat<T, T::Entry>
        requires { IsOf self.now seat.old }
        ensures kept { IsOf self.now seat.new
            × (known seat.new ≡ record (known seat.old) {
              away = (known seat.old).away ++ (known result).number ∷ [];
            }) }
        ensures new { IsOf self.now result
            × (known result ≡ record (known seat.old) {
              number = (known result).number;
              mine = [];
              away = [];
            }) }
        ensures number { IsNewNumber T.maker (known seat.old) (known result).number }
    {
        let shared = &self.table.shared;
        shared.load::<DrawNumber>(&mut seat.place, 0);
        let place = shared.split_seat::<SplitOff>(&mut seat.place);
        Seat { place }
    }

    /// Takes in a seat that was split from this one, and that has none away itself.
    /// Of what the two had seen one begins the other.
    pub fn join(&self, seat: &mut Seat<T, T::Entry>, other: Seat<T, T::Entry>)
        requires table { IsOf self.now seat.old × IsOf self.now other }
        requires away { (0 < times (known other).number (known seat.old).away)
            × ((known other).away ≡ []) }
        ensures kept { IsOf self.now seat.new
            × (known seat.new ≡ joined (known seat.old) (known other)) }
        ensures alike { Begins T.maker (known seat.old) (known other)
            ⊎ Begins T.maker (known other) (known seat.old) }
    {
        let Seat { place } = other;
        let shared = &self.table.shared;
        shared.join_seat::<TakeIn>(&mut seat.place, place);
        shared.load::<Compare>(&mut seat.place, 0);
    }

    /// Hands the value out, by the first seat, once all others are joined.
    /// That seat has seen every turn, and its `mine` has each of them once.
    pub fn close(self, seat: Seat<T, T::Entry>) -> T
        requires { IsOf self seat × ((known seat).number ≡ 0) × ((known seat).away ≡ []) }
        ensures stands { T.stands (start_of self) result (known seat).seen }
        ensures mine { (k : ℕ) → times k (known seat).mine
            ≡ once_below k (length (known seat).seen) }
        ensures spent { (known seat).used_up ≡ true → length (known seat).seen ≡ 2 ^ 62 }
    {
        let Turn { table } = self;
        let Seat { place } = seat;
        let mut closed = table.close_with(place);
        let value = closed.take(0).unwrap();
        closed.free();
        value
    }

    /// Waits for the turn, calls `f` once on the value as the last turn left it, and gives the turn back.
    ///
    /// # Errors
    ///
    /// `Spent` where 2^62 turns were made. `f` was not called then.
    pub fn with<W: Wait, R, F: FnMut(&mut T) -> R, J: AddsEntry<R, F, T::Entry>>(
        &self,
        rt: &W,
        seat: &mut Seat<T, T::Entry>,
        f: &mut F,
    ) -> Result<R, Spent>
        requires seat { IsOf self.now seat.old }
        requires fits { FitsTurn (meaning T.stands T.maker (start_of self.now)) (known seat.old)
            F.FnMut f.old J.added }
        ensures same { IsOf self.now seat.new }
        ensures turned { MatchResult result
            (λ r. TookTurn (meaning T.stands T.maker (start_of self.now)) F.FnMut (called_as f.old r f.new)
            (addition (known seat.old) (J.added r f.new) (known seat.new)))
            (λ _. (known seat.new ≡ record (known seat.old) { used_up = true })
            × (f.new ≡ f.old)) }
    {
        let Some(word) = self.take(rt, &mut seat.place) else {
            return Err(Spent);
        };
        let mut value = self.swap(&mut seat.place, None).unwrap();
        let reply = f(&mut value);
        let left = self.swap(&mut seat.place, Some(value));
        let None = left else { unreachable!() };
        self.give::<Brand, R, F>(&mut seat.place, word + 2, &reply, &*f);
        Ok(reply)
    }
}
