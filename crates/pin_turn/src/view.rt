//! A seat, and what it knows.
ghost use Rattle.std.specs.Prelude.{◌≡◌};
ghost use Rattle.pin_turn.specs.Views.{settled};

use atomic_table::Seat as Place;
use std::collections::LinkedList;

/// What a seat is doing. Between two calls each seat is `Resting`. No value of it is made.
pub enum Stage<E> {
    /// It was joined into another.
    Gone,
    Resting,
    /// It has drawn this number for a seat that it is about to split off.
    Splitting(u64),
    /// It took in the seat of the first number. The seat of the second had seen this list, the shorter of both.
    Joining(u64, u64, LinkedList<E>),
    /// It has the turn.
    Holding,
}

/// What a seat knows. No value of it is made. A clause reads an array as a list, of any length.
pub struct View<T, E> {
    /// The value with which the turn began. Each seat that is not gone has it.
    pub start: Option<T>,
    /// The seat's own number. The first seat has 0.
    pub number: u64,
    /// The entries of the turns so far, as far as the seat knows them.
    pub seen: LinkedList<E>,
    /// The places in that list of its own entries, and of those of the seats that were joined into it.
    pub mine: [u64; 0],
    /// The numbers of the seats that were split from it and are not joined yet.
    pub away: [u64; 0],
    /// It found that no turn is left.
    pub used_up: bool,
    pub stage: Stage<E>,
}

/// A thread's part in the turn. It has no bytes.
#[derive(Drop)]
pub struct Seat<T, E> {
    pub(crate) place: Place<Option<T>, View<T, E>>,
    ghost rests: { place ≡ settled place },
}

/// No turn is left: 2^62 were made.
#[derive(Clone, Copy, PartialEq, Eq, Debug)]
pub struct Spent;
