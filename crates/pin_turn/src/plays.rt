//! The rule of the table, and what each step on it tells its caller. Each kind of step is a type of its own, with
//! nothing in it.
ghost use Rattle.std.specs.Prelude.{List, []};
ghost use Rattle.pin_turn.specs.Views.{first_view, gone_view, new_view, rested, hearing};
ghost use Rattle.pin_turn.specs.Rule.{TurnRule, looked, took, gave, drew_number, compared};

use crate::Stands;
use crate::view::View;
use atomic_table::{Join, Play, Split, TableRule};
use std::marker::{Brand, PhantomData};
use std::snapshot::Snapshot;

/// What holds between any two steps.
pub struct Rule;

impl<T: Stands> TableRule<Option<T>, View<T, T::Entry>, Snapshot<T>> for Rule {
    ghost holds = { λ key. TurnRule T.stands T.maker key.value };

    ghost first = { λ key. first_view key.value };
}

// A load, to see whether the turn is free.
pub(crate) struct Look;

impl<T, E> Play<Option<T>, View<T, E>> for Look {
    ghost then = { looked };
}

// A compare_exchange from an even word to the next one, which takes the turn.
pub(crate) struct Take;

impl<T: Stands> Play<Option<T>, View<T, T::Entry>> for Take {
    ghost then = { took T.stands T.maker };
}

// The entries that one turn adds. Each call picks them.
pub(crate) trait Adds<E> {
    ghost added: { List E };
}

impl<E> Adds<E> for Brand {
    ghost added = { [] };
}

// A store of the next even word, which gives the turn back with these entries.
pub(crate) struct Give<J> {
    adds: PhantomData<J>,
}

impl<T, E, J: Adds<E>> Play<Option<T>, View<T, E>> for Give<J> {
    ghost then = { gave J.added };
}

// A load, at which the seat draws a number for one that it splits off.
pub(crate) struct DrawNumber;

impl<T: Stands> Play<Option<T>, View<T, T::Entry>> for DrawNumber {
    ghost then = { drew_number T.maker };
}

// A load, at which a seat compares what it had seen with what the seat had seen that it took in.
pub(crate) struct Compare;

impl<T: Stands> Play<Option<T>, View<T, T::Entry>> for Compare {
    ghost then = { compared T.maker };
}

// One seat becomes two: itself, at rest, and the new one.
pub(crate) struct SplitOff;

impl<T, E> Split<View<T, E>> for SplitOff {
    ghost left = { rested };

    ghost right = { new_view };
}

// Two seats become one: the first takes the second in, which is gone then.
pub(crate) struct TakeIn;

impl<T, E> Join<View<T, E>> for TakeIn {
    ghost both = { hearing };

    ghost spent = { gone_view };
}
