// A counter that threads raise in turns.
ghost use Rattle.std.specs.Prelude.{◌≡◌, ◌+◌, ◌-◌, ◌<◌, ◌≤◌, ◌^◌, true, length, IfOk, OnErr};
ghost use Rattle.pin_turn.specs.Calls.{known, start_of, IsOf};
ghost use Rattle.turn_examples.specs.Counters.{IsRaised, Raises};

use pin_turn::{Seat, Spent, Stands, Turn};
use std::marker::Brand;
use std::sync::Wait;

/// What the threads share.
#[derive(Drop)]
pub struct Counter {
    pub count: u64,
}

/// What one turn adds to the list: the seat that raised the counter, and the count that it found. No value of it is
/// made.
pub struct Increment {
    pub by: u64,
    pub found: u64,
}

impl Stands for Counter {
    ghost use Rattle.turn_examples.specs.Counters.{IsRaised};

    type Entry = Increment;

    ghost maker = { λ e. e.by };

    ghost stands = { IsRaised };
}

/// Raises the counter by one, and answers the count that it found: as many above the start as turns were made before.
pub fn raise<W: Wait>(
    rt: &W,
    turn: &Turn<Counter>,
    seat: &mut Seat<Counter, Increment>,
) -> Result<u64, Spent>
    requires seat { IsOf turn.now seat.old }
    requires small { (start_of turn.now).count ≤ 2 ^ 62 }
    ensures same { IsOf turn.now seat.new }
    ensures raises { IfOk result (λ found. Raises (start_of turn.now) (known seat.old) found (known seat.new)) }
    ensures spent { OnErr result (known seat.new ≡ record (known seat.old) { used_up = true }) }
    ensures stays { ((known seat.new).number ≡ (known seat.old).number)
        × ((known seat.new).away ≡ (known seat.old).away) }
{
    let found = turn.with::<W, u64, _, Brand>(
        rt,
        seat,
        &mut |counter: &mut Counter| -> u64
            requires { counter.old.count < 2 ^ 64 - 1 }
            ensures found { result ≡ counter.old.count }
            ensures raised { counter.new.count ≡ counter.old.count + 1 }
        {
            let found = counter.count;
            counter.count += 1;
            found
        },
    )?;
    Ok(found)
}

/// Raises the counter so often, as far as turns are left, and answers how often that was.
pub fn raise_often<W: Wait>(
    rt: &W,
    turn: &Turn<Counter>,
    mut seat: Seat<Counter, Increment>,
    times: u32,
) -> (Seat<Counter, Increment>, u32)
    requires seat { IsOf turn.now seat }
    requires small { (start_of turn.now).count ≤ 2 ^ 62 }
    ensures same { IsOf turn.now result.0 }
    ensures stays { ((known result.0).number ≡ (known seat).number)
        × ((known result.0).away ≡ (known seat).away) }
    ensures made { length (known result.0).mine ≡ length (known seat).mine + result.1 }
    ensures most { result.1 ≤ times }
    ensures spent { result.1 < times → (known result.0).used_up ≡ true }
{
    for count in 0..times {
        if raise(rt, turn, &mut seat).is_err() {
            return (seat, count);
        }
    }
    (seat, times)
}
