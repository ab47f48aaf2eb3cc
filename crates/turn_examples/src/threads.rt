// Two threads at one counter.
ghost use Rattle.std.specs.Prelude.{◌≡◌, ◌+◌, ◌≤◌, ◌^◌, length, IfSome};
ghost use Rattle.pin_turn.specs.Calls.{known, start_of, IsOf};

use super::counter::{Counter, Increment, raise_often};
use pin_turn::{Seat, Turn};
use std::alloc::Global;
use std::sync::Wait;
use std::thread::{Threads, join};

// Raises the counter by two threads, of which the second has a seat that is split off and joined again.
fn raise_by_two<R: Threads + Wait + Sync>(
    rt: &R,
    turn: &Turn<Counter>,
    mut seat: Seat<Counter, Increment>,
    times: u32,
) -> (Seat<Counter, Increment>, u64)
    requires seat { IsOf turn.now seat }
    requires small { (start_of turn.now).count ≤ 2 ^ 62 }
    ensures same { IsOf turn.now result.0 }
    ensures stays { ((known result.0).number ≡ (known seat).number)
        × ((known result.0).away ≡ (known seat).away) }
    ensures made { length (known result.0).mine ≡ length (known seat).mine + result.1 }
{
    let other = turn.split(&mut seat);
    let (one, two) = join(
        rt,
        || -> (Seat<Counter, Increment>, u32)
            requires seat { IsOf turn.now seat }
            requires small { (start_of turn.now).count ≤ 2 ^ 62 }
            ensures same { IsOf turn.entry.now result.0 }
            ensures stays { ((known result.0).number ≡ (known seat).number)
                × ((known result.0).away ≡ (known seat).away) }
            ensures made { length (known result.0).mine ≡ length (known seat).mine + result.1 }
        { raise_often(rt, turn, seat, times) },
        || -> (Seat<Counter, Increment>, u32)
            requires seat { IsOf turn.now other }
            requires small { (start_of turn.now).count ≤ 2 ^ 62 }
            ensures same { IsOf turn.entry.now result.0 }
            ensures stays { ((known result.0).number ≡ (known other).number)
                × ((known result.0).away ≡ (known other).away) }
            ensures made { length (known result.0).mine ≡ length (known other).mine + result.1 }
        { raise_often(rt, turn, other, times) },
    );
    let (mut seat, made) = one;
    let (other, made_too) = two;
    turn.join(&mut seat, other);
    (seat, u64::from(made) + u64::from(made_too))
}

/// Two threads raise one counter, each so often, as far as turns are left. Answers the count at the end, and how many
/// raises were made: no raise is lost, whatever the order of the turns was. None is want of memory.
pub fn count_up<R: Threads + Wait + Sync>(
    rt: &R,
    alloc: Global,
    from: u64,
    times: u32,
) -> Option<(u64, u64)>
    requires { from ≤ 2 ^ 62 }
    ensures { IfSome result (λ r. r.0 ≡ from + r.1) }
{
    let Ok((turn, seat)) = Turn::new(alloc, Counter { count: from }) else {
        return None;
    };
    let (seat, made) = raise_by_two(rt, &turn, seat, times);
    let counter = turn.close(seat);
    Some((counter.count, made))
}
