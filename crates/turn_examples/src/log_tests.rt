// Four threads write into one log, in turns. What no clause says is that the turns go on and end.
ghost use Rattle.std.specs.Prelude.{◌≡◌};
ghost use Rattle.pin_turn.specs.Calls.{known, IsOf};

use pin_turn::{Seat, Spent, Stands, Turn};
use std::marker::Brand;
use std::sync::Wait;
use std::test::Fail;
use std::thread::{Threads, join};

const THREADS: usize = 4;

const TURNS: u32 = 10_000;

/// A thread's count, as one turn writes it.
#[derive(Clone, Copy)]
struct Mark {
    thread: usize,
    count: u32,
}

impl Mark {
    // The next value of a fold over marks, in which their order tells.
    fn fold(self, before: u64) -> u64 {
        before
            .wrapping_mul(31)
            .wrapping_add(self.thread as u64)
            .wrapping_mul(31)
            .wrapping_add(u64::from(self.count))
    }
}

/// All marks, and their fold as the turns made it.
#[derive(Drop)]
struct Log {
    marks: Vec<Mark>,
    fold: u64,
}

/// What a turn adds to the list. No value of it is made.
struct Entry {
    by: u64,
}

impl Stands for Log {
    type Entry = Entry;

    ghost maker = { λ e. e.by };

    // Here the marks are looked at when the program runs.
    ghost stands = { λ start now list. now ≡ now };
}

impl Log {
    // Says whether there was memory for the mark.
    fn write(&mut self, mark: Mark) -> bool {
        self.fold = mark.fold(self.fold);
        self.marks.push(mark).is_ok()
    }

    // Whether the fold is that of the marks, and each thread's counts stand in their order, all of them.
    fn is_whole(&self) -> bool {
        let mut next = [0u32; THREADS];
        let mut fold = 0;
        for mark in &self.marks {
            let Some(due) = next.get_mut(mark.thread) else {
                return false;
            };
            if mark.count != *due {
                return false;
            }
            *due = due.wrapping_add(1);
            fold = mark.fold(fold);
        }
        let [first, second, third, fourth] = next;
        fold == self.fold && first == TURNS && second == TURNS && third == TURNS && fourth == TURNS
    }
}

fn write_once<W: Wait>(
    rt: &W,
    turn: &Turn<Log>,
    seat: &mut Seat<Log, Entry>,
    mark: Mark,
) -> Result<bool, Spent>
    requires { IsOf turn.now seat.old }
    ensures same { IsOf turn.now seat.new }
    ensures stays { ((known seat.new).number ≡ (known seat.old).number)
        × ((known seat.new).away ≡ (known seat.old).away) }
{
    turn.with::<W, bool, _, Brand>(rt, seat, &mut |log: &mut Log| -> bool { log.write(mark) })
}

fn write_all<W: Wait>(
    rt: &W,
    turn: &Turn<Log>,
    mut seat: Seat<Log, Entry>,
    thread: usize,
) -> (Seat<Log, Entry>, bool)
    requires { IsOf turn.now seat }
    ensures same { IsOf turn.now result.0 }
    ensures stays { ((known result.0).number ≡ (known seat).number)
        × ((known result.0).away ≡ (known seat).away) }
{
    for count in 0..TURNS {
        let Ok(true) = write_once(rt, turn, &mut seat, Mark { thread, count }) else {
            return (seat, false);
        };
    }
    (seat, true)
}

// Two threads, of which the second has a seat that is split off and joined again.
fn write_by_two<R: Threads + Wait + Sync>(
    rt: &R,
    turn: &Turn<Log>,
    mut seat: Seat<Log, Entry>,
    threads: [usize; 2],
) -> (Seat<Log, Entry>, bool)
    requires { IsOf turn.now seat }
    ensures same { IsOf turn.now result.0 }
    ensures stays { ((known result.0).number ≡ (known seat).number)
        × ((known result.0).away ≡ (known seat).away) }
{
    let other = turn.split(&mut seat);
    let [left, right] = threads;
    let (one, two) = join(
        rt,
        || -> (Seat<Log, Entry>, bool)
            requires { IsOf turn.now seat }
            ensures same { IsOf turn.entry.now result.0 }
            ensures stays { ((known result.0).number ≡ (known seat).number)
                × ((known result.0).away ≡ (known seat).away) }
        { write_all(rt, turn, seat, left) },
        || -> (Seat<Log, Entry>, bool)
            requires { IsOf turn.now other }
            ensures same { IsOf turn.entry.now result.0 }
            ensures stays { ((known result.0).number ≡ (known other).number)
                × ((known result.0).away ≡ (known other).away) }
        { write_all(rt, turn, other, right) },
    );
    let (mut seat, wrote) = one;
    let (other, wrote_too) = two;
    turn.join(&mut seat, other);
    (seat, wrote && wrote_too)
}

// The same, with two threads on each side.
fn write_by_four<R: Threads + Wait + Sync>(
    rt: &R,
    turn: &Turn<Log>,
    mut seat: Seat<Log, Entry>,
) -> (Seat<Log, Entry>, bool)
    requires { IsOf turn.now seat }
    ensures same { IsOf turn.now result.0 }
    ensures stays { ((known result.0).number ≡ (known seat).number)
        × ((known result.0).away ≡ (known seat).away) }
{
    let other = turn.split(&mut seat);
    let (one, two) = join(
        rt,
        || -> (Seat<Log, Entry>, bool)
            requires { IsOf turn.now seat }
            ensures same { IsOf turn.entry.now result.0 }
            ensures stays { ((known result.0).number ≡ (known seat).number)
                × ((known result.0).away ≡ (known seat).away) }
        { write_by_two(rt, turn, seat, [0, 1]) },
        || -> (Seat<Log, Entry>, bool)
            requires { IsOf turn.now other }
            ensures same { IsOf turn.entry.now result.0 }
            ensures stays { ((known result.0).number ≡ (known other).number)
                × ((known result.0).away ≡ (known other).away) }
        { write_by_two(rt, turn, other, [2, 3]) },
    );
    let (mut seat, wrote) = one;
    let (other, wrote_too) = two;
    turn.join(&mut seat, other);
    (seat, wrote && wrote_too)
}

#[test]
fn four_threads_write_one_log(rt: HostRuntime) -> Result<(), Fail> {
    let alloc = rt.alloc();
    let log = Log {
        marks: Vec::new(alloc),
        fold: 0,
    };
    let Ok((turn, seat)) = Turn::new(alloc, log) else {
        return Err(Fail::new("no memory for the turn"));
    };
    let (seat, wrote) = write_by_four(&rt, &turn, seat);
    let log = turn.close(seat);
    assert!(rt; wrote);
    assert!(rt; log.marks.len() == 40_000);
    assert!(rt; log.is_whole());
    Ok(())
}
