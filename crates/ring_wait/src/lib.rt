//! How a thread waits at a ring: it looks again and again, and lets other threads run in between.
#![tactic(auto)]

ghost use Rattle.std.specs.Prelude.{◌≡◌, ◌≤◌, ◌+◌, min};

use std::sync::Wait;
use std::sync::atomic::AtomicU64;
use std::thread;
use std::time::Duration;

/// How many looks in vain come before the first sleep.
const LOOKS: u32 = 100;

/// How many milliseconds a sleep takes: 44 frames at 44,100 a second, of the 4,096 that a ring has room for.
const SLEEP_MILLIS: u64 = 1;

/// One wait at a ring, with the looks in vain so far.
#[derive(Drop)]
pub struct RingWait {
    looks: u32,
    // Nobody wakes those that sleep at this word.
    word: AtomicU64,
    ghost few: { looks ≤ 100 },
}

impl RingWait {
    /// A wait without a look.
    pub fn new() -> RingWait
        ensures { result.looks ≡ 0 }
    {
        RingWait {
            looks: 0,
            word: AtomicU64::new(0),
        }
    }

    /// Lets other threads run after a look in vain: yields the processor, or after 100 such looks sleeps for a
    /// millisecond.
    pub fn rest<R: Wait>(&mut self, rt: &R)
        ensures { self.new.looks ≡ min (self.old.looks + 1) 100 }
    {
        if self.looks < LOOKS {
            self.looks += 1;
            thread::yield_now();
        } else {
            self.word
                .park_timeout(rt, 0, Duration::from_millis(SLEEP_MILLIS));
        }
    }
}
