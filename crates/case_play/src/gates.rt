// Gates that hold the threads of a call, each until others have come as far.
use edit_ports::Gate;
use std::sync::{Mutex, Wait};
use std::thread;

// How often a thread looks whether it may go on, at most.
const LOOKS: u64 = 1_000_000_000;

/// A point of `edit_ports`, and how often it was passed.
#[derive(Clone, Copy)]
pub(crate) struct Place {
    pub(crate) point: u32,
    pub(crate) count: u64,
}

impl Place {
    fn is(&self, point: u32, count: u64) -> bool {
        self.point == point && self.count == count
    }
}

/// A place at which a thread is held, and one that is to be reached before it goes on.
#[derive(Clone, Copy)]
pub(crate) struct Hold {
    pub(crate) at: Place,
    pub(crate) until: Place,
}

// How often each point was passed, and whether a thread has looked in vain.
#[derive(Clone, Copy)]
struct Passes {
    counts: [u64; 7],
    in_vain: bool,
}

impl Passes {
    // How often a point was passed.
    fn count_of(&self, point: u32) -> u64 {
        match self.counts.get(point as usize) {
            Some(count) => *count,
            None => 0,
        }
    }

    fn has_reached(&self, place: Place) -> bool {
        self.count_of(place.point) >= place.count
    }
}

/// A gate with places where it holds a thread. Who has looked too often goes on.
#[derive(Drop)]
pub struct HoldingGate {
    holds: Vec<Hold>,
    passes: Mutex<Passes>,
}

impl HoldingGate {
    pub(crate) fn new(holds: Vec<Hold>) -> HoldingGate {
        HoldingGate {
            holds,
            passes: Mutex::new(Passes {
                counts: [0; 7],
                in_vain: false,
            }),
        }
    }

    fn now<R: Wait>(&self, rt: &R) -> Passes {
        *self.passes.lock(rt)
    }

    // Counts a pass, and returns how many it is.
    fn count<R: Wait>(&self, rt: &R, point: u32) -> u64 {
        let mut passes = self.passes.lock(rt);
        let mut now = *passes;
        if let Some(count) = now.counts.get_mut(point as usize) {
            *count = count.saturating_add(1);
        }
        *passes = now;
        now.count_of(point)
    }

    // Whether a thread may go on after this pass.
    fn is_open(&self, now: Passes, point: u32, count: u64) -> bool {
        for hold in self.holds.as_slice() {
            if hold.at.is(point, count) && !now.has_reached(hold.until) {
                return false;
            }
        }
        true
    }

    /// Whether each place was reached, and no thread has looked in vain.
    pub(crate) fn has_held<R: Wait>(&self, rt: &R) -> bool {
        let now = self.now(rt);
        for hold in self.holds.as_slice() {
            if !now.has_reached(hold.at) || !now.has_reached(hold.until) {
                return false;
            }
        }
        !now.in_vain
    }
}

impl Gate for HoldingGate {
    fn pass<R: Wait>(&self, rt: &R, point: u32) {
        if self.holds.is_empty() {
            return;
        }
        let count = self.count(rt, point);
        for _ in 0..LOOKS {
            if self.is_open(self.now(rt), point, count) {
                return;
            }
            thread::yield_now();
        }
        self.passes.lock(rt).in_vain = true;
    }
}
