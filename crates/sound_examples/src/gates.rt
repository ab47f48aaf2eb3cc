// Gates that hold threads, each until others have come to where they are wanted.
use edit_ports::Gate;
use edit_ports::points::{AFTER_PIECE, AFTER_PUSH, AFTER_TAKE, BEFORE_PUSH};
use std::sync::{Mutex, Wait};
use std::thread;

/// How often each of the points was passed.
#[derive(Clone, Copy)]
struct Passes {
    before_push: u64,
    after_piece: u64,
    after_push: u64,
    after_take: u64,
}

/// Counts the passes of all threads.
#[derive(Drop)]
struct Counter {
    passes: Mutex<Passes>,
}

impl Counter {
    fn new() -> Counter {
        Counter {
            passes: Mutex::new(Passes {
                before_push: 0,
                after_piece: 0,
                after_push: 0,
                after_take: 0,
            }),
        }
    }

    // Counts a pass, and returns the counts with it.
    fn count<R: Wait>(&self, rt: &R, point: u32) -> Passes {
        let mut passes = self.passes.lock(rt);
        match point {
            BEFORE_PUSH => passes.before_push = passes.before_push.saturating_add(1),
            AFTER_PIECE => passes.after_piece = passes.after_piece.saturating_add(1),
            AFTER_PUSH => passes.after_push = passes.after_push.saturating_add(1),
            AFTER_TAKE => passes.after_take = passes.after_take.saturating_add(1),
            _ => {}
        }
        *passes
    }

    fn now<R: Wait>(&self, rt: &R) -> Passes {
        *self.passes.lock(rt)
    }
}

/// A gate that holds a worker until another has come so far that the ring between them is full, or empty.
#[derive(Drop)]
pub struct HoldingGate {
    counter: Counter,
}

impl HoldingGate {
    pub fn new() -> HoldingGate {
        HoldingGate {
            counter: Counter::new(),
        }
    }
}

impl Gate for HoldingGate {
    fn pass<R: Wait>(&self, rt: &R, point: u32) {
        let mine = self.counter.count(rt, point);
        for _ in rt.forever() {
            let now = self.counter.now(rt);
            // Before the second push the first chunk is awaited as a piece. After it 65 more pushes are awaited: 64
            // fill the ring, and are then taken at once. Before the 67th push the 66th chunk is awaited as a piece,
            // and the ring is empty. After the first frames were taken six pushes are awaited, of which the fifth
            // fills the ring.
            let waits = match point {
                BEFORE_PUSH => {
                    mine.before_push == 2 && now.after_piece < 1
                        || mine.before_push == 67 && now.after_piece < 3
                }
                AFTER_PIECE => mine.after_piece == 1 && now.before_push < 66,
                AFTER_TAKE => mine.after_take == 1 && now.after_push < 6,
                _ => false,
            };
            if !waits {
                return;
            }
            thread::yield_now();
        }
        unreachable!()
    }
}

/// A gate at which recorder and player go in step: at each of their first pushes and takes, this many as it was told, the
/// microphone's thread is held until the speaker's has come as far, and the speaker's until the microphone's has.
#[derive(Drop)]
pub struct MeetingGate {
    counter: Counter,
    meetings: u64,
}

impl MeetingGate {
    pub fn new(meetings: u64) -> MeetingGate {
        MeetingGate {
            counter: Counter::new(),
            meetings,
        }
    }
}

impl Gate for MeetingGate {
    fn pass<R: Wait>(&self, rt: &R, point: u32) {
        let mine = self.counter.count(rt, point);
        for _ in rt.forever() {
            let now = self.counter.now(rt);
            let waits = match point {
                BEFORE_PUSH => {
                    mine.before_push <= self.meetings && now.after_take < mine.before_push
                }
                AFTER_TAKE => {
                    mine.after_take <= self.meetings && now.before_push < mine.after_take
                }
                _ => false,
            };
            if !waits {
                return;
            }
            thread::yield_now();
        }
        unreachable!()
    }
}
