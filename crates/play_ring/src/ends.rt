// The two ends.
ghost use Rattle.std.specs.Prelude.{◌≡◌, ◌∷◌, [], ◌++◌, ◌+◌, ◌<◌, ◌≤◌, ◌↔◌, min, length, take, map, IsTrue, IsFalse};
ghost use Rattle.std.specs.Prelude.{IfOk, if◌then◌else◌};
ghost use mathlib.Core.List.{IsPrefix};
ghost use Rattle.play_ring.specs.Order.{IsOpen};
ghost use Rattle.play_ring.specs.Ends.{sent, known_free, received, known_items, IsPair, SameIn, SameOut, sounds};
ghost use Rattle.play_ring.specs.Ends.{end_if};

use pcm_base::{Frame, NoMemory};
use rtrb::{Consumer, Producer, Protocol, PushError, RingBuffer};
use std::alloc::Global;

/// How many items a ring has room for.
pub const RING_ITEMS: usize = 4096;

/// What stands in the ring: a frame, or the end mark.
#[derive(Clone, Copy, Debug, PartialEq, Eq)]
pub enum Item {
    Sound(Frame),
    End,
}

/// No item follows an end mark.
#[derive(Clone, Copy)]
pub struct Playing;

impl Protocol<Item> for Playing {
    ghost use Rattle.play_ring.specs.Order.{IsOpen};

    ghost allows = { λ before item. IsOpen before };
}

/// Where frames go in.
#[derive(Drop)]
pub struct PlayIn {
    producer: Producer<Item, Global, Playing>,
}

/// Where frames come out.
#[derive(Drop)]
pub struct PlayOut {
    consumer: Consumer<Item, Global, Playing>,
}

/// How many frames were taken, and whether the end mark was taken after them.
#[derive(Clone, Copy, Debug, PartialEq, Eq)]
pub struct Taken {
    pub count: usize,
    pub ended: bool,
}

/// A ring with no item, and room for [`RING_ITEMS`].
pub fn ring(alloc: Global) -> Result<(PlayIn, PlayOut), NoMemory>
    ensures pair { IfOk result (λ r. IsPair r.0 r.1) }
    ensures input { IfOk result (λ r. (sent r.0 ≡ []) × (known_free r.0 ≡ RING_ITEMS)) }
    ensures output { IfOk result (λ r. (received r.1 ≡ []) × (known_items r.1 ≡ [])) }
{
    match RingBuffer::with_protocol::<Global, Playing>(alloc, RING_ITEMS) {
        Ok((producer, consumer)) => Ok((PlayIn { producer }, PlayOut { consumer })),
        Err(_) => Err(NoMemory),
    }
}

impl PlayIn {
    /// Sends the first frames, and says how many: fewer than there are where the look at the ring showed no free slot.
    pub fn push(&mut self, frames: &[Frame]) -> usize
        requires { IsOpen (sent self.old) }
        ensures ring { SameIn self.old self.new }
        ensures bound { result ≤ length frames.now }
        ensures sent { sent self.new ≡ sent self.old ++ sounds (take result frames.now) }
        ensures full { result < length frames.now → known_free self.new ≡ 0 }
        ensures succeeds { min (known_free self.old) (length frames.now) ≤ result }
        ensures known { known_free self.old ≤ known_free self.new + result }
        ensures unended { IsOpen (sent self.new) }
    {
        let mut count = 0;
        while count < frames.len() {
            match self.producer.push(Item::Sound(frames[count])) {
                Ok(()) => count += 1,
                Err(_) => return count,
            }
        }
        count
    }

    /// Sends the end mark, or answers false where the look at the ring showed no free slot.
    pub fn end(&mut self) -> bool
        requires { IsOpen (sent self.old) }
        ensures ring { SameIn self.old self.new }
        ensures yes { IsTrue result → sent self.new ≡ sent self.old ++ Item.End ∷ [] }
        ensures no { IsFalse result → (sent self.new ≡ sent self.old) × (known_free self.new ≡ 0) }
        ensures succeeds { 0 < known_free self.old → IsTrue result }
    {
        self.producer.push(Item::End).is_ok()
    }
}

impl PlayOut {
    /// Receives frames, and the end mark after them: fewer than there is room for where the look at the ring showed no
    /// item.
    pub fn take(&mut self, out: &mut [Frame]) -> Taken
        ensures ring { SameOut self.old self.new }
        ensures bound { result.count ≤ length out.new }
        ensures received { received self.new ≡ received self.old ++ sounds (take result.count out.new)
            ++ end_if result.ended }
        ensures none { IsFalse result.ended → result.count < length out.old → known_items self.new ≡ [] }
        ensures known { IsPrefix (known_items self.old)
            (sounds (take result.count out.new) ++ end_if result.ended ++ known_items self.new) }
        ensures succeeds { IsFalse result.ended → min (length (known_items self.old)) (length out.old) ≤ result.count }
    {
        let mut count = 0;
        while count < out.len() {
            match self.consumer.pop() {
                Ok(Item::Sound(frame)) => {
                    out[count] = frame;
                    count += 1;
                }
                Ok(Item::End) => return Taken { count, ended: true },
                Err(_) => return Taken {
                    count,
                    ended: false,
                },
            }
        }
        Taken {
            count,
            ended: false,
        }
    }

    /// Looks with both ends on one thread: what was received and what is left are what was sent.
    pub fn meet(&mut self, input: &mut PlayIn)
        requires { IsPair input.old self.old }
        ensures pair { IsPair input.new self.new }
        ensures ends { SameOut self.old self.new × SameIn input.old input.new }
        ensures received { received self.new ≡ received self.old }
        ensures sent { sent input.new ≡ sent input.old }
        ensures fifo { received self.new ++ known_items self.new ≡ sent input.new }
        ensures free { RING_ITEMS ≤ known_free input.new + length (known_items self.new) }
    {
        input.producer.slots_beside(&mut self.consumer);
        self.consumer.slots_beside(&mut input.producer);
    }
}
