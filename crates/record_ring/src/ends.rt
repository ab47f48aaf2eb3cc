// The two ends.
ghost use Rattle.std.specs.Prelude.{◌≡◌, ◌∷◌, [], ◌++◌, ◌+◌, ◌<◌, ◌≤◌, ◌↔◌, length, IsOk, IsSome, OnOk, IfOk, IfErr};
ghost use Rattle.std.specs.Prelude.{IfSome, IfNone, OnSome};
ghost use mathlib.Core.List.{IsPrefix};
ghost use Rattle.pcm_base.specs.Recordings.{IsOpen};
ghost use Rattle.record_ring.specs.Ends.{sent, known_free, received, known_items, IsPair, SameIn, SameOut};
ghost use Rattle.record_ring.specs.Order.{Follows};

use pcm_base::{Chunk, NoMemory};
use rtrb::{Consumer, Producer, Protocol, PushError, RingBuffer};
use std::alloc::Global;

/// How many chunks a ring has room for.
pub const RING_CHUNKS: usize = 64;

/// Chunks are numbered by their places, and none follows an end mark.
#[derive(Clone, Copy)]
pub struct Recording;

impl Protocol<Chunk> for Recording {
    ghost use Rattle.pcm_base.specs.Recordings.{IsOpen};
    ghost use Rattle.record_ring.specs.Order.{Follows};

    ghost allows = { λ before chunk. Follows before chunk };
}

/// Where chunks go in.
#[derive(Drop)]
pub struct RecordIn {
    producer: Producer<Chunk, Global, Recording>,
}

/// Where chunks come out.
#[derive(Drop)]
pub struct RecordOut {
    consumer: Consumer<Chunk, Global, Recording>,
}

/// A ring with no chunk, and room for [`RING_CHUNKS`].
pub fn ring(alloc: Global) -> Result<(RecordIn, RecordOut), NoMemory>
    ensures pair { IfOk result (λ r. IsPair r.0 r.1) }
    ensures input { IfOk result (λ r. (sent r.0 ≡ []) × (known_free r.0 ≡ RING_CHUNKS)) }
    ensures output { IfOk result (λ r. (received r.1 ≡ []) × (known_items r.1 ≡ [])) }
{
    match RingBuffer::with_protocol::<Global, Recording>(alloc, RING_CHUNKS) {
        Ok((producer, consumer)) => Ok((RecordIn { producer }, RecordOut { consumer })),
        Err(_) => Err(NoMemory),
    }
}

impl RecordIn {
    /// Sends a chunk, or hands it back where the look at the ring showed no free slot.
    pub fn push(&mut self, chunk: Chunk) -> Result<(), Chunk>
        requires { Follows (sent self.old) chunk }
        ensures ring { SameIn self.old self.new }
        ensures ok { OnOk result (sent self.new ≡ sent self.old ++ chunk ∷ []) }
        ensures full { IfErr result
            (λ back. (back ≡ chunk) × (sent self.new ≡ sent self.old) × (known_free self.new ≡ 0)) }
        ensures succeeds { 0 < known_free self.old → IsOk result }
        ensures known { known_free self.old ≤ known_free self.new + 1 }
    {
        match self.producer.push(chunk) {
            Ok(()) => Ok(()),
            Err(PushError::Full(back)) => Err(back),
        }
    }
}

impl RecordOut {
    /// Receives the next chunk, or none where the look at the ring showed no item.
    pub fn pop(&mut self) -> Option<Chunk>
        ensures ring { SameOut self.old self.new }
        ensures some { IfSome result (λ chunk. received self.new ≡ received self.old ++ chunk ∷ []) }
        ensures known { IfSome result (λ chunk. IsPrefix (known_items self.old) (chunk ∷ known_items self.new)) }
        ensures order { IfSome result (λ chunk. Follows (received self.old) chunk) }
        ensures none { IfNone result ((received self.new ≡ received self.old) × (known_items self.new ≡ [])) }
        ensures succeeds { 0 < length (known_items self.old) → IsSome result }
    {
        match self.consumer.pop() {
            Ok(chunk) => Some(chunk),
            Err(_) => None,
        }
    }

    /// Looks with both ends on one thread: what was received and what is left are what was sent.
    pub fn meet(&mut self, input: &mut RecordIn)
        requires { IsPair input.old self.old }
        ensures pair { IsPair input.new self.new }
        ensures ends { SameOut self.old self.new × SameIn input.old input.new }
        ensures received { received self.new ≡ received self.old }
        ensures sent { sent input.new ≡ sent input.old }
        ensures fifo { received self.new ++ known_items self.new ≡ sent input.new }
        ensures free { RING_CHUNKS ≤ known_free input.new + length (known_items self.new) }
    {
        input.producer.slots_beside(&mut self.consumer);
        self.consumer.slots_beside(&mut input.producer);
    }
}
