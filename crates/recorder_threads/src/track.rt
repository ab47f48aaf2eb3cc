// The thread of the track.
ghost use Rattle.std.specs.Prelude.{◌≡◌, ◌⊎◌, ℕ, ℤ, ◌+◌, ◌*◌, ◌^◌, ◌<◌, ◌≤◌, false, List, [], ◌++◌, length, take};
ghost use Rattle.std.specs.Prelude.{Option};
ghost use Rattle.std.specs.Prelude.{◌-◌, None, is_some, IfOk, IfErr, sum_by, if◌then◌else◌, vec_len, vec_capacity};
ghost use Rattle.std.specs.List.{zip};
ghost use Rattle.edit_ports.specs.Answers.{first_refusal, samples_of};
ghost use Rattle.pcm_base.specs.Arithmetic.{counted_from};
ghost use Rattle.pcm_base.specs.Recordings.{numbered, recording};
ghost use Rattle.record_ring.specs.Ends.{received, SameOut};
ghost use Rattle.recorder_threads.specs.Drained.{Drains, Takes, taker_state, taken_by};

use super::wait;
use edit_ports::points::AFTER_PIECE;
use edit_ports::{Gate, PieceTaker, Taken};
use pcm_base::{CHUNK_SAMPLES, Chunk, Numbers, Refusal, Said};
use record_ring::{RING_CHUNKS, RecordOut};
use std::alloc::Global;
use std::sync::Wait;

/// What the thread of the track hands back: the numbers that the taker answered for the pieces that it took, how many
/// samples these have together, and the first refusal.
#[derive(Drop)]
pub struct Drained<T> {
    pub output: RecordOut,
    pub taker: T,
    pub numbers: Numbers,
    pub samples: u64,
    pub refused: Option<Refusal>,
}

// What was taken so far.
#[derive(Drop)]
struct Tally {
    numbers: Vec<u64>,
    samples: u64,
    refused: Option<Refusal>,
}

// Lists the numbers of this many pieces, up to that of the last.
fn list_numbers(numbers: &mut Vec<u64>, count: usize, last: u64)
    requires room { vec_len numbers.old + count ≤ vec_capacity numbers.old }
    requires high { count ≤ last }
    ensures { numbers.new.items ≡ numbers.old.items ++ counted_from (last - count + 1) count }
{
    'numbers: for i in 0..count {
        numbers.push_reserved(last - (count - 1 - i) as u64);
    }
}

// Makes place for this many numbers, or else for one, and says for how many.
fn places_for(numbers: &mut Vec<u64>, count: usize) -> usize
    requires some { 0 < count }
    ensures items { numbers.new.items ≡ numbers.old.items }
    ensures room { vec_len numbers.new + result ≤ vec_capacity numbers.new }
    ensures few { result ≤ count }
{
    if numbers.reserve(count).is_ok() {
        return count;
    }
    if numbers.reserve(1).is_ok() {
        return 1;
    }
    0
}

// Offers the first of these chunks, those that the taker takes at once, where their numbers have places; where only one
// number has one, the first alone. It says how many were taken, or why the first was refused.
fn offer<R: Wait, T: PieceTaker>(
    rt: &R,
    alloc: Global,
    taker: &mut T,
    numbers: &mut Vec<u64>,
    chunks: &[Chunk],
) -> Result<usize, Refusal>
    requires some { 0 < length chunks.now }
    requires unrefused { T.refused taker.old ≡ None }
    ensures taken { IfOk result (λ count. (0 < count) × (count ≤ length chunks.now) × ((ns : List ℕ)
        × (length ns ≡ count) × (numbers.new.items ≡ numbers.old.items ++ ns)
        × (T.pieces taker.new ≡ T.pieces taker.old ++ zip (take count (samples_of chunks.now)) ns)
        × (T.refused taker.new ≡ T.refused taker.old))) }
    ensures left { IfErr result (λ reason.
        (numbers.new.items ≡ numbers.old.items) × (T.pieces taker.new ≡ T.pieces taker.old)) }
    ensures cause { IfErr result (λ reason.
        (T.refused taker.new ≡ first_refusal (T.refused taker.old) reason)
        ⊎ ((reason ≡ Refusal.NoMemory) × (T.refused taker.new ≡ T.refused taker.old))) }
    ensures goes { (first : T) →
        T.follows first false taker.old → T.follows first (is_some (T.refused taker.new)) taker.new }
{
    let places = places_for(numbers, chunks.len());
    if places == 0 {
        return Err(Refusal::NoMemory);
    }
    let Said { at: _, what } = taker.take_pieces(rt, alloc, &chunks[..places]);
    match what {
        Ok(Taken { count, last }) => {
            list_numbers(numbers, count, last);
            Ok(count)
        }
        Err(reason) => Err(reason),
    }
}

// How many samples these chunks have together.
fn samples_in(chunks: &[Chunk]) -> u64
    requires { length chunks.now ≤ RING_CHUNKS }
    ensures value { result ≡ sum_by length (samples_of chunks.now) }
    ensures few { result ≤ CHUNK_SAMPLES * length chunks.now }
{
    let mut sum = 0;
    'chunks: for i in 0..chunks.len() {
        sum += chunks[i].as_slice().len() as u64;
    }
    sum
}

// These chunks more: after the first refusal without use.
fn take_chunks<R: Wait, T: PieceTaker>(
    rt: &R,
    alloc: Global,
    taker: &mut T,
    tally: &mut Tally,
    chunks: &[Chunk],
)
    requires few { length chunks.now ≤ RING_CHUNKS }
    requires small { tally.old.samples + CHUNK_SAMPLES * length chunks.now < 2 ^ 64 }
    requires unrefused { tally.old.refused ≡ None → T.refused taker.old ≡ None }
    ensures takes { (start : List (List ℤ × ℕ)) (before : List (List ℤ)) →
        Takes start (taker_state T.PieceTaker taker.old) (taken_by tally.old) before →
        Takes start (taker_state T.PieceTaker taker.new) (taken_by tally.new) (before ++ samples_of chunks.now) }
    ensures grows { tally.new.samples ≤ tally.old.samples + CHUNK_SAMPLES * length chunks.now }
    ensures goes { (first : T) → T.follows first (is_some (T.refused taker.old)) taker.old →
        T.follows first (is_some (T.refused taker.new)) taker.new }
{
    if tally.refused.is_some() {
        return;
    }
    let mut at = 0;
    'chunks: while at < chunks.len() {
        let rest = &chunks[at..];
        match offer(rt, alloc, taker, &mut tally.numbers, rest) {
            Ok(count) => {
                tally.samples += samples_in(&rest[..count]);
                at += count;
            }
            Err(reason) => {
                tally.refused = Some(reason);
                return;
            }
        }
    }
}

// What was received without waiting for more: this many chunks, and whether the end mark came after them.
struct Gathered {
    count: usize,
    ended: bool,
}

// Receives the next chunk, and those after it that are there, up to as many as the buffer has places. It waits for the
// first alone.
fn gather<R: Wait>(rt: &R, output: &mut RecordOut, batch: &mut [Chunk]) -> Gathered
    requires room { 0 < length batch.old }
    ensures ring { SameOut output.old output.new }
    ensures size { length batch.new ≡ length batch.old }
    ensures few { result.count ≤ length batch.old }
    ensures some { result.ended ≡ false → 0 < result.count }
    ensures bound { (before : List (List ℤ)) → received output.old ≡ numbered 0 before
        → length before + result.count ≤ 2 ^ 32 }
    ensures received { (before : List (List ℤ)) → received output.old ≡ numbered 0 before
        → received output.new
        ≡ (if result.ended then recording else numbered 0) (before ++ samples_of (take result.count batch.new)) }
{
    let mut chunk = wait::receive(rt, output);
    let mut count = 0;
    'chunks: while !chunk.is_end() {
        batch[count] = chunk;
        count += 1;
        if count == batch.len() {
            return Gathered {
                count,
                ended: false,
            };
        }
        match output.pop() {
            Some(next) => chunk = next,
            None => {
                return Gathered {
                    count,
                    ended: false,
                };
            }
        }
    }
    Gathered { count, ended: true }
}

/// Receives a recording to its end mark, and offers its chunks to the taker up to the first refusal; the rest is
/// received without use. Chunks that wait in the ring are offered together, at most 64, and none waits for others.
/// Where there is no memory for the place of a piece's number, the refusal is NoMemory, and the piece is not offered.
/// After the first refusal nothing is offered.
pub fn drain<R: Wait, T: PieceTaker, G: Gate>(
    rt: &R,
    alloc: Global,
    mut output: RecordOut,
    mut taker: T,
    gate: &G,
) -> Drained<T>
    requires fresh { received output ≡ [] }
    requires unrefused { T.refused taker ≡ None }
    ensures { Drains T.PieceTaker output taker result }
{
    let mut tally = Tally {
        numbers: Vec::new(alloc),
        samples: 0,
        refused: None,
    };
    let mut batch = [Chunk::new(0, &[]); RING_CHUNKS];
    for _ in rt.forever() {
        let Gathered { count, ended } = gather(rt, &mut output, &mut batch);
        take_chunks(rt, alloc, &mut taker, &mut tally, &batch[..count]);
        if count > 0 {
            gate.pass(rt, AFTER_PIECE);
        }
        if ended {
            let Tally {
                numbers,
                samples,
                refused,
            } = tally;
            return Drained {
                output,
                taker,
                numbers: Numbers::new(numbers),
                samples,
                refused,
            };
        }
    }
    unreachable!()
}
