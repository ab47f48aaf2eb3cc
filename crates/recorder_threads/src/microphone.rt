// The thread of the microphone.
ghost use Rattle.std.specs.Prelude.{◌≡◌, ℕ, ◌+◌, ◌*◌, ◌/◌, ◌<◌, ◌≤◌, List, [], ◌∷◌, ◌++◌, length, take, IsTrue, min};
ghost use Rattle.std.specs.Prelude.{◌^◌, ◌-◌};
ghost use Rattle.pcm_base.specs.Recordings.{numbered_part, samples_of_bytes};
ghost use Rattle.record_ring.specs.Ends.{sent, SameIn};
ghost use Rattle.record_ring.specs.Order.{Follows};
ghost use Rattle.recorder_threads.specs.Captured.{Captures, chunk_if};

use super::block::{self, BLOCK_BYTES, BlockEnd};
use super::wait;
use edit_ports::points::BEFORE_PUSH;
use edit_ports::{Gate, Source};
use pcm_base::Chunk;
use record_ring::RecordIn;
use std::sync::Wait;

/// How many chunks a recording has at most: 2 ^ 33 bytes.
const MOST_CHUNKS: u32 = 16777216;

/// What ended the reading of the microphone.
#[derive(Clone, Copy, Debug, PartialEq, Eq)]
pub enum MicEnd {
    /// It has no more bytes.
    End,
    /// A read failed.
    Fault,
    /// 2^33 bytes were read.
    Limit,
}

/// What the thread of the microphone hands back, and what ended it.
#[derive(Drop)]
pub struct Captured<M> {
    pub mic: M,
    pub input: RecordIn,
    pub end: MicEnd,
}

// Sends a chunk, where it has a sample, as the next one.
fn send_bytes<R: Wait, G: Gate>(rt: &R, gate: &G, input: &mut RecordIn, number: u32, bytes: &[u8])
    requires bound { length bytes.now ≤ BLOCK_BYTES }
    requires order { Follows (sent input.old) (numbered_part number (samples_of_bytes bytes.now)) }
    ensures ring { SameIn input.old input.new }
    ensures sent { sent input.new ≡ sent input.old ++ chunk_if number (samples_of_bytes bytes.now) }
{
    if bytes.len() >= 2 {
        gate.pass(rt, BEFORE_PUSH);
        wait::send(rt, input, block::chunk_of(number, bytes));
    }
}

// The number after that of a block's chunk.
fn number_after(number: u32, len: usize) -> u32
    requires { number < 2 ^ 32 - 1 }
    ensures { result ≡ number + min 1 (len / 2) }
{
    if len >= 2 { number + 1 } else { number }
}

// Sends the end mark, and hands back what was given.
fn finish<R: Wait, M, G: Gate>(
    rt: &R,
    gate: &G,
    mic: M,
    mut input: RecordIn,
    number: u32,
    end: MicEnd,
) -> Captured<M>
    requires { Follows (sent input) (numbered_part number []) }
    ensures back { (result.mic ≡ mic) × (result.end ≡ end) }
    ensures ring { SameIn input result.input }
    ensures sent { sent result.input ≡ sent input ++ numbered_part number [] ∷ [] }
{
    gate.pass(rt, BEFORE_PUSH);
    wait::send(rt, &mut input, Chunk::new(number, &[]));
    Captured { mic, input, end }
}

/// Reads the microphone to its end, its first fault or the limit of 2^33 bytes, and after that no more. It takes the
/// bytes for samples of 16 bits, the low byte first, and sends them in whole chunks, a shorter last one, and then the
/// end mark, whatever the end was. An odd last byte is dropped.
pub fn capture<R: Wait, M: Source, G: Gate>(
    rt: &R,
    mut mic: M,
    mut input: RecordIn,
    gate: &G,
) -> Captured<M>
    requires { sent input ≡ [] }
    ensures { Captures M.Source mic input result }
{
    let mut bytes = [0u8; BLOCK_BYTES];
    for number in 0..MOST_CHUNKS {
        let block = block::read_block(&mut mic, &mut bytes);
        send_bytes(rt, gate, &mut input, number, &bytes[..block.len]);
        match block.end {
            BlockEnd::Full => {}
            BlockEnd::End => {
                let next = number_after(number, block.len);
                return finish(rt, gate, mic, input, next, MicEnd::End);
            }
            BlockEnd::Fault => {
                let next = number_after(number, block.len);
                return finish(rt, gate, mic, input, next, MicEnd::Fault);
            }
        }
    }
    finish(rt, gate, mic, input, MOST_CHUNKS, MicEnd::Limit)
}
