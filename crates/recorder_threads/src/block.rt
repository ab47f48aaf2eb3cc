// The bytes of one chunk.
ghost use Rattle.std.specs.Prelude.{◌≡◌, ℕ, ◌+◌, ◌*◌, ◌/◌, ◌<◌, ◌≤◌, length, take};
ghost use Rattle.edit_ports.specs.Told.{Open, preceded};
ghost use Rattle.pcm_base.specs.Recordings.{numbered_part, samples_of_bytes};
ghost use Rattle.recorder_threads.specs.Blocks.{IsEndOf, block_course, mic_state};

use edit_ports::Source;
use pcm_base::{CHUNK_SAMPLES, Chunk, Failed};

/// How many bytes a block has at most: those of a whole chunk.
pub const BLOCK_BYTES: usize = 2 * CHUNK_SAMPLES;

/// Why a block has no more bytes.
#[derive(Clone, Copy, Debug, PartialEq, Eq)]
pub enum BlockEnd {
    Full,
    End,
    Fault,
}

/// How many bytes a block has, and why no more.
#[derive(Clone, Copy, Debug, PartialEq, Eq)]
pub struct Block {
    pub len: usize,
    pub end: BlockEnd,
}

/// Reads the next bytes, up to [`BLOCK_BYTES`]. After the end, or a read that failed, no other is made.
pub fn read_block<M: Source>(mic: &mut M, bytes: &mut [u8]) -> Block
    requires { length bytes.old ≡ BLOCK_BYTES }
    ensures bound { result.len ≤ BLOCK_BYTES }
    ensures read { M.left mic.old ≡ preceded (take result.len bytes.new) (M.left mic.new) }
    ensures end { IsEndOf result.end result.len (mic_state M.Source mic.old) (mic_state M.Source mic.new) }
    ensures goes { (first : M) → M.follows first Open mic.old → M.follows first (block_course result.end) mic.new }
{
    let mut len = 0;
    while len < BLOCK_BYTES {
        match mic.read(&mut bytes[len..]) {
            Ok(count) => {
                if count == 0 {
                    return Block {
                        len,
                        end: BlockEnd::End,
                    };
                }
                len += count;
            }
            Err(Failed) => {
                return Block {
                    len,
                    end: BlockEnd::Fault,
                };
            }
        }
    }
    Block {
        len,
        end: BlockEnd::Full,
    }
}

/// The chunk of these bytes.
pub fn chunk_of(number: u32, bytes: &[u8]) -> Chunk
    requires { length bytes.now ≤ BLOCK_BYTES }
    ensures { result ≡ numbered_part number (samples_of_bytes bytes.now) }
{
    let mut samples = [0i16; CHUNK_SAMPLES];
    let count = bytes.len() / 2;
    for i in 0..count {
        samples[i] = i16::from_le_bytes([bytes[2 * i], bytes[2 * i + 1]]);
    }
    Chunk::new(number, &samples[..count])
}
