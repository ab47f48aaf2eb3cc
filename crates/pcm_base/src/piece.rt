// Pieces of sound, by where their samples come from.
use super::block::BlockRef;

/// Some samples, one after another. Places within a block, and within the samples that a command brings, count
/// from 0; `from` is the first sample, `to` the one after the last.
#[derive(Clone, Copy, Debug, PartialEq, Eq)]
pub enum Piece {
    /// A part of a block, as it is.
    Old {
        block: BlockRef,
        from: u32,
        to: u32,
    },
    /// A part of a block under a gain, where 65,536 is unity, each sample limited to 16 bits.
    Scaled {
        block: BlockRef,
        from: u32,
        to: u32,
        gain: u32,
    },
    /// So many samples 0.
    Zero {
        len: u64,
    },
    /// A part of the samples that the command brings.
    Given {
        from: u64,
        to: u64,
    },
}
