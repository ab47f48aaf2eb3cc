// The frames of a block: how many samples one has, and how many there are at most.

/// How many samples a frame of the long level has, but for a block's last.
pub const LONG_FRAME: u32 = 65_536;

/// The most frames of 256 samples that a block has.
pub(crate) const MAX_SHORT_FRAMES: usize = 1024;

/// The most frames of 65,536 samples that a block has.
pub(crate) const MAX_LONG_FRAMES: usize = 4;
