//! The points at which threads pass a gate.

/// Before a line of the script.
pub const BEFORE_LINE: u32 = 1;

/// After the answer to a line is written.
pub const AFTER_ANSWER: u32 = 2;

/// Before a chunk is pushed into the recorder's ring.
pub const BEFORE_PUSH: u32 = 3;

/// After a recorded piece was offered.
pub const AFTER_PIECE: u32 = 4;

/// After a push of frames into the player's ring.
pub const AFTER_PUSH: u32 = 5;

/// After frames were taken from the player's ring.
pub const AFTER_TAKE: u32 = 6;
