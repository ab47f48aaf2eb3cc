// The limits of the editor, and its fixed numbers: each has its one home here.

/// No counter passes it: ids of blocks and of tracks, commit numbers, numbers of pins, places in the journal, and turns.
pub const COUNTER_LIMIT: u64 = 1 << 62;

/// How many cells a track has at most.
pub const MAX_CELLS: u64 = 1 << 32;

/// How many tracks a project has at most, and the clipboard lists.
pub const MAX_TRACKS: usize = 64;

/// The greatest gain.
pub const MAX_GAIN: u32 = 1_048_576;

/// The gain that leaves a sample as it is.
pub const UNITY_GAIN: u32 = 65_536;

/// How many samples a ramp has at most.
pub const MAX_RAMP: u32 = 1_048_576;

/// How many cells, frames or columns are shown by one line at most.
pub const MAX_VIEW: u64 = 4096;

/// How many frames of a pin's tracks are loaded at once at most.
pub const MAX_LOADED: usize = 65_536;

/// How many points a history keeps at most.
pub const MAX_DEPTH: u32 = 65_536;

/// And at most in a journal of version 1 or 2.
pub const OLD_DEPTH: u32 = 4096;

/// How many bits a sample has.
pub const SAMPLE_WIDTH: u32 = 16;

/// How many samples a block has at most.
pub const MAX_BLOCK_SAMPLES: u32 = 262_144;

/// The id of the first block.
pub const FIRST_BLOCK: u64 = 16;

/// The place in the journal of a new project where its records begin.
pub const FIRST_RECORD: u64 = 80;

/// No journal ends before this place: there the records of version 1 begin.
pub const LEAST_END: u64 = 32;

/// The longest body of a record.
pub const LONGEST_BODY: u64 = 4_294_901_760;
