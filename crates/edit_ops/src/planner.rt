// What an edit is planned with.
ghost use Rattle.std.specs.Prelude.{◌≤◌, ◌<◌, ◌^◌};
ghost use Rattle.pcm_base.specs.declared.limits.TheConstants.{COUNTER_LIMIT};

use std::alloc::Global;

/// What the edit of one track is planned with.
#[derive(Clone, Copy)]
pub struct Planner {
    /// Where the plan takes its memory.
    pub alloc: Global,
    /// How many samples a block has at most.
    pub block_size: u32,
    /// The id that the first new block gets.
    pub next: u64,
    pub ghost some: { 0 < block_size },
    pub ghost room: { next < 2 ^ 63 },
}

/// What the edit of a run of tracks is planned with: it has ids enough for each track that a run may have.
#[derive(Clone, Copy)]
pub struct RunPlanner {
    /// Where the plans take their memory.
    pub alloc: Global,
    /// How many samples a block has at most.
    pub block_size: u32,
    /// The id that the first new block of the first track gets.
    pub next: u64,
    pub ghost some: { 0 < block_size },
    pub ghost room: { next ≤ COUNTER_LIMIT },
}
