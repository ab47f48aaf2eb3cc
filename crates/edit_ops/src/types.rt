// Plans.
use block_sequence::{Laid, Pieces};
use clip_track::{Kept, Layout, Strip};
use pcm_base::Items;

/// A block that is to be written: its id, how many samples it has, and the pieces that they come from.
#[derive(Drop)]
pub struct NewBlock {
    pub id: u64,
    /// From 1 to the block size of the plan.
    pub len: u32,
    pub pieces: Pieces,
}

/// New blocks, in the order of their ids.
pub type NewBlocks = Items<NewBlock>;

/// What an edit makes of a track: its new layout, the blocks that are to be written before it holds, the id that the
/// next new block would get, and how many old blocks stay as they are at both ends.
#[derive(Drop)]
pub struct Plan {
    pub layout: Layout,
    pub makes: NewBlocks,
    pub next: u64,
    pub kept: Kept,
}

/// A clip that is laid out, before its new blocks have ids.
#[derive(Drop)]
pub struct LaidClip {
    pub start: u64,
    pub laid: Vec<Laid>,
}

/// What is copied or cut, a strip for each track of a run.
pub type Strips = Items<Strip>;

/// A plan for each track of a run, in the project's order.
pub type Plans = Items<Plan>;
