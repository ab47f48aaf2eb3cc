// The plan of an edit.
use clip_track::Kept;
use edit_ops::{NewBlocks, Strips};
use project_state::Point;

/// A new point, the blocks that are to be made for it, the id of the next block after them, how many track ids and
/// layout numbers it gives, and what it puts into the clipboard, if anything. And how many blocks of its old layout
/// each track has at both ends that gets a new one.
pub struct Planned {
    pub point: Point,
    pub makes: NewBlocks,
    pub next: u64,
    pub tracks: u64,
    pub layouts: u64,
    pub clip: Option<Strips>,
    pub kept: Kept,
}
