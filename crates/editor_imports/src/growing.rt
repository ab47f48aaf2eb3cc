// A project that grows by tracks.
use edit_ops::NewBlock;
use project_state::Point;

/// The project that grows track by track, the blocks that are to be made for it, the id of the next block after them,
/// and how many samples the tracks so far have: this many of those that are brought are spoken for. And the number that
/// the next layout gets.
#[derive(Drop)]
pub struct Growing {
    pub point: Point,
    pub makes: Vec<NewBlock>,
    pub next: u64,
    pub brought: u64,
    /// The number of the next layout.
    pub number: u64,
}
