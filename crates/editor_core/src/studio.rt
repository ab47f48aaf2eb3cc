// The studio.
use super::buffers::BlockBuffers;
use block_cache::BlockReader;
use disk_model::Store;
use edit_ops::Strips;
use editor_state::Pin;
use layout_uses::Tally;
use project_state::Point;
use undo_history::History;

/// The editor of one project on a store.
#[derive(Drop)]
pub struct Studio<S: Store> {
    /// The store, and pages of its blocks that were read.
    pub(crate) reader: BlockReader<S>,
    pub(crate) history: History<Point>,
    pub(crate) clipboard: Option<Strips>,
    pub(crate) pins: Vec<Pin>,
    /// How often each layout is used, and how often each block is named.
    pub(crate) tally: Tally,
    pub(crate) next_block: u64,
    pub(crate) next_track: u64,
    pub(crate) next_pin: u64,
    /// The number that the next new layout gets.
    pub(crate) next_layout: u64,
    pub(crate) commit_number: u64,
    /// The journal's file, and the version and generation that its header has.
    pub(crate) file: u64,
    pub(crate) version: u32,
    pub(crate) generation: u64,
    pub(crate) journal_end: u64,
    /// The count of the disk's faults at which a failed change stopped it.
    pub(crate) stopped: Option<u64>,
    /// How many frames there are in a second.
    pub(crate) rate: u32,
    /// The body of a record, and the row of the journal that it is written by.
    pub(crate) body: Vec<u8>,
    pub(crate) row: Vec<u8>,
    /// What a block is made in. They say how many samples a block has at most.
    pub(crate) buffers: BlockBuffers,
}
