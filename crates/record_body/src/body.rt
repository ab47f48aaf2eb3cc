// What a record of the journal says.
use project_state::Point;

/// What a record of the journal says.
#[derive(Drop)]
pub enum Body {
    /// The project became this point. The tag is 0 for an edit, and for a piece the number of its recording; the next
    /// block and the next track are the ids that were not given yet.
    Edit {
        tag: u64,
        next_block: u64,
        next_track: u64,
        point: Point,
    },
    /// The history went back by one point.
    Undo,
    /// The history went forth by one point.
    Redo,
    /// This many of the oldest points were dropped.
    Purge {
        n: u64,
    },
}
