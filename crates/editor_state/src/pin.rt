// A pin.
use project_state::Point;

/// A project that is kept as it was, by its number.
#[derive(Drop)]
pub struct Pin {
    pub number: u64,
    pub point: Point,
}
