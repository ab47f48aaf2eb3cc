// A range of a run of tracks.

/// The cells of as many tracks as `count`, from a track on, from one place to another.
#[derive(Clone, Copy)]
pub struct RunRange {
    pub track: u64,
    pub count: u64,
    pub from: u64,
    pub to: u64,
}
