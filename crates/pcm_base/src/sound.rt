// What a track is made of, and where it is heard.

/// What a track has at a place: a gap, or a sample of 16 bits.
#[derive(Clone, Copy, Debug, PartialEq, Eq)]
pub enum Cell {
    /// Nothing is there. It is heard as silence, but is not the sample 0.
    Gap,
    /// A sample, from -32,768 to 32,767.
    Sample(i16),
}

/// The sides of the mix on which a track is heard.
#[derive(Clone, Copy, Debug, PartialEq, Eq)]
pub enum Side {
    Both,
    Left,
    Right,
}

/// What is told of a track.
#[derive(Clone, Copy, Debug, PartialEq, Eq)]
pub struct TrackLine {
    pub id: u64,
    /// From 0 to 1,048,576; 65,536 is unity.
    pub gain: u32,
    pub side: Side,
    pub mute: bool,
    /// The number of its cells.
    pub len: u64,
}

/// A frame of the mix: what is heard on each side.
#[derive(Clone, Copy, Debug, PartialEq, Eq)]
pub struct Frame {
    pub left: i16,
    pub right: i16,
}

/// What a scan of cells finds, where at least one is a sample.
#[derive(Clone, Copy, Debug, PartialEq, Eq)]
pub struct Scan {
    /// The least sample.
    pub min: i16,
    /// The greatest sample.
    pub max: i16,
    /// The sum of the squares of the samples.
    pub squares: u64,
    /// The number of samples.
    pub count: u64,
}
