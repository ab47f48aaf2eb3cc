// Lists that commands, answers and devices carry.
ghost use Rattle.std.specs.Prelude.{◌≡◌};

use super::sound::{Cell, Frame, Scan, Side, TrackLine};
use std::marker::Model;

/// Values in order. Contracts see the list of them, and nothing of the vector that holds them.
#[derive(Debug, Drop)]
pub struct Items<T> {
    items: Vec<T>,
}

impl<T> Model for Items<T> {
    ghost use Rattle.std.specs.Prelude.{List};

    ghost Value = { List T };

    ghost view = { λ s. s.items.items };
}

impl<T> Items<T> {
    /// The values of a vector, which is taken over as it is.
    pub fn new(items: Vec<T>) -> Items<T>
        ensures { result ≡ items.items }
    {
        Items { items }
    }

    /// The values as a slice.
    pub fn as_slice(&self) -> &[T]
        ensures { result.now ≡ self.now }
    {
        self.items.as_slice()
    }

    /// The vector of the values, handed back as it is.
    pub fn into_vec(self) -> Vec<T>
        ensures { result.items ≡ self }
    {
        self.items
    }
}

/// The samples of a command, in order.
pub type Samples = Items<i16>;

/// The cells of an answer, in order.
pub type CellList = Items<Cell>;

/// The frames of an answer, in order.
pub type Frames = Items<Frame>;

/// What a scan of each column of an envelope finds, in order: nothing where all its cells are gaps.
pub type Columns = Items<Option<Scan>>;

/// What is told of tracks, in their order.
pub type TrackLines = Items<TrackLine>;

/// A stretch of a track that is heard: its gain, the sides on which it is heard, and a sample for each frame. A gap is
/// heard as a sample of 0, and so is what lies past the track's end.
#[derive(Debug, Drop)]
pub struct LoadedTrack {
    /// The gain.
    pub gain: u32,
    /// The sides.
    pub side: Side,
    /// The samples.
    pub samples: Samples,
}

/// Stretches of the tracks that are heard, in the order of the tracks.
pub type LoadedTracks = Items<LoadedTrack>;

/// Numbers, in order: of the calls of a device that are to fail, or of commits.
pub type Numbers = Items<u64>;

/// Bytes, in order.
pub type Bytes = Items<u8>;
