// Stretches of tracks, in memory.
ghost use Rattle.std.specs.Prelude.{◌≡◌, [], length, OnOk};
ghost use Rattle.mixdown.specs.Loads.{IsLoaded};

use pcm_base::Side;
use std::alloc::Global;

/// A stretch of the tracks of a project that are heard. Each has its gain, its side, and its samples from a place on:
/// one for each frame, 0 in a gap and past the track's end. The memory that one load took serves the next.
#[derive(Debug, Drop)]
pub struct Loaded {
    /// How many frames it has.
    pub len: usize,
    /// The samples of the tracks, one track after the other. Others may follow them.
    pub samples: Vec<i16>,
    /// The gain of each track, and its side.
    pub gains: Vec<u32>,
    pub sides: Vec<Side>,
}

impl Loaded {
    /// A stretch of no track and no frame. It takes no memory.
    pub fn new(alloc: Global) -> Loaded
        ensures loaded { IsLoaded result }
        ensures len { result.len ≡ 0 }
    {
        Loaded {
            len: 0,
            samples: Vec::new(alloc),
            gains: Vec::new(alloc),
            sides: Vec::new(alloc),
        }
    }
}
