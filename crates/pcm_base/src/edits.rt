// The choices that several lines have in common.
ghost use Rattle.std.specs.Prelude.{◌≡◌, ◌+◌, ◌<◌, ◌^◌};
ghost use Rattle.pcm_base.specs.Refusals.{placed_length};

/// What an edit makes of a range of one track.
#[derive(Clone, Copy, Debug, PartialEq, Eq)]
pub enum RangeEdit {
    /// What is after the range moves up.
    Delete,
    /// The cells become gaps.
    SplitDelete,
    /// The samples become 0.
    Silence,
    /// All outside of the range becomes gaps.
    Trim,
    /// The samples are scaled by a gain, from 0 to 1,048,576; 65,536 is unity.
    Gain { gain: u32 },
}

/// What becomes of the cells of a range that is cut.
#[derive(Clone, Copy, Debug, PartialEq, Eq)]
pub enum Removing {
    /// Those after them move to their place.
    Close,
    /// They become gaps.
    Leave,
}

/// What becomes of the cells from the place on to which others come.
#[derive(Clone, Copy, Debug, PartialEq, Eq)]
pub enum Placing {
    /// They move after the new ones.
    Insert,
    /// The new ones take their place, as many as there are.
    Cover,
}

impl Placing {
    /// What this many new cells at a place make of a track's length.
    pub fn length(self, at: u64, count: u64, track: u64) -> u64
        requires { at + count + track < 2 ^ 64 }
        ensures { result ≡ placed_length self at count track }
    {
        match self {
            Placing::Insert => track.max(at) + count,
            Placing::Cover => track.max(at + count),
        }
    }
}
