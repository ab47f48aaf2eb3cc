// A place in a track.

/// Where in a track samples are put in: at a place, to which a shorter track is continued by gaps, or at its end.
#[derive(Clone, Copy)]
pub enum Place {
    At { at: u64 },
    End,
}
