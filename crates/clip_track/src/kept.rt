// How many blocks of a track an edit leaves as they are.
ghost use Rattle.std.specs.Prelude.{◌≡◌};

/// How many blocks of a track's old layout its new one begins with, and with how many of them it ends.
#[derive(Clone, Copy)]
pub struct Kept {
    pub front: usize,
    pub back: usize,
}

impl Kept {
    /// Of no block is it said that it stays.
    pub fn none() -> Kept
        ensures front { result.front ≡ 0 }
        ensures back { result.back ≡ 0 }
    {
        Kept { front: 0, back: 0 }
    }
}
