// Where the generator stands.
ghost use Rattle.std.specs.Prelude.{◌≡◌};
ghost use Rattle.script_gen.specs.Script.{first_place};

/// What it knows between two lines.
#[derive(Clone, Copy)]
pub struct Place {
    /// The state of the draws.
    pub state: u64,
    /// How many cells track 1 has.
    pub len: u64,
    /// How many cells the clipboard has, 0 where nothing was copied.
    pub copied: u64,
    /// Whether the last line was `undo`, which is followed by its `redo`.
    pub undone: bool,
}

impl Place {
    /// Behind the first two lines, with a number as the first state.
    pub fn first(number: u64) -> Place
        ensures { result ≡ first_place number }
    {
        Place {
            state: number,
            len: 1000,
            copied: 0,
            undone: false,
        }
    }
}
