// Which of what is pending a stop takes.
ghost use Rattle.std.specs.Prelude.{◌≡◌};
ghost use Rattle.memory_disk.specs.Images.{next_state, takes};

// All (choice 0), nothing (choice 1), or some, drawn by a generator.
#[derive(Drop)]
pub(crate) struct Draws {
    pub(crate) choice: u64,
    pub(crate) state: u64,
}

impl Draws {
    // Draws once, and says whether that is taken.
    pub(crate) fn takes(&mut self) -> bool
        ensures result { result ≡ takes self.old.choice (next_state self.old.state) }
        ensures state { self.new.state ≡ next_state self.old.state }
        ensures choice { self.new.choice ≡ self.old.choice }
    {
        self.state = next(self.state);
        match self.choice {
            0 => true,
            1 => false,
            _ => (self.state >> 33) % 2 == 1,
        }
    }
}

// The generator's next state.
fn next(state: u64) -> u64
    ensures { result ≡ next_state state }
{
    state
        .wrapping_mul(6364136223846793005)
        .wrapping_add(1442695040888963407)
}
