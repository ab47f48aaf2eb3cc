// What words ask for.

/// What a new project is made of.
#[derive(Clone, Copy, Debug, PartialEq, Eq)]
pub struct NewProject {
    /// In samples a second, from 1 to 4,294,967,295.
    pub rate: u32,
    /// How many samples a block has at most: even, from 4 to 262,144.
    pub block_size: u32,
    /// How many points the history keeps: from 1 to 65,536.
    pub depth: u32,
}

/// What the program is asked to do.
#[derive(Clone, Copy, Debug, PartialEq, Eq)]
pub enum Words {
    /// Make a project.
    New(NewProject),
    /// Run a script on the project, and whether it is recorded and played beside it.
    Run { records: bool, plays: bool },
    /// Run a script on a fresh project in memory.
    Try,
    /// Show the project.
    List,
    /// Scan the blocks of the project again.
    Check,
    /// Make the script of this number, of 2 to 4,096 lines, and run it in memory.
    Gen { number: u64, lines: u32 },
}

/// Why words were not read.
#[derive(Clone, Copy, Debug, PartialEq, Eq)]
pub enum WordsFault {
    /// They are no command.
    Usage,
    /// There was no memory to read them.
    NoMemory,
}
