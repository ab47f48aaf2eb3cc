// What a store in memory keeps of each call that changed it.

/// What a call did to its file.
#[derive(Clone, Copy, Debug, PartialEq, Eq)]
pub enum Kind {
    /// It wrote bytes.
    Write,
    /// It waited until the file was on the disk.
    Sync,
    /// It removed the file.
    Remove,
}

/// A write has its offset in the file, and its bytes stand in the store's row of bytes, from an index on.
#[derive(Clone, Copy, Debug, PartialEq, Eq)]
pub struct Call {
    pub kind: Kind,
    pub file: u64,
    pub at: u64,
    pub from: usize,
    pub len: usize,
}
