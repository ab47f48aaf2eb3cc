// Parts of files that are read together.

/// Samples of a file: `len` of 16 bits, little-endian, from the offset `at` on. They go to the place `to` of a buffer.
#[derive(Clone, Copy, Debug, PartialEq, Eq)]
pub struct Part {
    /// The file's number.
    pub file: u64,
    /// The offset of the first sample.
    pub at: u64,
    /// Where they go.
    pub to: usize,
    /// How many they are.
    pub len: usize,
}
