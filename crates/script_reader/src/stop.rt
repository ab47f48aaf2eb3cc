// Why a script stops.

/// What stopped a script.
#[derive(Clone, Copy, Debug, PartialEq, Eq)]
pub enum Stop {
    /// The script was read to its end.
    End,
    /// Its source failed.
    SourceFault,
    /// 2^32 of its bytes were read, and it had not ended.
    Limit,
    /// The output failed.
    OutFault,
}
