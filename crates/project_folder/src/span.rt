// Which bytes of a file were written and not synced since.
ghost use Rattle.std.specs.Prelude.{◌≤◌, ◌+◌};
ghost use Rattle.pcm_base.specs.declared.limits.TheConstants.{COUNTER_LIMIT};

use crate::plain::read_full;
use std::os::unix::fs::FileExt;

/// How many bytes are read and written at once.
const BUFFER_LEN: usize = 4096;

/// The bytes from one place to before another, and none where the first is not before the other.
#[derive(Clone, Copy)]
pub(crate) struct Span {
    pub(crate) from: u64,
    pub(crate) to: u64,
    ghost within: { to ≤ COUNTER_LIMIT },
}

impl Span {
    ghost use Rattle.project_folder.specs.Unsynced.{IsEmpty, Covers};

    // No byte.
    pub(crate) fn none() -> Span
        ensures { IsEmpty result }
    {
        Span {
            from: u64::MAX,
            to: 0,
        }
    }

    // The least span that has its bytes and `count` more at a place.
    pub(crate) fn widen(self, at: u64, count: usize) -> Span
        requires { at + count ≤ COUNTER_LIMIT }
        ensures old { Covers result self.from self.to }
        ensures new { Covers result at (at + count) }
    {
        Span {
            from: self.from.min(at),
            to: self.to.max(at + count as u64),
        }
    }

    // Writes the bytes of the span again as the file reads there, as far as it can be read and written.
    pub(crate) fn write_again<F: FileExt>(self, file: &F) {
        let mut buf = [0u8; BUFFER_LEN];
        let mut at = self.from;
        while at < self.to {
            let count = (self.to - at).min(BUFFER_LEN as u64) as usize;
            if let Ok(read) = read_full(file, at, &mut buf[..count]) {
                let _ = file.write_all_at(&buf[..read], at);
            }
            at += count as u64;
        }
    }
}
