// The bytes of a line that has not ended yet.
ghost use Rattle.std.specs.Prelude.{◌≡◌, ◌<◌, ◌≤◌, [], ◌∷◌, ◌++◌, List, ℕ, length, IfOk, MatchOption, MatchBool};
ghost use Rattle.script_reader.specs.HeldLine.{Holds};

use script_text::MAX_LINE;
use std::alloc::{AllocError, Global};
use std::marker::Model;

/// A line as far as it has come. Its room is taken once, so it grows without memory.
#[derive(Drop)]
pub struct LineBuffer {
    bytes: Vec<u8>,
    long: bool,
}

impl Model for LineBuffer {
    ghost use Rattle.std.specs.Prelude.{◌≤◌, vec_len, vec_capacity};
    ghost use Rattle.script_text.specs.declared.parsing.TheConstants.{MAX_LINE};
    ghost use Rattle.script_reader.specs.HeldLine.{HeldLine};

    ghost Value = { HeldLine };

    ghost view = { λ s. record { bytes = s.bytes.items; long = s.long } };

    ghost invariant = { λ s. (MAX_LINE ≤ vec_capacity s.bytes) × (vec_len s.bytes ≤ MAX_LINE) };
}

impl LineBuffer {
    /// An empty line, with room for the longest one.
    pub fn new(alloc: Global) -> Result<LineBuffer, AllocError>
        ensures { IfOk result (λ line. Holds line []) }
    {
        let bytes = Vec::with_capacity(alloc, MAX_LINE)?;
        Ok(LineBuffer { bytes, long: false })
    }

    /// Adds bytes. Those of a line that is too long are not kept.
    pub fn extend(&mut self, bytes: &[u8])
        ensures { (part : List ℕ) → Holds self.old part → Holds self.new (part ++ bytes.now) }
    {
        if MAX_LINE - self.bytes.len() < bytes.len() {
            self.long = true;
        } else {
            let _ = self.bytes.extend_from_slice(bytes);
        }
    }

    /// Begins the next line.
    pub fn clear(&mut self)
        ensures { Holds self.new [] }
    {
        self.bytes.clear();
        self.long = false;
    }

    /// Whether nothing has come yet.
    pub fn is_empty(&self) -> bool
        ensures { (part : List ℕ) → Holds self.now part → MatchBool result (part ≡ []) (0 < length part) }
    {
        !self.long && self.bytes.is_empty()
    }

    /// The bytes, or nothing where they are too many for a line.
    pub fn get(&self) -> Option<&[u8]>
        ensures { MatchOption result
            ((part : List ℕ) → Holds self.now part → MAX_LINE < length part)
            (λ bytes. (length bytes.now ≤ MAX_LINE) × ((part : List ℕ) → Holds self.now part → part ≡ bytes.now)) }
    {
        if self.long {
            None
        } else {
            Some(self.bytes.as_slice())
        }
    }
}
