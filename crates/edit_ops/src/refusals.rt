// The tests that refuse an edit. Each is passed, or answers its reason.
ghost use Rattle.std.specs.Prelude.{[], ◌∷◌};
ghost use Rattle.pcm_base.specs.Refusals.{bad_range, length_limit};
ghost use Rattle.edit_ops.specs.Plans.{Passes};

use pcm_base::{MAX_CELLS, Refusal};

/// A range is valid in a list of this length.
pub fn range(from: u64, to: u64, len: u64) -> Result<(), Refusal>
    ensures { Passes (bad_range from to len) result }
{
    if from < to && to <= len {
        Ok(())
    } else {
        Err(Refusal::BadRange)
    }
}

/// A track may have this many cells.
pub fn length(len: u64) -> Result<(), Refusal>
    ensures { Passes (length_limit (len ∷ [])) result }
{
    if len > MAX_CELLS {
        Err(Refusal::LengthLimit { len })
    } else {
        Ok(())
    }
}
