// The bounds, from the fresh studio on.
ghost use Rattle.model_laws.specs.Laws.{CarryingOutIsBounded, CommitsAreCounted, FreshIsBounded, ReachedIsBounded};
ghost use Rattle.model_laws.specs.Laws.{BatchesArePieces, RunsAreBounded, StepsAreBounded};

/// The fresh studio is within the bounds, where its rate, block size and depth are within theirs.
pub fn fresh_is_bounded()
    ensures { FreshIsBounded }
{}

/// A call in form that is carried out keeps the bounds.
pub fn carrying_out_is_bounded()
    ensures { CarryingOutIsBounded }
{}

/// Each step of a call in form keeps the bounds, whatever it answers.
pub fn steps_are_bounded()
    ensures { StepsAreBounded }
{}

/// The commit number rises by what the call needs of it where the call is carried out, and stays where it is refused.
pub fn commits_are_counted()
    ensures { CommitsAreCounted }
{}

/// A run whose calls are in form where they are asked keeps the bounds.
pub fn runs_are_bounded()
    ensures { RunsAreBounded }
{}

/// Any studio that such a run reaches from a fresh one is within the bounds.
pub fn reached_is_bounded()
    ensures { ReachedIsBounded }
{}

/// Samples of a recording that come at once are a run of their pieces, one after another.
pub fn batches_are_pieces()
    ensures { BatchesArePieces }
{}
