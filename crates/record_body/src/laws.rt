// Laws, each the contract of a function that does nothing.
ghost use Rattle.record_body.specs.Laws.{KeepsOne, PackedIsSaved, ChoiceTellsTheTrack, SameStays, FewestGo};
ghost use Rattle.record_body.specs.Laws.{WrittenIsRead, BatchesLead, PassedIsNext};

/// A disk keeps one project at most.
pub fn disks_keep_one_project()
    ensures { KeepsOne }
{}

/// A journal and the one into which it was put, as a header alone, are one project.
pub fn a_packed_journal_keeps_its_project()
    ensures { PackedIsSaved }
{}

/// What the writer takes for a track says that track. A track that stays is written as the same. And whoever says one
/// by the end of its last clip lets at least as many blocks go.
pub fn the_writer_tells_each_track()
    ensures tells { ChoiceTellsTheTrack }
    ensures same { SameStays }
    ensures fewest { FewestGo }
{}

/// A valid body that is written by the current point passes the tests of a reader, and its bytes say that body.
pub fn what_is_written_is_read()
    ensures { WrittenIsRead }
{}

/// What bytes say by a valid point may come next, where they pass their tests and the history has room for it.
pub fn what_passes_may_come_next()
    ensures { PassedIsNext }
{}

/// Records of pieces that come together, all but the last of which say the current point, lead to the point of the
/// last.
pub fn batches_lead()
    ensures { BatchesLead }
{}
