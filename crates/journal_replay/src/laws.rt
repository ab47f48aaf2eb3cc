// Laws, each the contract of a function that does nothing.
ghost use Rattle.journal_replay.specs.Laws.{NoValidRecordIsRefused};

/// Records that lead to a project have no fault.
pub fn records_that_lead_have_no_fault()
    ensures { NoValidRecordIsRefused }
{}
