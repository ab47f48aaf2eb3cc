// Laws, each the contract of a function that does nothing.
ghost use Rattle.editor_recovery.specs.Laws.{HasOneFault};
ghost use Rattle.editor_recovery.specs.StayingHonest.{CallsStayHonest, ImagesAreHonest};

use disk_model::Store;

/// One disk has at most one fault to report.
pub fn a_disk_has_one_fault()
    ensures { HasOneFault }
{}

/// A call of a studio leaves an honest disk honest as long as the studio goes on, and at any moment each image is one
/// of an honest disk: where it alone is on a disk, that disk is honest.
pub fn calls_stay_honest<S: Store>()
    ensures calls { CallsStayHonest S.Store }
    ensures images { ImagesAreHonest S.Store }
{}
