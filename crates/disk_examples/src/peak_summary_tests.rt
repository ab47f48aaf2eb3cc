// Joins of summaries that are worked by hand. The last is of more samples than a project has.
use peak_summary::{NOTHING, Summary, join};

pub(crate) const fn summary(min: i16, max: i16, squares: u64, count: u64) -> Summary {
    Summary {
        min,
        max,
        squares,
        count,
    }
}

fn are_same(one: Summary, other: Summary) -> bool {
    one.min == other.min
        && one.max == other.max
        && one.squares == other.squares
        && one.count == other.count
}

#[test]
fn joins(rt: HostRuntime) {
    let some = summary(-2, 1, 5, 2);
    let full = summary(-7, 0, u64::MAX, u64::MAX);
    assert!(rt; are_same(join(NOTHING, some), some));
    assert!(rt; are_same(join(some, NOTHING), some));
    assert!(rt; are_same(join(some, summary(3, 4, 25, 2)), summary(-2, 4, 30, 4)));
    assert!(rt; are_same(join(some, full), summary(-7, 1, u64::MAX, u64::MAX)));
}
