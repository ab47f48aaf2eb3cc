// Tests of single numbers.
ghost use Rattle.std.specs.Prelude.{◌≡◌, ◌-◌};
ghost use Rattle.record_body.specs.FirstFault as test;

use super::limits::Before;
use project_journal::Damaged;

/// A number that has to be another one.
pub(crate) fn wanted(at: u64, want: u64, have: u64) -> Damaged
    ensures { result ≡ record { at = at; want = want; have = have } }
{
    Damaged {
        at,
        want: want as u128,
        have: have as u128,
    }
}

/// A number that has to be at least a bound.
pub(crate) fn least(at: u64, bound: u64, have: u64) -> Damaged
    ensures { result ≡ test.least at bound have }
{
    wanted(at, bound.max(have), have)
}

/// A number that has to be at most a bound.
pub(crate) fn most(at: u64, bound: u64, have: u64) -> Damaged
    ensures { result ≡ test.most at bound have }
{
    wanted(at, bound.min(have), have)
}

/// The place in the file of a place in the body.
pub(crate) fn place(base: u64, at: usize) -> u64
    ensures { result ≡ test.place base at }
{
    base.saturating_add(at as u64)
}

/// The length of a body, or of a point: a number in the 4 bytes before it, which has to be what the fields ask.
pub(crate) fn length(before: Before, asked: usize, len: usize) -> Damaged
    ensures { result ≡ record { at = before.at - 4; want = asked; have = len } }
{
    wanted(before.at.saturating_sub(4), asked as u64, len as u64)
}
