// The summary of a stretch of samples, and of two that follow one another.
ghost use Rattle.std.specs.Prelude.{◌≡◌, ◌≤◌, ◌^◌, ◌+◌, ◌++◌, length, List, ℤ, fold};
ghost use Rattle.std.specs.Int.{int_min, int_max};
ghost use Rattle.peak_summary.specs.Peaks.{summary_of, scanned, joined, AreSamples};

use super::squares::sum_of_squares;

/// What is known of a stretch of samples. A summary of nothing has the count 0.
#[derive(Clone, Copy, Debug, PartialEq, Eq)]
pub struct Summary {
    /// The least sample, from -32,768 to 32,767.
    pub min: i16,
    /// The greatest sample, from -32,768 to 32,767.
    pub max: i16,
    /// The sum of the squares of the samples.
    pub squares: u64,
    /// How many samples there are.
    pub count: u64,
}

/// The summary of no samples.
pub const NOTHING: Summary = Summary {
    min: 0,
    max: 0,
    squares: 0,
    count: 0,
};

/// Each of them fits 16 bits, which their type says and a contract does not know by itself. It compiles to nothing.
pub fn all_fit(samples: &[i16])
    ensures { AreSamples samples.now }
{
    for s in samples {
        let _sample = *s;
    }
}

/// The least and the greatest of the samples and a first one.
fn extremes(first: i16, samples: &[i16]) -> (i16, i16)
    ensures min { result.0 ≡ fold int_min first samples.now }
    ensures max { result.1 ≡ fold int_max first samples.now }
{
    let mut min = first;
    let mut max = first;
    for s in samples {
        min = min.min(*s);
        max = max.max(*s);
    }
    (min, max)
}

// As `of`, whose other clause is a law on what this one says.
fn measured(samples: &[i16]) -> Summary
    requires { length samples.now ≤ 2 ^ 32 }
    ensures { result ≡ summary_of samples.now }
{
    let first = if samples.is_empty() { 0 } else { samples[0] };
    let (min, max) = extremes(first, samples);
    Summary {
        min,
        max,
        squares: sum_of_squares(samples),
        count: samples.len() as u64,
    }
}

/// The summary of at most 2^32 samples. Of none, each of its numbers is 0.
pub fn of(samples: &[i16]) -> Summary
    requires { length samples.now ≤ 2 ^ 32 }
    ensures exact { result ≡ summary_of samples.now }
    // It is a fold of the samples, one by one.
    ensures scan { result ≡ scanned samples.now }
{
    measured(samples)
}

/// The summary of two stretches that follow one another. Any two are taken: where a sum would pass the end of its
/// type, it stands still there, which no two stretches of together at most 2^32 samples reach.
pub fn join(a: Summary, b: Summary) -> Summary
    ensures exact { result ≡ joined a b }
    ensures law { (xs ys : List ℤ) → AreSamples xs → AreSamples ys → length xs + length ys ≤ 2 ^ 32
        → a ≡ summary_of xs → b ≡ summary_of ys → result ≡ summary_of (xs ++ ys) }
{
    added(a, b)
}

// As `join`, whose other clause is a law on what this one says.
fn added(a: Summary, b: Summary) -> Summary
    ensures { result ≡ joined a b }
{
    if a.count == 0 {
        return b;
    }
    if b.count == 0 {
        return a;
    }
    Summary {
        min: a.min.min(b.min),
        max: a.max.max(b.max),
        squares: a.squares.saturating_add(b.squares),
        count: a.count.saturating_add(b.count),
    }
}
