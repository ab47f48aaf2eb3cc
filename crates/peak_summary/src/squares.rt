// The sum of the squares of samples, eight at a time.
ghost use Rattle.std.specs.Prelude.{◌≡◌, ◌≤◌, ◌<◌, ◌^◌, ◌+◌, ◌*◌, length, map, take, sum_by, ℕ};
ghost use Rattle.peak_summary.specs.Peaks.{square as square_of, AreSamples};
ghost use Rattle.std.specs.Simd.Lanes.{sum_l};
ghost use Rattle.peak_summary.specs.Lanes.{AreAtMost, HasGrown};

use super::stretch::all_fit;
use std::simd::prelude::*;

/// The squares of eight samples.
fn eight_squares(samples: &[i16]) -> u32x8
    requires eight { length samples.now ≡ 8 }
    requires fit { AreSamples samples.now }
    ensures value { result ≡ map square_of samples.now }
    ensures bound { AreAtMost (2 ^ 30) result }
{
    let wide = i16x8::from_slice(samples).cast::<i32>();
    wide.strict_mul(wide).cast::<u32>()
}

/// The lanes added, each two neighbours.
fn neighbours(lanes: u32x8) -> u32x4
    requires bound { AreAtMost (2 ^ 30) lanes }
    requires eight { length lanes ≡ 8 }
    ensures sum { sum_l result ≡ sum_l lanes }
    ensures bound { AreAtMost (2 ^ 31) result }
    ensures four { length result ≡ 4 }
{
    let first = lanes.swizzle::<4>([0, 2, 4, 6]);
    let second = lanes.swizzle::<4>([1, 3, 5, 7]);
    first.strict_add(second)
}

/// The low 16 bits of each lane, and those above them.
fn halves(lanes: u32x4) -> (u32x4, u32x4)
    requires bound { AreAtMost (2 ^ 31) lanes }
    requires four { length lanes ≡ 4 }
    ensures low { AreAtMost (2 ^ 16) result.0 }
    ensures high { AreAtMost (2 ^ 16) result.1 }
    ensures four { (length result.0 ≡ 4) × (length result.1 ≡ 4) }
    ensures value { sum_l result.0 + 2 ^ 16 * sum_l result.1 ≡ sum_l lanes }
{
    (lanes & u32x4::splat(0xFFFF), lanes >> 16)
}

/// The sum of lanes that are small.
fn lane_sum(lanes: u32x4) -> u32
    requires bound { AreAtMost (2 ^ 22) lanes }
    requires four { length lanes ≡ 4 }
    ensures value { result ≡ sum_l lanes }
    ensures bound { result ≤ 2 ^ 24 }
{
    lanes.strict_reduce_sum()
}

/// What the halves of sums stand for, which are small.
fn both_halves(low: u32x4, high: u32x4) -> u64
    requires low { AreAtMost (2 ^ 22) low }
    requires high { AreAtMost (2 ^ 22) high }
    requires four { (length low ≡ 4) × (length high ≡ 4) }
    ensures { result ≡ sum_l low + 2 ^ 16 * sum_l high }
{
    u64::from(lane_sum(low)) + 65536 * u64::from(lane_sum(high))
}

/// Adds the squares of eight samples to the sums, of which there are two for each lane: of low halves, and of high
/// ones. The sum of more than two squares does not fit 32 bits.
fn add_eight(low: u32x4, high: u32x4, samples: &[i16]) -> (u32x4, u32x4)
    requires eight { length samples.now ≡ 8 }
    requires fit { AreSamples samples.now }
    requires bound { AreAtMost (2 ^ 30) low × AreAtMost (2 ^ 30) high }
    requires four { (length low ≡ 4) × (length high ≡ 4) }
    ensures sum { HasGrown (2 ^ 16) low high samples.now result.0 result.1 }
    ensures bound { (n : ℕ) → AreAtMost n low → AreAtMost n high
        → AreAtMost (n + 2 ^ 16) result.0 × AreAtMost (n + 2 ^ 16) result.1 }
    ensures four { (length result.0 ≡ 4) × (length result.1 ≡ 4) }
{
    let (more_low, more_high) = halves(neighbours(eight_squares(samples)));
    (low.strict_add(more_low), high.strict_add(more_high))
}

/// As `add_eight`, of 32 samples.
fn add_more(low: u32x4, high: u32x4, samples: &[i16]) -> (u32x4, u32x4)
    requires count { length samples.now ≡ 32 }
    requires fit { AreSamples samples.now }
    requires bound { AreAtMost (2 ^ 29) low × AreAtMost (2 ^ 29) high }
    requires four { (length low ≡ 4) × (length high ≡ 4) }
    ensures sum { HasGrown (2 ^ 16) low high samples.now result.0 result.1 }
    ensures bound { (n : ℕ) → AreAtMost n low → AreAtMost n high
        → AreAtMost (n + 2 ^ 18) result.0 × AreAtMost (n + 2 ^ 18) result.1 }
    ensures four { (length result.0 ≡ 4) × (length result.1 ≡ 4) }
{
    let (low, high) = add_eight(low, high, &samples[..8]);
    let (low, high) = add_eight(low, high, &samples[8..16]);
    let (low, high) = add_eight(low, high, &samples[16..24]);
    add_eight(low, high, &samples[24..])
}

/// The sum of the squares of whole parts of 32 samples, of which there are at most eight.
fn parts_squares(samples: &[i16], parts: usize) -> u64
    requires few { parts ≤ 8 }
    requires within { 32 * parts ≤ length samples.now }
    requires fit { AreSamples samples.now }
    ensures { result ≡ sum_by square_of (take (32 * parts) samples.now) }
{
    let mut low = u32x4::splat(0);
    let mut high = u32x4::splat(0);
    for i in 0..parts {
        (low, high) = add_more(low, high, &samples[32 * i..32 * i + 32]);
    }
    both_halves(low, high)
}

/// The sum of the squares of 256 samples.
fn chunk_squares(samples: &[i16]) -> u64
    requires count { length samples.now ≡ 256 }
    requires fit { AreSamples samples.now }
    ensures { result ≡ sum_by square_of samples.now }
{
    parts_squares(samples, 8)
}

/// The square of a sample.
fn square(sample: i16) -> u32
    ensures value { result ≡ square_of sample }
    ensures bound { result ≤ 2 ^ 30 }
{
    let wide = i32::from(sample);
    (wide * wide).cast_unsigned()
}

/// The sum of the squares of a few samples, one by one.
fn last_squares(samples: &[i16]) -> u64
    requires { length samples.now ≤ 256 }
    ensures { result ≡ sum_by square_of samples.now }
{
    let mut sum = 0u64;
    for s in samples {
        sum += u64::from(square(*s));
    }
    sum
}

/// The sum of the squares of samples that are no whole chunk: of parts of 32, and of what is left after them.
fn few_squares(samples: &[i16]) -> u64
    requires few { length samples.now ≤ 256 }
    requires fit { AreSamples samples.now }
    ensures { result ≡ sum_by square_of samples.now }
{
    let parts = samples.len() / 32;
    parts_squares(samples, parts) + last_squares(&samples[32 * parts..])
}

/// The sum of the squares of whole chunks of 256 samples.
fn chunks_squares(samples: &[i16], chunks: usize) -> u64
    requires few { length samples.now ≤ 2 ^ 32 }
    requires within { 256 * chunks ≤ length samples.now }
    requires fit { AreSamples samples.now }
    ensures value { result ≡ sum_by square_of (take (256 * chunks) samples.now) }
    ensures bound { result ≤ 2 ^ 62 }
{
    let mut sum = 0;
    for i in 0..chunks {
        sum += chunk_squares(&samples[256 * i..256 * i + 256]);
    }
    sum
}

/// The sum of the squares.
pub(crate) fn sum_of_squares(samples: &[i16]) -> u64
    requires { length samples.now ≤ 2 ^ 32 }
    ensures { result ≡ sum_by square_of samples.now }
{
    all_fit(samples);
    let chunks = samples.len() / 256;
    chunks_squares(samples, chunks) + few_squares(&samples[256 * chunks..])
}
