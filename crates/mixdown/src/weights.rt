// What a sample adds to a sum.
ghost use Rattle.std.specs.Prelude.{◌≡◌, ◌≤◌, ◌<◌, ◌+◌, ◌^◌, ◌+ℤ◌, length, nat_abs, IsTrue};
ghost use Rattle.pcm_base.specs.Arithmetic.{scaled as scaled_of};
ghost use Rattle.mixdown.specs.Sums.{AreUsual, AreWithin, Grows, IsAdded};

use pcm_base::{MAX_GAIN, UNITY_GAIN, scaled};

/// A sample under a gain: at most 2^32 in size, and 2^19 under a gain that a track may have.
pub(crate) fn weigh(gain: u32, sample: i16) -> i64
    ensures value { result ≡ scaled_of gain sample }
    ensures bound { nat_abs result ≤ 2 ^ 32 }
    ensures usual { gain ≤ MAX_GAIN → nat_abs result ≤ 2 ^ 19 }
{
    scaled(gain, sample)
}

/// What a sample adds under a gain that a track may have. The upper and the lower half of the gain are multiplied
/// apart, so that each product fits into 32 bits.
fn weigh_usual(gain: u32, sample: i16) -> i32
    requires { gain ≤ MAX_GAIN }
    ensures value { result ≡ scaled_of gain sample }
    ensures bound { nat_abs result ≤ 2 ^ 19 }
{
    let high = (gain / 65536) as i32;
    let low = (gain % 65536) as i32;
    let wide = i32::from(sample);
    high * wide + ((low * wide + 32768) >> 16)
}

/// What a sample adds at unity gain: itself.
fn weigh_at_unity(sample: i16) -> i32
    ensures value { result ≡ scaled_of UNITY_GAIN sample }
    ensures bound { nat_abs result ≤ 2 ^ 19 }
{
    i32::from(sample)
}

/// The sum of two numbers that are far from the end of their type.
pub(crate) fn add(a: i32, b: i32) -> i32
    requires a { nat_abs a ≤ 2 ^ 27 }
    requires b { nat_abs b ≤ 2 ^ 27 }
    ensures value { result ≡ a +ℤ b }
    ensures bound { nat_abs result ≤ nat_abs a + nat_abs b }
{
    a + b
}

/// Adds samples to the first sums, one to each.
fn add_at_unity(samples: &[i16], sums: &mut [i32])
    requires room { length samples.now ≤ length sums.old }
    requires small { AreWithin (2 ^ 26) (length samples.now) sums.old }
    ensures added { IsAdded UNITY_GAIN samples.now sums.old sums.new }
    ensures bound { Grows (length samples.now) sums.old sums.new }
{
    for k in 0..samples.len() {
        sums[k] = add(sums[k], weigh_at_unity(samples[k]));
    }
}

/// Adds samples under a gain to the first sums, one to each.
fn add_scaled(gain: u32, samples: &[i16], sums: &mut [i32])
    requires usual { gain ≤ MAX_GAIN }
    requires room { length samples.now ≤ length sums.old }
    requires small { AreWithin (2 ^ 26) (length samples.now) sums.old }
    ensures added { IsAdded gain samples.now sums.old sums.new }
    ensures bound { Grows (length samples.now) sums.old sums.new }
{
    for k in 0..samples.len() {
        sums[k] = add(sums[k], weigh_usual(gain, samples[k]));
    }
}

/// Adds samples under a gain to the first sums, one to each, in one pass that multiplies only where it has to.
pub(crate) fn add_samples(gain: u32, samples: &[i16], sums: &mut [i32])
    requires usual { gain ≤ MAX_GAIN }
    requires room { length samples.now ≤ length sums.old }
    requires small { AreWithin (2 ^ 26) (length samples.now) sums.old }
    ensures added { IsAdded gain samples.now sums.old sums.new }
    ensures bound { Grows (length samples.now) sums.old sums.new }
{
    if gain == UNITY_GAIN {
        add_at_unity(samples, sums);
    } else {
        add_scaled(gain, samples, sums);
    }
}

/// Whether all are gains that a track may have.
pub(crate) fn are_usual(gains: &[u32]) -> bool
    ensures { IsTrue result → AreUsual gains.now }
{
    for k in 0..gains.len() {
        if gains[k] > MAX_GAIN {
            return false;
        }
    }
    true
}
