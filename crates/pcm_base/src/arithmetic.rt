// Exact arithmetic on samples.
ghost use Rattle.std.specs.Prelude.{◌≡◌};
ghost use Rattle.pcm_base.specs.Arithmetic.{scaled, clamped, integer_root};

/// A sample under a gain, where 65,536 is unity: rounded to the nearest, halves up, and not yet limited.
pub fn scaled(gain: u32, sample: i16) -> i64
    ensures { result ≡ scaled gain sample }
{
    (i64::from(gain) * i64::from(sample) + 32768).div_euclid(65536)
}

/// The nearest value that a sample can have, from -32,768 to 32,767.
pub fn clamped(value: i64) -> i16
    ensures { result ≡ clamped value }
{
    value.clamp(-32768, 32767) as i16
}

/// The integer square root: the greatest number whose square is at most `n`.
pub fn isqrt(n: u64) -> u64
    ensures { result ≡ integer_root n }
{
    n.isqrt()
}
