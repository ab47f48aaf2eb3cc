// The frames of a mix under any gains.
ghost use Rattle.std.specs.Prelude.{◌≡◌, ◌≤◌, ◌<◌, ◌+◌, ◌*◌, ◌^◌, ◌+ℤ◌, pos, length, map, nat_abs, if◌then◌else◌};
ghost use Rattle.pcm_base.specs.declared.limits.TheConstants.{MAX_TRACKS};
ghost use Rattle.pcm_base.specs.Arithmetic.{counted_from};
ghost use Rattle.pcm_base.specs.Mix.{frame_at, is_on_left, is_on_right};
ghost use Rattle.mixdown.specs.Laid.{laid};

use super::sums::limited_wide;
use super::weights::weigh;
use pcm_base::{Frame, Side};

/// A sum with what is heard on the left added to it.
fn add_left(sum: i64, side: Side, weight: i64) -> i64
    requires sum { nat_abs sum ≤ 2 ^ 39 }
    requires weight { nat_abs weight ≤ 2 ^ 32 }
    ensures value { result ≡ sum +ℤ (if is_on_left side then weight else pos 0) }
    ensures bound { nat_abs result ≤ nat_abs sum + 2 ^ 32 }
{
    match side {
        Side::Both | Side::Left => sum + weight,
        Side::Right => sum,
    }
}

/// A sum with what is heard on the right added to it.
fn add_right(sum: i64, side: Side, weight: i64) -> i64
    requires sum { nat_abs sum ≤ 2 ^ 39 }
    requires weight { nat_abs weight ≤ 2 ^ 32 }
    ensures value { result ≡ sum +ℤ (if is_on_right side then weight else pos 0) }
    ensures bound { nat_abs result ≤ nat_abs sum + 2 ^ 32 }
{
    match side {
        Side::Both | Side::Right => sum + weight,
        Side::Left => sum,
    }
}

/// The frame at a place of stretches of `len` samples each.
fn mix_frame(stretches: &[i16], gains: &[u32], sides: &[Side], len: usize, at: usize) -> Frame
    requires few { length gains.now ≤ MAX_TRACKS }
    requires sides { length sides.now ≡ length gains.now }
    requires stretches { length stretches.now ≡ length gains.now * len }
    requires within { at < len }
    ensures { result ≡ frame_at (laid len stretches.now gains.now sides.now) at }
{
    let mut left = 0;
    let mut right = 0;
    for t in 0..gains.len() {
        let weight = weigh(gains[t], stretches[t * len + at]);
        left = add_left(left, sides[t], weight);
        right = add_right(right, sides[t], weight);
    }
    limited_wide(left, right)
}

/// The frames of a part of a mix, frame by frame: slower than in pieces, and its sums have room for any gain.
pub(crate) fn mix_frames(
    stretches: &[i16],
    gains: &[u32],
    sides: &[Side],
    len: usize,
    at: usize,
    out: &mut [Frame],
)
    requires few { length gains.now ≤ MAX_TRACKS }
    requires sides { length sides.now ≡ length gains.now }
    requires stretches { length stretches.now ≡ length gains.now * len }
    requires within { at + length out.old ≤ len }
    ensures { out.new ≡ map (frame_at (laid len stretches.now gains.now sides.now))
        (counted_from at (length out.old)) }
{
    for k in 0..out.len() {
        out[k] = mix_frame(stretches, gains, sides, len, at + k);
    }
}
