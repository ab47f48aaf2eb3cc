// The sums of a piece of the frames.
ghost use Rattle.std.specs.Prelude.{◌≡◌, ◌≤◌, ◌<◌, ◌+◌, ◌^◌, length, map, replicate, pos};
ghost use Rattle.std.specs.List.{range_with_len};
ghost use Rattle.pcm_base.specs.Arithmetic.{clamped as clamped_of};
ghost use Rattle.pcm_base.specs.Mix.{is_on_left, is_on_right};
ghost use Rattle.mixdown.specs.Sums.{AreWithin, Grows, IsHeard, limited as limited_of, frame_in};

use super::weights::{add, add_samples};
use pcm_base::{Frame, MAX_GAIN, Side, clamped};

/// How many frames are summed at a time.
pub(crate) const PIECE: usize = 1024;

/// What is heard of a piece, before it is limited, under gains that a track may have. Each track is in one of the
/// three, by the sides where it is heard.
#[derive(Debug, Drop)]
pub(crate) struct Sums {
    both: [i32; PIECE],
    left: [i32; PIECE],
    right: [i32; PIECE],
}

impl Sums {
    /// The sums of no track.
    pub(crate) fn new() -> Sums
        ensures both { result.both ≡ replicate PIECE (pos 0) }
        ensures left { result.left ≡ replicate PIECE (pos 0) }
        ensures right { result.right ≡ replicate PIECE (pos 0) }
    {
        Sums {
            both: [0; PIECE],
            left: [0; PIECE],
            right: [0; PIECE],
        }
    }

    /// Adds the piece of one track.
    pub(crate) fn add(&mut self, side: Side, gain: u32, samples: &[i16])
        requires usual { gain ≤ MAX_GAIN }
        requires few { length samples.now ≤ PIECE }
        requires both { AreWithin (2 ^ 26) (length samples.now) self.old.both }
        requires left { AreWithin (2 ^ 26) (length samples.now) self.old.left }
        requires right { AreWithin (2 ^ 26) (length samples.now) self.old.right }
        ensures left { IsHeard (is_on_left side) gain samples.now (self.old.both, self.old.left) (
          self.new.both,
          self.new.left,
        ) }
        ensures right { IsHeard (is_on_right side) gain samples.now (self.old.both, self.old.right) (
          self.new.both,
          self.new.right,
        ) }
        ensures both_bound { Grows (length samples.now) self.old.both self.new.both }
        ensures left_bound { Grows (length samples.now) self.old.left self.new.left }
        ensures right_bound { Grows (length samples.now) self.old.right self.new.right }
    {
        match side {
            Side::Both => add_samples(gain, samples, &mut self.both),
            Side::Left => add_samples(gain, samples, &mut self.left),
            Side::Right => add_samples(gain, samples, &mut self.right),
        }
    }

    /// The first frames of the sums.
    pub(crate) fn limit(&self, out: &mut [Frame])
        requires few { length out.old ≤ PIECE }
        requires both { AreWithin (2 ^ 26) (length out.old) self.now.both }
        requires left { AreWithin (2 ^ 26) (length out.old) self.now.left }
        requires right { AreWithin (2 ^ 26) (length out.old) self.now.right }
        ensures { out.new
            ≡ map (frame_in self.now.both self.now.left self.now.right) (range_with_len 0 (length out.old)) }
    {
        for k in 0..out.len() {
            let both = self.both[k];
            out[k] = limited(add(both, self.left[k]), add(both, self.right[k]));
        }
    }
}

/// A sum, limited to what a sample can be. In 32 bits several of them are limited at once.
fn limit_sum(sum: i32) -> i16
    ensures { result ≡ clamped_of sum }
{
    sum.clamp(-32768, 32767) as i16
}

/// A frame of what is heard on each side, limited to what a sample can be.
fn limited(left: i32, right: i32) -> Frame
    ensures { result ≡ limited_of left right }
{
    Frame {
        left: limit_sum(left),
        right: limit_sum(right),
    }
}

/// The same of sums of 64 bits.
pub(crate) fn limited_wide(left: i64, right: i64) -> Frame
    ensures { result ≡ limited_of left right }
{
    Frame {
        left: clamped(left),
        right: clamped(right),
    }
}
