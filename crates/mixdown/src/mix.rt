// The frames of a mix.
ghost use Rattle.std.specs.Prelude.{◌≡◌, ◌≤◌, ◌<◌, ◌+◌, ◌*◌, ℕ, length, map};
ghost use Rattle.std.specs.List.{range_with_len};
ghost use Rattle.pcm_base.specs.declared.limits.TheConstants.{MAX_TRACKS};
ghost use Rattle.pcm_base.specs.Arithmetic.{counted_from};
ghost use Rattle.pcm_base.specs.Cells.{Project};
ghost use Rattle.pcm_base.specs.Mix.{frame_at, unmuted};
ghost use Rattle.mixdown.specs.Laid.{laid};
ghost use Rattle.mixdown.specs.Sums.{AreUsual};
ghost use Rattle.mixdown.specs.Stretches.{AreStretches, gains_of, sides_of};

use super::loud::mix_frames;
use super::sums::{PIECE, Sums};
use super::weights::are_usual;
use pcm_base::{Frame, Side};

/// The frames from place `at` on, so few that their sums stand on the stack, of stretches of `len` samples each, under
/// gains that a track may have.
fn mix_piece(
    stretches: &[i16],
    gains: &[u32],
    sides: &[Side],
    len: usize,
    at: usize,
    out: &mut [Frame],
)
    requires few { length gains.now ≤ MAX_TRACKS }
    requires usual { AreUsual gains.now }
    requires sides { length sides.now ≡ length gains.now }
    requires stretches { length stretches.now ≡ length gains.now * len }
    requires piece { length out.old ≤ PIECE }
    requires within { at + length out.old ≤ len }
    ensures { out.new ≡ map (frame_at (laid len stretches.now gains.now sides.now))
        (range_with_len at (length out.old)) }
{
    let mut sums = Sums::new();
    for t in 0..gains.len() {
        let from = t * len + at;
        sums.add(sides[t], gains[t], &stretches[from..from + out.len()]);
    }
    sums.limit(out);
}

/// The mix of stretches of at most 64 tracks that are heard: one for each gain and side, one after the other, each as
/// long as the frames. A gain of 65,536 is unity. Each side of a frame is the sum of the scaled samples at its place,
/// limited once; a gap is a sample of 0. It takes no memory, and goes over each stretch once.
///
/// Where the stretches are those of a project's tracks from a place on, in the project's order, continued by gaps
/// after a track's end, the frames are the project's from that place on. Muted tracks may be left out, or stand as
/// stretches of gaps.
pub fn mix_into(stretches: &[i16], gains: &[u32], sides: &[Side], out: &mut [Frame])
    requires few { length gains.now ≤ MAX_TRACKS }
    requires sides { length sides.now ≡ length gains.now }
    requires stretches { length stretches.now ≡ length gains.now * length out.old }
    ensures frames { out.new ≡ map (frame_at (laid (length out.old) stretches.now gains.now sides.now))
        (counted_from 0 (length out.old)) }
    // Stretches of the unmuted tracks of a project, from a place on, give the project's frames from there on.
    ensures heard { (from : ℕ) (p : Project) → gains.now ≡ gains_of (unmuted p) → sides.now ≡ sides_of (unmuted p)
        → AreStretches from (length out.old) (unmuted p) stretches.now
        → out.new ≡ map (frame_at p) (counted_from from (length out.old)) }
    // So do stretches of all its tracks, where those of muted tracks are gaps.
    ensures project { (from : ℕ) (p : Project) → gains.now ≡ gains_of p → sides.now ≡ sides_of p
        → AreStretches from (length out.old) p stretches.now
        → out.new ≡ map (frame_at p) (counted_from from (length out.old)) }
{
    mix_part(stretches, gains, sides, out.len(), 0, out);
}

/// The frames of a part of such a mix: from place `at` on, as many as `out` has room for, of stretches of `len` samples
/// each. So a mix may be made in parts, one after the other or at the same time. It is the same however it is cut.
pub fn mix_part(
    stretches: &[i16],
    gains: &[u32],
    sides: &[Side],
    len: usize,
    at: usize,
    out: &mut [Frame],
)
    requires few { length gains.now ≤ MAX_TRACKS }
    requires sides { length sides.now ≡ length gains.now }
    requires stretches { length stretches.now ≡ length gains.now * len }
    requires within { at + length out.old ≤ len }
    ensures { out.new ≡ map (frame_at (laid len stretches.now gains.now sides.now))
        (counted_from at (length out.old)) }
{
    if are_usual(gains) {
        mix_pieces(stretches, gains, sides, len, at, out);
    } else {
        mix_frames(stretches, gains, sides, len, at, out);
    }
}

/// The frames of a part, piece by piece, under gains that a track may have.
fn mix_pieces(
    stretches: &[i16],
    gains: &[u32],
    sides: &[Side],
    len: usize,
    at: usize,
    out: &mut [Frame],
)
    requires few { length gains.now ≤ MAX_TRACKS }
    requires usual { AreUsual gains.now }
    requires sides { length sides.now ≡ length gains.now }
    requires stretches { length stretches.now ≡ length gains.now * len }
    requires within { at + length out.old ≤ len }
    ensures { out.new ≡ map (frame_at (laid len stretches.now gains.now sides.now))
        (counted_from at (length out.old)) }
{
    let count = out.len();
    let mut done = 0;
    'pieces: while done < count {
        let next = done + PIECE.min(count - done);
        mix_piece(
            stretches,
            gains,
            sides,
            len,
            at + done,
            &mut out[done..next],
        );
        done = next;
    }
}
