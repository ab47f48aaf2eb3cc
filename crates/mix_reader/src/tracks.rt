// The tracks of a point, as they are heard.
ghost use Rattle.std.specs.Prelude.{◌≡◌, ◌≤◌, length, if◌then◌else◌};
ghost use Rattle.pcm_base.specs.declared.limits.TheConstants.{MAX_CELLS};
ghost use Rattle.clip_track.specs.Clips.{layout_cells};
ghost use Rattle.pcm_base.specs.Mix.{mix_length};
ghost use Rattle.pcm_base.specs.Pieces.{Sources};
ghost use Rattle.project_state.specs.Meaning.{meant};
ghost use Rattle.mix_reader.specs.Readers.{AreHeard};
ghost use Rattle.mix_reader.specs.Tracks.{heard_length, mix_length_of};

use pcm_base::{MAX_TRACKS, Side};
use project_state::{Point, Track};

/// How many cells are heard of a track.
fn heard_len(track: &Track) -> u64
    ensures value { result ≡ heard_length track.now }
    ensures cells { (src : Sources)
        → result ≡ (if track.now.mute then 0 else length (layout_cells src track.now.layout)) }
    ensures few { result ≤ MAX_CELLS }
{
    if track.mute { 0 } else { track.layout.len() }
}

/// How many frames the mix has: as many as the longest track that is heard has cells.
pub fn mix_len(point: &Point) -> u64
    ensures value { result ≡ mix_length_of point.now }
    ensures frames { (src : Sources) → mix_length (meant src point.now) ≡ result }
    ensures few { result ≤ MAX_CELLS }
{
    let mut len = 0;
    'rows: for i in 0..point.len() {
        len = heard_len(point.track_at(i)).max(len);
    }
    len
}

/// How many tracks are heard, and of each its gain and its side, with others after them.
#[derive(Clone, Copy)]
pub(crate) struct Heard {
    pub(crate) count: usize,
    pub(crate) gains: [u32; MAX_TRACKS],
    pub(crate) sides: [Side; MAX_TRACKS],
}

/// The tracks of a point that are heard.
pub(crate) fn heard_of(point: &Point) -> Heard
    ensures { AreHeard point.now result }
{
    let mut count = 0;
    let mut gains = [0; MAX_TRACKS];
    let mut sides = [Side::Both; MAX_TRACKS];
    'rows: for i in 0..point.len() {
        let track = point.track_at(i);
        if track.mute {
            continue;
        }
        gains[count] = track.gain;
        sides[count] = track.side;
        count += 1;
    }
    Heard {
        count,
        gains,
        sides,
    }
}
