// A pass over one track, a stretch at a time.
ghost use Rattle.std.specs.Prelude.{◌≡◌, ◌<◌, ◌+◌, ◌^◌, false, length, IsTrue, OnOk};
ghost use Rattle.clip_track.specs.Clips.{layout_blocks};
ghost use Rattle.project_state.specs.Meaning.{meant_track, point_blocks};
ghost use Rattle.sample_block.specs.Sources.{AllNamed};
ghost use Rattle.block_cache.specs.Readers.{Hits, Reads};
ghost use Rattle.cell_reader.specs.Kept.{HasSeen};
ghost use Rattle.cell_reader.specs.Rests.{IsRestOf};
ghost use Rattle.cell_reader.specs.Stored.{stored_of};
ghost use Rattle.mixdown.specs.Stretches.{IsStretch};
ghost use Rattle.mix_reader.specs.Readers.{AreRestsOf};

use block_cache::BlockReader;
use block_store::BlockFault;
use cell_reader::{TrackRest, no_rest, pass, read_ahead, rest_at};
use disk_model::Store;
use pcm_base::MAX_TRACKS;
use project_state::{Point, Track};

/// What is left of a track.
#[derive(Clone, Copy)]
pub(crate) struct TrackPass<'a> {
    pub(crate) rest: TrackRest<'a>,
}

/// Passes over the tracks from a place on, and others after them.
pub(crate) fn passes_from<'a>(point: &'a Point, from: u64) -> [TrackPass<'a>; MAX_TRACKS]
    requires { AllNamed (point_blocks point.now) }
    ensures { AreRestsOf from point.now result }
{
    let none = TrackPass { rest: no_rest() };
    let mut out = [none; MAX_TRACKS];
    let mut i = point.len();
    'rows: while 0 < i {
        i -= 1;
        let rest = rest_at(&point.track_at(i).layout, from);
        out[i] = TrackPass { rest };
    }
    out
}

/// Reads what is heard of a track that is not muted, from a place on.
pub(crate) fn read_track<'a, S: Store>(
    reader: &mut BlockReader<S>,
    left: &mut TrackPass<'a>,
    track: &Track,
    from: u64,
    out: &mut [i16],
) -> Result<(), BlockFault>
    requires heard { track.now.mute ≡ false }
    requires rest { IsRestOf from track.now.layout left.old.rest }
    requires few { from + length out.old < 2 ^ 64 }
    ensures rest { IsRestOf from track.now.layout left.new.rest }
    ensures reads { Reads (layout_blocks track.now.layout) reader.old reader.new result }
    ensures hit { Hits (HasSeen reader.old.cache from (from + length out.old) track.now.layout)
        reader.old reader.new result }
    ensures stored { IsTrue (S.tells reader.old.store) → OnOk result
        (IsStretch from (length out.old) (meant_track (stored_of (S.reads reader.old.store)) track.now) out.new) }
{
    let rest = pass(left.rest, from);
    left.rest = rest;
    read_ahead(reader, &track.layout, &rest, from, out)
}
