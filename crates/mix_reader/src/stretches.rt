// Stretches of a point's tracks, and their mix.
ghost use Rattle.std.specs.Prelude.{◌≡◌, ◌≤◌, ◌<◌, ◌+◌, ◌*◌, ◌^◌, ℕ, length, take, map, IsTrue, OnOk};
ghost use Rattle.pcm_base.specs.Arithmetic.{counted_from};
ghost use Rattle.pcm_base.specs.Mix.{frame_at, unmuted};
ghost use Rattle.pcm_base.specs.Pieces.{Sources};
ghost use Rattle.project_state.specs.Meaning.{meant, point_blocks};
ghost use Rattle.block_cache.specs.Readers.{Hits, Reads};
ghost use Rattle.mix_reader.specs.Heard.{HasHeard};
ghost use Rattle.cell_reader.specs.Stored.{stored_of};
ghost use Rattle.mixdown.specs.Stretches.{AreStretches};
ghost use Rattle.mix_reader.specs.Readers.{AreHeard, AreRestsOf, IsReader};
ghost use Rattle.mix_reader.specs.Tracks.{heard_tracks};

use super::passes::{TrackPass, read_track};
use super::reader::MixReader;
use block_cache::BlockReader;
use block_store::BlockFault;
use disk_model::Store;
use mixdown::mix_into;
use pcm_base::Frame;
use project_state::Point;

/// Reads a stretch of `len` samples of each track that is heard, from a place on, one after the other.
fn read_stretches<'a, S: Store>(
    reader: &mut BlockReader<S>,
    point: &Point,
    passes: &mut [TrackPass<'a>],
    from: u64,
    len: usize,
    samples: &mut [i16],
) -> Result<(), BlockFault>
    requires rests { AreRestsOf from point.now passes.old }
    requires tracks { length point.now ≤ length passes.old }
    requires room { length samples.old ≡ length (heard_tracks point.now) * len }
    requires few { from + len < 2 ^ 64 }
    ensures rests { AreRestsOf from point.now passes.new }
    ensures reads { Reads (point_blocks point.now) reader.old reader.new result }
    ensures hit { Hits (HasHeard reader.old.cache from (from + len) point.now) reader.old reader.new result }
    ensures stored { IsTrue (S.tells reader.old.store) → OnOk result (AreStretches from len
        (unmuted (meant (stored_of (S.reads reader.old.store)) point.now)) samples.new) }
{
    let mut i = point.len();
    let mut at = samples.len();
    'rows: while 0 < i {
        i -= 1;
        let track = point.track_at(i);
        if track.mute {
            continue;
        }
        at -= len;
        if let Err(fault) = read_track(
            reader,
            &mut passes[i],
            track,
            from,
            &mut samples[at..at + len],
        ) {
            return Err(fault);
        }
    }
    Ok(())
}

/// Mixes stretches of a reader's tracks, under their gains and on their sides.
fn mix_samples(mix: &MixReader<'_>, samples: &[i16], out: &mut [Frame])
    requires heard { AreHeard mix.now.point.now mix.now.heard }
    requires room { length samples.now ≡ length (heard_tracks mix.now.point.now) * length out.old }
    ensures { (src : Sources) (from : ℕ)
        → AreStretches from (length out.old) (unmuted (meant src mix.now.point.now)) samples.now
        → out.new ≡ map (frame_at (meant src mix.now.point.now)) (counted_from from (length out.old)) }
{
    let heard = &mix.heard;
    mix_into(
        samples,
        &heard.gains[..heard.count],
        &heard.sides[..heard.count],
        out,
    );
}

/// Mixes the next frames of a reader. The buffer has a stretch for each track that is heard, as long as the frames.
pub(crate) fn mix_stretch<'a, S: Store>(
    reader: &mut BlockReader<S>,
    mix: &mut MixReader<'a>,
    samples: &mut [i16],
    out: &mut [Frame],
) -> Result<(), BlockFault>
    requires reader { IsReader mix.old }
    requires room { length samples.old ≡ length (heard_tracks mix.old.point.now) * length out.old }
    requires few { mix.old.at + length out.old < 2 ^ 64 }
    ensures reader { IsReader mix.new }
    ensures reads { Reads (point_blocks mix.old.point.now) reader.old reader.new result }
    ensures hit { Hits (HasHeard reader.old.cache mix.old.at (mix.old.at + length out.old) mix.old.point.now)
        reader.old reader.new result }
    ensures point { mix.new.point.now ≡ mix.old.point.now }
    ensures place { OnOk result (mix.new.at ≡ mix.old.at + length out.old) }
    ensures later { mix.old.at ≤ mix.new.at }
    ensures stored { IsTrue (S.tells reader.old.store)
        → OnOk result (out.new ≡ map (frame_at (meant (stored_of (S.reads reader.old.store)) mix.old.point.now))
        (counted_from mix.old.at (length out.old))) }
{
    let at = mix.at;
    read_stretches(reader, mix.point, &mut mix.passes, at, out.len(), samples)?;
    mix_samples(mix, samples, out);
    mix.at = at + out.len() as u64;
    Ok(())
}
