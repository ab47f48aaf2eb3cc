// The frames of the mix of a point's tracks.
ghost use Rattle.std.specs.Prelude.{◌≡◌, ◌≤◌, ◌<◌, ◌+◌, ◌-◌, ◌*◌, ◌^◌, length, map, take, drop, min, IsTrue};
ghost use Rattle.std.specs.Prelude.{IsOkUnless, OnOk, IfOk};
ghost use Rattle.pcm_base.specs.declared.limits.TheConstants.{MAX_TRACKS};
ghost use Rattle.block_store.specs.declared.fault.BlockFault.TheVariants as fault;
ghost use Rattle.pcm_base.specs.Arithmetic.{counted_from};
ghost use Rattle.pcm_base.specs.Mix.{frame_at, mix_of};
ghost use Rattle.project_state.specs.Meaning.{meant, point_blocks};
ghost use Rattle.sample_block.specs.Sources.{sources_of, AllNamed, AllWhole};
ghost use Rattle.block_cache.specs.Readers.{Hits, Reads};
ghost use Rattle.mix_reader.specs.Heard.{HasHeard};
ghost use Rattle.cell_reader.specs.Stored.{stored_of};
ghost use Rattle.mix_reader.specs.Readers.{IsReader};
ghost use Rattle.mix_reader.specs.Tracks.{mix_length_of, stored_mix};

use super::reader::MixReader;
use super::stretches::mix_stretch;
use block_cache::BlockReader;
use block_store::BlockFault;
use disk_model::Store;
use pcm_base::Frame;
use project_state::Point;

/// How long a stretch of each track that is heard may be.
fn stretch_room(samples: usize, tracks: usize) -> usize
    requires fits { tracks ≤ samples }
    requires some { 0 < samples }
    ensures some { 0 < result }
    ensures room { tracks * result ≤ samples }
{
    if tracks == 0 {
        samples
    } else {
        samples / tracks
    }
}

/// Mixes the next frames of a reader, a stretch of each track that is heard at a time, each as long as the buffer has
/// room for.
pub(crate) fn mix_stretches<'a, S: Store>(
    reader: &mut BlockReader<S>,
    mix: &mut MixReader<'a>,
    samples: &mut [i16],
    out: &mut [Frame],
) -> Result<(), BlockFault>
    requires reader { IsReader mix.old }
    requires room { MAX_TRACKS ≤ length samples.old }
    requires few { mix.old.at + length out.old < 2 ^ 64 }
    ensures reader { IsReader mix.new }
    ensures reads { Reads (point_blocks mix.old.point.now) reader.old reader.new result }
    ensures hit { Hits (HasHeard reader.old.cache mix.old.at (mix.old.at + length out.old) mix.old.point.now)
        reader.old reader.new result }
    ensures point { mix.new.point.now ≡ mix.old.point.now }
    ensures place { OnOk result (mix.new.at ≡ mix.old.at + length out.old) }
    ensures later { mix.old.at ≤ mix.new.at }
    ensures stored { IsTrue (S.tells reader.old.store)
        → OnOk result (out.new ≡ map (frame_at (meant (stored_of (S.reads reader.old.store)) mix.old.point.now))
        (counted_from mix.old.at (length out.old))) }
{
    let tracks = mix.heard.count;
    let most = stretch_room(samples.len(), tracks);
    let mut done = 0;
    'stretches: while done < out.len() {
        let next = done + most.min(out.len() - done);
        let room = tracks * (next - done);
        if let Err(fault) = mix_stretch(reader, mix, &mut samples[..room], &mut out[done..next]) {
            return Err(fault);
        }
        done = next;
    }
    Ok(())
}

/// Reads the frames of the mix of a point's tracks from a place on, as many as there are and as `out` has room for, and
/// answers how many. A buffer is handed in, of at least one sample for each track that a project may have: the more
/// it has for a track that is heard, the longer are the stretches that are read of each of them. After an error `out`
/// may have been written in part.
pub fn read_frames<S: Store>(
    reader: &mut BlockReader<S>,
    point: &Point,
    from: u64,
    samples: &mut [i16],
    out: &mut [Frame],
) -> Result<usize, BlockFault>
    requires named { AllNamed (point_blocks point.now) }
    requires room { MAX_TRACKS ≤ length samples.old }
    requires few { from + length out.old < 2 ^ 64 }
    ensures reads { Reads (point_blocks point.now) reader.old reader.new result }
    ensures hit { Hits (HasHeard reader.old.cache from (from + length out.old) point.now) reader.old reader.new result }
    ensures count { IfOk result (λ n. n ≡ min (length out.old) (mix_length_of point.now - from)) }
    // They are the mix of what stands in the files of the blocks, and where the disk has all blocks that of the model.
    ensures stored { IsTrue (S.tells reader.old.store)
        → IfOk result (λ n. take n out.new ≡ take n (drop from (stored_mix (S.reads reader.old.store) point.now))) }
    ensures read { IsTrue (S.tells reader.old.store) → AllWhole (S.reads reader.old.store) (point_blocks point.now)
        → IfOk result (λ n. take n out.new
        ≡ take n (drop from (mix_of (meant (sources_of (S.reads reader.old.store)) point.now)))) }
    ensures rest { IfOk result (λ n. drop n out.new ≡ drop n out.old) }
    // Where the disk has all blocks nothing but the disk refuses.
    ensures valid { IsTrue (S.tells reader.old.store) → AllWhole (S.reads reader.old.store) (point_blocks point.now)
        → IsOkUnless result fault.DiskFault }
{
    let mut mix = MixReader::new(point, from);
    mix.read(reader, samples, out)
}
