// A reader of a mix, which lasts over several calls.
ghost use Rattle.std.specs.Prelude.{◌≡◌, ◌≤◌, ◌<◌, ◌+◌, ◌-◌, ◌^◌, length, take, drop, min, IsTrue, IsOkUnless, IfOk};
ghost use Rattle.block_store.specs.declared.fault.BlockFault.TheVariants as fault;
ghost use Rattle.pcm_base.specs.Mix.{mix_of};
ghost use Rattle.project_state.specs.Meaning.{meant, point_blocks};
ghost use Rattle.sample_block.specs.Sources.{sources_of, AllNamed, AllWhole};
ghost use Rattle.block_cache.specs.Readers.{Hits, Reads};
ghost use Rattle.mix_reader.specs.Heard.{HasHeard};
ghost use Rattle.mix_reader.specs.Readers.{IsReader};
ghost use Rattle.mix_reader.specs.Tracks.{mix_length_of, stored_mix};

use super::frames::mix_stretches;
use super::passes::{TrackPass, passes_from};
use super::tracks::{Heard, heard_of, mix_len};
use block_cache::BlockReader;
use block_store::BlockFault;
use disk_model::Store;
use pcm_base::{Frame, MAX_TRACKS};
use project_state::Point;

/// A pass over the mix of a project's tracks, from a place on. It lasts over several reads, each of which goes on where
/// the one before ended, so that no clip or block is passed twice.
#[derive(Drop)]
pub struct MixReader<'a> {
    /// The project.
    pub point: &'a Point,
    /// Where the next frame stands.
    pub at: u64,
    /// Of the tracks that are heard, in their order.
    pub(crate) heard: Heard,
    /// Of each track, at its place in the project.
    pub(crate) passes: [TrackPass<'a>; MAX_TRACKS],
}

impl<'a> MixReader<'a> {
    /// A reader that stands at a place. It reads nothing yet, and takes no memory.
    pub fn new(point: &'a Point, from: u64) -> MixReader<'a>
        requires named { AllNamed (point_blocks point.now) }
        ensures reader { IsReader result }
        ensures point { result.point.now ≡ point.now }
        ensures place { result.at ≡ from }
    {
        MixReader {
            point,
            at: from,
            heard: heard_of(point),
            passes: passes_from(point, from),
        }
    }

    /// Reads the next frames of the mix, as many as are left and as `out` has room for, and answers how many. A buffer
    /// is handed in, of at least one sample for each track that a project may have: the more it has for a track
    /// that is heard, the longer are the stretches that are read of each of them. After an error `out` may have been
    /// written in part, and the reader may have gone on over a part of the frames.
    pub fn read<S: Store>(
        &mut self,
        reader: &mut BlockReader<S>,
        samples: &mut [i16],
        out: &mut [Frame],
    ) -> Result<usize, BlockFault>
        requires reader { IsReader self.old }
        requires room { MAX_TRACKS ≤ length samples.old }
        requires few { self.old.at + length out.old < 2 ^ 64 }
        ensures count { IfOk result (λ n. n ≡ min (length out.old) (mix_length_of self.old.point.now - self.old.at)) }
        ensures place { IfOk result (λ n. self.new.at ≡ self.old.at + n) }
        // It goes on after them, over the same tracks, and after an error too.
        ensures reader { IsReader self.new }
        ensures point { self.new.point.now ≡ self.old.point.now }
        ensures later { self.old.at ≤ self.new.at }
        ensures reads { Reads (point_blocks self.old.point.now) reader.old reader.new result }
        // Where the cache has all pages of the tracks that are heard it is Ok, whatever the store would answer, and
        // asks it nothing.
        ensures hit { Hits (HasHeard reader.old.cache self.old.at
            (self.old.at + min (length out.old) (mix_length_of self.old.point.now - self.old.at))
            self.old.point.now) reader.old reader.new result }
        // They are the mix of what stands in the files of the blocks, and where the disk has all blocks that of the
        // model.
        ensures stored { IsTrue (S.tells reader.old.store) → IfOk result (λ n. take n out.new
            ≡ take n (drop self.old.at (stored_mix (S.reads reader.old.store) self.old.point.now))) }
        ensures read { IsTrue (S.tells reader.old.store)
            → AllWhole (S.reads reader.old.store) (point_blocks self.old.point.now)
            → IfOk result (λ n. take n out.new
            ≡ take n (drop self.old.at (mix_of (meant (sources_of (S.reads reader.old.store)) self.old.point.now)))) }
        ensures rest { IfOk result (λ n. drop n out.new ≡ drop n out.old) }
        // Where the disk has all blocks nothing but the disk refuses.
        ensures valid { IsTrue (S.tells reader.old.store)
            → AllWhole (S.reads reader.old.store) (point_blocks self.old.point.now)
            → IsOkUnless result fault.DiskFault }
    {
        let left = mix_len(self.point).saturating_sub(self.at);
        let count = (out.len() as u64).min(left) as usize;
        mix_stretches(reader, self, samples, &mut out[..count])?;
        Ok(count)
    }
}
