// What is heard of a project.
ghost use Rattle.std.specs.Prelude.{◌≡◌, ◌+◌, ◌-◌, ◌<◌, ◌≤◌, length, min, take, drop, IsTrue, IsOkUnless};
ghost use Rattle.std.specs.Prelude.{IfOk, None};
ghost use Rattle.pcm_base.specs.declared.limits.TheConstants.{MAX_CELLS, MAX_VIEW};
ghost use Rattle.pcm_base.specs.declared.answer.Reply.TheVariants.{Frames};
ghost use Rattle.pcm_base.specs.declared.command.Call.TheVariants.{Line, ReadPin};
ghost use Rattle.pcm_base.specs.declared.command.Command.TheVariants.{Mix};
ghost use Rattle.pcm_base.specs.Mix.{mix_of, mix_length};
ghost use Rattle.pcm_base.specs.Refusals.{bad_view};
ghost use Rattle.pcm_base.specs.Pieces.{Sources};
ghost use Rattle.sample_block.specs.Sources.{sources_of, AllNamed, AllWhole};
ghost use Rattle.block_store.specs.declared.fault.BlockFault.TheVariants as fault;
ghost use Rattle.block_cache.specs.Readers.{Hits, Reads};
ghost use Rattle.mix_reader.specs.Heard.{HasHeard};
ghost use Rattle.project_state.specs.Meaning.{meant, point_blocks};
ghost use Rattle.mix_reader.specs.Tracks.{mix_length_of};
ghost use Rattle.record_body.specs.Saved.{current_tracks};
ghost use Rattle.editor_core.specs.Core.{core_of};
ghost use Rattle.editor_state.specs.Reads.{Sees};
ghost use Rattle.editor_views.specs.Pins.{HasPin};
ghost use Rattle.editor_state.specs.Studios.{IsStudio};

use super::current::current_of;
use super::pinned::point_of;
use super::shows::may_view;
use super::studio::Studio;
use block_cache::BlockReader;
use block_store::BlockFault;
use disk_model::Store;
use mix_reader::{mix_len, read_frames};
use pcm_base::{Frame, Refusal};
use project_state::Point;

// How many samples of tracks are read at a time, all tracks together.
const MIX_SAMPLES: usize = 16_384;

// Puts the frames of a project's mix from a place on at the front of `out`, as many as there are, up to a number, and
// answers how many.
fn read_mix<S: Store>(
    reader: &mut BlockReader<S>,
    point: &Point,
    from: u64,
    most: usize,
    out: &mut [Frame],
) -> Result<usize, BlockFault>
    requires named { AllNamed (point_blocks point.now) }
    requires room { most ≤ length out.old }
    ensures reads { Reads (point_blocks point.now) reader.old reader.new result }
    ensures hit { Hits (HasHeard reader.old.cache from (from + most) point.now) reader.old reader.new result }
    ensures fits { IfOk result (λ n. n ≤ length out.new) }
    ensures count { IfOk result (λ n. n ≡ min most (mix_length_of point.now - from)) }
    ensures len { (src : Sources) → mix_length (meant src point.now) ≡ mix_length_of point.now }
    ensures limit { IfOk result (λ n. 0 < n → from + n ≤ MAX_CELLS) }
    ensures read { IsTrue (S.tells reader.old.store) → AllWhole (S.reads reader.old.store) (point_blocks point.now)
        → IfOk result (λ n. take n out.new
        ≡ take n (drop from (mix_of (meant (sources_of (S.reads reader.old.store)) point.now)))) }
    ensures valid { IsTrue (S.tells reader.old.store) → AllWhole (S.reads reader.old.store) (point_blocks point.now)
        → IsOkUnless result fault.DiskFault }
{
    let left = mix_len(point).saturating_sub(from);
    let count = (most as u64).min(left) as usize;
    let mut samples = [0; MIX_SAMPLES];
    read_frames(reader, point, from, &mut samples, &mut out[..count])
}

impl<S: Store> Studio<S> {
    /// Puts the frames of the mix from one place to another at the front of `out`, as many as there are, and answers
    /// how many. Nothing is changed but the pages that are kept, which take memory only where there is some. No page
    /// without a sample of them is read. After an error `out` may have been written in part.
    ///
    /// # Errors
    ///
    /// `Stopped` where a change of the disk failed in an earlier call; else `BadRange` where not
    /// `from < to <= from + 4096`; else `DiskFault` where a read fails: the studio goes on. A disk that holds what the
    /// studio stands for shows no damaged file.
    pub fn mix(&mut self, from: u64, to: u64, out: &mut [Frame]) -> Result<usize, Refusal>
        requires studio { IsStudio S.Store (core_of self.old) }
        // There is room for what may be shown.
        requires room { min MAX_VIEW (to - from) ≤ length out.old }
        ensures seen { Sees S.Store (core_of self.old)
            (record { call = Line (Mix from to); reply = Frames; out = out.new; count = result })
            (core_of self.new) }
        // Where the cache has all pages of the tracks that are heard it is Ok, whatever the store would answer, and
        // asks it nothing.
        ensures hit { self.old.stopped ≡ None → bad_view from to ≡ None
            → Hits (HasHeard self.old.reader.cache from to (current_tracks self.old.history.history))
            self.old.reader self.new.reader result }
    {
        if let Some(faults) = self.stopped {
            return Err(Refusal::Stopped { faults });
        }
        may_view(from, to)?;
        let point = current_of(&self.history);
        let most = (to - from) as usize;
        let count = read_mix(&mut self.reader, point, from, most, out)?;
        Ok(count)
    }

    /// Puts the frames of the mix of a pinned project from a place on at the front of `out`, as many as there are and
    /// as it has room for, and answers how many. Nothing is changed but the pages that are kept, which take memory only
    /// where there is some. After an error `out` may have been written in part.
    ///
    /// # Errors
    ///
    /// `Stopped` where a change of the disk failed in an earlier call; else `NoPin` where no pin has the number; else
    /// `DiskFault` where a read fails: the studio goes on. A disk that holds what the studio stands for shows no
    /// damaged file.
    pub fn read_pin(&mut self, pin: u64, from: u64, out: &mut [Frame]) -> Result<usize, Refusal>
        requires { IsStudio S.Store (core_of self.old) }
        ensures seen { Sees S.Store (core_of self.old)
            (record { call = ReadPin pin from (length out.old); reply = Frames; out = out.new; count = result })
            (core_of self.new) }
        // No mix is longer.
        ensures limit { IfOk result (λ n. 0 < n → from + n ≤ MAX_CELLS) }
        // Where the cache has all pages of the pin's tracks that are heard it is Ok, whatever the store would answer,
        // and asks it nothing.
        ensures hit { self.old.stopped ≡ None
            → Hits (HasPin self.old.reader.cache self.old.pins.items pin from (from + length out.old))
            self.old.reader self.new.reader result }
    {
        if let Some(faults) = self.stopped {
            return Err(Refusal::Stopped { faults });
        }
        let point = point_of(&self.pins, pin)?;
        match read_mix(&mut self.reader, point, from, out.len(), out) {
            Ok(count) => Ok(count),
            Err(fault) => Err(fault.into()),
        }
    }
}
