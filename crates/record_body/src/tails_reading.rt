// The end of a track's last clip, out of the bytes that tell it.
ghost use Rattle.std.specs.Prelude.{◌≡◌, ◌+◌, ◌*◌, ◌-◌, ◌≤◌, ◌<◌, ◌^◌, ◌++◌, ⊤, [], length, map, take, Some, None};
ghost use Rattle.std.specs.Prelude.{MatchResult};
ghost use Rattle.pcm_base.specs.declared.limits.TheConstants.{MAX_CELLS};
ghost use Rattle.record_body.specs.declared.limits.BadBody.TheVariants as bad;
ghost use Rattle.pcm_base.specs.Blocks.{blocks_len};
ghost use Rattle.clip_track.specs.Clips.{AllHalfFull};
ghost use Rattle.record_body.specs.Changes as change;
ghost use Rattle.record_body.specs.ChangePlaces as there;
ghost use Rattle.record_body.specs.ChangeTests as test;
ghost use Rattle.record_body.specs.FirstFault as fault;
ghost use Rattle.record_body.specs.FirstFault.{Tells, Finds};
ghost use Rattle.record_body.specs.Lengths.{AreHalfFull};
ghost use Rattle.record_body.specs.Places as place;
ghost use Rattle.project_journal.specs.Fields.{field};

use super::bounds::{least, most, place};
use super::changes::{last_blocks, last_start};
use super::limits::{BadBody, Limits};
use super::old_blocks::len_to;
use super::reading_clips::{Row, read_rows};
use block_sequence::{RowList, Sequence};
use clip_track::{Clip, Layout};
use project_journal::{Damaged, first_failure, u32_at};
use project_state::Track;
use std::alloc::Global;

/// Whether the one block is less than half full.
#[tactic(auto, using(crate::proofs::Tails::lone_by_len))]
fn is_lone(block_size: u32, blocks: &Sequence) -> bool
    ensures { result ≡ test.is_lone block_size blocks.now }
{
    blocks.count() == 1 && blocks.len() < block_size.div_ceil(2) as u64
}

/// Tests how many blocks go, and how many come.
fn test_tail(bytes: &[u8], at: usize, limits: Limits, olds: &Sequence) -> Result<(), Damaged>
    requires within { at + 17 ≤ length bytes.now }
    ensures { Tells (test.tail_head_tests limits olds.now at bytes.now) (λ _. ⊤) result }
{
    let gone = u32_at(bytes, at + 9);
    let fresh = u32_at(bytes, at + 13);
    let gone_place = place(limits.base, at + 9);
    let goes = is_lone(limits.block_size, olds) && fresh > 0;
    let comes = gone as usize == olds.count();
    first_failure(&[
        most(gone_place, olds.count() as u64, gone as u64),
        least(gone_place, goes as u64, gone as u64),
        least(place(limits.base, at + 13), comes as u64, fresh as u64),
    ])
}

/// The blocks that come at the end of the last clip.
fn read_fresh(
    alloc: Global,
    bytes: &[u8],
    at: usize,
    limits: Limits,
    start: u64,
    olds: &Sequence,
) -> Result<RowList, BadBody>
    requires within { at + (17 + 12 * there.fresh_at at bytes.now) ≤ length bytes.now }
    requires near { start + blocks_len olds.now ≤ MAX_CELLS }
    ensures { Finds (test.tail_tests limits start olds.now at bytes.now)
        (λ l. l ≡ place.blocks_at (there.fresh_at at bytes.now) (at + 17) bytes.now) result }
{
    test_tail(bytes, at, limits, olds)?;
    let gone = u32_at(bytes, at + 9);
    let count = u32_at(bytes, at + 13);
    let kept = olds.count() - gone as usize;
    let several = kept + count as usize > 1;
    let row = Row { at: at + 17, count };
    let before = start + len_to(olds.rows(), kept);
    Ok(read_rows(alloc, bytes, row, limits, several, before)?)
}

/// The clips with other blocks in the last.
fn with_last(alloc: Global, clips: &[Clip], blocks: Sequence) -> Result<Vec<Clip>, BadBody>
    requires { 0 < length clips.now }
    ensures { MatchResult result (λ v. v.items ≡ change.with_last blocks clips.now) (λ e. e ≡ bad.NoMemory) }
{
    let last = clips.len() - 1;
    let mut out = Vec::with_capacity(alloc, clips.len())?;
    for i in 0..last {
        let blocks = clips[i].blocks.copy()?;
        let start = clips[i].start;
        out.push(Clip { start, blocks })?;
    }
    let start = clips[last].start;
    out.push(Clip { start, blocks })?;
    Ok(out)
}

/// The track whose last clip ends otherwise.
pub(crate) fn read_tail(
    alloc: Global,
    bytes: &[u8],
    at: usize,
    limits: Limits,
    old: &Track,
) -> Result<Track, BadBody>
    requires within { at + (17 + 12 * there.fresh_at at bytes.now) ≤ length bytes.now }
    requires some { 0 < length old.now.layout }
    requires half_full { AllHalfFull limits.block_size old.now.layout }
    ensures { Finds (test.tail_tests limits (change.last_start old.now.layout) (change.last_blocks old.now.layout) at
        bytes.now) (λ t. t ≡ change.tailed (there.gone_at at bytes.now)
        (place.blocks_at (there.fresh_at at bytes.now) (at + 17) bytes.now) old.now) result }
{
    let clips = old.layout.as_slice();
    let olds = last_blocks(clips);
    let fresh = read_fresh(alloc, bytes, at, limits, last_start(clips), olds)?;
    let count = olds.count();
    let gone = u32_at(bytes, at + 9);
    let kept = count - gone as usize;
    let blocks = olds.ended(kept, &fresh)?;
    let clips = with_last(alloc, clips, blocks)?;
    let layout = Layout::from_clips(clips)?;
    Ok(Track {
        id: old.id,
        gain: old.gain,
        side: old.side,
        mute: old.mute,
        number: 0,
        layout,
    })
}
