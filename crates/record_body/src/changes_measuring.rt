// How long a body of kind 5 is by its fields.
ghost use Rattle.std.specs.Prelude.{◌≡◌, ◌+◌, ◌≤◌, ◌∷◌, length};
ghost use Rattle.record_body.specs.ChangePlaces as there;
ghost use Rattle.record_body.specs.Places.{clip_count};
ghost use Rattle.record_body.specs.Widths.{blocks_widths, clips_widths, Reaches};

use super::kinds::{DELTA_KIND, PURGE_KIND, REDO_KIND, UNDO_KIND};
use super::measuring::{PastEnd, fit_all, fit_blocks, fit_clips};
use project_journal::u32_at;

/// Where a track ends that is written out, whose id would stand at a place.
fn fit_written(bytes: &[u8], at: usize) -> Result<usize, PastEnd>
    requires within { at + 8 ≤ length bytes.now }
    ensures { Reaches (length bytes.now) (at + 8)
        (4 ∷ 1 ∷ 1 ∷ 4 ∷ clips_widths (clip_count at bytes.now) (at + 18) bytes.now) result }
{
    let end = fit_all(bytes.len(), at + 8, &[4, 1, 1, 4])?;
    fit_clips(bytes, end, u32_at(bytes, end - 4))
}

/// Where the blocks end that come to the last clip of the track at a place.
fn fit_fresh(bytes: &[u8], at: usize) -> Result<usize, PastEnd>
    requires within { at + 9 ≤ length bytes.now }
    ensures { Reaches (length bytes.now) (at + 9) (4 ∷ 4 ∷ blocks_widths (there.fresh_at at bytes.now)) result }
{
    let end = fit_all(bytes.len(), at + 9, &[4, 4])?;
    fit_blocks(bytes.len(), end, u32_at(bytes, end - 4))
}

/// Where that ends which belongs to the mark of the track at a place.
fn fit_marked(bytes: &[u8], at: usize) -> Result<usize, PastEnd>
    requires within { at + 9 ≤ length bytes.now }
    ensures { Reaches (length bytes.now) (at + 9) (there.marked_widths at bytes.now) result }
{
    match bytes[at + 8] {
        0 => Ok(at + 9),
        1 => fit_written(bytes, at + 1),
        2 => fit_fresh(bytes, at),
        _ => Ok(bytes.len()),
    }
}

/// Where the track at a place ends.
fn fit_diff(bytes: &[u8], at: usize) -> Result<usize, PastEnd>
    requires within { at ≤ length bytes.now }
    ensures { Reaches (length bytes.now) at (there.diff_widths at bytes.now) result }
{
    let end = fit_all(bytes.len(), at, &[8, 1])?;
    fit_marked(bytes, end - 9)
}

/// Where this number of tracks ends. After a mark that is not known all that is left is taken for its track.
fn fit_all_diff(bytes: &[u8], at: usize, count: u32) -> Result<usize, PastEnd>
    requires within { at ≤ length bytes.now }
    ensures { Reaches (length bytes.now) at (there.all_diff_widths count at bytes.now) result }
{
    let mut end = at;
    for _ in 0..count {
        let from = end;
        end = fit_diff(bytes, from)?;
        if bytes[from + 8] > 2 {
            return Ok(end);
        }
    }
    Ok(end)
}

/// Where an edit ends.
fn fit_delta(bytes: &[u8]) -> Result<usize, PastEnd>
    ensures { Reaches (length bytes.now) 0 (there.delta_widths bytes.now) result }
{
    let end = fit_all(bytes.len(), 0, &[1, 8, 8, 8, 4])?;
    fit_all_diff(bytes, end, u32_at(bytes, end - 4))
}

/// The length that the fields ask of the body: up to the end of the first that does not fit, else of the last.
pub(crate) fn asked_delta_len(bytes: &[u8]) -> usize
    ensures { result ≡ there.asked_delta bytes.now }
{
    if bytes.is_empty() {
        return 1;
    }
    match bytes[0] {
        DELTA_KIND => match fit_delta(bytes) {
            Ok(end) => end,
            Err(past) => past.end,
        },
        UNDO_KIND | REDO_KIND => 1,
        PURGE_KIND => 9,
        _ => bytes.len(),
    }
}
