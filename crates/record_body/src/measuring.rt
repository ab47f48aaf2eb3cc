// How long a body is by its fields.
ghost use Rattle.std.specs.Prelude.{◌≡◌, ◌+◌, ◌≤◌, ◌<◌, ◌^◌, [], ◌∷◌, length, All};
ghost use Rattle.record_body.specs.Widths.{blocks_widths, clip_widths, clips_widths, track_widths, tracks_widths};
ghost use Rattle.record_body.specs.Widths.{edit_widths, asked_length, Reaches};

use super::kinds::{EDIT_KIND, PURGE_KIND, REDO_KIND, UNDO_KIND};
use project_journal::u32_at;

/// A field that does not fit ends here.
#[derive(Clone, Copy)]
pub(crate) struct PastEnd {
    pub(crate) end: usize,
}

/// Where a field ends, if it fits in this many bytes.
fn fit(len: usize, at: usize, width: usize) -> Result<usize, PastEnd>
    requires within { at ≤ len }
    requires few { len < 2 ^ 63 }
    requires small { width ≤ 8 }
    ensures { Reaches len at (width ∷ []) result }
{
    if len - at < width {
        return Err(PastEnd { end: at + width });
    }
    Ok(at + width)
}

/// Where fields of some widths end that stand one after another.
pub(crate) fn fit_all(len: usize, at: usize, widths: &[usize]) -> Result<usize, PastEnd>
    requires within { at ≤ len }
    requires few { len < 2 ^ 63 }
    requires small { All (λ w. w ≤ 8) widths.now }
    ensures { Reaches len at widths.now result }
{
    let mut end = at;
    for width in widths {
        end = fit(len, end, *width)?;
    }
    Ok(end)
}

/// Where this many blocks end.
pub(crate) fn fit_blocks(len: usize, at: usize, count: u32) -> Result<usize, PastEnd>
    requires within { at ≤ len }
    requires few { len < 2 ^ 63 }
    ensures { Reaches len at (blocks_widths count) result }
{
    let whole = (len - at) / 12;
    if count as usize <= whole {
        return Ok(at + 12 * count as usize);
    }
    fit_all(len, at + 12 * whole, &[8, 4])
}

/// Where the clip at a place ends.
fn fit_clip(bytes: &[u8], at: usize) -> Result<usize, PastEnd>
    requires within { at ≤ length bytes.now }
    ensures { Reaches (length bytes.now) at (clip_widths at bytes.now) result }
{
    let len = bytes.len();
    let end = fit_all(len, at, &[8, 4])?;
    fit_blocks(len, end, u32_at(bytes, end - 4))
}

/// Where this many clips end.
pub(crate) fn fit_clips(bytes: &[u8], at: usize, count: u32) -> Result<usize, PastEnd>
    requires within { at ≤ length bytes.now }
    ensures { Reaches (length bytes.now) at (clips_widths count at bytes.now) result }
{
    let mut end = at;
    for _ in 0..count {
        end = fit_clip(bytes, end)?;
    }
    Ok(end)
}

/// Where the track at a place ends.
fn fit_track(bytes: &[u8], at: usize) -> Result<usize, PastEnd>
    requires within { at ≤ length bytes.now }
    ensures { Reaches (length bytes.now) at (track_widths at bytes.now) result }
{
    let end = fit_all(bytes.len(), at, &[8, 4, 1, 1, 4])?;
    fit_clips(bytes, end, u32_at(bytes, end - 4))
}

/// Where this many tracks end.
pub(crate) fn fit_tracks(bytes: &[u8], at: usize, count: u32) -> Result<usize, PastEnd>
    requires within { at ≤ length bytes.now }
    ensures { Reaches (length bytes.now) at (tracks_widths count at bytes.now) result }
{
    let mut end = at;
    for _ in 0..count {
        end = fit_track(bytes, end)?;
    }
    Ok(end)
}

/// Where an edit ends.
fn fit_edit(bytes: &[u8]) -> Result<usize, PastEnd>
    ensures { Reaches (length bytes.now) 0 (edit_widths bytes.now) result }
{
    let end = fit_all(bytes.len(), 0, &[1, 8, 8, 8, 4])?;
    fit_tracks(bytes, end, u32_at(bytes, end - 4))
}

/// The length that the fields ask of the body: up to the end of the first that does not fit, else of the last.
pub(crate) fn asked_len(bytes: &[u8]) -> usize
    ensures { result ≡ asked_length bytes.now }
{
    if bytes.is_empty() {
        return 1;
    }
    match bytes[0] {
        EDIT_KIND => match fit_edit(bytes) {
            Ok(end) => end,
            Err(past) => past.end,
        },
        UNDO_KIND | REDO_KIND => 1,
        PURGE_KIND => 9,
        _ => bytes.len(),
    }
}
