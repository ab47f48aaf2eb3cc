// A whole block file is compared, in no memory but the stack's.
ghost use Rattle.std.specs.Prelude.{◌≡◌, ◌≤◌, ◌+◌, ◌*◌, ◌++◌, length, ℤ, List, IsOk, OnOk};
ghost use Rattle.pcm_base.specs.declared.limits.TheConstants.{MAX_BLOCK_SAMPLES};
ghost use Rattle.peak_summary.specs.Peaks.{frame_count, frames_of};
ghost use Rattle.sample_block.specs.Faults.{difference, damage_of, samples_in, Tells};
ghost use Rattle.sample_block.specs.Spelling.{level_fields, size_of, IsSpelled, IsBlock};

use super::damage::Damaged;
use super::levels::{LONG_FRAME, MAX_LONG_FRAMES, MAX_SHORT_FRAMES};
use super::reading::{check_both, check_front};
use super::samples::short_frame;
use peak_summary::{NOTHING, Summary, fill_long};

/// The frames of 256 samples, of a file of `len`.
fn short_frames(bytes: &[u8], len: usize, out: &mut [Summary])
    requires few { len ≤ MAX_BLOCK_SAMPLES }
    requires whole { 16 + 2 * len ≤ length bytes.now }
    requires count { length out.old ≡ frame_count 256 len }
    ensures { out.new ≡ frames_of 256 (samples_in bytes.now 16 len) }
{
    for i in 0..out.len() {
        out[i] = short_frame(bytes, len, i);
    }
}

/// Both levels of frames, of a file of `len` samples.
fn measure_file(bytes: &[u8], len: usize, short: &mut [Summary], long: &mut [Summary])
    requires few { len ≤ MAX_BLOCK_SAMPLES }
    requires whole { 16 + 2 * len ≤ length bytes.now }
    requires short { length short.old ≡ frame_count 256 len }
    requires long { length long.old ≡ frame_count LONG_FRAME len }
    ensures short { short.new ≡ frames_of 256 (samples_in bytes.now 16 len) }
    ensures long { long.new ≡ frames_of LONG_FRAME (samples_in bytes.now 16 len) }
{
    short_frames(bytes, len, short);
    fill_long(short, long);
}

/// The frames of a file of `len` samples.
fn check_levels(bytes: &[u8], len: usize) -> Result<(), Damaged>
    requires few { len ≤ MAX_BLOCK_SAMPLES }
    requires size { length bytes.now ≡ size_of len }
    ensures { Tells result (difference bytes.now (16 + 2 * len) (level_fields 256
        (samples_in bytes.now 16 len) ++ level_fields LONG_FRAME (samples_in bytes.now 16 len))) }
{
    let mut short = [NOTHING; MAX_SHORT_FRAMES];
    let mut long = [NOTHING; MAX_LONG_FRAMES];
    let short = &mut short[..len.div_ceil(256)];
    let long = &mut long[..len.div_ceil(LONG_FRAME as usize)];
    measure_file(bytes, len, short, long);
    check_both(bytes, 16 + 2 * len, short, long)
}

// As `check`, whose other clauses are laws on what this one says.
fn compare(bytes: &[u8], id: u64, len: u32) -> Result<(), Damaged>
    requires { len ≤ MAX_BLOCK_SAMPLES }
    ensures { Tells result (damage_of id len bytes.now) }
{
    if let Err(fault) = check_front(bytes, id, len) {
        return Err(fault);
    }
    check_levels(bytes, len as usize)
}

/// Whether these bytes are the file of the block with this id, from 16 to below 2^62, and `len` samples, 1 to 262,144,
/// and else the first that differs, as [`decode`](super::decode) reports it. It takes no memory.
pub fn check(bytes: &[u8], id: u64, len: u32) -> Result<(), Damaged>
    requires { IsBlock id len }
    ensures exact { Tells result (damage_of id len bytes.now) }
    // Ok is for what is spelled so, and what is spelled so is Ok.
    ensures spelled { OnOk result (IsSpelled id (samples_in bytes.now 16 len) bytes.now) }
    ensures only { (xs : List ℤ) → IsSpelled id xs bytes.now → length xs ≡ len → IsOk result }
{
    compare(bytes, id, len)
}
