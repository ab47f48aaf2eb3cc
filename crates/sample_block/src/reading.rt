// A block from bytes, whole or a field of it.
ghost use Rattle.std.specs.Prelude.{◌≡◌, ◌≤◌, ◌+◌, ◌*◌, ◌∷◌, ◌++◌, [], length, ℤ, List, None, IfOk, IfErr, OnOk};
ghost use Rattle.std.specs.Int.{w16, cast_signed};
ghost use Rattle.pcm_base.specs.declared.limits.TheConstants.{MAX_BLOCK_SAMPLES};
ghost use Rattle.sample_block.specs.Faults.{number_at, difference, size_difference, damage_of, samples_in, Tells};
ghost use Rattle.sample_block.specs.Faults.{Gives, IsFoundAs};
ghost use Rattle.peak_summary.specs.Peaks.{frame_count, frames_of};
ghost use Rattle.sample_block.specs.Spelling.{header_fields, sample_field, frame_fields, level_fields, number, size_of};
ghost use Rattle.sample_block.specs.Spelling.{IsSpelled, IsBlock};
ghost use Rattle.std.specs.List.{flat_map};

use super::block::{Block, Header};
use super::damage::{BadBlock, Damaged};
use super::levels::{LONG_FRAME, MAX_LONG_FRAMES, MAX_SHORT_FRAMES};
use super::samples::take_frame;
use super::writing::file_size;
use byteorder::{ByteOrder, LittleEndian};
use pcm_base::Samples;
use peak_summary::{NOTHING, Summary, all_fit, fill_long};
use std::alloc::{AllocError, Global};

/// The header, from the first 16 bytes of a file.
pub fn header(bytes: &[u8]) -> Header
    requires { 16 ≤ length bytes.now }
    ensures magic { result.magic ≡ number_at bytes.now 0 4 }
    ensures id { result.id ≡ number_at bytes.now 4 8 }
    ensures count { result.count ≡ number_at bytes.now 12 4 }
{
    Header {
        magic: LittleEndian::read_u32(bytes),
        id: LittleEndian::read_u64(&bytes[4..]),
        count: LittleEndian::read_u32(&bytes[12..]),
    }
}

/// Frame `i` of bytes that begin with a frame: 12 bytes each. A file does not say how many samples a frame has, so
/// the caller does.
pub fn frame_at(bytes: &[u8], i: u32, count: u64) -> Summary
    requires { 12 * i + 12 ≤ length bytes.now }
    ensures min { result.min ≡ cast_signed w16 (number_at bytes.now (12 * i) 2) }
    ensures max { result.max ≡ cast_signed w16 (number_at bytes.now (12 * i + 2) 2) }
    ensures squares { result.squares ≡ number_at bytes.now (12 * i + 4) 8 }
    ensures count { result.count ≡ count }
{
    let at = 12 * i as usize;
    Summary {
        min: LittleEndian::read_i16(&bytes[at..]),
        max: LittleEndian::read_i16(&bytes[at + 2..]),
        squares: LittleEndian::read_u64(&bytes[at + 4..]),
        count,
    }
}

/// Whether the first 16 bytes are those of the file of a block with this id and this many samples. An error is the
/// first of magic, id and count that differs.
pub fn check_header(bytes: &[u8], id: u64, count: u32) -> Result<(), Damaged>
    requires { 16 ≤ length bytes.now }
    ensures { Tells result (difference bytes.now 0 (header_fields id count)) }
{
    let read = header(bytes);
    if read.magic != super::MAGIC {
        return Err(Damaged {
            at: 0,
            want: super::MAGIC as u128,
            have: read.magic as u128,
        });
    }
    if read.id != id {
        return Err(Damaged {
            at: 4,
            want: id as u128,
            have: read.id as u128,
        });
    }
    if read.count != count {
        return Err(Damaged {
            at: 12,
            want: count as u128,
            have: read.count as u128,
        });
    }
    Ok(())
}

/// The minimum or the maximum of a frame, as a number of 16 bits.
fn check_sample(bytes: &[u8], at: usize, sample: i16) -> Result<(), Damaged>
    requires { at + 2 ≤ length bytes.now }
    ensures { Tells result (difference bytes.now at (sample_field sample ∷ [])) }
{
    let have = LittleEndian::read_u16(&bytes[at..]);
    let want = sample.cast_unsigned();
    if have != want {
        return Err(Damaged {
            at: at as u64,
            want: want as u128,
            have: have as u128,
        });
    }
    Ok(())
}

/// The sum of the squares of a frame.
fn check_squares(bytes: &[u8], at: usize, want: u64) -> Result<(), Damaged>
    requires { at + 8 ≤ length bytes.now }
    ensures { Tells result (difference bytes.now at (number 8 want ∷ [])) }
{
    let have = LittleEndian::read_u64(&bytes[at..]);
    if have != want {
        return Err(Damaged {
            at: at as u64,
            want: want as u128,
            have: have as u128,
        });
    }
    Ok(())
}

/// The 12 bytes of a frame.
fn check_frame(bytes: &[u8], at: usize, summary: &Summary) -> Result<(), Damaged>
    requires { at + 12 ≤ length bytes.now }
    ensures { Tells result (difference bytes.now at (frame_fields summary.now)) }
{
    if let Err(fault) = check_sample(bytes, at, summary.min) {
        return Err(fault);
    }
    if let Err(fault) = check_sample(bytes, at + 2, summary.max) {
        return Err(fault);
    }
    if let Err(fault) = check_squares(bytes, at + 4, summary.squares) {
        return Err(fault);
    }
    Ok(())
}

/// The frames of one level, from a place on.
fn check_level(bytes: &[u8], at: usize, frames: &[Summary]) -> Result<(), Damaged>
    requires { at + 12 * length frames.now ≤ length bytes.now }
    ensures { Tells result (difference bytes.now at (flat_map frame_fields frames.now)) }
{
    for i in 0..frames.len() {
        if let Err(fault) = check_frame(bytes, at + 12 * i, &frames[i]) {
            return Err(fault);
        }
    }
    Ok(())
}

/// Both levels, from a place on, the short one first.
pub(crate) fn check_both(
    bytes: &[u8],
    at: usize,
    short: &[Summary],
    long: &[Summary],
) -> Result<(), Damaged>
    requires { at + 12 * (length short.now + length long.now) ≤ length bytes.now }
    ensures { Tells result
        (difference bytes.now at (flat_map frame_fields short.now ++ flat_map frame_fields long.now)) }
{
    if let Err(fault) = check_level(bytes, at, short) {
        return Err(fault);
    }
    if let Err(fault) = check_level(bytes, at + 12 * short.len(), long) {
        return Err(fault);
    }
    Ok(())
}

/// The samples from place 16 on, and their frames of 256. Those of a frame are read and then summed, while they are
/// near.
fn take_samples(
    alloc: Global,
    bytes: &[u8],
    len: usize,
    short: &mut [Summary],
) -> Result<Vec<i16>, AllocError>
    requires few { len ≤ MAX_BLOCK_SAMPLES }
    requires whole { 16 + 2 * len ≤ length bytes.now }
    requires count { length short.old ≡ frame_count 256 len }
    ensures samples { IfOk result (λ v. v.items ≡ samples_in bytes.now 16 len) }
    ensures short { OnOk result (short.new ≡ frames_of 256 (samples_in bytes.now 16 len)) }
{
    let mut out = Vec::with_capacity(alloc, len)?;
    for i in 0..short.len() {
        short[i] = take_frame(bytes, len, i, &mut out)?;
    }
    Ok(out)
}

/// The samples of a file, and their frames of both levels.
fn take_measured(
    alloc: Global,
    bytes: &[u8],
    len: usize,
    short: &mut [Summary],
    long: &mut [Summary],
) -> Result<Vec<i16>, AllocError>
    requires few { len ≤ MAX_BLOCK_SAMPLES }
    requires whole { 16 + 2 * len ≤ length bytes.now }
    requires short { length short.old ≡ frame_count 256 len }
    requires long { length long.old ≡ frame_count LONG_FRAME len }
    ensures samples { IfOk result (λ v. v.items ≡ samples_in bytes.now 16 len) }
    ensures short { OnOk result (short.new ≡ frames_of 256 (samples_in bytes.now 16 len)) }
    ensures long { OnOk result (long.new ≡ frames_of LONG_FRAME (samples_in bytes.now 16 len)) }
{
    let samples = take_samples(alloc, bytes, len, short)?;
    all_fit(&samples);
    fill_long(short, long);
    Ok(samples)
}

/// The samples of a file whose size and header are right, where its frames are those of the samples.
fn take_checked(alloc: Global, bytes: &[u8], len: usize) -> Result<Vec<i16>, BadBlock>
    requires few { len ≤ MAX_BLOCK_SAMPLES }
    requires size { length bytes.now ≡ size_of len }
    ensures samples { IfOk result (λ v. v.items ≡ samples_in bytes.now 16 len) }
    ensures none { OnOk result (difference bytes.now (16 + 2 * len) (level_fields 256
        (samples_in bytes.now 16 len) ++ level_fields LONG_FRAME (samples_in bytes.now 16 len)) ≡ None) }
    ensures fault { IfErr result (IsFoundAs (difference bytes.now (16 + 2 * len) (level_fields 256
        (samples_in bytes.now 16 len) ++ level_fields LONG_FRAME (samples_in bytes.now 16 len)))) }
{
    let mut short = [NOTHING; MAX_SHORT_FRAMES];
    let mut long = [NOTHING; MAX_LONG_FRAMES];
    let short = &mut short[..len.div_ceil(256)];
    let long = &mut long[..len.div_ceil(LONG_FRAME as usize)];
    let samples = match take_measured(alloc, bytes, len, short, long) {
        Ok(samples) => samples,
        Err(_) => return Err(BadBlock::NoMemory),
    };
    match check_both(bytes, 16 + 2 * len, short, long) {
        Ok(()) => Ok(samples),
        Err(fault) => Err(BadBlock::Damaged { fault }),
    }
}

/// The size of the file and its first 16 bytes.
pub(crate) fn check_front(bytes: &[u8], id: u64, len: u32) -> Result<(), Damaged>
    requires { len ≤ MAX_BLOCK_SAMPLES }
    ensures size { OnOk result (length bytes.now ≡ size_of len) }
    ensures fields { Tells result (size_difference len bytes.now (difference bytes.now 0 (header_fields id len))) }
{
    let size = file_size(len as usize);
    if bytes.len() != size {
        return Err(Damaged {
            at: 0,
            want: size as u128,
            have: bytes.len() as u128,
        });
    }
    check_header(bytes, id, len)
}

// As `decode`, whose other clauses are laws on what this one says.
fn read(alloc: Global, bytes: &[u8], id: u64, len: u32) -> Result<Block, BadBlock>
    requires { len ≤ MAX_BLOCK_SAMPLES }
    ensures exact { Gives result (damage_of id len bytes.now, samples_in bytes.now 16 len) }
    ensures id { IfOk result (λ b. b.id ≡ id) }
{
    if let Err(fault) = check_front(bytes, id, len) {
        return Err(BadBlock::Damaged { fault });
    }
    let samples = match take_checked(alloc, bytes, len as usize) {
        Ok(samples) => samples,
        Err(bad) => return Err(bad),
    };
    Ok(Block {
        id,
        samples: Samples::new(samples),
    })
}

/// Reads the file of the block with this id, from 16 to below 2^62, and `len` samples, 1 to 262,144. Ok comes exactly
/// for its one spelling, unless memory runs out. Else the first that differs is reported: the size of the file, at 0,
/// then magic, id, count and the fields of the frames, in the order of the file.
pub fn decode(alloc: Global, bytes: &[u8], id: u64, len: u32) -> Result<Block, BadBlock>
    requires { IsBlock id len }
    // What is read is spelled so, each byte of it.
    ensures found { IfOk result (λ b. IsSpelled b.id b.samples bytes.now × (b.id ≡ id) × (length b.samples ≡ len)) }
    // What is spelled so is read.
    ensures only { (xs : List ℤ) → IsSpelled id xs bytes.now → length xs ≡ len → Gives result (None, xs) }
    // A fault is the first field that differs.
    ensures exact { Gives result (damage_of id len bytes.now, samples_in bytes.now 16 len) }
{
    read(alloc, bytes, id, len)
}
