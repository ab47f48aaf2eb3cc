// Plain files by their paths: how they differ from what else may stand there, opened, made, read and written.
ghost use Rattle.std.specs.Prelude.{◌≡◌, ◌<◌, ◌≤◌, ◌^◌, ◌+◌, ◌*◌, IfOk, OnOk, IfSome, IfNone, IsTrue, length};
ghost use Rattle.pcm_base.specs.declared.limits.TheConstants.{COUNTER_LIMIT};
ghost use Rattle.std.specs.Fs.{file_type, metadata_len, IsDir, IsFile, IsSymlink};

use byteorder::{ByteOrder, LittleEndian};
use pcm_base::{COUNTER_LIMIT, Failed};
use std::fs::{self, Metadata, OpenFile, OpenOptions};
use std::io::{self, ErrorKind};
use std::os::unix::fs::FileExt;
use std::rt::Files;

/// How many samples are read at a time.
const BUFFER_LEN: usize = 16_384;

/// What the opening of a file, or the making of a new one, has come to.
#[derive(Drop)]
pub(crate) enum Opened<F> {
    /// It is open.
    Open(F),
    /// Something stands already where it is to be made.
    There,
    /// It is absent, or the folder in which it is to be made.
    Absent,
}

// How many bytes a plain file has. What is no plain file, or is longer than 2^62 bytes, is refused.
pub(crate) fn plain_length(metadata: &Metadata) -> Result<u64, Failed>
    ensures length { IfOk result (λ n. n ≡ metadata_len metadata.now) }
    ensures bound { IfOk result (λ n. n ≤ COUNTER_LIMIT) }
    ensures plain { OnOk result (IsFile (file_type metadata.now)) }
{
    let length = metadata.len();
    if metadata.is_file() && length <= COUNTER_LIMIT {
        Ok(length)
    } else {
        Err(Failed)
    }
}

// Answers None where an error says that nothing is there.
pub(crate) fn absent_is_none<T>(answer: io::Result<T>) -> Result<Option<T>, Failed> {
    match answer {
        Ok(value) => Ok(Some(value)),
        Err(error) => {
            if error.kind() == ErrorKind::NotFound {
                Ok(None)
            } else {
                Err(Failed)
            }
        }
    }
}

// How many bytes the file at the path has, or None where nothing is there. A link is not followed, and is refused.
pub(crate) fn length_at<R: Files>(files: &R, path: &str) -> Result<Option<u64>, Failed>
    ensures bound { IfOk result (λ n. IfSome n (λ n. n ≤ COUNTER_LIMIT)) }
{
    match absent_is_none(fs::symlink_metadata(files, path))? {
        Some(metadata) => Ok(Some(plain_length(&metadata)?)),
        None => Ok(None),
    }
}

// Opens the plain file at the path as the options say, or answers None where nothing is there.
pub(crate) fn open_plain<R: Files>(
    files: &R,
    how: &OpenOptions,
    path: &str,
) -> Result<Option<R::File>, Failed> {
    match length_at(files, path)? {
        Some(_) => absent_is_none(how.open(files, path)),
        None => Ok(None),
    }
}

// Opens a file as the options say, or makes it, where they ask for a new one: that follows no link.
pub(crate) fn open_at<R: Files>(
    files: &R,
    how: &OpenOptions,
    path: &str,
) -> Result<Opened<R::File>, Failed> {
    match how.open(files, path) {
        Ok(file) => Ok(Opened::Open(file)),
        Err(error) => match error.kind() {
            ErrorKind::AlreadyExists => Ok(Opened::There),
            ErrorKind::NotFound => Ok(Opened::Absent),
            _ => Err(Failed),
        },
    }
}

// Makes a folder, where it is absent, and tells whether it was. The one that it lies in has to be there.
pub(crate) fn make_folder<R: Files>(files: &R, path: &str) -> Result<bool, Failed> {
    match fs::create_dir(files, path) {
        Ok(()) => Ok(true),
        Err(error) => {
            if error.kind() == ErrorKind::AlreadyExists {
                Ok(false)
            } else {
                Err(Failed)
            }
        }
    }
}

// Whether a microphone or a speaker may be this.
fn is_stream(metadata: &Metadata) -> bool
    ensures file { IsTrue result → IsSymlink (file_type metadata.now) → ⊥ }
    ensures folder { IsTrue result → IsDir (file_type metadata.now) → ⊥ }
{
    !metadata.is_symlink() && !metadata.is_dir()
}

// Whether a microphone or a speaker stands at the path: false where nothing does. A link and a folder are refused.
pub(crate) fn has_stream<R: Files>(files: &R, path: &str) -> Result<bool, Failed> {
    match absent_is_none(fs::symlink_metadata(files, path))? {
        Some(metadata) if !is_stream(&metadata) => Err(Failed),
        Some(_) => Ok(true),
        None => Ok(false),
    }
}

// Reads from the offset on until the buffer is full or the file ends.
pub(crate) fn read_full<F: FileExt>(file: &F, at: u64, buf: &mut [u8]) -> Result<usize, Failed>
    requires { at + length buf.old ≤ 2 ^ 63 }
    ensures within { IfOk result (λ n. n ≤ length buf.old) }
{
    let mut count = 0;
    while count < buf.len() {
        match file.read_at(&mut buf[count..], at + count as u64) {
            Ok(0) => return Ok(count),
            Ok(more) => count += more,
            Err(_) => return Err(Failed),
        }
    }
    Ok(count)
}

// Reads samples of 16 bits, little-endian, from the offset on, and says whether the file has all of them.
pub(crate) fn read_samples<F: FileExt>(file: &F, at: u64, out: &mut [i16]) -> Result<bool, Failed>
    requires { at + 2 * length out.old ≤ COUNTER_LIMIT }
{
    let mut buf = [0u8; 2 * BUFFER_LEN];
    let mut done = 0;
    'buffers: while done < out.len() {
        let next = done + BUFFER_LEN.min(out.len() - done);
        let size = 2 * (next - done);
        if read_full(file, at + 2 * done as u64, &mut buf[..size])? < size {
            return Ok(false);
        }
        LittleEndian::read_i16_into(&buf[..size], &mut out[done..next]);
        done = next;
    }
    Ok(true)
}

// Writes all bytes at the offset. A write of none makes the file reach to the offset, as any other write does.
pub(crate) fn write_full<F: FileExt + OpenFile>(
    file: &F,
    at: u64,
    bytes: &[u8],
) -> Result<(), Failed> {
    if bytes.is_empty() {
        return reach(file, at);
    }
    match file.write_all_at(bytes, at) {
        Ok(()) => Ok(()),
        Err(_) => Err(Failed),
    }
}

// Makes the file as long as this, where it is shorter.
fn reach<F: OpenFile>(file: &F, length: u64) -> Result<(), Failed> {
    let Ok(metadata) = file.metadata() else {
        return Err(Failed);
    };
    let Some(length) = longer(&metadata, length) else {
        return Ok(());
    };
    match file.set_len(length) {
        Ok(()) => Ok(()),
        Err(_) => Err(Failed),
    }
}

// The length, where the file is shorter.
fn longer(metadata: &Metadata, length: u64) -> Option<u64>
    ensures grows { IfSome result (λ n. metadata_len metadata.now < n) }
    ensures length { IfSome result (λ n. n ≡ length) }
    ensures enough { IfNone result (length ≤ metadata_len metadata.now) }
{
    if metadata.len() < length {
        Some(length)
    } else {
        None
    }
}
