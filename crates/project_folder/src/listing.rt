// The numbers of the files that a folder lists.
ghost use Rattle.std.specs.Prelude.{◌≡◌, IfSome, OnOk, decimal};
ghost use Rattle.std.specs.Io.KnownBytes.{IsAtEnd};
ghost use Rattle.std.specs.List.Sorted.{IsStrictlyIncreasing};

use crate::folder::Folder;
use crate::paths::Paths;
use crate::plain::absent_is_none;
use crate::syncing::SyncFiles;
use disk_model::ListFault;
use itoa::Buffer;
use pcm_base::Failed;
use std::fs;
use std::io::Read;
use std::os::unix::fs::FileExt;
use std::rt::Files;

/// How many bytes of names are read at once.
const NAME_BYTES: usize = 4096;

// The number that a name writes in decimal, where it does.
pub(crate) fn number_of(name: &[u8]) -> Option<u64>
    ensures { IfSome result (λ n. name.now ≡ decimal n) }
{
    let Ok(text) = std::str::from_utf8(name) else {
        return None;
    };
    let Ok(number) = text.parse::<u64>() else {
        return None;
    };
    let mut digits = Buffer::new();
    if digits.format(number).as_bytes() == name {
        Some(number)
    } else {
        None
    }
}

// Whether the name is of something that may be a file: a folder is not listed.
fn is_listed<R: Files>(files: &R, paths: &mut Paths, file: u64) -> Result<bool, Failed> {
    let path = paths.numbered(file)?;
    match absent_is_none(fs::symlink_metadata(files, path))? {
        Some(metadata) => Ok(!metadata.is_dir()),
        None => Ok(false),
    }
}

// Adds the numbers among these names, each ended by a 0.
fn add_numbers<R: Files>(
    files: &R,
    paths: &mut Paths,
    names: &[u8],
    out: &mut Vec<u64>,
) -> Result<(), ListFault> {
    let mut start = 0;
    for end in 0..names.len() {
        if names[end] == 0 && start <= end {
            if let Some(number) = number_of(&names[start..end]) {
                match is_listed(files, paths, number) {
                    Ok(false) => {}
                    Ok(true) => {
                        if out.push(number).is_err() {
                            return Err(ListFault::NoMemory);
                        }
                    }
                    Err(_) => return Err(ListFault::Failed),
                }
            }
            start = end + 1;
        }
    }
    Ok(())
}

// Adds the numbers among all names, up to their end.
fn add_all<R: Files>(
    files: &R,
    paths: &mut Paths,
    names: &mut R::Dir,
    out: &mut Vec<u64>,
) -> Result<(), ListFault>
    ensures ended { OnOk result (IsAtEnd (R.Dir.remaining names.new)) }
{
    let mut buf = [0u8; NAME_BYTES];
    for _ in 0..u64::MAX {
        match names.read(&mut buf) {
            Ok(0) => return Ok(()),
            Ok(count) => add_numbers(files, paths, &buf[..count], out)?,
            Err(_) => return Err(ListFault::Failed),
        }
    }
    Err(ListFault::Failed)
}

// Puts the numbers of the folder's files into `out`, rising, in place of what it has. An absent folder has none.
pub(crate) fn list_numbers<R: Files + Drop, W: SyncFiles<R::File> + Drop>(
    folder: &mut Folder<R, W>,
    out: &mut Vec<u64>,
) -> Result<(), ListFault>
where
    R::File: FileExt,
    ensures rising { OnOk result (IsStrictlyIncreasing out.new.items) }
{
    out.clear();
    match folder.names() {
        Ok(Some(mut names)) => add_all(&folder.files, &mut folder.paths, &mut names, out)?,
        Ok(None) => {}
        Err(_) => return Err(ListFault::Failed),
    }
    out.sort_unstable();
    out.dedup();
    Ok(())
}
