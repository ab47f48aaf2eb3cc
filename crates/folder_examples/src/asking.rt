// What tests ask of a store over a folder whose calls are watched, step by step.
use crate::watch::{Call, Watch};
use crate::watched::watch_files;
use disk_model::{ListFault, Part, Store};
use project_folder::FolderStore;
use std::alloc::{AllocError, Global};
use std::io::ErrorKind;

/// A kind of call of a store on a file.
#[derive(Clone, Copy, Debug)]
pub(crate) enum Asked {
    Size,
    Read,
    Parts,
    Write,
    Sync,
    Remove,
}

impl Asked {
    pub(crate) fn is_change(self) -> bool {
        match self {
            Asked::Size | Asked::Read | Asked::Parts => false,
            Asked::Write | Asked::Sync | Asked::Remove => true,
        }
    }
}

/// A call of a store with what it is to answer, or what is wanted of the calls of the system from now on.
#[derive(Clone, Copy)]
pub(crate) enum Step {
    /// The file has this size, or is absent.
    Size(u64, Option<u64>),
    /// This many bytes are read from the place on, and no more.
    Read(u64, u64, &'static [u8]),
    /// The bytes are written from the place on.
    Write(u64, u64, &'static [u8]),
    /// This kind of call succeeds on the file.
    Done(Asked, u64),
    /// It fails.
    Fails(Asked, u64),
    /// It succeeds on each of these files, from the one up to below the other.
    All(Asked, u64, u64),
    /// File 16 can't be made longer.
    GrowthFails,
    /// The files can't be listed.
    ListFails,
    /// The files are those from the one to before the other.
    Lists(u64, u64),
    /// No more than this many files and folders are open at once.
    MostOpen(u32),
    /// How many calls failed, and how many of those that change the disk.
    Faults(u64, u64),
    /// Calls of the system of this kind fail, after this many that are served.
    FailAt(Call, u32),
    /// They fail with this error.
    FailAs(ErrorKind),
    /// All are served.
    ServeAll,
    /// A call moves this many bytes at most.
    Most(usize),
    /// Each file seems to have this length.
    Length(u64),
    /// This many calls of the system were made since they were counted last: openings, looks, writes, syncs of files
    /// and of folders, and removals.
    Counts([u32; 6]),
}

// Whether the first two samples of a file are read in a call of parts.
fn reads_part<S: Store>(store: &mut S, file: u64) -> bool {
    let part = Part {
        file,
        at: 0,
        to: 0,
        len: 2,
    };
    store.read_parts(&[part], &mut [0i16; 2]).is_ok()
}

// Whether the call succeeds.
pub(crate) fn ask<S: Store>(store: &mut S, asked: Asked, file: u64) -> bool {
    let mut buf = [0u8; 4];
    match asked {
        Asked::Size => store.size(file).is_ok(),
        Asked::Read => store.read_at(file, 0, &mut buf).is_ok(),
        Asked::Parts => reads_part(store, file),
        Asked::Write => store.write_at(file, 0, b"abcd").is_ok(),
        Asked::Sync => store.sync(file).is_ok(),
        Asked::Remove => store.remove(file).is_ok(),
    }
}

// Whether the call succeeds on each of these files, from the one up to below the other.
pub(crate) fn ask_each<S: Store>(store: &mut S, asked: Asked, first: u64, end: u64) -> bool {
    for file in first..end {
        if !ask(store, asked, file) {
            return false;
        }
    }
    true
}

// Whether these bytes are read from the place on, and what lies after them in the buffer stays.
fn reads<S: Store>(store: &mut S, file: u64, at: u64, want: &[u8]) -> bool {
    let mut buf = [9u8; 16];
    if at > 99 {
        return false;
    }
    match store.read_at(file, at, &mut buf) {
        Ok(count) => {
            let (read, rest) = buf.split_at(count);
            read == want && are_nines(rest)
        }
        Err(_) => false,
    }
}

fn are_nines(bytes: &[u8]) -> bool {
    for byte in bytes {
        if *byte != 9 {
            return false;
        }
    }
    true
}

fn list_fails<S: Store>(store: &mut S, alloc: Global) -> bool {
    matches!(store.files(&mut Vec::new(alloc)), Err(ListFault::Failed))
}

fn lists<S: Store>(store: &mut S, alloc: Global, first: u64, end: u64) -> bool {
    let mut listed = Vec::new(alloc);
    let mut wanted = first;
    if store.files(&mut listed).is_err() {
        return false;
    }
    for file in &listed {
        if *file != wanted || wanted >= end {
            return false;
        }
        wanted += 1;
    }
    wanted == end
}

// Whether the file has this size, or is absent.
fn has_size<S: Store>(store: &mut S, file: u64, want: Option<u64>) -> bool {
    match (store.size(file), want) {
        (Ok(Some(size)), Some(want)) => size == want,
        (Ok(None), None) => true,
        _ => false,
    }
}

fn are_same(one: [u32; 6], other: [u32; 6]) -> bool {
    one[0] == other[0]
        && one[1] == other[1]
        && one[2] == other[2]
        && one[3] == other[3]
        && one[4] == other[4]
        && one[5] == other[5]
}

// Whether a watched store answers the step so.
fn answers<S: Store>(store: &mut S, watch: &Watch, alloc: Global, step: Step) -> bool {
    match step {
        Step::Size(file, want) => return has_size(store, file, want),
        Step::Read(file, at, want) => return reads(store, file, at, want),
        Step::Write(file, at, bytes) => {
            return at < 99 && bytes.len() < 99 && store.write_at(file, at, bytes).is_ok();
        }
        Step::Done(asked, file) => return ask(store, asked, file),
        Step::Fails(asked, file) => return !ask(store, asked, file),
        Step::All(asked, first, end) => return ask_each(store, asked, first, end),
        Step::GrowthFails => return store.write_at(16, 9, b"").is_err(),
        Step::ListFails => return list_fails(store, alloc),
        Step::Lists(first, end) => return lists(store, alloc, first, end),
        Step::Faults(all, changes) => {
            return store.faults() == all && store.change_faults() == changes;
        }
        Step::Counts(counts) => return are_same(watch.count(), counts),
        Step::FailAt(call, served) => watch.fail(call, served),
        Step::FailAs(kind) => watch.kind.set(kind),
        Step::ServeAll => watch.fails.set(None),
        Step::Most(count) => watch.most.set(count),
        Step::MostOpen(count) => watch.most_open.set(count),
        Step::Length(length) => watch.told.set(Some(length)),
    }
    true
}

/// The first of the steps that a new store over the folder does not answer so, if there is one.
pub(crate) fn first_other(
    rt: HostRuntime,
    home: &str,
    steps: &[Step],
) -> Result<Option<usize>, AllocError> {
    let (files, watch) = watch_files(rt)?;
    let mut store = FolderStore::new(files, rt.alloc(), home)?;
    for (place, step) in steps.iter().enumerate() {
        if !answers(&mut store, &watch, rt.alloc(), *step) {
            return Ok(Some(place));
        }
    }
    Ok(None)
}
