// Parts of several files that are read in one call of a store over a folder.
ghost use Rattle.std.specs.Prelude.{◌≡◌};

use crate::asking::{Asked, ask};
use disk_model::{Part, Store};
use project_folder::FolderStore;
use std::alloc::{AllocError, Global};
use std::fs;

/// What a buffer of six samples has before it is read into.
const OLD: [i16; 6] = [9; 6];

/// A part by its file, its offset, its place and its length, and what it makes of the buffer: nothing where the file ends
/// before the part does.
type Row = (u64, u64, usize, usize, Option<[i16; 6]>);

fn part(file: u64, at: u64, to: usize, len: usize) -> Part
    ensures { result ≡ record { file = file; at = at; to = to; len = len } }
{
    Part { file, at, to, len }
}

/// File 16 has the samples 1, 2, -1 and -32,768, file 17 one and a half, and file 18 is absent.
static ROWS: [Row; 9] = [
    (16, 0, 0, 4, Some([1, 2, -1, -32768, 9, 9])),
    (16, 2, 3, 2, Some([9, 9, 9, 2, -1, 9])),
    (16, 1, 5, 1, Some([9, 9, 9, 9, 9, 512])),
    (16, 0, 0, 5, None),
    (16, 8, 0, 1, None),
    (16, 8, 6, 0, Some(OLD)),
    (17, 0, 2, 1, Some([9, 9, 5, 9, 9, 9])),
    (17, 0, 0, 2, None),
    (18, 0, 0, 1, None),
];

// Whether the store answers a row so.
fn answers<S: Store>(store: &mut S, row: &Row) -> bool {
    let (file, at, to, len, want) = *row;
    if to > 6 || len > 6 - to || at > 99 {
        return false;
    }
    let mut buf = OLD;
    match (store.read_parts(&[part(file, at, to, len)], &mut buf), want) {
        (Ok(true), Some(want)) => buf == want,
        (Ok(false), None) => true,
        _ => false,
    }
}

fn write_few<S: Store>(store: &mut S) -> bool {
    store.write_at(16, 0, b"\x01\0\x02\0\xff\xff\0\x80").is_ok()
        && store.write_at(17, 0, b"\x05\0\x06").is_ok()
}

// Whether a store over a folder without files answers each row so, and then a call on parts of two files.
fn reads_few<S: Store>(store: &mut S) -> bool {
    if !write_few(store) {
        return false;
    }
    for row in &ROWS {
        if !answers(store, row) {
            return false;
        }
    }
    let mut buf = OLD;
    let both = store.read_parts(&[part(17, 0, 1, 1), part(16, 4, 2, 2)], &mut buf);
    matches!(both, Ok(true)) && buf == [9, 5, -1, -32768, 9, 9] && store.faults() == 0
}

#[test]
fn parts_are_read_to_their_places(rt: HostRuntime) -> Result<(), AllocError> {
    for home in ["parts-in-turn", "parts-side-by-side"] {
        let _ = fs::remove_dir_all(&rt, home);
    }
    let mut store = FolderStore::new(rt, rt.alloc(), "parts-in-turn")?;
    assert!(rt; reads_few(&mut store));
    let mut store = FolderStore::side_by_side(rt, rt, rt.alloc(), "parts-side-by-side")?;
    assert!(rt; reads_few(&mut store));
    for home in ["parts-in-turn", "parts-side-by-side"] {
        let _ = fs::remove_dir_all(&rt, home);
    }
    Ok(())
}

/// How many samples each of four files has: enough that threads read them.
const LEN: usize = 200_000;

// The samples of a file, which differ from those of another at each place.
fn sample(file: u64, place: usize) -> i16 {
    (place % 8191) as i16 + 8191 * (file % 4) as i16
}

fn write_many<S: Store>(store: &mut S, alloc: Global) -> Result<bool, AllocError> {
    for file in 16..20 {
        let mut bytes = Vec::new(alloc);
        for place in 0..LEN {
            bytes.extend_from_slice(&sample(file, place).to_le_bytes())?;
        }
        if bytes.len() > 3 * LEN || store.write_at(file, 0, bytes.as_slice()).is_err() {
            return Ok(false);
        }
    }
    Ok(true)
}

// Whether a buffer has samples of a file from a place on, as many as these: those of the file from a number on.
fn has_samples(buf: &[i16], at: usize, len: usize, file: u64, from: usize) -> bool {
    let Some(samples) = buf.get(at..at.saturating_add(len)) else {
        return false;
    };
    for k in 0..samples.len() {
        if samples[k] != sample(file, from.saturating_add(k)) {
            return false;
        }
    }
    true
}

// Whether three samples from a place on are as they were.
fn has_old(buf: &[i16], at: usize) -> bool {
    match buf.get(at..at.saturating_add(3)) {
        Some(samples) => samples == [9, 9, 9].as_slice(),
        None => false,
    }
}

/// The parts of the four files: each from another sample on, with three samples between two of them.
const LONG: [Part; 4] = [
    Part {
        file: 16,
        at: 0,
        to: 0,
        len: LEN,
    },
    Part {
        file: 17,
        at: 2,
        to: LEN + 3,
        len: LEN - 1,
    },
    Part {
        file: 18,
        at: 4,
        to: 2 * LEN + 5,
        len: LEN - 2,
    },
    Part {
        file: 19,
        at: 6,
        to: 3 * LEN + 6,
        len: LEN - 3,
    },
];

// Whether the parts stand in their places, and what is between them stays.
fn are_read(buf: &[i16]) -> bool {
    has_samples(buf, 0, LEN, 16, 0)
        && has_old(buf, LEN)
        && has_samples(buf, LEN + 3, LEN - 1, 17, 1)
        && has_old(buf, 2 * LEN + 2)
        && has_samples(buf, 2 * LEN + 5, LEN - 2, 18, 2)
        && has_old(buf, 3 * LEN + 3)
        && has_samples(buf, 3 * LEN + 6, LEN - 3, 19, 3)
}

#[test]
fn many_samples_are_read_side_by_side(rt: HostRuntime) -> Result<(), AllocError> {
    let home = "parts-many";
    let _ = fs::remove_dir_all(&rt, home);
    let mut store = FolderStore::side_by_side(rt, rt, rt.alloc(), home)?;
    assert!(rt; write_many(&mut store, rt.alloc())?);
    let mut buf = vec![in rt.alloc(); 9i16; 4 * LEN + 3]?;
    assert!(rt; matches!(store.read_parts(&LONG, buf.as_mut_slice()), Ok(true)));
    assert!(rt; are_read(buf.as_slice()));
    // One of them is cut short, then one is a folder.
    assert!(rt; fs::write(&rt, "parts-many/project/18", b"x".as_slice()).is_ok());
    assert!(rt; matches!(store.read_parts(&LONG, buf.as_mut_slice()), Ok(false)));
    assert!(rt; store.faults() == 0);
    drop(store);
    assert!(rt; fs::remove_file(&rt, "parts-many/project/17").is_ok());
    assert!(rt; fs::create_dir(&rt, "parts-many/project/17").is_ok());
    let mut store = FolderStore::side_by_side(rt, rt, rt.alloc(), home)?;
    assert!(rt; store.read_parts(&LONG, buf.as_mut_slice()).is_err() && store.faults() == 1);
    assert!(rt; ask(&mut store, Asked::Read, 16));
    let _ = fs::remove_dir_all(&rt, home);
    Ok(())
}
