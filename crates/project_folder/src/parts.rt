// Parts of open files that are read in threads.
use crate::open_files::OpenFiles;
use crate::plain::read_samples;
use disk_model::Part;
use pcm_base::COUNTER_LIMIT;
use std::fs::File;
use std::thread::{Threads, join};

/// How many threads read at once at most. A thread that ends gives its stack back, and each processor takes note of
/// that. More threads make a read no faster, and delay what others compute meanwhile.
const THREADS: usize = 2;

/// How many samples a thread reads at least, or about as many, so that its start is small beside them.
const LEAST: usize = 131_072;

// Reads one part into a buffer that begins at a place, and says whether all of it was read.
fn read_part(files: &OpenFiles<File>, part: &Part, base: usize, out: &mut [i16]) -> bool {
    if part.len == 0 {
        return true;
    }
    if part.at > COUNTER_LIMIT / 2 || part.len as u64 > COUNTER_LIMIT / 4 {
        return false;
    }
    let Some(handle) = files.get(part.file) else {
        return false;
    };
    let Some(place) = part.to.checked_sub(base) else {
        return false;
    };
    if place > out.len() || part.len > out.len() - place {
        return false;
    }
    matches!(
        read_samples(&handle.inner, part.at, &mut out[place..place + part.len]),
        Ok(true)
    )
}

// Reads parts one after the other.
fn read_each(files: &OpenFiles<File>, parts: &[Part], base: usize, out: &mut [i16]) -> bool {
    for part in parts {
        if !read_part(files, part, base, out) {
            return false;
        }
    }
    true
}

// How many parts there are before the first that begins `size` samples after a place.
fn count_before(parts: &[Part], base: usize, size: usize) -> usize {
    for i in 0..parts.len() {
        if parts[i].to.saturating_sub(base) >= size {
            return i;
        }
    }
    parts.len()
}

// Reads parts into a buffer that begins at a place, in threads that each take about `size` of its samples, the
// last in this one. It says whether all were read.
fn read_stretches<T: Threads>(
    threads: &T,
    files: &OpenFiles<File>,
    parts: &[Part],
    base: usize,
    out: &mut [i16],
    size: usize,
) -> bool {
    let count = count_before(parts, base, size);
    let cut = match parts.get(count) {
        Some(next) => next.to.saturating_sub(base),
        None => 0,
    };
    if cut == 0 || cut >= out.len() {
        return read_each(files, parts, base, out);
    }
    let (front, back) = out.split_at_mut(cut);
    let (part, rest) = parts.split_at(count);
    let (here, there) = join(
        threads,
        || read_each(files, part, base, front),
        || read_stretches(threads, files, rest, base.saturating_add(cut), back, size),
    );
    here && there
}

// Reads parts of open files in threads, and says whether all were read.
pub(crate) fn read_side_by_side<T: Threads>(
    threads: &T,
    files: &OpenFiles<File>,
    parts: &[Part],
    out: &mut [i16],
) -> bool {
    let size = out.len().div_ceil(THREADS).max(LEAST);
    read_stretches(threads, files, parts, 0, out, size)
}
