// Parts of files, read one after the other.
ghost use Rattle.std.specs.Prelude.{◌≡◌, ◌↔◌, ◌+◌, ◌*◌, ◌<◌, ◌≤◌, true, length};
ghost use Rattle.pcm_base.specs.declared.limits.TheConstants.{COUNTER_LIMIT};
ghost use Rattle.disk_model.specs.Disk.{bytes_of};
ghost use Rattle.disk_model.specs.Parts.{AllThere, AreParts, IsThere, filled, part_samples, put_at, samples_from};
ghost use Rattle.memory_disk.specs.History.{reads_of};

use crate::log::CallLog;
use byteorder::{ByteOrder, LittleEndian};
use disk_model::Part;

/// How many samples are read at a time.
const BUFFER_LEN: usize = 4096;

// Reads samples whose bytes fit the buffer, and says whether the file has all of them.
fn read_buffer(log: &CallLog, file: u64, at: u64, buf: &mut [u8], out: &mut [i16]) -> bool
    requires few { at + 2 * length out.old ≤ COUNTER_LIMIT }
    requires some { 0 < length out.old }
    requires room { 2 * length out.old ≤ length buf.old }
    ensures there { (result ≡ true)
        ↔ (at + 2 * length out.old ≤ length (bytes_of (reads_of log.now.history file))) }
    ensures samples { result ≡ true
        → out.new ≡ samples_from (bytes_of (reads_of log.now.history file)) at (length out.old) }
{
    let size = 2 * out.len();
    if log.read(file, at, &mut buf[..size]) < size {
        return false;
    }
    LittleEndian::read_i16_into(&buf[..size], out);
    true
}

// Reads samples, a buffer at a time, and says whether the file has all of them.
fn read_samples(log: &CallLog, file: u64, at: u64, out: &mut [i16]) -> bool
    requires { at + 2 * length out.old ≤ COUNTER_LIMIT }
    ensures there { (result ≡ true)
        ↔ (0 < length out.old → at + 2 * length out.old ≤ length (bytes_of (reads_of log.now.history file))) }
    ensures samples { result ≡ true
        → out.new ≡ samples_from (bytes_of (reads_of log.now.history file)) at (length out.old) }
{
    let mut buf = [0u8; 2 * BUFFER_LEN];
    let mut done = 0;
    'buffers: while done < out.len() {
        let next = done + BUFFER_LEN.min(out.len() - done);
        if !read_buffer(
            log,
            file,
            at + 2 * done as u64,
            &mut buf,
            &mut out[done..next],
        ) {
            return false;
        }
        done = next;
    }
    true
}

// Reads a part to its place, and says whether its file has all of it.
fn read_part(log: &CallLog, part: &Part, out: &mut [i16]) -> bool
    requires within { part.now.to + part.now.len ≤ length out.old }
    requires few { part.now.at + 2 * part.now.len ≤ COUNTER_LIMIT }
    ensures there { (result ≡ true) ↔ IsThere (reads_of log.now.history) part.now }
    ensures read { result ≡ true
        → out.new ≡ put_at part.now.to (part_samples (reads_of log.now.history) part.now) out.old }
{
    let end = part.to + part.len;
    read_samples(log, part.file, part.at, &mut out[part.to..end])
}

// Reads each part, and says whether each file has all of its parts. The first that a file has not ends it.
pub(crate) fn read_in_turn(log: &CallLog, parts: &[Part], out: &mut [i16]) -> bool
    requires { AreParts 0 (length out.old) parts.now }
    ensures there { (result ≡ true) ↔ AllThere (reads_of log.now.history) parts.now }
    ensures read { result ≡ true → out.new ≡ filled (reads_of log.now.history) parts.now out.old }
{
    'parts: for part in parts {
        if !read_part(log, part, out) {
            return false;
        }
    }
    true
}
