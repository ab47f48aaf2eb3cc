// The line of an answer: each function adds the piece of text that its definition gives.
ghost use Rattle.std.specs.Prelude.{flat_map};
ghost use Rattle.pcm_base.specs.Causes.{HasCause};
ghost use Rattle.edit_ports.specs.Told.{Writes};
ghost use Rattle.script_text.specs.Gathering.{Adds, Counts};
ghost use Rattle.script_text.specs.Text.{with_cell, with_frame, reply_text, text_of};

use super::columns::put_columns;
use super::gathered::Gathered;
use super::numbers::{put_named, put_number, put_pair, put_signed};
use super::reasons::put_reason;
use super::tracks::put_tracks;
use edit_ports::Sink;
use pcm_base::{Answer, Cell, Failed, Frame, Reply};

fn put_cell<O: Sink>(text: &mut Gathered, out: &mut O, cell: Cell)
    ensures bytes { Adds text.old (O.written out.old) text.new (O.written out.new) (with_cell cell) }
    ensures cause { Counts text.old (O.fault_count out.old) text.new (O.fault_count out.new) }
{
    match cell {
        Cell::Gap => text.put(out, b" ."),
        Cell::Sample(s) => put_signed(text, out, s),
    }
}

fn put_cells<O: Sink>(text: &mut Gathered, out: &mut O, cells: &[Cell])
    ensures bytes { Adds text.old (O.written out.old) text.new (O.written out.new) (flat_map with_cell cells.now) }
    ensures cause { Counts text.old (O.fault_count out.old) text.new (O.fault_count out.new) }
{
    for cell in cells {
        put_cell(text, out, *cell);
    }
}

fn put_frame<O: Sink>(text: &mut Gathered, out: &mut O, frame: Frame)
    ensures bytes { Adds text.old (O.written out.old) text.new (O.written out.new) (with_frame frame) }
    ensures cause { Counts text.old (O.fault_count out.old) text.new (O.fault_count out.new) }
{
    put_signed(text, out, frame.left);
    put_signed(text, out, frame.right);
}

fn put_frames<O: Sink>(text: &mut Gathered, out: &mut O, frames: &[Frame])
    ensures bytes { Adds text.old (O.written out.old) text.new (O.written out.new) (flat_map with_frame frames.now) }
    ensures cause { Counts text.old (O.fault_count out.old) text.new (O.fault_count out.new) }
{
    for frame in frames {
        put_frame(text, out, *frame);
    }
}

fn put_reply<O: Sink>(text: &mut Gathered, out: &mut O, commit: u64, reply: &Reply)
    ensures bytes { Adds text.old (O.written out.old) text.new (O.written out.new) (reply_text commit reply.now) }
    ensures cause { Counts text.old (O.fault_count out.old) text.new (O.fault_count out.new) }
{
    match reply {
        Reply::Done => put_named(text, out, b"ok", commit),
        Reply::Copied => put_named(text, out, b"copied", commit),
        Reply::Cells { cells } => {
            put_named(text, out, b"cells", commit);
            put_cells(text, out, cells.as_slice());
        }
        Reply::Frames { frames } => {
            put_named(text, out, b"frames", commit);
            put_frames(text, out, frames.as_slice());
        }
        Reply::Columns { columns } => {
            let columns = columns.as_slice();
            put_named(text, out, b"columns", commit);
            put_number(text, out, columns.len() as u64);
            put_columns(text, out, columns);
        }
        Reply::Tracks { tracks } => {
            let tracks = tracks.as_slice();
            put_named(text, out, b"tracks", commit);
            put_number(text, out, tracks.len() as u64);
            put_tracks(text, out, tracks);
        }
        Reply::Freed { count } => put_pair(text, out, b"freed", commit, *count),
        Reply::Packed { bytes } => put_pair(text, out, b"packed", commit, *bytes),
        Reply::Purged { count } => put_pair(text, out, b"purged", commit, *count),
        Reply::Wrote { bytes } => put_pair(text, out, b"wrote", commit, *bytes),
        Reply::Pinned { pin } => put_pair(text, out, b"pinned", commit, *pin),
        Reply::Length { frames } => put_pair(text, out, b"length", commit, *frames),
        Reply::Loaded { tracks } => {
            put_pair(text, out, b"loaded", commit, tracks.as_slice().len() as u64)
        }
        Reply::Refused { reason } => {
            put_named(text, out, b"no", commit);
            text.put(out, b" ");
            put_reason(text, out, reason);
        }
    }
}

/// Writes the line of an answer, in pieces of up to 4,096 bytes. After a fault a part of it, from its front, is
/// written.
pub fn write_answer<O: Sink>(out: &mut O, answer: &Answer) -> Result<(), Failed>
    ensures bytes { Writes result (O.written out.old) (O.written out.new) (text_of answer.now) }
    ensures cause { HasCause (O.fault_count out.old) (O.fault_count out.new) result }
{
    let mut text = Gathered::new();
    put_reply(&mut text, out, answer.commit, &answer.reply);
    text.put(out, b"\n");
    text.finish(out)
}
