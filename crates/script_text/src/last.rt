// The last lines of a session: what it recorded, what it played, and its commit number.
ghost use Rattle.pcm_base.specs.Causes.{HasCause};
ghost use Rattle.edit_ports.specs.Told.{Writes};
ghost use Rattle.script_text.specs.Gathering.{Adds, Counts};
ghost use Rattle.script_text.specs.Text.{end_text};
ghost use Rattle.script_text.specs.Last.{refused_ending, record_ending, play_ending, record_text, play_text, last_text};

use super::gathered::Gathered;
use super::numbers::{put_named, put_number};
use super::reasons::put_reason;
use edit_ports::Sink;
use pcm_base::{Failed, Refusal};

/// How a recording ended. Where several hold it is the first of `Refused`, `Fault` and `Limit`.
#[derive(Clone, Copy, Debug, PartialEq, Eq, Drop)]
pub enum RecordEnd {
    /// The microphone was read to its end, and all pieces were committed.
    Whole,
    /// The new track or a piece was refused.
    Refused { reason: Refusal },
    /// The microphone failed.
    Fault,
    /// The microphone was read up to its limit, and had not ended.
    Limit,
}

/// What is told of a recording.
#[derive(Clone, Copy, Debug, PartialEq, Eq, Drop)]
pub struct RecordLine {
    /// The id of the new track, 0 where none was made.
    pub track: u64,
    /// The number of the pieces that were committed.
    pub pieces: u64,
    /// The number of the samples in these pieces.
    pub samples: u64,
    pub end: RecordEnd,
}

/// How a playback ended. Where both hold it is `Refused` and not `Fault`.
#[derive(Clone, Copy, Debug, PartialEq, Eq, Drop)]
pub enum PlayEnd {
    /// All frames were written.
    Whole,
    /// The pin or a read of it was refused.
    Refused { reason: Refusal },
    /// The speaker failed.
    Fault,
}

/// What is told of a playback.
#[derive(Clone, Copy, Debug, PartialEq, Eq, Drop)]
pub struct PlayLine {
    /// The number of the frames that were written whole.
    pub frames: u64,
    pub end: PlayEnd,
}

fn put_refused<O: Sink>(text: &mut Gathered, out: &mut O, reason: &Refusal)
    ensures bytes { Adds text.old (O.written out.old) text.new (O.written out.new) (refused_ending reason.now) }
    ensures cause { Counts text.old (O.fault_count out.old) text.new (O.fault_count out.new) }
{
    text.put(out, b" no ");
    put_reason(text, out, reason);
}

fn put_record_end<O: Sink>(text: &mut Gathered, out: &mut O, end: &RecordEnd)
    ensures bytes { Adds text.old (O.written out.old) text.new (O.written out.new) (record_ending end.now) }
    ensures cause { Counts text.old (O.fault_count out.old) text.new (O.fault_count out.new) }
{
    match end {
        RecordEnd::Whole => {}
        RecordEnd::Refused { reason } => put_refused(text, out, reason),
        RecordEnd::Fault => text.put(out, b" fault"),
        RecordEnd::Limit => text.put(out, b" limit"),
    }
}

fn put_play_end<O: Sink>(text: &mut Gathered, out: &mut O, end: &PlayEnd)
    ensures bytes { Adds text.old (O.written out.old) text.new (O.written out.new) (play_ending end.now) }
    ensures cause { Counts text.old (O.fault_count out.old) text.new (O.fault_count out.new) }
{
    match end {
        PlayEnd::Whole => {}
        PlayEnd::Refused { reason } => put_refused(text, out, reason),
        PlayEnd::Fault => text.put(out, b" fault"),
    }
}

fn put_record<O: Sink>(text: &mut Gathered, out: &mut O, recording: &Option<RecordLine>)
    ensures bytes { Adds text.old (O.written out.old) text.new (O.written out.new) (record_text recording.now) }
    ensures cause { Counts text.old (O.fault_count out.old) text.new (O.fault_count out.new) }
{
    match recording {
        None => {}
        Some(line) => {
            put_named(text, out, b"rec", line.track);
            put_number(text, out, line.pieces);
            put_number(text, out, line.samples);
            put_record_end(text, out, &line.end);
            text.put(out, b"\n");
        }
    }
}

fn put_play<O: Sink>(text: &mut Gathered, out: &mut O, playback: &Option<PlayLine>)
    ensures bytes { Adds text.old (O.written out.old) text.new (O.written out.new) (play_text playback.now) }
    ensures cause { Counts text.old (O.fault_count out.old) text.new (O.fault_count out.new) }
{
    match playback {
        None => {}
        Some(line) => {
            put_named(text, out, b"play", line.frames);
            put_play_end(text, out, &line.end);
            text.put(out, b"\n");
        }
    }
}

// The last line of all.
pub fn put_end<O: Sink>(text: &mut Gathered, out: &mut O, commit: u64)
    ensures bytes { Adds text.old (O.written out.old) text.new (O.written out.new) (end_text commit) }
    ensures cause { Counts text.old (O.fault_count out.old) text.new (O.fault_count out.new) }
{
    put_named(text, out, b"end", commit);
    text.put(out, b"\n");
}

/// Writes the line of a recording and the line of a playback, where there was one, and then the last line of the
/// session, which tells its commit number. After a fault a part of them, from their front, is written.
pub fn write_last<O: Sink>(
    out: &mut O,
    recording: Option<RecordLine>,
    playback: Option<PlayLine>,
    commit: u64,
) -> Result<(), Failed>
    ensures bytes { Writes result (O.written out.old) (O.written out.new) (last_text recording playback commit) }
    ensures cause { HasCause (O.fault_count out.old) (O.fault_count out.new) result }
{
    let mut text = Gathered::new();
    put_record(&mut text, out, &recording);
    put_play(&mut text, out, &playback);
    put_end(&mut text, out, commit);
    text.finish(out)
}
