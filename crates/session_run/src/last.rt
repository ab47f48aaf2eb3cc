// What is told of a session at its end.
ghost use Rattle.std.specs.Prelude.{◌≡◌, ◌||◌};
ghost use Rattle.script_text.specs.Last.{last_text};
ghost use Rattle.script_reader.specs.Change.{change};
ghost use Rattle.session_run.specs.Streams.{PrintsFrom, output};
ghost use Rattle.session_run.specs.Last.{
  WritesEnd,
  mic_end,
  mic_failed,
  play_end,
  play_line,
  play_refused,
  record_end,
  record_line,
  record_refused,
  speaker_failed,
  status_of,
};

use desk_session::{PlayOutcome, RecordOutcome, Side};
use edit_ports::Sink;
use pcm_base::Refusal;
use recorder_threads::MicEnd;
use script_reader::Stop;
use script_text::{PlayEnd, PlayLine, RecordEnd, RecordLine, write_last};

fn mic_end(end: MicEnd) -> RecordEnd
    ensures { result ≡ mic_end end }
{
    match end {
        MicEnd::End => RecordEnd::Whole,
        MicEnd::Fault => RecordEnd::Fault,
        MicEnd::Limit => RecordEnd::Limit,
    }
}

// How a recording ended.
fn record_end(refused: Option<Refusal>, end: MicEnd) -> RecordEnd
    ensures { result ≡ record_end refused end }
{
    match refused {
        Some(reason) => RecordEnd::Refused { reason },
        None => mic_end(end),
    }
}

// How a playback ended.
fn play_end(refused: Option<Refusal>, fault: bool) -> PlayEnd
    ensures { result ≡ play_end refused fault }
{
    match refused {
        Some(reason) => PlayEnd::Refused { reason },
        None => {
            if fault {
                PlayEnd::Fault
            } else {
                PlayEnd::Whole
            }
        }
    }
}

/// The line of a recording, where one was asked for.
pub fn record_line(track: u64, recording: Side, kept: &Option<RecordOutcome>) -> Option<RecordLine>
    ensures { result ≡ record_line track recording kept.now }
{
    match (recording, kept) {
        (Side::Made { .. }, Some(kept)) => Some(RecordLine {
            track,
            pieces: kept.numbers.as_slice().len() as u64,
            samples: kept.samples,
            end: record_end(kept.refused, kept.end),
        }),
        (Side::Refused { reason }, _) => Some(RecordLine {
            track: 0,
            pieces: 0,
            samples: 0,
            end: RecordEnd::Refused { reason },
        }),
        (Side::Made { .. }, None) | (Side::NotAsked, _) => None,
    }
}

/// The line of a playback, where one was asked for.
pub fn play_line(pin: Side, heard: &Option<PlayOutcome>) -> Option<PlayLine>
    ensures { result ≡ play_line pin heard.now }
{
    match (pin, heard) {
        (Side::Made { .. }, Some(heard)) => Some(PlayLine {
            frames: heard.frames,
            end: play_end(heard.refused, heard.fault),
        }),
        (Side::Refused { reason }, _) => Some(PlayLine {
            frames: 0,
            end: PlayEnd::Refused { reason },
        }),
        (Side::Made { .. }, None) | (Side::NotAsked, _) => None,
    }
}

/// Whether the microphone failed.
pub fn mic_failed(kept: &Option<RecordOutcome>) -> bool
    ensures { result ≡ mic_failed kept.now }
{
    match kept {
        Some(kept) => matches!(kept.end, MicEnd::Fault),
        None => false,
    }
}

/// Whether the speaker failed.
pub fn speaker_failed(heard: &Option<PlayOutcome>) -> bool
    ensures { result ≡ speaker_failed heard.now }
{
    match heard {
        Some(heard) => heard.fault,
        None => false,
    }
}

/// Whether one of the lines tells a refusal.
pub fn any_refused(recorded: &Option<RecordLine>, played: &Option<PlayLine>) -> bool
    ensures { result ≡ (record_refused recorded.now || play_refused played.now) }
{
    let recording = match recorded {
        Some(line) => matches!(line.end, RecordEnd::Refused { .. }),
        None => false,
    };
    let playback = match played {
        Some(line) => matches!(line.end, PlayEnd::Refused { .. }),
        None => false,
    };
    recording || playback
}

/// The status, by what stopped the script, whether the microphone or the speaker failed, and whether anything was
/// refused.
pub fn status_of(stop: Stop, fault: bool, refused: bool) -> u8
    ensures { result ≡ status_of stop fault refused }
{
    match stop {
        Stop::End => {
            if fault {
                4
            } else if refused {
                1
            } else {
                0
            }
        }
        Stop::Limit => { if fault { 4 } else { 6 } }
        Stop::SourceFault | Stop::OutFault => 4,
    }
}

// Prints the last lines. A fault is told by its count.
fn print_last<O: Sink>(
    out: &mut O,
    recorded: Option<RecordLine>,
    played: Option<PlayLine>,
    commit: u64,
)
    ensures { PrintsFrom (output O.Sink (change out.old out.new)) (last_text recorded played commit) }
{
    let _ = write_last(out, recorded, played, commit);
}

/// Prints the last lines, unless the output failed before.
pub fn end_lines<O: Sink>(
    out: &mut O,
    stop: Stop,
    recorded: Option<RecordLine>,
    played: Option<PlayLine>,
    commit: u64,
)
    ensures { WritesEnd stop (output O.Sink (change out.old out.new)) (last_text recorded played commit) }
{
    match stop {
        Stop::End => print_last(out, recorded, played, commit),
        Stop::Limit => print_last(out, recorded, played, commit),
        Stop::SourceFault => print_last(out, recorded, played, commit),
        Stop::OutFault => {}
    }
}
