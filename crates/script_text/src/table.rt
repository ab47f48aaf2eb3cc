// The lines as tables: a row for each line. A new line is a row here, and one in the grammar.
ghost use Rattle.std.specs.Prelude.{◌++◌, IfOk};
ghost use Rattle.pcm_base.specs.Form.{IsInForm};
ghost use Rattle.script_text.specs.Grammar.{Reads, words_at, form_in, rows, track_rows, range_rows, copy_rows};
ghost use Rattle.script_text.specs.Grammar.{other_rows};

use super::words::{Found, Words};
use super::{LineFault, kinds};
use pcm_base::Command;

// The command of a line by the row that its first word names: each field is read from a word of its kind, in the order
// of the fields, and the line ends after them. Where no row has that word, `$others` is what the line says.
macro_rules! line {
    ($first:ident, $words:ident, $others:expr;
        $($word:literal => $command:ident $({ $($field:ident: $kind:ident),+ })?,)+) => {
        $(if $first.text == $word.as_slice() {
            let command = Command::$command $({ $($field: kinds::$kind($words)?),+ })?;
            kinds::ends($words, command)
        } else)+ {
            $others
        }
    };
}

/// The command of a line, of its first word and of the words after it. First the lines on a whole track, or on a place
/// of one.
#[tactic(auto, unfolding(crate::specs::Grammar::track_rows))]
pub fn line(first: &Found, words: &mut Words) -> Result<Command, LineFault>
    ensures form { IfOk result (λ command. IsInForm command) }
    ensures reads { Reads (form_in rows first.now.text.now first.now.column) result
        (words_at words.old.line.now words.old.at) (words_at words.old.line.now words.new.at) }
{
    line! { first, words, range_line(first, words);
        b"track" => Track,
        b"drop" => Drop { track: number },
        b"level" => Level { track: number, gain: gain },
        b"side" => Side { track: number, side: side },
        b"mute" => Mute { track: number, mute: switch },
        b"put" => Put { track: number, at: number, samples: samples },
        b"ramp" => Ramp { track: number, at: number, count: ramp_count, start: sample, step: sample },
    }
}

// The lines on a range of a track.
#[tactic(auto, unfolding(crate::specs::Grammar::range_rows))]
fn range_line(first: &Found, words: &mut Words) -> Result<Command, LineFault>
    ensures form { IfOk result (λ command. IsInForm command) }
    ensures reads { Reads (form_in (range_rows ++ copy_rows ++ other_rows) first.now.text.now first.now.column) result
        (words_at words.old.line.now words.old.at) (words_at words.old.line.now words.new.at) }
{
    line! { first, words, copy_line(first, words);
        b"delete" => Delete { track: number, from: number, to: number },
        b"split-delete" => SplitDelete { track: number, from: number, to: number },
        b"silence" => Silence { track: number, from: number, to: number },
        b"trim" => Trim { track: number, from: number, to: number },
        b"gain" => Gain { track: number, from: number, to: number, gain: gain },
    }
}

// The lines that copy, and that insert what was copied.
#[tactic(auto, unfolding(crate::specs::Grammar::copy_rows))]
fn copy_line(first: &Found, words: &mut Words) -> Result<Command, LineFault>
    ensures form { IfOk result (λ command. IsInForm command) }
    ensures reads { Reads (form_in (copy_rows ++ other_rows) first.now.text.now first.now.column) result
        (words_at words.old.line.now words.old.at) (words_at words.old.line.now words.new.at) }
{
    line! { first, words, other_line(first, words);
        b"cut" => Cut { track: number, count: count, from: number, to: number },
        b"split-cut" => SplitCut { track: number, count: count, from: number, to: number },
        b"copy" => Copy { track: number, count: count, from: number, to: number },
        b"paste" => Paste { track: number, at: number },
        b"paste-over" => PasteOver { track: number, at: number },
    }
}

// The lines on points, on what is shown, and on files.
#[tactic(auto, unfolding(crate::specs::Grammar::other_rows))]
fn other_line(first: &Found, words: &mut Words) -> Result<Command, LineFault>
    ensures form { IfOk result (λ command. IsInForm command) }
    ensures reads { Reads (form_in other_rows first.now.text.now first.now.column) result
        (words_at words.old.line.now words.old.at) (words_at words.old.line.now words.new.at) }
{
    line! { first, words, Err(kinds::bad(first));
        b"undo" => Undo,
        b"redo" => Redo,
        b"purge" => Purge { count: number },
        b"purge-to" => PurgeTo { bytes: number },
        b"show" => Show { track: number, from: number, to: number },
        b"mix" => Mix { from: number, to: number },
        b"envelope" => Envelope { track: number, from: number, to: number, columns: number },
        b"tracks" => Tracks,
        b"reclaim" => Reclaim { limit: limit },
        b"compact" => Compact,
        b"import" => Import { name: name },
        b"export" => Export { name: name },
        b"bounce" => Bounce { name: name },
    }
}
