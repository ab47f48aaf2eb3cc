// The summary of a script that was made from a number, and run.
ghost use Rattle.pcm_base.specs.Causes.{HasCause};
ghost use Rattle.edit_ports.specs.Told.{Writes};
ghost use Rattle.script_text.specs.Gathering.{Adds, Counts};
ghost use Rattle.script_text.specs.Summary.{run_text, found_text, summary_text};

use super::columns::put_column;
use super::gathered::Gathered;
use super::numbers::{put_named, put_pair};
use edit_ports::Sink;
use pcm_base::{Failed, Scan};

/// What is told of a script that was made from a number, and of the project to which it led.
#[derive(Clone, Copy, Debug, PartialEq, Eq, Drop)]
pub struct Summary {
    /// The number that the script was made from.
    pub number: u64,
    /// How many lines it has.
    pub lines: u64,
    /// How many commits were made.
    pub commits: u64,
    /// How many cells the track has at the end.
    pub cells: u64,
    /// How many blocks the project names at the end.
    pub blocks: u64,
    /// What a scan of the whole track finds, if there is a sample.
    pub column: Option<Scan>,
}

fn put_run<O: Sink>(text: &mut Gathered, out: &mut O, summary: &Summary)
    ensures bytes { Adds text.old (O.written out.old) text.new (O.written out.new) (run_text summary.now) }
    ensures cause { Counts text.old (O.fault_count out.old) text.new (O.fault_count out.new) }
{
    put_pair(text, out, b"gen", summary.number, summary.lines);
    put_named(text, out, b" commits", summary.commits);
}

fn put_found<O: Sink>(text: &mut Gathered, out: &mut O, summary: &Summary)
    ensures bytes { Adds text.old (O.written out.old) text.new (O.written out.new) (found_text summary.now) }
    ensures cause { Counts text.old (O.fault_count out.old) text.new (O.fault_count out.new) }
{
    put_named(text, out, b"\ncells", summary.cells);
    put_named(text, out, b"\nblocks", summary.blocks);
    put_column(text, out, &summary.column);
}

/// Writes the four lines of a summary. After a fault a part of them, from their front, is written.
pub fn write_summary<O: Sink>(out: &mut O, summary: &Summary) -> Result<(), Failed>
    ensures bytes { Writes result (O.written out.old) (O.written out.new) (summary_text summary.now) }
    ensures cause { HasCause (O.fault_count out.old) (O.fault_count out.new) result }
{
    let mut text = Gathered::new();
    put_run(&mut text, out, summary);
    put_found(&mut text, out, summary);
    text.put(out, b"\n");
    text.finish(out)
}
