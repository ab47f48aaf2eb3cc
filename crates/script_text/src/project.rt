// The lines of a project as a whole: made, checked and listed.
ghost use Rattle.pcm_base.specs.Causes.{HasCause};
ghost use Rattle.edit_ports.specs.Told.{Writes};
ghost use Rattle.script_text.specs.Gathering.{Adds, Counts};
ghost use Rattle.script_text.specs.Project.{made_text, checked_text, shape_text, place_text, project_text};

use super::gathered::Gathered;
use super::last::put_end;
use super::numbers::{put_named, put_number};
use super::tracks::put_tracks;
use edit_ports::{Sink, write_all};
use pcm_base::{Failed, TrackLine};

/// What is told of a project beside its tracks.
#[derive(Clone, Copy, Debug, PartialEq, Eq, Drop)]
pub struct ProjectLines {
    /// How many frames there are in a second.
    pub rate: u32,
    /// How many samples a block has at most.
    pub block_size: u32,
    /// How many points are kept at most.
    pub depth: u32,
    /// How many commits were made.
    pub commit: u64,
    /// How many points there are.
    pub points: u64,
    /// The place of the current point, the oldest at 0.
    pub cursor: u64,
}

/// Writes the line of a project that was made. After a fault a part of it, from its front, is written.
pub fn write_made<O: Sink>(out: &mut O) -> Result<(), Failed>
    ensures bytes { Writes result (O.written out.old) (O.written out.new) made_text }
    ensures cause { HasCause (O.fault_count out.old) (O.fault_count out.new) result }
{
    write_all(out, b"ok 0\n")
}

/// Writes how many blocks of a project were checked, and the last line, which tells its commit number. After a fault a
/// part of them, from their front, is written.
pub fn write_checked<O: Sink>(out: &mut O, count: u64, commit: u64) -> Result<(), Failed>
    ensures bytes { Writes result (O.written out.old) (O.written out.new) (checked_text count commit) }
    ensures cause { HasCause (O.fault_count out.old) (O.fault_count out.new) result }
{
    let mut text = Gathered::new();
    put_named(&mut text, out, b"checked", count);
    text.put(out, b"\n");
    put_end(&mut text, out, commit);
    text.finish(out)
}

fn put_shape<O: Sink>(text: &mut Gathered, out: &mut O, project: &ProjectLines)
    ensures bytes { Adds text.old (O.written out.old) text.new (O.written out.new) (shape_text project.now) }
    ensures cause { Counts text.old (O.fault_count out.old) text.new (O.fault_count out.new) }
{
    put_named(text, out, b"project", u64::from(project.rate));
    put_number(text, out, u64::from(project.block_size));
    put_number(text, out, u64::from(project.depth));
}

fn put_place<O: Sink>(text: &mut Gathered, out: &mut O, project: &ProjectLines)
    ensures bytes { Adds text.old (O.written out.old) text.new (O.written out.new) (place_text project.now) }
    ensures cause { Counts text.old (O.fault_count out.old) text.new (O.fault_count out.new) }
{
    put_named(text, out, b"\ncommit", project.commit);
    put_named(text, out, b" points", project.points);
    put_named(text, out, b" cursor", project.cursor);
}

/// Writes the lines of a project, its tracks in the order given, and the last line, which tells its commit number.
/// After a fault a part of them, from their front, is written.
pub fn write_project<O: Sink>(
    out: &mut O,
    project: &ProjectLines,
    tracks: &[TrackLine],
) -> Result<(), Failed>
    ensures bytes { Writes result (O.written out.old) (O.written out.new) (project_text project.now tracks.now) }
    ensures cause { HasCause (O.fault_count out.old) (O.fault_count out.new) result }
{
    let mut text = Gathered::new();
    put_shape(&mut text, out, project);
    put_place(&mut text, out, project);
    put_tracks(&mut text, out, tracks);
    text.put(out, b"\n");
    put_end(&mut text, out, project.commit);
    text.finish(out)
}
