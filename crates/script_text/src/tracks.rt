// Tracks, each on a line of its own, which begins after the end of another.
ghost use Rattle.std.specs.Prelude.{flat_map};
ghost use Rattle.script_text.specs.Gathering.{Adds, Counts};
ghost use Rattle.script_text.specs.Text.{with_side, with_switch, track_text};

use super::gathered::Gathered;
use super::numbers::{put_named, put_number};
use edit_ports::Sink;
use pcm_base::{Side, TrackLine};

fn put_side<O: Sink>(text: &mut Gathered, out: &mut O, side: Side)
    ensures bytes { Adds text.old (O.written out.old) text.new (O.written out.new) (with_side side) }
    ensures cause { Counts text.old (O.fault_count out.old) text.new (O.fault_count out.new) }
{
    match side {
        Side::Both => text.put(out, b" both"),
        Side::Left => text.put(out, b" left"),
        Side::Right => text.put(out, b" right"),
    }
}

fn put_switch<O: Sink>(text: &mut Gathered, out: &mut O, on: bool)
    ensures bytes { Adds text.old (O.written out.old) text.new (O.written out.new) (with_switch on) }
    ensures cause { Counts text.old (O.fault_count out.old) text.new (O.fault_count out.new) }
{
    if on {
        text.put(out, b" 1")
    } else {
        text.put(out, b" 0")
    }
}

fn put_track<O: Sink>(text: &mut Gathered, out: &mut O, track: &TrackLine)
    ensures bytes { Adds text.old (O.written out.old) text.new (O.written out.new) (track_text track.now) }
    ensures cause { Counts text.old (O.fault_count out.old) text.new (O.fault_count out.new) }
{
    put_named(text, out, b"\ntrack", track.id);
    put_number(text, out, u64::from(track.gain));
    put_side(text, out, track.side);
    put_switch(text, out, track.mute);
    put_number(text, out, track.len);
}

pub fn put_tracks<O: Sink>(text: &mut Gathered, out: &mut O, tracks: &[TrackLine])
    ensures bytes { Adds text.old (O.written out.old) text.new (O.written out.new) (flat_map track_text tracks.now) }
    ensures cause { Counts text.old (O.fault_count out.old) text.new (O.fault_count out.new) }
{
    for track in tracks {
        put_track(text, out, track);
    }
}
