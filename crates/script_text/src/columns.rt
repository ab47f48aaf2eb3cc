// Columns of an envelope, each on a line of its own, as a track.
ghost use Rattle.std.specs.Prelude.{◌≡◌, flat_map, Some};
ghost use Rattle.pcm_base.specs.Envelope.{rms_of};
ghost use Rattle.script_text.specs.Gathering.{Adds, Counts};
ghost use Rattle.script_text.specs.Text.{column_text};

use super::gathered::Gathered;
use super::numbers::{put_number, put_signed};
use super::roots::root;
use edit_ports::Sink;
use pcm_base::Scan;

// The root of the mean of the squares, both rounded down.
fn rms(scan: &Scan) -> u64
    ensures { result ≡ rms_of scan.now }
{
    root(scan.squares.checked_div(scan.count).unwrap_or(0))
}

fn put_scan<O: Sink>(text: &mut Gathered, out: &mut O, scan: &Scan)
    ensures bytes { Adds text.old (O.written out.old) text.new (O.written out.new) (column_text (Some scan.now)) }
    ensures cause { Counts text.old (O.fault_count out.old) text.new (O.fault_count out.new) }
{
    text.put(out, b"\ncol");
    put_signed(text, out, scan.min);
    put_signed(text, out, scan.max);
    put_number(text, out, scan.squares);
    put_number(text, out, scan.count);
    put_number(text, out, rms(scan));
}

pub fn put_column<O: Sink>(text: &mut Gathered, out: &mut O, column: &Option<Scan>)
    ensures bytes { Adds text.old (O.written out.old) text.new (O.written out.new) (column_text column.now) }
    ensures cause { Counts text.old (O.fault_count out.old) text.new (O.fault_count out.new) }
{
    match column {
        None => text.put(out, b"\ncol none"),
        Some(scan) => put_scan(text, out, scan),
    }
}

pub fn put_columns<O: Sink>(text: &mut Gathered, out: &mut O, columns: &[Option<Scan>])
    ensures bytes { Adds text.old (O.written out.old) text.new (O.written out.new) (flat_map column_text columns.now) }
    ensures cause { Counts text.old (O.fault_count out.old) text.new (O.fault_count out.new) }
{
    for column in columns {
        put_column(text, out, column);
    }
}
