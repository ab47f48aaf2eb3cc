// Numbers, each after a space, and words before them.
ghost use Rattle.std.specs.Prelude.{◌++◌};
ghost use Rattle.script_text.specs.Gathering.{Adds, Counts};
ghost use Rattle.script_text.specs.Text.{with_number, with_signed};

use super::gathered::Gathered;
use edit_ports::Sink;
use itoa::Buffer;

pub fn put_number<O: Sink>(text: &mut Gathered, out: &mut O, n: u64)
    ensures bytes { Adds text.old (O.written out.old) text.new (O.written out.new) (with_number n) }
    ensures cause { Counts text.old (O.fault_count out.old) text.new (O.fault_count out.new) }
{
    let mut buffer = Buffer::new();
    text.put(out, b" ");
    text.put(out, buffer.format(n).as_bytes());
}

// A number of up to 128 bits, as those of a damaged file.
pub fn put_wide<O: Sink>(text: &mut Gathered, out: &mut O, n: u128)
    ensures bytes { Adds text.old (O.written out.old) text.new (O.written out.new) (with_number n) }
    ensures cause { Counts text.old (O.fault_count out.old) text.new (O.fault_count out.new) }
{
    let mut buffer = Buffer::new();
    text.put(out, b" ");
    text.put(out, buffer.format(n).as_bytes());
}

pub fn put_signed<O: Sink>(text: &mut Gathered, out: &mut O, n: i16)
    ensures bytes { Adds text.old (O.written out.old) text.new (O.written out.new) (with_signed n) }
    ensures cause { Counts text.old (O.fault_count out.old) text.new (O.fault_count out.new) }
{
    let mut buffer = Buffer::new();
    text.put(out, b" ");
    text.put(out, buffer.format(n).as_bytes());
}

// A word and a number.
pub fn put_named<O: Sink>(text: &mut Gathered, out: &mut O, word: &[u8], n: u64)
    ensures bytes { Adds text.old (O.written out.old) text.new (O.written out.new) (word.now ++ with_number n) }
    ensures cause { Counts text.old (O.fault_count out.old) text.new (O.fault_count out.new) }
{
    text.put(out, word);
    put_number(text, out, n);
}

// A word and two numbers.
pub fn put_pair<O: Sink>(text: &mut Gathered, out: &mut O, word: &[u8], first: u64, second: u64)
    ensures bytes { Adds text.old (O.written out.old) text.new (O.written out.new)
        (word.now ++ with_number first ++ with_number second) }
    ensures cause { Counts text.old (O.fault_count out.old) text.new (O.fault_count out.new) }
{
    text.put(out, word);
    put_number(text, out, first);
    put_number(text, out, second);
}
