// Which kind of line comes next.
ghost use Rattle.std.specs.Prelude.{◌≡◌};
ghost use Rattle.script_gen.specs.Script.{kind_of, kind_at, drawn_on};

use super::place::Place;

/// The kinds of lines that are drawn.
#[derive(Clone, Copy)]
pub enum Kind {
    Ramp,
    Delete,
    Gain,
    Silence,
    Copy,
    Paste,
    /// An `undo` and its `redo`.
    Undo,
    Envelope,
}

// The kind that a number below 8 stands for.
fn kind_of(k: u64) -> Kind
    ensures { result ≡ kind_of k }
{
    match k {
        0 => Kind::Ramp,
        1 => Kind::Delete,
        2 => Kind::Gain,
        3 => Kind::Silence,
        4 => Kind::Copy,
        5 => Kind::Paste,
        6 => Kind::Undo,
        _ => Kind::Envelope,
    }
}

impl Place {
    /// Draws a kind. A short track is lengthened in place of a deletion, what was not copied is not pasted, and a long
    /// track is shortened in place of what lengthens it; the first of these that holds decides.
    pub fn draw_kind(&mut self) -> Kind
        ensures kind { result ≡ kind_at self.old }
        ensures place { self.new ≡ drawn_on self.old }
    {
        match kind_of(self.draw(8)) {
            Kind::Delete if self.len < 2000 => Kind::Ramp,
            Kind::Paste if self.copied == 0 => Kind::Copy,
            Kind::Ramp | Kind::Paste if self.len > 100_000 => Kind::Delete,
            kind => kind,
        }
    }
}
