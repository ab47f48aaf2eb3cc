// The line at a place, and the place after it.
ghost use Rattle.std.specs.Prelude.{◌≡◌, ◌≤◌};
ghost use Rattle.script_gen.specs.Bounds.{IsPlace};
ghost use Rattle.script_gen.specs.Script.{copy_at, delete_at, drawn_at, envelope_at, gain_at, line_at};
ghost use Rattle.script_gen.specs.Script.{paste_at, ramp_at, silence_at, undo_at};

use super::kind::Kind;
use super::place::Place;
use pcm_base::Command;

impl Place {
    fn ramp(&mut self) -> Command
        requires { IsPlace self.old }
        ensures line { result ≡ (ramp_at self.old).line }
        ensures place { self.new ≡ (ramp_at self.old).place }
    {
        let at = self.draw(self.len + 1);
        let count = 1 + self.draw(2000);
        let start = self.draw_signed(65_536, 32_768);
        let step = self.draw_signed(101, 50);
        self.len += count;
        Command::Ramp {
            track: 1,
            at,
            count: count as u32,
            start,
            step,
        }
    }

    fn delete(&mut self) -> Command
        requires { IsPlace self.old }
        ensures line { result ≡ (delete_at self.old).line }
        ensures place { self.new ≡ (delete_at self.old).place }
    {
        let range = self.draw_range();
        self.len -= range.to - range.from;
        Command::Delete {
            track: 1,
            from: range.from,
            to: range.to,
        }
    }

    fn gain(&mut self) -> Command
        requires { IsPlace self.old }
        ensures line { result ≡ (gain_at self.old).line }
        ensures place { self.new ≡ (gain_at self.old).place }
    {
        let range = self.draw_range();
        Command::Gain {
            track: 1,
            from: range.from,
            to: range.to,
            gain: self.draw(131_073) as u32,
        }
    }

    fn silence(&mut self) -> Command
        requires { IsPlace self.old }
        ensures line { result ≡ (silence_at self.old).line }
        ensures place { self.new ≡ (silence_at self.old).place }
    {
        let range = self.draw_range();
        Command::Silence {
            track: 1,
            from: range.from,
            to: range.to,
        }
    }

    fn copy(&mut self) -> Command
        requires { IsPlace self.old }
        ensures line { result ≡ (copy_at self.old).line }
        ensures place { self.new ≡ (copy_at self.old).place }
    {
        let range = self.draw_range();
        self.copied = range.to - range.from;
        Command::Copy {
            track: 1,
            count: 1,
            from: range.from,
            to: range.to,
        }
    }

    fn paste(&mut self) -> Command
        requires { IsPlace self.old }
        ensures line { result ≡ (paste_at self.old).line }
        ensures place { self.new ≡ (paste_at self.old).place }
    {
        let at = self.draw(self.len + 1);
        self.len += self.copied;
        Command::Paste { track: 1, at }
    }

    // An `undo`, where a line is left for its `redo`.
    fn undo(&mut self, left: u32) -> Command
        ensures line { result ≡ (undo_at left self.old).line }
        ensures place { self.new ≡ (undo_at left self.old).place }
    {
        if left == 0 {
            return Command::Tracks;
        }
        self.undone = true;
        Command::Undo
    }

    fn envelope(&self) -> Command
        ensures { result ≡ (envelope_at self.now).line }
    {
        Command::Envelope {
            track: 1,
            from: 0,
            to: self.len,
            columns: 16,
        }
    }

    fn drawn_line(&mut self, left: u32) -> Command
        requires { IsPlace self.old }
        ensures line { result ≡ (drawn_at left self.old).line }
        ensures place { self.new ≡ (drawn_at left self.old).place }
    {
        match self.draw_kind() {
            Kind::Ramp => self.ramp(),
            Kind::Delete => self.delete(),
            Kind::Gain => self.gain(),
            Kind::Silence => self.silence(),
            Kind::Copy => self.copy(),
            Kind::Paste => self.paste(),
            Kind::Undo => self.undo(left),
            Kind::Envelope => self.envelope(),
        }
    }

    /// The line that comes next, where this many are left after it.
    pub fn next_line(&mut self, left: u32) -> Command
        requires { IsPlace self.old }
        ensures line { result ≡ (line_at left self.old).line }
        ensures place { self.new ≡ (line_at left self.old).place }
    {
        if self.undone {
            self.undone = false;
            return Command::Redo;
        }
        self.drawn_line(left)
    }
}
