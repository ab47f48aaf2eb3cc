// Draws from the generator's state.
ghost use Rattle.std.specs.Prelude.{◌≡◌, ◌<◌, ◌≤◌, ◌+◌, pos, ◌-ℤ◌, ◌^◌};
ghost use Rattle.script_gen.specs.Draws.{drawn, next_state};
ghost use Rattle.script_gen.specs.Bounds.{IsPlace};
ghost use Rattle.script_gen.specs.Script.{drawn_on, range_at};

use super::place::Place;

/// A range of cells: its first, and the one after its last.
#[derive(Clone, Copy)]
pub struct CellRange {
    pub from: u64,
    pub to: u64,
}

// The state after another.
fn next_state(state: u64) -> u64
    ensures { result ≡ next_state state }
{
    state
        .wrapping_mul(6_364_136_223_846_793_005)
        .wrapping_add(1_442_695_040_888_963_407)
}

// Of a drawn number, so much is taken off.
fn lowered(drawn: u64, by: u16) -> i16
    requires by { by ≤ 32768 }
    requires drawn { drawn < 32768 + by }
    ensures { result ≡ pos drawn -ℤ pos by }
{
    (drawn as i32 - i32::from(by)) as i16
}

impl Place {
    /// Draws a number below another: of the upper 31 bits of the next state, what is left by a division.
    pub fn draw(&mut self, below: u64) -> u64
        requires { 0 < below }
        ensures value { result ≡ drawn below (next_state self.old.state) }
        ensures within { result < below }
        ensures place { self.new ≡ drawn_on self.old }
    {
        self.state = next_state(self.state);
        (self.state >> 33) % below
    }

    /// Draws a sample or a step, from -`low` on, as many different ones as `count`.
    pub fn draw_signed(&mut self, count: u64, low: u16) -> i16
        requires some { 0 < count }
        requires low { low ≤ 32768 }
        requires few { count ≤ 32768 + low }
        ensures value { result ≡ pos (drawn count (next_state self.old.state)) -ℤ pos low }
        ensures place { self.new ≡ drawn_on self.old }
    {
        lowered(self.draw(count), low)
    }

    /// Draws a range of track 1, of at most 500 cells.
    pub fn draw_range(&mut self) -> CellRange
        requires { IsPlace self.old }
        ensures range { result ≡ range_at self.old }
        ensures order { result.from < result.to }
        ensures within { result.to ≤ self.old.len }
        ensures few { result.to ≤ result.from + 500 }
        ensures place { self.new ≡ drawn_on (drawn_on self.old) }
    {
        let from = self.draw(self.len);
        let count = 1 + self.draw((self.len - from).min(500));
        CellRange {
            from,
            to: from + count,
        }
    }
}
