// A history whose layouts get their numbers as its points come.
ghost use Rattle.std.specs.Prelude.{◌≡◌, ◌+◌, ◌≤◌, ◌<◌, ◌++◌, ◌∷◌, [], List, IfOk, OnOk, Some, length, map, slice_get};
ghost use Rattle.pcm_base.specs.declared.limits.TheConstants.{COUNTER_LIMIT};
ghost use Rattle.pcm_base.specs.History.{history_of_one, points_of, recorded};
ghost use Rattle.project_state.specs.Numbers.{AreNewOrCurrent, AreUnnumbered, unnumbered, unnumbered_history};
ghost use Rattle.project_state.specs.declared.track.Track.{Track};
ghost use Rattle.layout_uses.specs.Drawing.{IsNumbered};

use super::drawing::{Drawn, draw_numbers};
use pcm_base::NoMemory;
use project_state::Point;
use std::alloc::Global;
use undo_history::History;

/// A history whose layouts have their numbers, and the number that the next new layout gets.
#[derive(Drop)]
pub struct Numbered {
    pub history: History<Point>,
    pub next: u64,
}

impl Numbered {
    /// A history of one point, whose layouts get the numbers from 1 on.
    ///
    /// # Errors
    ///
    /// There is no memory for the point.
    pub fn new(alloc: Global, point: &Point, tag: u64, depth: u32) -> Result<Numbered, NoMemory>
        requires depth { 1 ≤ depth }
        requires plain { AreUnnumbered point.now }
        ensures same { IfOk result (λ n. unnumbered_history n.history.history ≡ history_of_one point.now tag depth) }
        ensures numbered { IfOk result (λ n. IsNumbered n.history.history n.next) }
        ensures most { IfOk result (λ n. n.next ≤ 1 + length point.now) }
    {
        let none = Point::new(alloc);
        let Drawn { point, next } = draw_numbers(alloc, point, &none, 1)?;
        match History::new(alloc, point, tag, depth) {
            Ok(history) => Ok(Numbered { history, next }),
            Err(_) => Err(NoMemory),
        }
    }

    /// Adds a point after all others, of which there are fewer than the depth. Its layouts get their numbers by the
    /// point before it, as [`draw_numbers`] does. The current point stays.
    ///
    /// # Errors
    ///
    /// There is no memory for the point.
    pub fn add_last(&mut self, alloc: Global, point: &Point, tag: u64) -> Result<(), NoMemory>
        requires room { length self.old.history.history.points < self.old.history.history.depth }
        requires next { self.old.next ≤ COUNTER_LIMIT }
        requires numbered { IsNumbered self.old.history.history self.old.next }
        requires plain { AreUnnumbered point.now }
        ensures same { OnOk result (unnumbered_history self.new.history.history
            ≡ record (unnumbered_history self.old.history.history) {
              points = (unnumbered_history self.old.history.history).points ++ (point.now, tag) ∷ [];
            }) }
        ensures numbered { OnOk result (IsNumbered self.new.history.history self.new.next) }
        ensures most { OnOk result (self.new.next ≤ self.old.next + length point.now) }
    {
        let last = self.history.len() - 1;
        let before = self.history.point(last);
        let Drawn { point, next } = draw_numbers(alloc, point, before, self.next)?;
        match self.history.add_last(point, tag) {
            Ok(()) => {
                self.next = next;
                Ok(())
            }
            Err(_) => Err(NoMemory),
        }
    }

    /// Records a point, as [`History::record`] does. Its layouts get their numbers by the current point, as
    /// [`draw_numbers`] does. A track that has a number is the current one of its id.
    ///
    /// # Errors
    ///
    /// There is no memory for the point.
    pub fn record(&mut self, alloc: Global, point: &Point, tag: u64) -> Result<(), NoMemory>
        requires next { self.old.next ≤ COUNTER_LIMIT }
        requires numbered { IsNumbered self.old.history.history self.old.next }
        requires kept { (current : List Track)
            → slice_get (points_of self.old.history.history) self.old.history.history.cursor ≡ Some current
            → AreNewOrCurrent current point.now }
        ensures same { OnOk result (unnumbered_history self.new.history.history
            ≡ recorded (unnumbered_history self.old.history.history) (map unnumbered point.now) tag) }
        ensures numbered { OnOk result (IsNumbered self.new.history.history self.new.next) }
        ensures most { OnOk result (self.new.next ≤ self.old.next + length point.now) }
    {
        let cursor = self.history.cursor();
        let current = self.history.point(cursor);
        let Drawn { point, next } = draw_numbers(alloc, point, current, self.next)?;
        match self.history.record(point, tag) {
            Ok(()) => {
                self.next = next;
                Ok(())
            }
            Err(_) => Err(NoMemory),
        }
    }
}
