// Points after one another.
ghost use Rattle.std.specs.Prelude.{◌≡◌, ◌⊎◌, ◌+◌, ◌-◌, ◌<◌, ◌≤◌, ◌∷◌, ◌++◌, [], Some, IfOk, IfErr, OnOk, OnErr, length, slice_index};
ghost use Rattle.std.specs.Prelude.{slice_get};
ghost use Rattle.pcm_base.specs.History.{IsHistory, history_of_one, points_of, tags_of, edited, amended, at_cursor};
ghost use Rattle.pcm_base.specs.History.{is_of_recording, purged, recorded};

use pcm_base::{NoMemory, Refusal};
use std::alloc::Global;
use std::collections::VecDeque;
use std::marker::Model;

/// Points, oldest first, each with a tag. One of them is current, and there are at most as many as the depth.
#[derive(Drop)]
pub struct History<P> {
    points: VecDeque<(P, u64)>,
    cursor: usize,
    depth: u32,
}

impl<P> Model for History<P> {
    ghost use Rattle.std.specs.VecDeque.{deque_capacity};
    ghost use Rattle.pcm_base.specs.History.{History, IsHistory};
    ghost use Rattle.undo_history.specs.Stored.{Stored};

    ghost Value = { Stored P };

    ghost view = { λ h. record {
      history = record { points = h.points.items; cursor = h.cursor; depth = h.depth };
      capacity = deque_capacity h.points;
    } };

    ghost invariant = { λ h. IsHistory (record { points = h.points.items; cursor = h.cursor; depth = h.depth }) };
}

impl<P: Drop> History<P> {
    /// A history of one point. The depth is how many points are kept, at least 1. Where there is no memory the point
    /// comes back.
    pub fn new(alloc: Global, first: P, tag: u64, depth: u32) -> Result<History<P>, P>
        requires { 1 ≤ depth }
        ensures ok { IfOk result (λ h. h.history ≡ history_of_one first tag depth) }
        ensures err { IfErr result (λ point. point ≡ first) }
    {
        let Ok(mut points) = VecDeque::with_capacity(alloc, 1) else {
            return Err(first);
        };
        points.push_back_reserved((first, tag));
        Ok(History {
            points,
            cursor: 0,
            depth,
        })
    }

    /// Makes room for one point, so that the next `push` or `record` takes no memory, whatever calls of `undo`, `redo`
    /// and `purge` come before it.
    pub fn reserve(&mut self) -> Result<(), NoMemory>
        ensures history { self.new.history ≡ self.old.history }
        ensures ok { OnOk result (length self.new.history.points < self.new.capacity) }
        ensures full { OnErr result (self.old.capacity ≤ length self.old.history.points) }
        ensures capacity { self.old.capacity ≤ self.new.capacity }
    {
        self.points.reserve(1)?;
        Ok(())
    }

    /// Puts a point after the current one and makes it current. Points that could be redone are dropped, and beyond
    /// the depth the oldest goes. It takes memory only where there is no room for one point more; where there is none,
    /// the point comes back and nothing changes.
    pub fn push(&mut self, point: P, tag: u64) -> Result<(), P>
        ensures ok { OnOk result (self.new.history ≡ edited self.old.history point tag) }
        ensures err { IfErr result (λ p. (p ≡ point) × (self.new.history ≡ self.old.history)) }
        ensures full { OnErr result (self.old.capacity ≤ length self.old.history.points) }
        ensures capacity { self.old.capacity ≤ self.new.capacity }
    {
        if self.points.reserve(1).is_err() {
            return Err(point);
        }
        self.points.truncate(self.cursor + 1);
        self.points.push_back_reserved((point, tag));
        if self.points.len() > self.depth as usize {
            let _ = self.points.pop_front();
        }
        self.cursor = self.points.len() - 1;
        Ok(())
    }

    /// Adds a point after all others, of which there are fewer than the depth. The current one stays. Where there is no
    /// memory the point comes back.
    pub fn add_last(&mut self, last: P, tag: u64) -> Result<(), P>
        requires { length self.old.history.points < self.old.history.depth }
        ensures ok { OnOk result (self.new.history
            ≡ record self.old.history { points = self.old.history.points ++ (last, tag) ∷ [] }) }
        ensures err { IfErr result (λ p. p ≡ last) }
    {
        if self.points.reserve(1).is_err() {
            return Err(last);
        }
        self.points.push_back_reserved((last, tag));
        Ok(())
    }

    /// Makes the point at a place current.
    pub fn go_to(&mut self, cursor: usize)
        requires { cursor < length self.old.history.points }
        ensures { self.new ≡ record self.old { history = at_cursor self.old.history cursor } }
    {
        self.cursor = cursor;
    }

    /// Puts a point in the place of the current one, which keeps its tag. Points that could be redone are dropped.
    fn amend(&mut self, point: P)
        ensures { self.new ≡ record self.old { history = amended self.old.history point } }
    {
        let tag = self.tag(self.cursor);
        self.points.truncate(self.cursor);
        self.points.push_back_reserved((point, tag));
    }

    /// Whether the current point is of the recording with this tag; 0 is the tag of all that is no recording.
    pub fn continues(&self, tag: u64) -> bool
        ensures { result ≡ is_of_recording self.now.history tag }
    {
        tag != 0 && self.tag(self.cursor) == tag
    }

    /// Records a point under a tag. A further piece of the current point's recording goes into the place of that point.
    /// All else is a new point. It takes memory only as `push` does.
    ///
    /// # Errors
    ///
    /// There is no memory: the point comes back and nothing changes.
    pub fn record(&mut self, point: P, tag: u64) -> Result<(), P>
        ensures ok { OnOk result (self.new.history ≡ recorded self.old.history point tag) }
        ensures err { IfErr result (λ p. (p ≡ point) × (self.new.history ≡ self.old.history)) }
        ensures full { OnErr result (self.old.capacity ≤ length self.old.history.points) }
        ensures capacity { self.old.capacity ≤ self.new.capacity }
    {
        if self.continues(tag) {
            self.amend(point);
            return Ok(());
        }
        self.push(point, tag)
    }

    /// Makes the point before the current one current: `NothingToUndo` where there is none.
    pub fn undo(&mut self) -> Result<(), Refusal>
        ensures ok { OnOk result ((0 < self.old.history.cursor)
            × (self.new ≡ record self.old { history = at_cursor self.old.history (self.old.history.cursor - 1) })) }
        ensures err { IfErr result
            (λ e. (e ≡ Refusal.NothingToUndo) × (self.old.history.cursor ≡ 0) × (self.new ≡ self.old)) }
    {
        if self.cursor == 0 {
            return Err(Refusal::NothingToUndo);
        }
        self.cursor -= 1;
        Ok(())
    }

    /// Makes the point after the current one current: `NothingToRedo` where there is none.
    pub fn redo(&mut self) -> Result<(), Refusal>
        ensures ok { OnOk result ((self.old.history.cursor + 1 < length self.old.history.points)
            × (self.new ≡ record self.old { history = at_cursor self.old.history (self.old.history.cursor + 1) })) }
        ensures err { IfErr result (λ e. (e ≡ Refusal.NothingToRedo)
            × (self.old.history.cursor + 1 ≡ length self.old.history.points) × (self.new ≡ self.old)) }
    {
        if self.cursor + 1 == self.points.len() {
            return Err(Refusal::NothingToRedo);
        }
        self.cursor += 1;
        Ok(())
    }

    /// Drops the `count` oldest points, of those before the current one: `BadRange` where there are fewer, and for 0.
    pub fn purge(&mut self, count: u64) -> Result<(), Refusal>
        ensures ok { OnOk result ((1 ≤ count) × (count ≤ self.old.history.cursor)
            × (self.new ≡ record self.old { history = purged self.old.history count })) }
        ensures err { IfErr result
            (λ e. (e ≡ Refusal.BadRange) × ((count ≡ 0) ⊎ (self.old.history.cursor < count)) × (self.new ≡ self.old)) }
    {
        if count == 0 || count > self.cursor as u64 {
            return Err(Refusal::BadRange);
        }
        let count = count as usize;
        let _ = self.points.drain(..count);
        self.cursor -= count;
        Ok(())
    }

    /// How many points there are.
    pub fn len(&self) -> usize
        ensures len { result ≡ length self.now.history.points }
        ensures whole { IsHistory self.now.history }
    {
        self.points.len()
    }

    /// The place of the current point.
    pub fn cursor(&self) -> usize
        ensures cursor { result ≡ self.now.history.cursor }
        ensures whole { IsHistory self.now.history }
    {
        self.cursor
    }

    /// How many points are kept at most.
    pub fn depth(&self) -> u32
        ensures depth { result ≡ self.now.history.depth }
        ensures whole { IsHistory self.now.history }
    {
        self.depth
    }

    /// The point at a place, the oldest at 0.
    pub fn point(&self, i: usize) -> &P
        requires { i < length self.now.history.points }
        ensures { slice_get (points_of self.now.history) i ≡ Some result.now }
    {
        &self.points[i].0
    }

    /// The tag of the point at a place.
    pub fn tag(&self, i: usize) -> u64
        requires { i < length self.now.history.points }
        ensures { result ≡ slice_index (tags_of self.now.history) i }
    {
        self.points[i].1
    }
}
