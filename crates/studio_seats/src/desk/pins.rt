// Pins, each call in one turn.
ghost use Rattle.std.specs.Prelude.{◌≡◌, ◌+◌, ◌^◌, ◌<◌, ◌≤◌, true, IsTrue, length, take, IfOk};
ghost use Rattle.pcm_base.specs.declared.limits.TheConstants.{MAX_CELLS, MAX_LOADED};
ghost use Rattle.mixdown.specs.Loads.{tracks_in};
ghost use Rattle.pcm_base.specs.declared.answer.Reply.TheVariants as reply;
ghost use Rattle.pcm_base.specs.declared.command.Call.TheVariants as call;
ghost use Rattle.pin_turn.specs.Calls.{known};
ghost use Rattle.editor_core.specs.Core.{core_of};
ghost use Rattle.editor_views.specs.Loads.{HasLoaded};
ghost use Rattle.editor_state.specs.Studios.{IsStudio};
ghost use Rattle.editor_state.specs.Took.{Took, quietly, silent, as_reply};
ghost use Rattle.studio_seats.specs.Deeds.{entries_of};
ghost use Rattle.studio_seats.specs.Desks.{IsAt, Says, asked, start_at, views};
ghost use Rattle.studio_seats.specs.Pins.{is_made};
ghost use Rattle.studio_seats.specs.Stands.{origin};

use super::Desk;
use super::said::said_by;
use crate::held::{DeskSeat, Held};
use disk_model::Store;
use edit_ports::Vault;
use mixdown::Loaded;
use pcm_base::{Frame, Said};
use std::marker::Brand;
use std::sync::Wait;

impl<S: Store, V: Vault> Desk<S, V> {
    /// Keeps the current project by a number of its own, as [`Studio::pin`](editor_core::Studio::pin) does.
    ///
    /// # Errors
    ///
    /// Those of that call; `Spent` where no turn is left.
    pub fn pin<R: Wait>(&self, rt: &R, seat: &mut DeskSeat<S, V>) -> Said<u64>
        requires { IsAt self.now seat.old }
        ensures same { IsAt self.now seat.new }
        ensures says { Says (origin S.Store V.Vault (start_at self.now))
            (asked call.Pin (as_reply reply.Pinned result.what) silent)
            result (views (known seat.old) (known seat.new)) }
        ensures made { IfOk result.what (λ pin. IsTrue (is_made pin (entries_of (known seat.new).seen))) }
    {
        said_by(
            self.turn.with::<R, Said<u64>, _, Brand>(
                rt,
                seat,
                &mut |held: &mut Held<S, V>| -> Said<u64>
                    requires { IsStudio S.Store (core_of held.old.studio) }
                    ensures took { Took S.Store (core_of held.old.studio)
                        (quietly call.Pin (as_reply reply.Pinned result.what)) (core_of held.new.studio) }
                    ensures at { result.at ≡ (core_of held.new.studio).commit_number }
                {
                    let what = held.studio.pin();
                    let at = held.studio.commit_number();
                    Said { at, what }
                },
            ),
        )
    }

    /// Lets a pinned project go. A studio that was stopped is served too.
    ///
    /// # Errors
    ///
    /// Those of [`Studio::unpin`](editor_core::Studio::unpin); `Spent` where no turn is left.
    pub fn unpin<R: Wait>(&self, rt: &R, seat: &mut DeskSeat<S, V>, pin: u64) -> Said<()>
        requires { IsAt self.now seat.old }
        ensures same { IsAt self.now seat.new }
        ensures says { Says (origin S.Store V.Vault (start_at self.now))
            (asked (call.Unpin pin) (as_reply (λ _. reply.Done) result.what) silent)
            result (views (known seat.old) (known seat.new)) }
    {
        said_by(
            self.turn.with::<R, Said<()>, _, Brand>(
                rt,
                seat,
                &mut |held: &mut Held<S, V>| -> Said<()>
                    requires { IsStudio S.Store (core_of held.old.studio) }
                    ensures took { Took S.Store (core_of held.old.studio)
                        (quietly (call.Unpin pin) (as_reply (λ _. reply.Done) result.what)) (core_of held.new.studio) }
                    ensures at { result.at ≡ (core_of held.new.studio).commit_number }
                {
                    let what = held.studio.unpin(pin);
                    let at = held.studio.commit_number();
                    Said { at, what }
                },
            ),
        )
    }

    /// How many frames the mix of a pinned project has.
    ///
    /// # Errors
    ///
    /// Those of [`Studio::pin_len`](editor_core::Studio::pin_len); `Spent` where no turn is left.
    pub fn pin_len<R: Wait>(&self, rt: &R, seat: &mut DeskSeat<S, V>, pin: u64) -> Said<u64>
        requires { IsAt self.now seat.old }
        ensures same { IsAt self.now seat.new }
        ensures says { Says (origin S.Store V.Vault (start_at self.now))
            (asked (call.PinLen pin) (as_reply reply.Length result.what) silent)
            result (views (known seat.old) (known seat.new)) }
    {
        said_by(
            self.turn.with::<R, Said<u64>, _, Brand>(
                rt,
                seat,
                &mut |held: &mut Held<S, V>| -> Said<u64>
                    requires { IsStudio S.Store (core_of held.old.studio) }
                    ensures took { Took S.Store (core_of held.old.studio)
                        (quietly (call.PinLen pin) (as_reply reply.Length result.what)) (core_of held.new.studio) }
                    ensures at { result.at ≡ (core_of held.new.studio).commit_number }
                {
                    let what = held.studio.pin_len(pin);
                    let at = held.studio.commit_number();
                    Said { at, what }
                },
            ),
        )
    }

    /// Puts the frames of the mix of a pinned project from a place on at the front of `out`, as many as there are and
    /// as it has room for, and answers how many. Where no turn is left `out` is as it was.
    ///
    /// # Errors
    ///
    /// Those of [`Studio::read_pin`](editor_core::Studio::read_pin); `Spent` where no turn is left.
    pub fn read_pin<R: Wait>(
        &self,
        rt: &R,
        seat: &mut DeskSeat<S, V>,
        pin: u64,
        from: u64,
        out: &mut [Frame],
    ) -> Said<usize>
        requires { IsAt self.now seat.old }
        ensures same { IsAt self.now seat.new }
        ensures says { Says (origin S.Store V.Vault (start_at self.now))
            (asked (call.ReadPin pin from (length out.old))
            (as_reply (λ n. reply.Frames (take n out.new)) result.what) silent)
            result (views (known seat.old) (known seat.new)) }
        ensures bound { IfOk result.what (λ n. n ≤ length out.new) }
        ensures limit { IfOk result.what (λ n. 0 < n → from + n ≤ MAX_CELLS) }
        ensures spent { (known seat.new).used_up ≡ true → out.new ≡ out.old }
    {
        said_by(
            self.turn.with::<R, Said<usize>, _, Brand>(
                rt,
                seat,
                &mut |held: &mut Held<S, V>| -> Said<usize>
                    requires { IsStudio S.Store (core_of held.old.studio) }
                    ensures took { Took S.Store (core_of held.old.studio)
                        (quietly (call.ReadPin pin from (length out.entry.now))
                        (as_reply (λ n. reply.Frames (take n out.exit.now)) result.what))
                        (core_of held.new.studio) }
                    ensures at { result.at ≡ (core_of held.new.studio).commit_number }
                    ensures bound { IfOk result.what (λ n. n ≤ length out.exit.now) }
                    ensures limit { IfOk result.what (λ n. 0 < n → from + n ≤ MAX_CELLS) }
                {
                    let what = held.studio.read_pin(pin, from, out);
                    let at = held.studio.commit_number();
                    Said { at, what }
                },
            ),
        )
    }

    /// Loads the tracks of a pinned project that are heard from a place on: as many frames as there are, up to `n`. It
    /// answers how many. Where no turn is left, what was loaded before is as it was.
    ///
    /// # Errors
    ///
    /// Those of [`Studio::load_pin`](editor_core::Studio::load_pin); `Spent` where no turn is left.
    pub fn load_pin<R: Wait>(
        &self,
        rt: &R,
        seat: &mut DeskSeat<S, V>,
        pin: u64,
        from: u64,
        n: usize,
        loaded: &mut Loaded,
    ) -> Said<usize>
        requires seat { IsAt self.now seat.old }
        requires most { n ≤ MAX_LOADED }
        requires few { from + n < 2 ^ 64 }
        ensures same { IsAt self.now seat.new }
        ensures says { Says (origin S.Store V.Vault (start_at self.now))
            (asked (call.LoadPin pin from n)
            (as_reply (λ _. reply.Loaded (tracks_in loaded.new)) result.what) silent)
            result (views (known seat.old) (known seat.new)) }
        ensures loaded { IfOk result.what (λ count. HasLoaded n count loaded.new) }
        ensures spent { (known seat.new).used_up ≡ true → loaded.new ≡ loaded.old }
    {
        said_by(
            self.turn.with::<R, Said<usize>, _, Brand>(
                rt,
                seat,
                &mut |held: &mut Held<S, V>| -> Said<usize>
                    requires studio { IsStudio S.Store (core_of held.old.studio) }
                    requires most { n ≤ MAX_LOADED }
                    requires few { from + n < 2 ^ 64 }
                    ensures took { Took S.Store (core_of held.old.studio)
                        (quietly (call.LoadPin pin from n)
                        (as_reply (λ _. reply.Loaded (tracks_in loaded.exit.now)) result.what))
                        (core_of held.new.studio) }
                    ensures at { result.at ≡ (core_of held.new.studio).commit_number }
                    ensures loaded { IfOk result.what (λ count. HasLoaded n count loaded.exit.now) }
                {
                    let what = held.studio.load_pin(pin, from, n, loaded);
                    let at = held.studio.commit_number();
                    Said { at, what }
                },
            ),
        )
    }
}
