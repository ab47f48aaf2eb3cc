// Undo, redo, purges, reclaims and compacts, each in one turn.
ghost use Rattle.std.specs.Prelude.{◌≡◌, IfOk};
ghost use Rattle.pcm_base.specs.declared.answer.Reply.TheVariants.{Done, Freed, Packed, Purged};
ghost use Rattle.pcm_base.specs.declared.command.Call.TheVariants.{Line};
ghost use Rattle.pcm_base.specs.declared.command.Command.TheVariants.{Undo, Redo, Purge, PurgeTo, Reclaim, Compact};
ghost use Rattle.pin_turn.specs.Calls.{known};
ghost use Rattle.editor_core.specs.Core.{core_of};
ghost use Rattle.editor_cleanup.specs.Compacts.{Compacts};
ghost use Rattle.editor_cleanup.specs.Frees.{Reclaims};
ghost use Rattle.editor_state.specs.Studios.{IsStudio};
ghost use Rattle.editor_state.specs.Took.{Took, quietly, silent, as_reply};
ghost use Rattle.studio_seats.specs.Desks.{IsAt, Says, asked, start_at, views};
ghost use Rattle.studio_seats.specs.Stands.{origin};

use super::Desk;
use super::said::said_by;
use crate::held::{DeskSeat, Held};
use disk_model::Store;
use edit_ports::Vault;
use pcm_base::Said;
use std::alloc::Global;
use std::marker::Brand;
use std::sync::Wait;

impl<S: Store, V: Vault> Desk<S, V> {
    /// Goes back to the point before, and answers the commit number. It takes no memory.
    ///
    /// # Errors
    ///
    /// Those of [`Studio::undo`](editor_core::Studio::undo); `Spent` where no turn is left.
    pub fn undo<R: Wait>(&self, rt: &R, seat: &mut DeskSeat<S, V>) -> Said<u64>
        requires { IsAt self.now seat.old }
        ensures same { IsAt self.now seat.new }
        ensures says { Says (origin S.Store V.Vault (start_at self.now))
            (asked (Line Undo) (as_reply (λ _. Done) result.what) silent)
            result (views (known seat.old) (known seat.new)) }
        ensures number { IfOk result.what (λ n. n ≡ result.at) }
    {
        said_by(
            self.turn.with::<R, Said<u64>, _, Brand>(
                rt,
                seat,
                &mut |held: &mut Held<S, V>| -> Said<u64>
                    requires { IsStudio S.Store (core_of held.old.studio) }
                    ensures took { Took S.Store (core_of held.old.studio)
                        (quietly (Line Undo) (as_reply (λ _. Done) result.what)) (core_of held.new.studio) }
                    ensures at { result.at ≡ (core_of held.new.studio).commit_number }
                    ensures number { IfOk result.what (λ n. n ≡ result.at) }
                {
                    let what = held.studio.undo();
                    let at = held.studio.commit_number();
                    Said { at, what }
                },
            ),
        )
    }

    /// Goes on to the point that was undone last, and answers the commit number. It takes no memory.
    ///
    /// # Errors
    ///
    /// Those of [`Studio::redo`](editor_core::Studio::redo); `Spent` where no turn is left.
    pub fn redo<R: Wait>(&self, rt: &R, seat: &mut DeskSeat<S, V>) -> Said<u64>
        requires { IsAt self.now seat.old }
        ensures same { IsAt self.now seat.new }
        ensures says { Says (origin S.Store V.Vault (start_at self.now))
            (asked (Line Redo) (as_reply (λ _. Done) result.what) silent)
            result (views (known seat.old) (known seat.new)) }
        ensures number { IfOk result.what (λ n. n ≡ result.at) }
    {
        said_by(
            self.turn.with::<R, Said<u64>, _, Brand>(
                rt,
                seat,
                &mut |held: &mut Held<S, V>| -> Said<u64>
                    requires { IsStudio S.Store (core_of held.old.studio) }
                    ensures took { Took S.Store (core_of held.old.studio)
                        (quietly (Line Redo) (as_reply (λ _. Done) result.what)) (core_of held.new.studio) }
                    ensures at { result.at ≡ (core_of held.new.studio).commit_number }
                    ensures number { IfOk result.what (λ n. n ≡ result.at) }
                {
                    let what = held.studio.redo();
                    let at = held.studio.commit_number();
                    Said { at, what }
                },
            ),
        )
    }

    /// Forgets the `count` oldest points, and answers the commit number. It takes no memory.
    ///
    /// # Errors
    ///
    /// Those of [`Studio::purge`](editor_core::Studio::purge); `Spent` where no turn is left.
    pub fn purge<R: Wait>(&self, rt: &R, seat: &mut DeskSeat<S, V>, count: u64) -> Said<u64>
        requires { IsAt self.now seat.old }
        ensures same { IsAt self.now seat.new }
        ensures says { Says (origin S.Store V.Vault (start_at self.now))
            (asked (Line (Purge count)) (as_reply (λ _. Done) result.what) silent)
            result (views (known seat.old) (known seat.new)) }
        ensures number { IfOk result.what (λ n. n ≡ result.at) }
    {
        said_by(
            self.turn.with::<R, Said<u64>, _, Brand>(
                rt,
                seat,
                &mut |held: &mut Held<S, V>| -> Said<u64>
                    requires { IsStudio S.Store (core_of held.old.studio) }
                    ensures took { Took S.Store (core_of held.old.studio)
                        (quietly (Line (Purge count)) (as_reply (λ _. Done) result.what)) (core_of held.new.studio) }
                    ensures at { result.at ≡ (core_of held.new.studio).commit_number }
                    ensures number { IfOk result.what (λ n. n ≡ result.at) }
                {
                    let what = held.studio.purge(count);
                    let at = held.studio.commit_number();
                    Said { at, what }
                },
            ),
        )
    }

    /// Forgets the oldest points until the block files of the others have at most this many bytes, and answers how many
    /// points went.
    ///
    /// # Errors
    ///
    /// Those of [`Studio::purge_to`](editor_core::Studio::purge_to); `Spent` where no turn is left.
    pub fn purge_to<R: Wait>(
        &self,
        rt: &R,
        alloc: Global,
        seat: &mut DeskSeat<S, V>,
        bytes: u64,
    ) -> Said<u64>
        requires { IsAt self.now seat.old }
        ensures same { IsAt self.now seat.new }
        ensures says { Says (origin S.Store V.Vault (start_at self.now))
            (asked (Line (PurgeTo bytes)) (as_reply Purged result.what) silent)
            result (views (known seat.old) (known seat.new)) }
    {
        said_by(
            self.turn.with::<R, Said<u64>, _, Brand>(
                rt,
                seat,
                &mut |held: &mut Held<S, V>| -> Said<u64>
                    requires { IsStudio S.Store (core_of held.old.studio) }
                    ensures took { Took S.Store (core_of held.old.studio)
                        (quietly (Line (PurgeTo bytes)) (as_reply Purged result.what)) (core_of held.new.studio) }
                    ensures at { result.at ≡ (core_of held.new.studio).commit_number }
                {
                    let what = held.studio.purge_to(alloc, bytes);
                    let at = held.studio.commit_number();
                    Said { at, what }
                },
            ),
        )
    }

    /// Removes block files that nothing names, as [`Studio::reclaim`](editor_core::Studio::reclaim) does, and answers
    /// how many went. It takes no memory.
    ///
    /// # Errors
    ///
    /// Those of that call; `Spent` where no turn is left.
    pub fn reclaim<R: Wait>(
        &self,
        rt: &R,
        seat: &mut DeskSeat<S, V>,
        limit: Option<u64>,
    ) -> Said<u64>
        requires { IsAt self.now seat.old }
        ensures same { IsAt self.now seat.new }
        ensures says { Says (origin S.Store V.Vault (start_at self.now))
            (asked (Line (Reclaim limit)) (as_reply Freed result.what) silent)
            result (views (known seat.old) (known seat.new)) }
    {
        said_by(
            self.turn.with::<R, Said<u64>, _, Brand>(
                rt,
                seat,
                &mut |held: &mut Held<S, V>| -> Said<u64>
                    requires { IsStudio S.Store (core_of held.old.studio) }
                    ensures reclaims { Reclaims S.Store (core_of held.old.studio) limit result.what
                        (core_of held.new.studio) }
                    ensures at { result.at ≡ (core_of held.new.studio).commit_number }
                {
                    let what = held.studio.reclaim(limit);
                    let at = held.studio.commit_number();
                    Said { at, what }
                },
            ),
        )
    }

    /// Puts the journal into one header, as [`Studio::compact`](editor_core::Studio::compact) does, and answers how
    /// many bytes its file has.
    ///
    /// # Errors
    ///
    /// Those of that call; `Spent` where no turn is left.
    pub fn compact<R: Wait>(&self, rt: &R, alloc: Global, seat: &mut DeskSeat<S, V>) -> Said<u64>
        requires { IsAt self.now seat.old }
        ensures same { IsAt self.now seat.new }
        ensures says { Says (origin S.Store V.Vault (start_at self.now))
            (asked (Line Compact) (as_reply Packed result.what) silent)
            result (views (known seat.old) (known seat.new)) }
    {
        said_by(
            self.turn.with::<R, Said<u64>, _, Brand>(
                rt,
                seat,
                &mut |held: &mut Held<S, V>| -> Said<u64>
                    requires { IsStudio S.Store (core_of held.old.studio) }
                    ensures compacts { Compacts S.Store (core_of held.old.studio) result.what
                        (core_of held.new.studio) }
                    ensures at { result.at ≡ (core_of held.new.studio).commit_number }
                {
                    let what = held.studio.compact(alloc);
                    let at = held.studio.commit_number();
                    Said { at, what }
                },
            ),
        )
    }
}
