//! The steps on the word and the slot.
ghost use Rattle.std.specs.Prelude.{◌≡◌, ◌+◌, ◌*◌, ◌%◌, ◌^◌, ◌<◌, true, [], ◌∷◌, ◌++◌, length, MatchOption};
ghost use Rattle.pin_turn.specs.declared.view.Stage.TheVariants.{Resting, Holding};
ghost use Rattle.pin_turn.specs.Rule.{Took};

use super::{Place, Turn};
use crate::Stands;
use crate::plays::{Adds, Give, Look, Take};
use std::sync::Wait;
use std::thread;

// The word at which no turn is left.
const END: u64 = 1 << 63;

impl<T: Stands> Turn<T> {
    // Waits for the turn, and takes it. The answer is the word as it was.
    // Who gives the turn back wakes one that waits. Who finds that none is left wakes the next, which finds the same.
    pub(super) fn take<W: Wait>(&self, rt: &W, place: &mut Place<T>) -> Option<u64>
        requires { (place.old.table_id ≡ self.now.table.shared.table_id)
            × (place.old.me.0.stage ≡ Resting)
            × (place.old.me.1 ≡ []) }
        ensures same { (place.new.table_id ≡ place.old.table_id) × (place.new.id ≡ place.old.id) }
        ensures took { MatchOption result
            (place.new.me ≡ (record place.old.me.0 { used_up = true }, []))
            (λ n. (n < 2 ^ 63)
            × (n % 2 ≡ 0)
            × Took T.stands T.maker record { before = place.old.me; word = n; after = place.new.me }) }
    {
        let shared = &self.table.shared;
        for _ in rt.forever() {
            let word = shared.load::<Look>(place, 0);
            if word >= END {
                shared.wake_one(0);
                return None;
            }
            if word % 2 == 0 && shared.compare_exchange::<Take>(place, 0, word, word + 1) == word {
                return Some(word);
            }
            // Where the word has changed since the look, this does not sleep.
            shared.park(rt, 0, (word % (1 << 32)) as u32);
        }
        unreachable!()
    }

    // Puts a value into the slot, and takes out what lay there.
    pub(super) fn swap(&self, place: &mut Place<T>, value: Option<T>) -> Option<T>
        requires { (place.old.table_id ≡ self.now.table.shared.table_id)
            × ((x : _) × (place.old.me.1 ≡ (0, x) ∷ [])) }
        ensures { (place.new.table_id ≡ place.old.table_id)
            × (place.new.id ≡ place.old.id)
            × (place.old.me.1 ≡ (0, result) ∷ [])
            × (place.new.me ≡ (place.old.me.0, (0, value) ∷ [])) }
    {
        self.table.shared.exchange(place, 0, value)
    }

    // Gives the turn back, with the entry that it adds. Then it yields, so that the thread that was woken runs before the
    // turn is taken again. The last two parameters are for the caller's choice of that entry.
    pub(super) fn give<J: Adds<T::Entry>, R, F>(
        &self,
        place: &mut Place<T>,
        word: u64,
        _reply: &R,
        _f: &F,
    )
        requires place { (place.old.table_id ≡ self.now.table.shared.table_id)
            × (place.old.me.0.stage ≡ Holding) }
        requires word { (word ≡ length place.old.me.0.seen * 2 + 2) × (word < 2 ^ 63 + 1) }
        requires value { (x : T)
            × (place.old.me.1 ≡ (0, Some x) ∷ [])
            × ((start : T) → place.old.me.0.start ≡ Some start
            → T.stands start x (place.old.me.0.seen ++ J.added)) }
        requires entry { (e : T.Entry) × (J.added ≡ e ∷ []) × (T.maker e ≡ place.old.me.0.number) }
        ensures { (place.new.table_id ≡ place.old.table_id)
            × (place.new.id ≡ place.old.id)
            × (place.new.me ≡ (
              record place.old.me.0 {
                seen = place.old.me.0.seen ++ J.added;
                mine = place.old.me.0.mine ++ length place.old.me.0.seen ∷ [];
                stage = Resting;
              },
              [],
            )) }
    {
        self.table.shared.store::<Give<J>>(place, 0, word);
        self.table.shared.wake_one(0);
        thread::yield_now();
    }
}
