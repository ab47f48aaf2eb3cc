// A line of the script in one turn.
ghost use Rattle.std.specs.Prelude.{◌≡◌, true, false, IfErr, IsSome, None};
ghost use Rattle.pcm_base.specs.declared.answer.Reply.TheVariants.{Refused};
ghost use Rattle.pcm_base.specs.declared.command.Call.TheVariants.{Line};
ghost use Rattle.pcm_base.specs.Form.{IsInForm, IsTurn};
ghost use Rattle.pcm_base.specs.Run.{Heard, name_in_line};
ghost use Rattle.pin_turn.specs.Calls.{known};
ghost use Rattle.editor_state.specs.Applied.{Applies, IsTold, move_of, spanned};
ghost use Rattle.editor_core.specs.Core.{core_of};
ghost use Rattle.editor_state.specs.Vaults.{VaultCounted};
ghost use Rattle.editor_state.specs.Studios.{IsStudio};
ghost use Rattle.editor_state.specs.Took.{as_reply};
ghost use Rattle.studio_seats.specs.Desks.{IsAt, Says, asked, start_at, views};
ghost use Rattle.studio_seats.specs.Stands.{origin};

use super::Desk;
use super::said::said_by;
use crate::held::{DeskSeat, Held};
use disk_model::Store;
use edit_ports::Vault;
use pcm_base::{Answer, Command, Said};
use std::alloc::Global;
use std::marker::Brand;
use std::sync::Wait;

impl<S: Store, V: Vault> Desk<S, V> {
    /// Carries a line out and fills the answer: the commit number after it, and its reply, or the reason that refuses
    /// it, which is reported besides. A sound that the line names is looked for in the vault, while the turn is kept.
    /// Where it names none, the vault is as it was; where no turn is left, the answer too. No `bounce` is one turn.
    ///
    /// # Errors
    ///
    /// Those of [`Studio::apply`](editor_core::Studio::apply); `Spent` where no turn is left.
    pub fn apply<R: Wait>(
        &self,
        rt: &R,
        alloc: Global,
        seat: &mut DeskSeat<S, V>,
        vault: &mut V,
        command: &Command,
        answer: &mut Answer,
    ) -> Said<()>
        requires seat { IsAt self.now seat.old }
        requires in_form { IsInForm command.now }
        requires turn { IsTurn command.now }
        ensures same { IsAt self.now seat.new }
        ensures says { Says (origin S.Store V.Vault (start_at self.now))
            (asked (Line command.now) (as_reply (λ _. answer.new.reply) result.what)
            (move_of (name_in_line command.now) (V.holds vault.old) (V.holds vault.new)))
            result (views (known seat.old) (known seat.new)) }
        ensures commit { (known seat.new).used_up ≡ false → answer.new.commit ≡ result.at }
        ensures refused { (known seat.new).used_up ≡ false
            → IfErr result.what (λ why. answer.new.reply ≡ Refused why) }
        ensures spent { (known seat.new).used_up ≡ true → (answer.new ≡ answer.old) × (vault.new ≡ vault.old) }
        ensures heard { IsTold (Line command.now) (V.tells vault.old) → Heard (name_in_line command.now)
            (move_of (name_in_line command.now) (V.holds vault.old) (V.holds vault.new)) (V.holds vault.old)
            (V.holds vault.new) }
        ensures tells { V.tells vault.new ≡ V.tells vault.old }
        ensures faults { (known seat.new).used_up ≡ false → IsSome (name_in_line command.now)
            → VaultCounted result.what (V.fault_count vault.old) (V.fault_count vault.new) }
        ensures untouched { name_in_line command.now ≡ None → vault.new ≡ vault.old }
    {
        said_by(
            self.turn.with::<R, Said<()>, _, Brand>(
                rt,
                seat,
                &mut |held: &mut Held<S, V>| -> Said<()>
                    requires studio { IsStudio S.Store (core_of held.old.studio) }
                    requires in_form { IsInForm command.now }
                    requires turn { IsTurn command.now }
                    ensures applied { Applies S.Store (spanned (V.tells vault.entry.now) (core_of held.old.studio)
                        (core_of held.new.studio) (V.holds vault.entry.now) (V.holds vault.exit.now))
                        (Line command.entry.now) result.what answer.exit.now }
                    ensures at { result.at ≡ (core_of held.new.studio).commit_number }
                    ensures tells { V.tells vault.exit.now ≡ V.tells vault.entry.now }
                    ensures faults { IsSome (name_in_line command.entry.now) → VaultCounted result.what
                        (V.fault_count vault.entry.now) (V.fault_count vault.exit.now) }
                    ensures untouched { name_in_line command.entry.now ≡ None → vault.exit.now ≡ vault.entry.now }
                {
                    let what = held.studio.apply(alloc, vault, command, answer);
                    let at = held.studio.commit_number();
                    Said { at, what }
                },
            ),
        )
    }
}
