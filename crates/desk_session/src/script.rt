// The script's side of a session.
ghost use Rattle.std.specs.Prelude.{◌≡◌, [], false};
ghost use Rattle.pin_turn.specs.Calls.{known};
ghost use Rattle.studio_seats.specs.Desks.{IsAt, start_at};
ghost use Rattle.script_reader.specs.HeldLine.{Holds};
ghost use Rattle.desk_session.specs.Opening.{number_seen};

use super::outcome::ScriptOutcome;
use disk_model::Store;
use edit_ports::Vault;
use script_reader::{DeskEditor, LineBuffer, ScriptState, Stop};
use std::alloc::Global;
use studio_seats::{Desk, DeskSeat};

/// Lends the seat and the vault to a script that has not begun.
pub fn lend_script<'a, 'b, S: Store, V: Vault>(
    alloc: Global,
    desk: &'a Desk<S, V>,
    seat: DeskSeat<S, V>,
    vault: &'b mut V,
    last: u64,
    line: LineBuffer,
) -> ScriptState<DeskEditor<'a, 'b, S, V>>
    requires at { IsAt desk.now seat }
    requires last { last ≡ number_seen (start_at desk.now) (known seat) }
    requires line { Holds line [] }
    ensures seat { known result.editor.seat ≡ known seat }
    ensures of { (result.editor.desk.now ≡ desk.now) × (result.editor.vault.ghost_name ≡ vault.entry.ghost_name)
        × (result.editor.vault.now ≡ vault.old) }
    ensures fresh { (result.editor.last ≡ last) × (result.editor.commits.items ≡ []) }
    ensures begins { Holds result.line [] × (result.refused ≡ false) }
{
    let editor = DeskEditor::new(alloc, desk, seat, vault, last);
    ScriptState {
        editor,
        line,
        refused: false,
    }
}

/// The seat, what the script did, and the vault.
pub fn take_script<'a, 'b, S: Store, V: Vault>(
    state: ScriptState<DeskEditor<'a, 'b, S, V>>,
    stop: Stop,
) -> (DeskSeat<S, V>, ScriptOutcome, &'b mut V)
    ensures at { IsAt state.entry.editor.desk.now result.0 }
    ensures seat { known result.0 ≡ known state.entry.editor.seat }
    ensures told { (result.1.stop ≡ stop) × (result.1.refused ≡ state.entry.refused)
        × (result.1.commits ≡ state.entry.editor.commits.items) }
    ensures vault { (result.2.ghost_name ≡ state.entry.editor.vault.ghost_name)
        × (result.2.now ≡ state.entry.editor.vault.now) }
{
    let ScriptState {
        editor,
        refused,
        ..
    } = state;
    let (seat, commits, vault) = editor.into_parts();
    let told = ScriptOutcome {
        stop,
        refused,
        commits,
    };
    (seat, told, vault)
}
