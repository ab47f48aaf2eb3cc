// What the seat of a recorder frees.
ghost use Rattle.std.specs.Prelude.{◌+◌, ◌<◌, ◌≤◌, false};
ghost use Rattle.pin_turn.specs.Calls.{known};
ghost use Rattle.studio_seats.specs.Desks.{IsAt};
ghost use Rattle.studio_seats.specs.Recording.{Frees, FreesTo};

use super::desk::Desk;
use super::held::DeskSeat;
use disk_model::Store;
use edit_ports::Vault;
use std::sync::Wait;

/// How many pieces a recorder's seat adds before it frees what they replaced.
pub(crate) const PIECES: u64 = 64;

/// Removes the files of blocks that nothing names, in one turn. What it is answered is dropped.
pub(crate) fn free<R: Wait, S: Store, V: Vault>(
    rt: &R,
    desk: &Desk<S, V>,
    seat: &mut DeskSeat<S, V>,
)
    requires { IsAt desk.now seat.old }
    ensures same { IsAt desk.now seat.new }
    ensures frees { Frees (known seat.old) (known seat.new) }
{
    let _ = desk.reclaim(rt, seat, None);
}

/// How many pieces there are since the last reclaim, with these more. After 64 it makes one.
pub(crate) fn count_pieces<R: Wait, S: Store, V: Vault>(
    rt: &R,
    desk: &Desk<S, V>,
    seat: &mut DeskSeat<S, V>,
    since: u64,
    more: u64,
) -> u64
    requires at { IsAt desk.now seat.old }
    requires few { since + more ≤ PIECES }
    ensures same { IsAt desk.now seat.new }
    ensures few { result < 64 }
    ensures frees { FreesTo false (since + more) (known seat.old) result (known seat.new) }
{
    let all = since + more;
    if all < PIECES {
        return all;
    }
    free(rt, desk, seat);
    0
}
