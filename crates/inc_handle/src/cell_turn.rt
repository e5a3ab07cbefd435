// One turn of a seat at its file's cell, by what it leaves.
ghost use Rattle.inc_cell.specs.events.CellEvents.{CellTakes};
ghost use Rattle.inc_handle.specs.CellTurns.{CellTurn};
ghost use Rattle.inc_turn.specs.Locks.{IsSameSeat, lock_of, seat_view, table_of};
ghost use Rattle.std.specs.Prelude.{◌≡◌};

use crate::{FileSeat, SharedFile};
use inc_cell::{Answer, CellEvent, FileCell};
use inc_disk::Disk;
use inc_turn::turns_add_own;
use std::sync::Wait;

/// One event of the seat. It has then seen the whole history up to its own entry.
pub fn take_turn<D: Disk, R: Wait>(
    rt: &R,
    file: &SharedFile<D>,
    seat: &mut FileSeat,
    event: CellEvent,
) -> Answer
    requires own { lock_of seat.old ≡ table_of file.now.lock }
    requires takes { CellTakes seat.old.number event }
    ensures own { IsSameSeat seat.old seat.new }
    ensures turn { CellTurn (seat_view seat.old) event result (seat_view seat.new) }
{
    turns_add_own::<FileCell<D>>();
    file.turn(rt, seat, event)
}
