// A whole read: its ask, its polls, and the check of what was handed out.
ghost use Rattle.std.specs.Prelude.{◌≡◌, ◌<◌, ◌≤◌, ◌⊎◌, ◌∷◌, [], ℕ, Some, length};
ghost use Rattle.inc_tree.specs.shape.Geometry.{data_blocks};
ghost use Rattle.inc_cell.specs.events.CellEvents.{footing_of};
ghost use Rattle.inc_handle.specs.Answered.{HasSeenLegal};
ghost use Rattle.inc_handle.specs.Reads.{CancelTold, KnowsPathOf, ReadTold, numbers_known};
ghost use Rattle.inc_turn.specs.Locks.{IsSameSeat, lock_of, seat_view, table_of};

use crate::cell_turn::take_turn;
use crate::reader::asking::{BegunRead, ask};
use crate::reader::polling::{OwnRead, Polled, await_block};
use crate::reader::showing::{numbers_of, show};
use crate::{FileSeat, SharedFile};
use inc_cache::KnownPath;
use inc_cell::{CellEvent, Digested};
use inc_disk::Disk;
use inc_io::{Bell, Clock};
use inc_model::{Event, Found, ReadError};
use inc_tree::Block;
use std::sync::Wait;

/// Gives a read up, where the history has a place for it.
fn cancel<D: Disk, R: Wait>(rt: &R, file: &SharedFile<D>, seat: &mut FileSeat, serial: u32)
    requires own { lock_of seat.old ≡ table_of file.now.lock }
    requires footing { (seat_view seat.old).footing ≡ Some (footing_of file.now.begun.value) }
    ensures own { IsSameSeat seat.old seat.new }
    ensures legal { HasSeenLegal (footing_of file.now.begun.value) (seat_view seat.new) }
    ensures told { CancelTold (seat_view seat.old) (seat_view seat.new) serial }
{
    let event = CellEvent::Plain(Event::Cancel { serial });
    let _answer = take_turn(rt, file, seat, event);
}

/// Hashes the bytes that an ask gave early, outside the lock.
fn hint_of<D: Disk>(file: &SharedFile<D>, index: u32, early: Option<Block>) -> Option<Digested>
    requires here { index < data_blocks file.now.begun.value.opened.areas.geometry }
{
    let len = file.geometry().block_len(index);
    early.map(|bytes| Digested::of(bytes, len))
}

/// Reads a block, of whose path this is known: the one body of all reads of one block. An eager one asks for the block's bytes early, and
/// hashes them before it polls.
pub fn read_with<D: Disk, R: Wait, C: Clock, B: Bell>(
    rt: &R,
    file: &SharedFile<D>,
    seat: &mut FileSeat,
    index: u32,
    uid: u32,
    known: Option<KnownPath>,
    early: bool,
    clock: &C,
    bell: &B,
) -> Result<Found, ReadError>
    requires own { lock_of seat.old ≡ table_of file.now.lock }
    requires footing { (seat_view seat.old).footing ≡ Some (footing_of file.now.begun.value) }
    requires known { KnowsPathOf (footing_of file.now.begun.value) index known }
    ensures own { IsSameSeat seat.old seat.new }
    ensures legal { HasSeenLegal (footing_of file.now.begun.value) (seat_view seat.new) }
    ensures told { ReadTold (C.may_answer clock.now) (footing_of file.now.begun.value) (seat_view seat.old) (seat_view seat.new) index uid result }
{
    let numbers = numbers_of(&known);
    let now = clock.now();
    let BegunRead { serial, early } = match ask(rt, file, seat, index, uid, now, early) {
        Ok(begun) => begun,
        Err(error) => return Err(error),
    };
    let read = OwnRead {
        serial,
        block: index,
    };
    let hint = hint_of(file, index, early);
    match await_block(rt, file, seat, read, numbers, hint, clock, bell) {
        Polled::Given(handed, at) => show(file, index, known, handed, at),
        Polled::Late(deadline, now, at) => Err(ReadError::TimedOut {
            serial,
            deadline,
            now,
            at,
        }),
        Polled::Pathless(hash, at) => Err(ReadError::PathAbsent { hash, at }),
        Polled::Faulted(_, _) => {
            cancel(rt, file, seat, serial);
            Err(ReadError::ReadFault)
        }
        Polled::Crowded(entries, claimed) => {
            cancel(rt, file, seat, serial);
            Err(ReadError::HistoryFull { entries, claimed })
        }
        Polled::Starved => {
            cancel(rt, file, seat, serial);
            Err(ReadError::OutOfMemory)
        }
    }
}
