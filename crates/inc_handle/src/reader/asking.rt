// The first event of a read.
ghost use Rattle.std.specs.Prelude.{◌≡◌, Some};
ghost use Rattle.inc_cell.specs.declared.machine.CellFooting.{CellFooting};
ghost use Rattle.inc_cell.specs.events.CellEvents.{footing_of};
ghost use Rattle.inc_handle.specs.Answered.{HasSeenLegal};
ghost use Rattle.inc_handle.specs.CellTurns.{ask_event};
ghost use Rattle.inc_handle.specs.Reads.{AskTold, AsksCell, asked_result, serial_in};
ghost use Rattle.inc_turn.specs.Locks.{IsSameSeat, lock_of, seat_view, table_of};

use crate::cell_turn::take_turn;
use crate::{FileSeat, SharedFile};
use inc_cell::{Answer, CellEvent, CellReply};
use inc_disk::Disk;
use inc_model::{Event, ReadError, Reply};
use inc_tree::Block;
use std::sync::Wait;

/// A read that an ask began.
#[derive(Drop)]
pub struct BegunRead {
    pub serial: u32,
    /// The block's bytes, if they were asked for early: not hashed, and nothing is known of them.
    pub early: Option<Block>,
}

/// The event of an ask, which asks for the block's bytes early or doesn't.
fn ask_event(index: u32, uid: u32, now: u64, early: bool) -> CellEvent
    ensures value { result ≡ ask_event early index uid now }
{
    let block = index;
    if early {
        CellEvent::AskEarly { block, uid, now }
    } else {
        CellEvent::Plain(Event::Ask { block, uid, now })
    }
}

/// Begins a read of a block.
pub fn ask<D: Disk, R: Wait>(
    rt: &R,
    file: &SharedFile<D>,
    seat: &mut FileSeat,
    index: u32,
    uid: u32,
    now: u64,
    early: bool,
) -> Result<BegunRead, ReadError>
    requires own { lock_of seat.old ≡ table_of file.now.lock }
    requires footing { (seat_view seat.old).footing ≡ Some (footing_of file.now.begun.value) }
    ensures own { IsSameSeat seat.old seat.new }
    ensures legal { HasSeenLegal (footing_of file.now.begun.value) (seat_view seat.new) }
    ensures told { AskTold (footing_of file.now.begun.value) (seat_view seat.old) (seat_view seat.new) index uid now (serial_in result) }
{
    let answer = take_turn(rt, file, seat, ask_event(index, uid, now, early));
    let Answer { reply, early, .. } = answer;
    told(reply, early)
}

// What the asker is told of a cell's reply to an ask.
fn told(reply: CellReply, early: Option<Block>) -> Result<BegunRead, ReadError>
    requires ask { AsksCell reply }
    ensures value { serial_in result ≡ asked_result reply }
{
    match reply {
        CellReply::Done(Reply::Asked { serial }) => Ok(BegunRead { serial, early }),
        CellReply::Done(Reply::OutOfRange) => Err(ReadError::OutOfRange),
        CellReply::Done(Reply::Damaged) => Err(ReadError::Damaged),
        CellReply::Done(Reply::Compressed) => Err(ReadError::Compressed),
        CellReply::Done(_) => unreachable!(),
        CellReply::HistoryFull { entries, claimed } => {
            Err(ReadError::HistoryFull { entries, claimed })
        }
        CellReply::OutOfMemory => Err(ReadError::OutOfMemory),
    }
}
