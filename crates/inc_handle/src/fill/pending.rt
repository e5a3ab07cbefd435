// The reads of a file that wait, as one event of a filler's seat.
ghost use Rattle.std.specs.Prelude.{◌≡◌, Some};
ghost use Rattle.inc_cell.specs.declared.machine.CellFooting.{CellFooting};
ghost use Rattle.inc_handle.specs.Pending.{TakesPending, taken_by};
ghost use Rattle.inc_handle.specs.Shared.{HasGoneOn};
ghost use Rattle.inc_turn.specs.Locks.{lock_of, seat_view, table_of};

use crate::{FileSeat, SharedFile};
use inc_cell::{Answer, CellEvent, CellReply};
use inc_disk::Disk;
use inc_model::{Event, FillError, RecordList, Reply};
use std::sync::Wait;

/// Reads that wait, how many readers are left, and the entry that says so.
#[derive(Drop)]
pub struct TakenReads {
    pub records: RecordList,
    pub readers: u32,
    pub at: u64,
}

fn taken_of(answer: Answer) -> Result<TakenReads, FillError>
    ensures value { result ≡ taken_by answer.at answer.reply }
{
    let Answer { reply, at, .. } = answer;
    match reply {
        CellReply::Done(Reply::Taken { records, readers }) => Ok(TakenReads {
            records,
            readers,
            at,
        }),
        // A cell has no other reply to this event.
        CellReply::Done(_) => Err(FillError::OutOfMemory),
        CellReply::HistoryFull { entries, claimed } => {
            Err(FillError::HistoryFull { entries, claimed })
        }
        CellReply::OutOfMemory => Err(FillError::OutOfMemory),
    }
}

/// Takes the waiting reads after a serial, at most so many.
pub(super) fn take_pending<D: Disk, R: Wait>(
    rt: &R,
    file: &SharedFile<D>,
    seat: &mut FileSeat,
    after: u32,
    max: u32,
) -> Result<TakenReads, FillError>
    requires own { lock_of seat.old ≡ table_of file.now.lock }
    ensures own { HasGoneOn seat.old seat.new }
    ensures takes { (known : CellFooting) → (seat_view seat.old).footing ≡ Some known → TakesPending known (seat_view seat.old) after max result (seat_view seat.new) }
{
    taken_of(file.turn(
        rt,
        seat,
        CellEvent::Plain(Event::TakePending { after, max }),
    ))
}
