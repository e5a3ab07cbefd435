// The polls of a read.
ghost use Rattle.std.specs.Prelude.{◌≡◌, ℕ, Some, is_some};
ghost use Rattle.inc_cell.specs.events.Answers.{hands_out};
ghost use Rattle.inc_cell.specs.events.CellEvents.{footing_of};
ghost use Rattle.inc_handle.specs.Answered.{HasSeenLegal};
ghost use Rattle.inc_handle.specs.Reads.{AwaitEnds, PollTold, PollsCell, WaitsFor, polled_by};
ghost use Rattle.inc_turn.specs.Locks.{IsSameSeat, lock_of, seat_view, table_of};

use crate::cell_turn::take_turn;
use crate::{FileSeat, SharedFile};
use inc_cell::{Answer, CellEvent, CellReply, Digested, HandedBytes, NumberList};
use inc_disk::Disk;
use inc_io::{Bell, Clock};
use inc_model::Reply;
use std::sync::Wait;

/// How a read's polls end.
#[derive(Drop)]
pub enum Polled {
    /// The block and what was asked for of its path, not checked.
    Given(HandedBytes, u64),
    /// The block wasn't there at the deadline: which that is, when it was looked at, and the entry's position.
    Late(u64, u64, u64),
    /// This hash block of the path isn't there.
    Pathless(u32, u64),
    /// A read of the disk failed.
    Faulted(u64, u64),
    /// The history has no room beside so many entries and claimed places.
    Crowded(u64, u64),
    Starved,
}

/// The read that an ask began.
#[derive(Clone, Copy)]
pub struct OwnRead {
    pub serial: u32,
    pub block: u32,
}

/// Polls a read once, without those hash blocks of the path that are known. Nothing comes of it where the read has to wait on. Where
/// the block has the bytes of the hint it isn't hashed under the lock.
pub fn poll_once<D: Disk, R: Wait>(
    rt: &R,
    file: &SharedFile<D>,
    seat: &mut FileSeat,
    read: OwnRead,
    now: u64,
    known: NumberList,
    hint: Option<Digested>,
) -> Option<Polled>
    requires own { lock_of seat.old ≡ table_of file.now.lock }
    requires footing { (seat_view seat.old).footing ≡ Some (footing_of file.now.begun.value) }
    requires waits { WaitsFor (footing_of file.now.begun.value) (seat_view seat.old) read.serial read.block }
    ensures own { IsSameSeat seat.old seat.new }
    ensures legal { HasSeenLegal (footing_of file.now.begun.value) (seat_view seat.new) }
    ensures told { PollTold (footing_of file.now.begun.value) (seat_view seat.old) (seat_view seat.new) read.serial read.block now known result }
{
    let event = CellEvent::PollKnown {
        serial: read.serial,
        now,
        known,
        hint,
    };
    told(take_turn(rt, file, seat, event), now)
}

// What the asker is told of a cell's answer to a poll.
fn told(answer: Answer, now: u64) -> Option<Polled>
    requires poll { PollsCell answer.reply }
    requires handed { is_some answer.handed ≡ hands_out answer.reply }
    ensures value { result ≡ polled_by answer.reply now answer.at answer.handed }
{
    let Answer {
        reply,
        at,
        handed,
        ..
    } = answer;
    match reply {
        CellReply::Done(Reply::NotYet) => None,
        CellReply::Done(Reply::Handed { .. }) => match handed {
            Some(handed) => Some(Polled::Given(handed, at)),
            None => unreachable!(),
        },
        CellReply::Done(Reply::TimedOut { deadline }) => Some(Polled::Late(deadline, now, at)),
        CellReply::Done(Reply::NoPath { hash }) => Some(Polled::Pathless(hash, at)),
        CellReply::Done(Reply::Fault { count }) => Some(Polled::Faulted(count, at)),
        CellReply::Done(_) => unreachable!(),
        CellReply::HistoryFull { entries, claimed } => Some(Polled::Crowded(entries, claimed)),
        CellReply::OutOfMemory => Some(Polled::Starved),
    }
}

/// How long a reader rests before it looks again, in microseconds, unless the bell rings.
const REST: u64 = 1000;

/// Polls a read until it ends, and rests in between. The hint goes with the first poll, since a block whose bytes were there at the ask is
/// there then.
pub fn await_block<D: Disk, R: Wait, C: Clock, B: Bell>(
    rt: &R,
    file: &SharedFile<D>,
    seat: &mut FileSeat,
    read: OwnRead,
    known: NumberList,
    hint: Option<Digested>,
    clock: &C,
    bell: &B,
) -> Polled
    requires own { lock_of seat.old ≡ table_of file.now.lock }
    requires footing { (seat_view seat.old).footing ≡ Some (footing_of file.now.begun.value) }
    requires waits { WaitsFor (footing_of file.now.begun.value) (seat_view seat.old) read.serial read.block }
    ensures own { IsSameSeat seat.old seat.new }
    ensures legal { HasSeenLegal (footing_of file.now.begun.value) (seat_view seat.new) }
    ensures told { AwaitEnds (C.may_answer clock.now) (footing_of file.now.begun.value) (seat_view seat.old) (seat_view seat.new) read.serial read.block known result }
{
    let mut hint = hint;
    for _ in rt.forever() {
        let rings = bell.seen();
        let now = clock.now();
        match poll_once(rt, file, seat, read, now, known, hint.take()) {
            Some(polled) => return polled,
            None => bell.rest(rings, now.saturating_add(REST)),
        }
    }
    unreachable!()
}
