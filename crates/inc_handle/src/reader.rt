// A reader of a shared file.
ghost use Rattle.std.specs.Prelude.{◌≡◌, ◌+◌, ◌^◌, ◌≤◌, Some, IfOk, OnErr, length};
ghost use Rattle.inc_cell.specs.declared.machine.CellFooting.{CellFooting};
ghost use Rattle.inc_cell.specs.events.CellEvents.{footing_of};
ghost use Rattle.inc_layout.specs.Backing.{sig_root};
ghost use Rattle.inc_handle.specs.Answered.{HasSeenLegal, ReadAnswers, ReadsEach};
ghost use Rattle.inc_handle.specs.Caches.{cached_root, cached_shape};
ghost use Rattle.inc_handle.specs.Reads.{LeaveTold, left_result};
ghost use Rattle.inc_turn.specs.Locks.{IsSameSeat, lock_of, seat_view, table_of};

mod asking;
mod caching;
mod polling;
mod ranges;
mod reading;
mod showing;

use crate::cell_turn::take_turn;
use crate::{FileSeat, OutOfMemory, SharedFile};
use caching::read_cached;
use inc_cache::HashCache;
use inc_cell::{Answer, CellEvent, CellReply};
use inc_disk::Disk;
use inc_io::{Bell, Clock};
use inc_model::{Event, Found, ReadError};
use ranges::read_each;
use std::alloc::Global;
use std::sync::Wait;

/// One who reads a file at a seat of its lock.
#[derive(Drop)]
pub struct Reader<'a, D: Disk> {
    file: &'a SharedFile<D>,
    seat: &'a mut FileSeat,
    uid: u32,
    /// The hash blocks that this reader has verified, from its first read of a file with a root on.
    cache: Option<HashCache>,
    /// Whether it asks for the bytes of a block early, and hashes them outside the lock.
    early: bool,
    pub ghost root_fits: { cached_root (sig_root file.now.begun.value.opened.sig) cache ≡ sig_root file.now.begun.value.opened.sig },
    pub ghost shape_fits: { cached_shape file.now.begun.value.opened.areas.geometry cache ≡ file.now.begun.value.opened.areas.geometry },
}

impl<'a, D: Disk> Reader<'a, D> {
    /// A reader for this user, which has verified nothing. It takes no memory: the first read does.
    pub fn new(file: &'a SharedFile<D>, seat: &'a mut FileSeat, uid: u32) -> Reader<'a, D>
        requires own { lock_of seat.old ≡ table_of file.now.lock }
        ensures seat { result.seat.now ≡ seat.old }
        ensures lent { result.seat.ghost_name ≡ seat.entry.ghost_name }
        ensures file { result.file.now ≡ file.now }
        ensures uid { result.uid ≡ uid }
    {
        new_reader(file, seat, uid, false)
    }

    /// The same, of a reader that shares its file's lock with others: an ask hands it the block's bytes early, and it hashes them outside the
    /// lock. Each block is read twice, and the lock is held for no digest.
    pub fn eager(file: &'a SharedFile<D>, seat: &'a mut FileSeat, uid: u32) -> Reader<'a, D>
        requires own { lock_of seat.old ≡ table_of file.now.lock }
        ensures seat { result.seat.now ≡ seat.old }
        ensures lent { result.seat.ghost_name ≡ seat.entry.ghost_name }
        ensures file { result.file.now ≡ file.now }
        ensures uid { result.uid ≡ uid }
    {
        new_reader(file, seat, uid, true)
    }

    /// Reads a block: asks for it, polls until the read ends, and rests in between. What is handed out is checked outside the lock. A block
    /// that is there at the ask, with its path, is shown, or told to be corrupt.
    pub fn read_block<R: Wait, C: Clock, B: Bell>(
        &mut self,
        rt: &R,
        alloc: Global,
        index: u32,
        clock: &C,
        bell: &B,
    ) -> Result<Found, ReadError>
        requires own { lock_of self.old.seat.now ≡ table_of self.old.file.now.lock }
        requires footing { (seat_view self.old.seat.now).footing ≡ Some (footing_of self.old.file.now.begun.value) }
        ensures lent { self.new.seat.ghost_name ≡ self.old.seat.ghost_name }
        ensures file { self.new.file.now ≡ self.old.file.now }
        ensures uid { self.new.uid ≡ self.old.uid }
        ensures own { IsSameSeat self.old.seat.now self.new.seat.now }
        ensures footing { (seat_view self.new.seat.now).footing ≡ Some (footing_of self.old.file.now.begun.value) }
        ensures answers { ReadAnswers (C.may_answer clock.now) (footing_of self.old.file.now.begun.value) (seat_view self.old.seat.now) (seat_view self.new.seat.now) index self.old.uid result }
    {
        read_cached(
            rt,
            alloc,
            self.file,
            self.seat,
            self.uid,
            &mut self.cache,
            self.early,
            index,
            clock,
            bell,
        )
    }

    /// Reads so many blocks from `start` on: one answer for each index, in order, as of a read of it alone.
    pub fn read_range<R: Wait, C: Clock, B: Bell>(
        &mut self,
        rt: &R,
        alloc: Global,
        start: u32,
        count: u32,
        clock: &C,
        bell: &B,
    ) -> Result<Vec<Result<Found, ReadError>>, OutOfMemory>
        requires own { lock_of self.old.seat.now ≡ table_of self.old.file.now.lock }
        requires footing { (seat_view self.old.seat.now).footing ≡ Some (footing_of self.old.file.now.begun.value) }
        requires range { start + count ≤ 2 ^ 32 }
        ensures lent { self.new.seat.ghost_name ≡ self.old.seat.ghost_name }
        ensures file { self.new.file.now ≡ self.old.file.now }
        ensures uid { self.new.uid ≡ self.old.uid }
        ensures own { IsSameSeat self.old.seat.now self.new.seat.now }
        ensures footing { (seat_view self.new.seat.now).footing ≡ Some (footing_of self.old.file.now.begun.value) }
        ensures count { IfOk result (λ answers. length answers.items ≡ count) }
        ensures told { IfOk result (λ answers. ReadsEach (C.may_answer clock.now) (footing_of self.old.file.now.begun.value) (seat_view self.old.seat.now) (seat_view self.new.seat.now) start self.old.uid answers.items) }
        ensures none { OnErr result (seat_view self.new.seat.now ≡ seat_view self.old.seat.now) }
    {
        read_each(
            rt,
            alloc,
            self.file,
            self.seat,
            self.uid,
            &mut self.cache,
            self.early,
            start,
            count,
            clock,
            bell,
        )
    }

    /// One reader fewer: one event of the seat, whose position is the answer. It takes the reader by a loan, so that its clauses can say what
    /// the seat has seen then.
    pub fn leave<R: Wait>(&mut self, rt: &R) -> Result<u64, ReadError>
        requires own { lock_of self.old.seat.now ≡ table_of self.old.file.now.lock }
        ensures lent { self.new.seat.ghost_name ≡ self.old.seat.ghost_name }
        ensures file { self.new.file.now ≡ self.old.file.now }
        ensures own { IsSameSeat self.old.seat.now self.new.seat.now }
        ensures legal { (seat_view self.old.seat.now).footing ≡ Some (footing_of self.old.file.now.begun.value) → HasSeenLegal (footing_of self.old.file.now.begun.value) (seat_view self.new.seat.now) }
        ensures told { LeaveTold (seat_view self.old.seat.now) (seat_view self.new.seat.now) result }
    {
        leave_at(rt, self.file, self.seat)
    }
}

/// A reader that has verified nothing.
fn new_reader<'a, D: Disk>(
    file: &'a SharedFile<D>,
    seat: &'a mut FileSeat,
    uid: u32,
    early: bool,
) -> Reader<'a, D>
    requires own { lock_of seat.old ≡ table_of file.now.lock }
    ensures seat { result.seat.now ≡ seat.old }
    ensures lent { result.seat.ghost_name ≡ seat.entry.ghost_name }
    ensures file { result.file.now ≡ file.now }
    ensures uid { result.uid ≡ uid }
{
    Reader {
        file,
        seat,
        uid,
        cache: None,
        early,
    }
}

fn leave_at<D: Disk, R: Wait>(
    rt: &R,
    file: &SharedFile<D>,
    seat: &mut FileSeat,
) -> Result<u64, ReadError>
    requires own { lock_of seat.old ≡ table_of file.now.lock }
    ensures own { IsSameSeat seat.old seat.new }
    ensures legal { (known : CellFooting) → (seat_view seat.old).footing ≡ Some known → HasSeenLegal known (seat_view seat.new) }
    ensures told { LeaveTold (seat_view seat.old) (seat_view seat.new) result }
{
    left(take_turn(rt, file, seat, CellEvent::Plain(Event::Leave)))
}

// What is told of a cell's answer to a reader that leaves.
fn left(answer: Answer) -> Result<u64, ReadError>
    ensures value { result ≡ left_result answer.at answer.reply }
{
    let Answer { reply, at, .. } = answer;
    match reply {
        CellReply::Done(_) => Ok(at),
        CellReply::HistoryFull { entries, claimed } => {
            Err(ReadError::HistoryFull { entries, claimed })
        }
        CellReply::OutOfMemory => Err(ReadError::OutOfMemory),
    }
}
