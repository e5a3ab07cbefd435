// One file over its disk: each method is one event.
ghost use Rattle.std.specs.Prelude.{◌≡◌, ◌+◌, ◌^◌, ◌<◌, ◌≤◌, [], length, None, IfOk, IfErr, OnErr};
ghost use Rattle.inc_pending.specs.Keyed.{lookup};
ghost use Rattle.inc_disk.specs.Disk.{Now, settled};
ghost use Rattle.inc_disk.specs.Laws.{EachImage};
ghost use Rattle.inc_layout.specs.state.Preserves.{Preserves};
ghost use Rattle.inc_layout.specs.opening.Opening.{IsSoundOpened};
ghost use Rattle.inc_layout.specs.state.Reopening.{IsMountedOn};
ghost use Rattle.inc_model.specs.relation.Changes.{window_of};
ghost use Rattle.inc_model.specs.relation.Step.{IsLegal, IsOwn};
ghost use Rattle.inc_model.specs.declared.words.event.Event.TheVariants.{Ask, Cancel, Claim, Count, Gate, Leave, PutData, PutPlace, Ranges, Release, SetTimes, Settle, TakePending};
ghost use Rattle.inc_cell.specs.events.Answers.{CellSteps};
ghost use Rattle.inc_cell.specs.laws.Laws.{BeginsAs};
ghost use Rattle.inc_cell.specs.seen.Opens.{cell_on};
ghost use Rattle.inc_cell.specs.seen.Parts.{parts_of};
ghost use Rattle.inc_cell.specs.device.Puts.{digest_for};
ghost use Rattle.inc_cell.specs.events.Quiet.{IsQuietEvent};
ghost use Rattle.inc_cell.specs.laws.Runs.{CellRuns};
ghost use Rattle.inc_cell.specs.seen.Seen.{state_now, tells};
ghost use Rattle.inc_cell.specs.seen.Standing.{ReadsAs};

mod early;
mod piece;
mod polls;

use crate::parts::book::Book;
use crate::parts::device::{put_block, put_gate, put_place, sync};
use crate::parts::opening::{CellParts, take_parts};
use crate::parts::puts::{digest_for, keep_place, len_for, place_for, spot_at};
use crate::{Answer, CellReply, Digested, EntryList, OutOfMemory};
use inc_disk::Disk;
use inc_layout::{Mounted, Opened};
use inc_model::{Digest32, Entry, Event, Reply, Times, Window};
use inc_readlog::ReadLog;
use inc_tree::Block;
use std::alloc::Global;
use std::marker::Model;

/// A file's disk with its history: each method takes one event to its reply, with at most one write or sync of the disk.
#[derive(Drop)]
pub struct FileCell<D: Disk> {
    disk: D,
    opened: Opened,
    book: Book,
    /// The place of each index's block.
    spots: Vec<u64>,
    log: ReadLog,
    /// Where the next data block goes, while no write and no sync has failed.
    end: u64,
    first_faults: u64,
    first_readers: u32,
}

impl<D: Disk> Model for FileCell<D> {
    ghost use Rattle.inc_cell.specs.seen.Cells.{KeepsCell};
    ghost use Rattle.inc_cell.specs.seen.Parts.{opening_of};
    ghost use Rattle.inc_cell.specs.seen.Seen.{Seen};

    ghost Value = { Seen };

    ghost view = { λ c. record {
      states = D.states (D.kept c.disk);
      count = D.faults c.disk;
      opened = c.opened;
      opening = opening_of c.opened c.first_faults c.first_readers;
      history = c.book.history;
      log = c.log;
    } };

    ghost invariant = { λ c. KeepsCell (record {
      states = D.states (D.kept c.disk);
      count = D.faults c.disk;
      opened = c.opened;
      opening = opening_of c.opened c.first_faults c.first_readers;
      history = c.book.history;
      log = c.log;
    }) c.book.state c.spots.items c.end };
}

impl<D: Disk> FileCell<D> {
    /// The cell of a mounted file, with so many readers.
    pub fn new(
        alloc: Global,
        m: Mounted<D>,
        readers: u32,
    ) -> Result<FileCell<D>, (OutOfMemory, Mounted<D>)>
        requires sound { IsSoundOpened m.opened }
        requires short { m.opened.len ≤ 2 ^ 46 }
        requires mounted { Now (D.states (D.kept m.disk)) (IsMountedOn settled m.opened) }
        ensures value { IfOk result (λ cell. cell ≡ cell_on (D.states (D.kept m.disk)) (D.faults m.disk) m.opened readers) }
        ensures back { IfErr result (λ failed. failed.1 ≡ m) }
    {
        let first_faults = m.disk.fault_count();
        let CellParts { book, spots, log } = match take_parts(
            alloc,
            &m.opened,
            first_faults,
            readers,
        ) {
            Ok(parts) => parts,
            Err(error) => return Err((error, m)),
        };
        let Mounted { disk, opened } = m;
        let end = opened.len;
        Ok(FileCell {
            disk,
            opened,
            book,
            spots,
            log,
            end,
            first_faults,
            first_readers: readers,
        })
    }

    /// The entries so far.
    pub fn history(&self) -> &[Entry]
        ensures value { result.now ≡ self.now.history }
        // They are a legal history, from the opening of the mounted file on.
        ensures begins { BeginsAs self.now.opened self.now.opening }
        ensures legal { IsLegal 0 (tells self.now.states) self.now.opening self.now.history }
        // Whatever a crash leaves now keeps the state that they lead to, so that a run may begin here.
        ensures runs { CellRuns self.now self.now }
        // The disk reads as a file in which all is kept and the whole map is open.
        ensures reads { Now self.now.states (λ disk. ReadsAs self.now.opened (state_now self.now) disk.reads) }
    {
        self.book.entries()
    }

    /// The digest of an index's block, where the index is in the map.
    pub fn state_of(&self, index: u32) -> Option<Digest32>
        ensures value { result ≡ lookup index (state_now self.now).map }
    {
        self.book.digest_of(index)
    }

    /// The reads that ended last.
    pub fn log(&self) -> &ReadLog
        ensures value { result.now ≡ self.now.log }
    {
        &self.log
    }

    /// The file as it was mounted.
    pub fn opened(&self) -> &Opened
        ensures value { result.now ≡ self.now.opened }
        ensures sound { IsSoundOpened self.now.opened }
    {
        &self.opened
    }

    /// The disk, and the history that led to it.
    pub fn into_disk(self) -> (D, EntryList)
        ensures states { D.states (D.kept result.0) ≡ self.states }
        ensures count { D.faults result.0 ≡ self.count }
        ensures history { result.1 ≡ self.history }
        ensures begins { BeginsAs self.opened self.opening }
        ensures legal { IsLegal 0 (tells self.states) self.opening self.history }
        // It reads as a file in which all is kept and the whole map is open, and so does whatever a crash leaves, but for what has begun.
        ensures reads { Now self.states (λ disk. ReadsAs self.opened (state_now self) disk.reads) }
        ensures images { Now self.states (λ disk. EachImage disk (λ image. Preserves image (parts_of (state_now self)))) }
    {
        let FileCell { disk, book, .. } = self;
        (disk, book.into_entries())
    }

    /// An event for which the disk does nothing.
    fn enter_quiet(&mut self, who: u32, event: Event) -> Answer
        requires own { IsOwn who (window_of event) }
        requires quiet { IsQuietEvent event }
        ensures steps { CellSteps self.old who event [] result self.new }
        ensures count { self.new.count ≡ self.old.count }
        ensures early { result.early ≡ None }
    {
        let at = self.book.len();
        if let Some((entries, claimed)) = self.book.full_for(event) {
            return unhanded(at, CellReply::HistoryFull { entries, claimed });
        }
        match self.book.take_down(who, event) {
            Ok(reply) => unhanded(at, CellReply::Done(reply)),
            Err(_) => unhanded(at, CellReply::OutOfMemory),
        }
    }

    /// Begins a read of a data block.
    pub fn ask(&mut self, who: u32, block: u32, uid: u32, now: u64) -> Answer
        ensures steps { CellSteps self.old who (Ask block uid now) [] result self.new }
        ensures count { self.new.count ≡ self.old.count }
        ensures early { result.early ≡ None }
    {
        self.enter_quiet(who, Event::Ask { block, uid, now })
    }

    /// Gives a read up.
    pub fn cancel(&mut self, who: u32, serial: u32) -> Answer
        ensures steps { CellSteps self.old who (Cancel serial) [] result self.new }
        ensures early { result.early ≡ None }
    {
        self.enter_quiet(who, Event::Cancel { serial })
    }

    /// Takes so many places of the history for a window, and the memory for all of its later events.
    pub fn claim(&mut self, who: u32, window: Window, places: u32) -> Answer
        requires own { window.who ≡ who }
        ensures steps { CellSteps self.old who (Claim window places) [] result self.new }
        ensures early { result.early ≡ None }
    {
        self.enter_quiet(who, Event::Claim { window, places })
    }

    /// Gives up what a window has in flight, and its claimed places.
    pub fn release(&mut self, who: u32, window: Window) -> Answer
        requires own { window.who ≡ who }
        ensures steps { CellSteps self.old who (Release window) [] result self.new }
        ensures early { result.early ≡ None }
    {
        self.enter_quiet(who, Event::Release { window })
    }

    /// Tells the reads that wait with a greater serial, rising, the first `max`.
    pub fn take_pending(&mut self, who: u32, after: u32, max: u32) -> Answer
        ensures steps { CellSteps self.old who (TakePending after max) [] result self.new }
        ensures early { result.early ≡ None }
    {
        self.enter_quiet(who, Event::TakePending { after, max })
    }

    /// Sets the times of a user.
    pub fn set_times(&mut self, who: u32, uid: u32, t: Times) -> Answer
        ensures steps { CellSteps self.old who (SetTimes uid t) [] result self.new }
        ensures early { result.early ≡ None }
    {
        self.enter_quiet(who, Event::SetTimes { uid, t })
    }

    /// Tells the first `room` runs of filled indices between two bounds.
    pub fn ranges(&mut self, who: u32, start: u32, end: u32, room: u32) -> Answer
        ensures steps { CellSteps self.old who (Ranges start end room) [] result self.new }
        ensures early { result.early ≡ None }
    {
        self.enter_quiet(who, Event::Ranges { start, end, room })
    }

    /// Tells how many data blocks and how many hash blocks are there.
    pub fn count(&mut self, who: u32) -> Answer
        ensures steps { CellSteps self.old who Count [] result self.new }
        ensures early { result.early ≡ None }
    {
        self.enter_quiet(who, Event::Count)
    }

    /// One reader fewer.
    pub fn leave(&mut self, who: u32) -> Answer
        ensures steps { CellSteps self.old who Leave [] result self.new }
        ensures early { result.early ≡ None }
    {
        self.enter_quiet(who, Event::Leave)
    }

    /// Puts a block of an index, whose first bytes count.
    pub fn put_data(&mut self, who: u32, window: Window, index: u32, block: &Block) -> Answer
        requires own { window.who ≡ who }
        ensures steps { CellSteps self.old who (PutData window index (digest_for self.old.opened index block.now)) block.now result self.new }
        ensures early { result.early ≡ None }
    {
        let digest = digest_for(&self.opened, index, block);
        self.put(who, window, index, digest, block)
    }

    /// The same with a block that was hashed before. It is hashed again only where another length was counted.
    pub fn put_digested(&mut self, who: u32, window: Window, index: u32, block: &Digested) -> Answer
        requires own { window.who ≡ who }
        ensures steps { CellSteps self.old who (PutData window index (digest_for self.old.opened index block.now.bytes)) block.now.bytes result self.new }
        ensures early { result.early ≡ None }
    {
        let digest = if block.len() == len_for(&self.opened, index) {
            block.digest()
        } else {
            digest_for(&self.opened, index, block.block())
        };
        self.put(who, window, index, digest, block.block())
    }

    fn put(
        &mut self,
        who: u32,
        window: Window,
        index: u32,
        digest: Digest32,
        block: &Block,
    ) -> Answer
        requires own { window.who ≡ who }
        requires whole { length block.now ≡ 4096 }
        requires hashed { digest ≡ digest_for self.old.opened index block.now }
        ensures steps { CellSteps self.old who (PutData window index digest) block.now result self.new }
        ensures early { result.early ≡ None }
    {
        let event = Event::PutData {
            window,
            index,
            digest,
        };
        let at = self.book.len();
        if let Some((entries, claimed)) = self.book.full_for(event) {
            return unhanded(at, CellReply::HistoryFull { entries, claimed });
        }
        if self.book.make_room(event).is_err() {
            return unhanded(at, CellReply::OutOfMemory);
        }
        let wanted = self.book.reply_to(who, event).unwrap();
        let place = place_for(&self.opened.areas, self.end, index);
        let reply = put_block(
            &mut self.disk,
            &self.opened.areas,
            index,
            place,
            block,
            wanted,
        );
        self.book.enter(who, event, &reply).unwrap();
        let next = keep_place(&mut self.spots, &self.opened.areas, self.end, index, &reply);
        self.end = next;
        unhanded(at, CellReply::Done(reply))
    }

    /// Writes the place of a block that was put.
    pub fn put_place(&mut self, who: u32, window: Window, index: u32) -> Answer
        requires own { window.who ≡ who }
        ensures steps { CellSteps self.old who (PutPlace window index) [] result self.new }
        ensures early { result.early ≡ None }
    {
        let event = Event::PutPlace { window, index };
        let at = self.book.len();
        if let Some((entries, claimed)) = self.book.full_for(event) {
            return unhanded(at, CellReply::HistoryFull { entries, claimed });
        }
        if self.book.make_room(event).is_err() {
            return unhanded(at, CellReply::OutOfMemory);
        }
        let wanted = self.book.reply_to(who, event).unwrap();
        let place = spot_at(self.spots.as_slice(), index);
        let reply = put_place(&mut self.disk, &self.opened.areas, index, place, wanted);
        self.book.enter(who, event, &reply).unwrap();
        unhanded(at, CellReply::Done(reply))
    }

    /// Makes durable what was written before, in all windows.
    pub fn settle(&mut self, who: u32, window: Window) -> Answer
        requires own { window.who ≡ who }
        ensures steps { CellSteps self.old who (Settle window) [] result self.new }
        ensures early { result.early ≡ None }
    {
        let event = Event::Settle { window };
        let at = self.book.len();
        if let Some((entries, claimed)) = self.book.full_for(event) {
            return unhanded(at, CellReply::HistoryFull { entries, claimed });
        }
        if self.book.make_room(event).is_err() {
            return unhanded(at, CellReply::OutOfMemory);
        }
        let wanted = self.book.reply_to(who, event).unwrap();
        let reply = sync(&mut self.disk, wanted);
        self.book.enter(who, event, &reply).unwrap();
        unhanded(at, CellReply::Done(reply))
    }

    /// Opens the entry of a block whose bytes and place are durable.
    pub fn gate(&mut self, who: u32, window: Window, index: u32) -> Answer
        requires own { window.who ≡ who }
        ensures steps { CellSteps self.old who (Gate window index) [] result self.new }
        ensures early { result.early ≡ None }
    {
        let event = Event::Gate { window, index };
        let at = self.book.len();
        if let Some((entries, claimed)) = self.book.full_for(event) {
            return unhanded(at, CellReply::HistoryFull { entries, claimed });
        }
        if self.book.make_room(event).is_err() {
            return unhanded(at, CellReply::OutOfMemory);
        }
        let wanted = self.book.reply_to(who, event).unwrap();
        let reply = put_gate(&mut self.disk, &self.opened.areas, index, wanted);
        self.book.enter(who, event, &reply).unwrap();
        unhanded(at, CellReply::Done(reply))
    }
}

/// An answer that hands out no bytes.
fn unhanded(at: u64, reply: CellReply) -> Answer
    ensures at { result.at ≡ at }
    ensures reply { result.reply ≡ reply }
    ensures handed { result.handed ≡ None }
    ensures early { result.early ≡ None }
{
    Answer {
        reply,
        at,
        handed: None,
        early: None,
    }
}
