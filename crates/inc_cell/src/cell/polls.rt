// A file's polls: what they read of the disk, and what they hand out.
ghost use Rattle.std.specs.Prelude.{◌≡◌, [], None};
ghost use Rattle.inc_model.specs.declared.words.event.Event.TheVariants.{Poll};
ghost use Rattle.inc_cell.specs.events.Answers.{CellSteps};
ghost use Rattle.inc_cell.specs.device.Handed.{MayHand};

use crate::cell::{FileCell, unhanded};
use crate::parts::ended::keep_read;
use crate::parts::hand::{Handing, block_of, hand_out, is_waiting};
use crate::parts::puts::spot_at;
use crate::{Answer, CellReply, Digested};
use inc_disk::Disk;
use inc_model::Event;

impl<D: Disk> FileCell<D> {
    /// Asks for a read's block, with its whole path.
    pub fn poll(&mut self, who: u32, serial: u32, now: u64) -> Answer
        ensures steps { CellSteps self.old who (Poll serial now) [] result self.new }
        ensures hands { MayHand self.old who serial [] result.reply result.handed }
        ensures early { result.early ≡ None }
    {
        self.poll_known(who, serial, now, &[])
    }

    /// The same without those hash blocks of the path whose numbers are known. A number that isn't of the path changes nothing.
    pub fn poll_known(&mut self, who: u32, serial: u32, now: u64, known: &[u32]) -> Answer
        ensures steps { CellSteps self.old who (Poll serial now) [] result self.new }
        ensures hands { MayHand self.old who serial known.now result.reply result.handed }
        ensures early { result.early ≡ None }
    {
        self.poll_hinted(who, serial, now, known, None)
    }

    /// The same by one who may have the block already, hashed: where it has the bytes of this hint it isn't hashed again. The block is read
    /// all the same, and what is handed out is what was read.
    pub fn poll_hinted(
        &mut self,
        who: u32,
        serial: u32,
        now: u64,
        known: &[u32],
        hint: Option<&Digested>,
    ) -> Answer
        ensures steps { CellSteps self.old who (Poll serial now) [] result self.new }
        ensures hands { MayHand self.old who serial known.now result.reply result.handed }
        ensures early { result.early ≡ None }
    {
        let event = Event::Poll { serial, now };
        let at = self.book.len();
        if let Some((entries, claimed)) = self.book.full_for(event) {
            return unhanded(at, CellReply::HistoryFull { entries, claimed });
        }
        let wanted = self.book.reply_to(who, event).unwrap();
        if is_waiting(&wanted) {
            return unhanded(at, CellReply::Done(wanted));
        }
        if self.book.make_room(event).is_err() {
            return unhanded(at, CellReply::OutOfMemory);
        }
        let read = self.book.read_of(who, serial);
        let block = block_of(read);
        let place = spot_at(self.spots.as_slice(), block);
        let areas = &self.opened.areas;
        let alloc = self.book.alloc();
        let Handing { reply, handed } = match hand_out(
            alloc,
            &mut self.disk,
            areas,
            block,
            place,
            known,
            hint,
            wanted,
        ) {
            Ok(handing) => handing,
            Err(_) => return unhanded(at, CellReply::OutOfMemory),
        };
        self.book.enter(who, event, &reply).unwrap();
        keep_read(&mut self.log, read, now, &reply);
        Answer {
            reply: CellReply::Done(reply),
            at,
            handed,
            early: None,
        }
    }
}
