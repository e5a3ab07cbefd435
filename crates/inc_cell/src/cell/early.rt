// Asks that hand out their block's bytes early.
ghost use Rattle.std.specs.Prelude.{◌≡◌, []};
ghost use Rattle.inc_model.specs.declared.words.event.Event.TheVariants.{Ask};
ghost use Rattle.inc_cell.specs.device.Early.{HandsEarly, MayEarly, with_count};
ghost use Rattle.inc_cell.specs.events.Answers.{CellSteps};

use crate::Answer;
use crate::cell::FileCell;
use crate::parts::hand::is_asked;
use crate::parts::puts::spot_at;
use inc_disk::Disk;
use inc_layout::read_stored;
use inc_tree::Block;

impl<D: Disk> FileCell<D> {
    /// Begins a read of a data block, and where the block is there hands its bytes out with the answer, so that its asker may hash them
    /// before the poll. They are no part of the read: a read of the disk that fails here gives none, and leaves the ask as it is.
    #[tactic(auto, using(crate::proofs::handing::EarlyLemmas::with_early, crate::proofs::handing::EarlyLemmas::hands_unasked, crate::proofs::handing::EarlyLemmas::hands_asked))]
    pub fn ask_early(&mut self, who: u32, block: u32, uid: u32, now: u64) -> Answer
        // It is the ask, and the count of faults is the only thing that the read of the bytes may change.
        ensures steps { CellSteps self.old who (Ask block uid now) [] result (with_count self.old.count self.new) }
        ensures early { HandsEarly self.old.count self.new block result.reply result.early }
    {
        let answer = self.ask(who, block, uid, now);
        if !is_asked(&answer.reply) {
            return answer;
        }
        let early = self.read_early(block);
        let Answer {
            reply,
            at,
            handed,
            ..
        } = answer;
        Answer {
            reply,
            at,
            handed,
            early,
        }
    }

    /// The bytes of a block, where it is there and the disk reads them.
    fn read_early(&mut self, block: u32) -> Option<Block>
        ensures same { self.new ≡ with_count self.new.count self.old }
        ensures early { MayEarly self.old.count self.new block result }
    {
        if self.book.digest_of(block).is_none() {
            return None;
        }
        let len = self.opened.areas.geometry.block_len(block);
        let place = spot_at(self.spots.as_slice(), block);
        let alloc = self.book.alloc();
        match read_stored(alloc, &mut self.disk, place, len) {
            Ok(bytes) => Some(bytes),
            Err(_) => None,
        }
    }
}
