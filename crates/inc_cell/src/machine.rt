// A cell under a lock: one event after another.
ghost use Rattle.std.specs.Prelude.{◌≡◌, [], None};
ghost use Rattle.inc_cell.specs.events.Answers.{CellSteps};
ghost use Rattle.inc_cell.specs.events.CellEvents.{PlainHands, PlainTakes};

use crate::{Answer, CellEvent, FileCell};
use inc_disk::Disk;
use inc_layout::Opened;
use inc_model::{Event, FileState, Machine};

/// What no event of a cell changes. No value of it is made.
#[derive(Drop)]
pub struct CellFooting {
    /// The state in which the file began.
    pub opening: FileState,
    pub opened: Opened,
    /// Whether the disk tells what it holds.
    pub told: bool,
}

impl<D: Disk> Machine for FileCell<D> {
    type Event = CellEvent;

    type Answer = Answer;

    type Footing = CellFooting;

    ghost use Rattle.inc_cell.specs.events.CellEvents.{CellMoves, CellTakes, footing_of};
    ghost use Rattle.inc_cell.specs.laws.MachineLaws.{cell_grows, cell_stays};

    ghost history = { λ c. c.history };

    ghost footing = { footing_of };

    ghost takes = { CellTakes };

    ghost steps = { CellMoves };

    fn step(&mut self, who: u32, event: CellEvent) -> Answer {
        // A cell's type keeps its history legal, and its seats are told so.
        let _entries = self.history();
        match event {
            CellEvent::Put {
                window,
                index,
                block,
            } => self.put_digested(who, window, index, &block),
            CellEvent::AskEarly { block, uid, now } => self.ask_early(who, block, uid, now),
            CellEvent::PollKnown {
                serial,
                now,
                known,
                hint,
            } => self.poll_hinted(who, serial, now, known.as_slice(), hint.as_ref()),
            CellEvent::Plain(event) => step_plain(self, who, event),
        }
    }

    ghost grows = { cell_grows };

    ghost stays = { cell_stays };
}

/// The method of an event that brings no block.
fn step_plain<D: Disk>(cell: &mut FileCell<D>, who: u32, event: Event) -> Answer
    requires takes { PlainTakes who event }
    ensures steps { CellSteps cell.old who event [] result cell.new }
    ensures hands { PlainHands cell.old who event result }
    ensures early { result.early ≡ None }
{
    match event {
        Event::Ask { block, uid, now } => cell.ask(who, block, uid, now),
        Event::Poll { serial, now } => cell.poll(who, serial, now),
        Event::Cancel { serial } => cell.cancel(who, serial),
        Event::Claim { window, places } => cell.claim(who, window, places),
        Event::PutData { .. } => unreachable!(),
        Event::PutPlace { window, index } => cell.put_place(who, window, index),
        Event::Settle { window } => cell.settle(who, window),
        Event::Gate { window, index } => cell.gate(who, window, index),
        Event::Release { window } => cell.release(who, window),
        Event::TakePending { after, max } => cell.take_pending(who, after, max),
        Event::SetTimes { uid, t } => cell.set_times(who, uid, t),
        Event::Ranges { start, end, room } => cell.ranges(who, start, end, room),
        Event::Count => cell.count(who),
        Event::Leave => cell.leave(who),
    }
}
