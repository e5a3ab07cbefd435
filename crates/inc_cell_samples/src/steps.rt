//! The events of fills and reads, each with what of its answer a test looks at.

use crate::files::HASH;
use inc_cell::{Answer, CellReply, FileCell};
use inc_disk::MemDisk;
use inc_model::{Reply, Window};
use inc_tree::{Block, Digest32};

pub type Cell = FileCell<MemDisk>;

/// The windows of two fillers.
pub const ONE: Window = Window { who: 3, count: 0 };

pub const OTHER: Window = Window { who: 4, count: 0 };

/// Who reads.
pub const READER: u32 = 1;

/// An event of a fill.
#[derive(Clone, Copy)]
pub enum Step {
    Claim(Window),
    Put(Window, u32),
    Place(Window, u32),
    Settle(Window),
    Gate(Window, u32),
    Release(Window),
}

/// The three blocks in one window: all places settle together, and so do all gates.
pub const WHOLE: [Step; 13] = [
    Step::Claim(ONE),
    Step::Put(ONE, HASH),
    Step::Put(ONE, 0),
    Step::Put(ONE, 1),
    Step::Place(ONE, HASH),
    Step::Place(ONE, 0),
    Step::Place(ONE, 1),
    Step::Settle(ONE),
    Step::Gate(ONE, HASH),
    Step::Gate(ONE, 0),
    Step::Gate(ONE, 1),
    Step::Settle(ONE),
    Step::Release(ONE),
];

/// What came of it.
#[derive(Clone, Copy, Debug, PartialEq, Eq)]
pub enum Came {
    Done,
    Busy,
    Present,
    /// A device call failed, at this entry.
    Fault(u64),
    /// It failed at an earlier entry.
    Failed(u64),
    Other,
}

fn came_of(answer: Answer) -> Came {
    let Answer { reply, at, .. } = answer;
    match reply {
        CellReply::Done(reply) => came_by(reply, at),
        _ => Came::Other,
    }
}

fn came_by(reply: Reply, at: u64) -> Came {
    match reply {
        Reply::Claimed
        | Reply::Put { .. }
        | Reply::Placed
        | Reply::Settled
        | Reply::Gated { .. }
        | Reply::Released => Came::Done,
        Reply::Busy { .. } => Came::Busy,
        Reply::Present => Came::Present,
        Reply::Fault { .. } => Came::Fault(at),
        Reply::Failed { at } => Came::Failed(at),
        _ => Came::Other,
    }
}

/// Takes a step with the file's blocks at hand.
pub fn take(cell: &mut Cell, blocks: &[Block], step: Step) -> Came {
    match step {
        Step::Claim(window) => came_of(cell.claim(window.who, window, 16)),
        Step::Put(window, index) => match blocks.get(index as usize) {
            Some(block) => came_of(cell.put_data(window.who, window, index, block)),
            None => Came::Other,
        },
        Step::Place(window, index) => came_of(cell.put_place(window.who, window, index)),
        Step::Settle(window) => came_of(cell.settle(window.who, window)),
        Step::Gate(window, index) => came_of(cell.gate(window.who, window, index)),
        Step::Release(window) => came_of(cell.release(window.who, window)),
    }
}

/// Takes steps up to the first one that isn't done, and says what came of the last one taken.
pub fn take_all(cell: &mut Cell, blocks: &[Block], steps: &[Step]) -> Came {
    for step in steps {
        let came = take(cell, blocks, *step);
        if came != Came::Done {
            return came;
        }
    }
    Came::Done
}

/// Asks for a block, and tells the read's serial.
pub fn ask(cell: &mut Cell, block: u32, now: u64) -> Option<u32> {
    let Answer { reply, .. } = cell.ask(READER, block, 0, now);
    match reply {
        CellReply::Done(Reply::Asked { serial }) => Some(serial),
        _ => None,
    }
}

/// What came of a poll.
#[derive(Clone, Copy, Debug, PartialEq, Eq)]
pub enum Polled {
    /// A block with this digest, and so many hash blocks of its path.
    Handed(Digest32, usize),
    TimedOut(u64),
    NotYet,
    Fault(u64),
    Stranger,
    Other,
}

fn polled_by(reply: Reply, path: usize) -> Polled {
    match reply {
        Reply::Handed { digest } => Polled::Handed(digest, path),
        Reply::TimedOut { deadline } => Polled::TimedOut(deadline),
        Reply::NotYet => Polled::NotYet,
        Reply::Fault { count } => Polled::Fault(count),
        Reply::Stranger => Polled::Stranger,
        _ => Polled::Other,
    }
}

/// Polls a read without the hash blocks of these numbers.
pub fn poll(cell: &mut Cell, serial: u32, now: u64, known: &[u32]) -> Polled {
    let Answer { reply, handed, .. } = cell.poll_known(READER, serial, now, known);
    let path = match handed {
        Some(handed) => handed.path.as_slice().len(),
        None => 0,
    };
    match reply {
        CellReply::Done(reply) => polled_by(reply, path),
        _ => Polled::Other,
    }
}

/// A read of a block, asked and polled at once.
pub fn read(cell: &mut Cell, block: u32) -> Polled {
    match ask(cell, block, 0) {
        Some(serial) => poll(cell, serial, 0, &[]),
        None => Polled::Other,
    }
}
