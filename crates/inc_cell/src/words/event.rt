// What is asked of a cell.

use crate::{Digested, NumberList};
use inc_model::{Event, Window};

/// An event, with what it needs beside its words.
#[derive(Drop)]
pub enum CellEvent {
    /// Puts a block of an index.
    Put {
        window: Window,
        index: u32,
        block: Digested,
    },
    /// Begins a read, and hands the block's bytes out early where the block is there, so that the asker hashes them outside the lock.
    AskEarly {
        block: u32,
        uid: u32,
        now: u64,
    },
    /// A poll without those hash blocks of the path whose numbers are known. Where the block has the bytes of the hint it isn't hashed.
    PollKnown {
        serial: u32,
        now: u64,
        known: NumberList,
        hint: Option<Digested>,
    },
    /// Every other event, and a poll with its whole path. A put isn't taken so, since it brings no block.
    Plain(Event),
}
