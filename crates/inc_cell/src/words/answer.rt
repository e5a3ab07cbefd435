// What a cell answers.

use crate::Digested;
use inc_model::Reply;
use inc_tree::{Block, Path};

/// What comes of an event.
#[derive(Drop)]
pub enum CellReply {
    /// The reply, with an entry in the history unless it is `NotYet`.
    Done(Reply),
    /// The history has no room for the event beside so many entries and claimed places.
    HistoryFull { entries: u64, claimed: u64 },
    OutOfMemory,
}

/// A block that is handed out, and what of its path was asked for, leaf level first. Nothing is checked yet.
#[derive(Drop)]
pub struct HandedBytes {
    pub block: Digested,
    pub path: Path,
}

#[derive(Drop)]
pub struct Answer {
    pub reply: CellReply,
    /// The entries before this one: its position where it leaves an entry.
    pub at: u64,
    /// There exactly where the reply is `Handed`.
    pub handed: Option<HandedBytes>,
    /// The bytes of a block that was asked for early, and is there: not hashed yet.
    pub early: Option<Block>,
}
