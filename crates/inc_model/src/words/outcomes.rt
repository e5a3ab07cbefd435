// What readers and fillers are told in the end, with positions in the file's history.

use crate::{Digest32, Window};
use inc_tree::Shown;

/// A block that was handed out, proved by its path or marked as unproved where the file has no tree, and the entry that handed it out.
#[derive(Drop)]
pub struct Found {
    pub shown: Shown,
    pub at: u64,
}

/// Why a read gives no bytes, in the order of refusal. `HistoryFull` and `OutOfMemory` may come before each of the others.
#[derive(Clone, Copy, Debug, PartialEq, Eq)]
pub enum ReadError {
    OutOfRange,
    Damaged,
    Compressed,
    /// The block wasn't there at the read's deadline.
    TimedOut {
        serial: u32,
        deadline: u64,
        now: u64,
        at: u64,
    },
    /// A hash block on the block's path isn't there.
    PathAbsent {
        hash: u32,
        at: u64,
    },
    /// The path fails first at this level.
    Corrupt {
        level: u32,
        wanted: Digest32,
        got: Digest32,
        at: u64,
    },
    ReadFault,
    HistoryFull {
        entries: u64,
        claimed: u64,
    },
    OutOfMemory,
}

/// What became of one piece of a fill.
#[derive(Clone, Copy, Debug, PartialEq, Eq)]
pub enum Outcome {
    /// The sync after its gate is the entry at this position.
    Written { at: u64 },
    Present { at: u64 },
    Busy { window: Window, at: u64 },
}

/// Why a fill gives no outcomes, in the order of refusal.
#[derive(Clone, Copy, Debug, PartialEq, Eq)]
pub enum FillError {
    NoPermission,
    OutOfRange { piece: u32 },
    Compressed { piece: u32 },
    BadLength { piece: u32 },
    Damaged { piece: u32 },
    OutOfMemory,
    HistoryFull { entries: u64, claimed: u64 },
    /// The file takes no more fills since the entry at this position.
    Failed { at: u64 },
    /// So many first pieces had their outcomes when a write or sync failed.
    DiskFault { done: u32 },
}
