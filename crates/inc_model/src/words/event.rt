// What a reader, a loader or the session asks of a file.

use crate::{Digest32, Times};

/// One call of a filler: its seat's number, and which of the seat's own calls it is.
#[derive(Clone, Copy, Debug, PartialEq, Eq)]
pub struct Window {
    pub who: u32,
    /// The seat's calls before this one, modulo 2^32. A window's name may come again after its release.
    pub count: u32,
}

/// What is asked of a file. Moments are microseconds.
#[derive(Clone, Copy, Debug, PartialEq, Eq)]
pub enum Event {
    Ask {
        block: u32,
        uid: u32,
        now: u64,
    },
    Poll {
        serial: u32,
        now: u64,
    },
    Cancel {
        serial: u32,
    },
    /// Takes places of the history in advance, so that no later event of this window meets a full one.
    Claim {
        window: Window,
        places: u32,
    },
    /// Stores the block of an index, data or hash.
    PutData {
        window: Window,
        index: u32,
        digest: Digest32,
    },
    /// Writes the place of a stored block into the block map.
    PutPlace {
        window: Window,
        index: u32,
    },
    /// Makes durable what was written before, in all windows.
    Settle {
        window: Window,
    },
    /// Opens the entry of a block whose bytes and place are durable.
    Gate {
        window: Window,
        index: u32,
    },
    Release {
        window: Window,
    },
    TakePending {
        after: u32,
        max: u32,
    },
    SetTimes {
        uid: u32,
        t: Times,
    },
    Ranges {
        start: u32,
        end: u32,
        room: u32,
    },
    Count,
    Leave,
}
