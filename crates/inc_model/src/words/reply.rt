// What a file answers, and what its history keeps.

use crate::{Digest32, Event, RangeList, RecordList, Window};

/// What a file answers to an event.
#[derive(Drop)]
pub enum Reply {
    OutOfRange,
    Damaged,
    Compressed,
    Asked {
        serial: u32,
    },
    /// The asker or the window has no such thing.
    Stranger,
    /// A hash block on the block's path isn't there.
    NoPath {
        hash: u32,
    },
    Handed {
        digest: Digest32,
    },
    TimedOut {
        deadline: u64,
    },
    /// No entry of the history.
    NotYet,
    /// A device call failed, and this is the device's count of faults after it.
    Fault {
        count: u64,
    },
    Cancelled,
    /// The file takes no more fills since the entry at this position.
    Failed {
        at: u64,
    },
    Claimed,
    Busy {
        window: Window,
    },
    Present,
    Put {
        place: u64,
        digest: Digest32,
    },
    Placed,
    Settled,
    /// How many reads waited for this block.
    Gated {
        marked: u32,
    },
    Released,
    Taken {
        records: RecordList,
        readers: u32,
    },
    TimesFull,
    TimesSet,
    BadRange,
    Filled {
        list: RangeList,
        next: u32,
        more: bool,
    },
    Counted {
        data_count: u32,
        hash_count: u32,
    },
    Left {
        readers: u32,
    },
}

/// One entry of a file's history.
#[derive(Drop)]
pub struct Entry {
    /// The number of the seat that asked.
    pub who: u32,
    pub event: Event,
    pub reply: Reply,
}
