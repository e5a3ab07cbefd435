ghost use Rattle.std.specs.Prelude.{◌≡◌, ◌+◌, ◌-◌, ◌^◌, ◌<◌, ◌≤◌, List, [], ◌∷◌, ◌++◌, length, min, slice_get, if◌then◌else◌, IfOk};
ghost use Rattle.inc_readlog.specs.Log.{empty_log, logged, Tells};
ghost use Rattle.inc_readlog.specs.declared.entry.LogEntry.{LogEntry};

use crate::{LogEntry, OutOfMemory};
use circular_buffer::HeapCircularBuffer;
use std::alloc::Global;
use std::marker::Model;

/// The last reads that ended, and how many ended before them.
#[derive(Drop)]
pub struct ReadLog {
    ring: HeapCircularBuffer<LogEntry>,
    lost: u64,
}

impl Model for ReadLog {
    ghost use Rattle.inc_readlog.specs.Log.{LoggedReads};

    ghost Value = { LoggedReads };

    ghost view = { λ l. record { room = l.ring.capacity; entries = l.ring.items; lost = l.lost } };
}

/// The count of lost reads after one more read.
fn lost_after(lost: u64, has_room: bool) -> u64
    ensures value { result ≡ (if has_room then lost else min (lost + 1) (2 ^ 64 - 1)) }
{
    if has_room {
        lost
    } else {
        lost.saturating_add(1)
    }
}

impl ReadLog {
    /// An empty log, with its memory for this many reads.
    pub fn new(alloc: Global, room: usize) -> Result<ReadLog, OutOfMemory>
        requires some { 1 ≤ room }
        ensures value { IfOk result (λ log. log ≡ empty_log room) }
        ensures told { IfOk result (λ log. Tells [] log) }
    {
        Ok(ReadLog {
            ring: HeapCircularBuffer::with_capacity(alloc, room)?,
            lost: 0,
        })
    }

    /// Adds a read that ended now. It takes no memory.
    pub fn push(&mut self, entry: LogEntry)
        ensures value { self.new ≡ logged self.old entry }
        // A log of some reads is now the log of those and this one.
        ensures told { (all : List LogEntry) → Tells all self.old → Tells (all ++ entry ∷ []) self.new }
    {
        let has_room = self.ring.len() < self.ring.capacity();
        self.lost = lost_after(self.lost, has_room);
        self.ring.push_back(entry);
    }

    /// How many reads the log has.
    pub fn kept(&self) -> usize
        ensures value { result ≡ length self.now.entries }
        ensures within { result ≤ self.now.room }
    {
        self.ring.len()
    }

    /// How many reads ended before those that the log has; it stops at the greatest number.
    pub fn lost(&self) -> u64
        ensures value { result ≡ self.now.lost }
    {
        self.lost
    }

    /// The read at a place, counted from the oldest, or nothing where the log has no such place.
    pub fn nth(&self, i: usize) -> Option<LogEntry>
        ensures value { result ≡ slice_get self.now.entries i }
    {
        self.ring.get(i).copied()
    }
}
