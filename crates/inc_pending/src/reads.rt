//! The reads as rows of a list, in the order in which they were asked. Whoever keeps such a list calls these.

ghost use Rattle.std.specs.Prelude.{◌≡◌, ◌^◌, ◌<◌, length, map, take, filter, position, count_by, AllPairs, is_some, IfOk};
ghost use Rattle.inc_pending.specs.Polling.{is_asked, read_of, decision_of, reads_but, decision, ends, asked_row, waits_on, marked, is_pending_after, record_of, AreRising};
ghost use Rattle.inc_pending.specs.declared.reads.ReadRow.{ReadRow};

use crate::{OutOfMemory, PendingRecord, RecordList, Times};
use inc_bytes::Id;
use std::alloc::Global;

/// One read that was asked and not yet answered.
#[derive(Clone, Copy, Debug, PartialEq, Eq)]
pub struct ReadRow {
    pub serial: u32,
    /// Who asked, by the number of its seat.
    pub who: u32,
    pub block: u32,
    pub uid: u32,
    /// When it was asked, and from when on it is handed out or times out, in microseconds.
    pub asked: u64,
    pub floor: u64,
    pub deadline: u64,
    /// Whether its block is there.
    pub done: bool,
}

/// What a poll answers.
#[derive(Clone, Copy, Debug, PartialEq, Eq)]
pub enum Decision {
    /// This asker has no such read.
    Stranger,
    /// The block is there, and the read's floor is reached.
    Hand { block: u32 },
    /// The block is not there, and the read's deadline is reached.
    TimedOut { deadline: u64 },
    NotYet,
}

impl Decision {
    /// Whether the read is gone after this answer.
    pub fn ends(self) -> bool
        ensures value { result ≡ ends self }
    {
        match self {
            Decision::Hand { .. } | Decision::TimedOut { .. } => true,
            Decision::Stranger | Decision::NotYet => false,
        }
    }
}

/// The row of a read that is asked now.
pub fn asked_read(
    serial: u32,
    who: u32,
    block: u32,
    present: bool,
    uid: u32,
    now: u64,
    t: Times,
) -> ReadRow
    ensures value { result ≡ asked_row serial who block present uid now t }
{
    let least = if present {
        t.least_read
    } else {
        t.least_pending
    };
    ReadRow {
        serial,
        who,
        block,
        uid,
        asked: now,
        floor: now.saturating_add(least),
        deadline: now.saturating_add(t.most_pending),
        done: present,
    }
}

/// The place of this asker's read.
fn place_of(rows: &[ReadRow], who: u32, serial: u32) -> Option<usize>
    ensures value { result ≡ position (λ row. is_asked who serial row) rows.now }
{
    rows.iter()
        .position(|row| row.serial == serial && row.who == who)
}

/// What this read answers.
fn decide(row: ReadRow, now: u64) -> Decision
    ensures value { result ≡ decision row now }
{
    if row.done {
        if row.floor <= now {
            Decision::Hand { block: row.block }
        } else {
            Decision::NotYet
        }
    } else if row.deadline <= now {
        Decision::TimedOut {
            deadline: row.deadline,
        }
    } else {
        Decision::NotYet
    }
}

/// What a poll of this read by this asker answers.
#[tactic(auto, using(crate::proofs::ReadsLemmas::found_at, crate::proofs::ReadsLemmas::found_none))]
pub fn look_at(rows: &[ReadRow], who: u32, serial: u32, now: u64) -> Decision
    ensures value { result ≡ decision_of (read_of who serial rows.now) now }
{
    match place_of(rows, who, serial) {
        Some(at) => decide(rows[at], now),
        None => Decision::Stranger,
    }
}

/// Takes this asker's read away, and says whether it was there. It takes no memory.
#[tactic(auto, using(crate::proofs::ReadsLemmas::found_at, crate::proofs::ReadsLemmas::found_none, crate::proofs::ReadsLemmas::but_at, crate::proofs::ReadsLemmas::but_none))]
pub fn drop_read(rows: &mut Vec<ReadRow>, who: u32, serial: u32) -> bool
    requires rising { AreRising rows.old.items }
    ensures value { result ≡ is_some (read_of who serial rows.old.items) }
    ensures others { rows.new.items ≡ reads_but who serial rows.old.items }
{
    match place_of(rows.as_slice(), who, serial) {
        Some(at) => {
            rows.remove(at);
            true
        }
        None => false,
    }
}

/// Makes a read done where it waits for this block, and says whether it did.
fn mark_read(row: &mut ReadRow, block: u32) -> bool
    ensures value { result ≡ waits_on block row.old }
    ensures row { row.new ≡ marked block row.old }
{
    if row.block == block && !row.done {
        row.done = true;
        return true;
    }
    false
}

/// Makes each read done that waits for this block, and gives their number. It takes no memory.
pub fn mark_reads(rows: &mut Vec<ReadRow>, block: u32) -> u32
    requires few { length rows.old.items < 2 ^ 32 }
    ensures value { result ≡ count_by (waits_on block) rows.old.items }
    ensures rows { rows.new.items ≡ map (marked block) rows.old.items }
{
    let mut count = 0;
    for row in rows.iter_mut() {
        count += u32::from(mark_read(row, block));
    }
    count
}

/// The first `max` reads that aren't done with a greater serial, as a loader is told them.
fn records_after(
    alloc: Global,
    rows: &[ReadRow],
    id: &Id,
    serial: u32,
    max: usize,
) -> Result<Vec<PendingRecord>, OutOfMemory>
    ensures value { IfOk result (λ records. records.items ≡ map (record_of id.now) (take max (filter (is_pending_after serial) rows.now))) }
{
    rows.iter()
        .filter(|row| !row.done && serial < row.serial)
        .take(max)
        .map(|row| PendingRecord {
            id: *id,
            asked: row.asked,
            block: row.block,
            serial: row.serial,
            uid: row.uid,
        })
        .collect(alloc)
}

/// What a loader is told: the reads that aren't done with a greater serial, rising, the first `max`.
pub fn pending_after(
    alloc: Global,
    rows: &[ReadRow],
    id: &Id,
    serial: u32,
    max: u32,
) -> Result<RecordList, OutOfMemory>
    requires rising { AreRising rows.now }
    ensures value { IfOk result (λ list. list ≡ map (record_of id.now) (take max (filter (is_pending_after serial) rows.now))) }
    ensures rising { IfOk result (AllPairs (λ earlier later. earlier.serial < later.serial)) }
{
    let records = records_after(alloc, rows, id, serial, max as usize)?;
    Ok(RecordList::from_vec(records))
}
