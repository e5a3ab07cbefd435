ghost use Rattle.std.specs.Prelude.{◌≡◌, ◌+◌, ◌^◌, ◌<◌, ◌++◌, [], ◌∷◌, map, take, filter, count_by, is_some, All, AllPairs, IfOk, OnErr};
ghost use Rattle.inc_pending.specs.Polling.{Waiting, no_reads, asked_row, asked, read_of, decision_of, polled, cancelled, marked_all, waits_on, is_pending_after, record_of, IsAnswer};
ghost use Rattle.inc_pending.specs.declared.reads.Decision.{Decision};

use crate::reads::{asked_read, drop_read, look_at, mark_reads, pending_after};
use crate::{Decision, OutOfMemory, ReadRow, RecordList, Times};
use inc_bytes::Id;
use std::alloc::Global;
use std::marker::Model;

/// The reads of a file that were asked and not yet answered, by rising serial, and the next serial.
#[derive(Drop)]
pub struct Table {
    reads: Vec<ReadRow>,
    next: u32,
}

impl Model for Table {
    ghost use Rattle.inc_pending.specs.Polling.{Waiting, HoldsReads};

    ghost Value = { Waiting };

    ghost view = { λ t. record { reads = t.reads.items; next = t.next } };

    ghost invariant = { λ t. HoldsReads t.reads.items t.next };
}

impl Table {
    /// No reads; the first serial is 1. It takes no memory.
    #[tactic(auto, using(crate::proofs::TableLemmas::holds_none))]
    pub fn new(alloc: Global) -> Table
        ensures value { result ≡ no_reads }
    {
        Table {
            reads: Vec::new(alloc),
            next: 1,
        }
    }

    /// Adds a read and gives its serial. `present` says whether its block is there. Serials fit for far more asks than a file's history
    /// has places.
    #[tactic(auto, using(crate::proofs::TableLemmas::holds_asked))]
    pub fn ask(
        &mut self,
        who: u32,
        block: u32,
        present: bool,
        uid: u32,
        now: u64,
        t: Times,
    ) -> Result<u32, OutOfMemory>
        requires serials { self.old.next < u32.MAX }
        ensures serial { IfOk result (λ serial. serial ≡ self.old.next) }
        ensures ok { IfOk result (λ serial. self.new ≡ asked (asked_row serial who block present uid now t) self.old) }
        ensures err { OnErr result (self.new ≡ self.old) }
    {
        let serial = self.next;
        self.reads
            .push(asked_read(serial, who, block, present, uid, now, t))?;
        self.next += 1;
        Ok(serial)
    }

    /// Answers a poll. A read that is handed out or timed out is gone afterwards.
    #[tactic(auto, using(crate::proofs::ReadsLemmas::answers, crate::proofs::ReadsLemmas::only_answer))]
    pub fn poll(&mut self, who: u32, serial: u32, now: u64) -> Decision
        ensures value { result ≡ decision_of (read_of who serial self.old.reads) now }
        // The answer says what stands, and no other would.
        ensures answers { IsAnswer self.old.reads who serial now result }
        ensures only { (other : Decision) → IsAnswer self.old.reads who serial now other → other ≡ result }
        ensures after { self.new ≡ polled who serial result self.old }
    {
        let decision = look_at(self.reads.as_slice(), who, serial, now);
        if !decision.ends() {
            return decision;
        }
        drop_read(&mut self.reads, who, serial);
        decision
    }

    /// What a poll would answer.
    #[tactic(auto, using(crate::proofs::ReadsLemmas::answers, crate::proofs::ReadsLemmas::only_answer))]
    pub fn look(&self, who: u32, serial: u32, now: u64) -> Decision
        ensures value { result ≡ decision_of (read_of who serial self.now.reads) now }
        ensures answers { IsAnswer self.now.reads who serial now result }
        ensures only { (other : Decision) → IsAnswer self.now.reads who serial now other → other ≡ result }
    {
        look_at(self.reads.as_slice(), who, serial, now)
    }

    /// Takes this asker's read away, and says whether it was there.
    pub fn cancel(&mut self, who: u32, serial: u32) -> bool
        ensures value { result ≡ is_some (read_of who serial self.old.reads) }
        ensures after { self.new ≡ cancelled who serial self.old }
    {
        drop_read(&mut self.reads, who, serial)
    }

    /// Makes each read done that waits for this block, and gives their number.
    pub fn mark(&mut self, block: u32) -> u32
        ensures value { result ≡ count_by (waits_on block) self.old.reads }
        ensures after { self.new ≡ marked_all block self.old }
    {
        mark_reads(&mut self.reads, block)
    }

    /// What a loader is told: the reads that aren't done with a greater serial, rising, the first `max`.
    pub fn take_after(
        &self,
        alloc: Global,
        id: &Id,
        serial: u32,
        max: u32,
    ) -> Result<RecordList, OutOfMemory>
        ensures value { IfOk result (λ list. list ≡ map (record_of id.now) (take max (filter (is_pending_after serial) self.now.reads))) }
        ensures rising { IfOk result (AllPairs (λ earlier later. earlier.serial < later.serial)) }
    {
        pending_after(alloc, self.reads.as_slice(), id, serial, max)
    }
}
