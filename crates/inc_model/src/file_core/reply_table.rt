// What a file answers to each event.
ghost use Rattle.std.specs.Prelude.{◌≡◌, ℕ, ◌+◌, ◌*◌, ◌^◌, ◌<◌, ◌≤◌, nat_le, nat_lt, ◌==◌, length, count_by, true, Some, IfOk, OnErr};
ghost use Rattle.inc_tree.specs.shape.Geometry.{depth, shape_of};
ghost use Rattle.inc_pending.specs.Keyed.{lookup};
ghost use Rattle.inc_pending.specs.Polling.{read_of, waits_on, AreRising};
ghost use Rattle.inc_model.specs.relation.State.{is_in, has, flight_row, Rise};
ghost use Rattle.inc_model.specs.relation.Stages.{is_at, is_written, is_settled};
ghost use Rattle.inc_model.specs.relation.Polling.{absent_hash, hand_reply, poll_reply, hash_on_path, is_hash_there};
ghost use Rattle.inc_model.specs.relation.Table.{ask_reply, unless_failed, flight_reply, put_reply, place_reply, gate_reply, cancel_reply, times_reply, presence, take_reply, ranges_reply, count_reply, has_list, reply_of};
ghost use Rattle.inc_model.specs.executed.CoreFacts.{IsWorkable};

use crate::file_core::FileCore;
use crate::state_lists::claims::is_same_window;
use crate::state_lists::flight::find_row;
use crate::state_lists::index_sets::holds_index;
use crate::state_lists::keyed::times_at;
use crate::{
    Digest32, Event, FlightRow, Indices, MOST_BLOCKS, MOST_DATA_BLOCKS, OutOfMemory, ReadRow,
    Reply, Stage, Window,
};
use inc_pending::{Decision, MOST_ROWS, look_at, pending_after};
use inc_ranges::{Presence, RangeFault, Ranges, filled};
use inc_tree::{BLOCK_SIZE, Geometry};
use std::alloc::Global;

/// The reads of a block that aren't done.
fn count_waiting(reads: &[ReadRow], block: u32) -> u32
    requires few { length reads.now < 2 ^ 32 }
    ensures value { result ≡ count_by (waits_on block) reads.now }
{
    let mut count = 0;
    for row in reads {
        if row.block == block && !row.done {
            count += 1;
        }
    }
    count
}

/// Which indices of the file are open: each is looked up where it is asked for.
impl<I: Indices> Presence for &FileCore<I> {
    ghost present = { λ core. presence core.now.state.map (core.now.state.n + core.now.state.m) };

    #[tactic(auto, using(crate::proofs::executed::Replies::presence_count))]
    fn count(&self) -> usize {
        self.indices.data_blocks() as usize + self.indices.hash_blocks() as usize
    }

    #[tactic(auto, using(crate::proofs::executed::Replies::presence_at))]
    fn is_filled(&self, index: u32) -> bool {
        self.indices.digest_of(index).is_some()
    }
}

/// Whether a row is this window's, and its place isn't written.
fn is_written_of(window: Window, row: FlightRow) -> bool
    ensures value { result ≡ is_at is_written window (Some row) }
{
    is_same_window(window, row.window) && matches!(row.stage, Stage::Written)
}

/// Whether a row is this window's, and its gate may be written.
fn is_settled_of(window: Window, row: FlightRow) -> bool
    ensures value { result ≡ is_at is_settled window (Some row) }
{
    is_same_window(window, row.window) && matches!(row.stage, Stage::Settled)
}

impl<I: Indices> FileCore<I> {
    /// The hash block of a level on a block's path, and whether it is there.
    fn hash_on_path(&self, tree: &Geometry, block: u32, level: u32) -> (u32, bool)
        requires small { self.now.state.n ≤ MOST_DATA_BLOCKS }
        requires tree { tree.now ≡ shape_of self.now.state.n self.now.state.m }
        requires here { block < self.now.state.n }
        requires level { level < depth (shape_of self.now.state.n self.now.state.m) }
        ensures hash { result.0 ≡ hash_on_path self.now.state.n self.now.state.m block level }
        ensures there { result.1 ≡ is_hash_there self.now.state.n self.now.state.m self.now.state.map block level }
    {
        // There are few hash blocks, so that the sum below fits.
        let _hash_blocks = tree.hash_blocks();
        let hash = tree.path_block(block, level);
        let there = self
            .indices
            .digest_of(self.indices.data_blocks() + hash)
            .is_some();
        (hash, there)
    }

    /// The shape of the file's tree, for all that paths need.
    fn tree(&self) -> Option<Geometry>
        requires small { self.now.state.n ≤ MOST_DATA_BLOCKS }
        ensures value { result ≡ Some (shape_of self.now.state.n self.now.state.m) }
    {
        let size = BLOCK_SIZE as u64 * u64::from(self.indices.data_blocks());
        if self.indices.hash_blocks() == 0 {
            Geometry::flat_of(size).ok()
        } else {
            Geometry::of(size).ok()
        }
    }

    /// The lowest hash block on a block's path that isn't there.
    #[tactic(auto, using(crate::proofs::executed::Replies::absent_start, crate::proofs::executed::Replies::absent_here, crate::proofs::executed::Replies::absent_more, crate::proofs::executed::Replies::absent_none))]
    fn absent_hash(&self, block: u32) -> Option<u32>
        requires small { self.now.state.n ≤ MOST_DATA_BLOCKS }
        requires here { block < self.now.state.n }
        ensures value { result ≡ absent_hash self.now.state.n self.now.state.m self.now.state.map block }
    {
        let tree = self.tree()?;
        for level in 0..tree.depth() {
            let (hash, there) = self.hash_on_path(&tree, block, level);
            if !there {
                return Some(hash);
            }
        }
        None
    }

    fn hand(&self, block: u32) -> Reply
        requires small { self.now.state.n ≤ MOST_DATA_BLOCKS }
        requires here { block < self.now.state.n }
        ensures value { result ≡ hand_reply (absent_hash self.now.state.n self.now.state.m self.now.state.map block) (lookup block self.now.state.map) }
    {
        if let Some(hash) = self.absent_hash(block) {
            return Reply::NoPath { hash };
        }
        match self.indices.digest_of(block) {
            Some(digest) => Reply::Handed { digest },
            None => Reply::NotYet,
        }
    }

    fn poll_reply(&self, who: u32, serial: u32, now: u64) -> Reply
        requires works { IsWorkable self.now.state }
        ensures value { result ≡ poll_reply self.now.state who serial now }
    {
        match look_at(self.reads.as_slice(), who, serial, now) {
            Decision::Stranger => Reply::Stranger,
            Decision::Hand { block } => self.hand(block),
            Decision::TimedOut { deadline } => Reply::TimedOut { deadline },
            Decision::NotYet => Reply::NotYet,
        }
    }

    fn ask_reply(&self, block: u32) -> Reply
        requires damaged { Rise self.now.state.damaged }
        requires compressed { Rise self.now.state.compressed }
        ensures value { result ≡ ask_reply (nat_le self.now.state.n block) (has block self.now.state.damaged) (has block self.now.state.compressed) self.now.state.next }
    {
        if block >= self.indices.data_blocks() {
            return Reply::OutOfRange;
        }
        if holds_index(self.damaged.as_slice(), block) {
            return Reply::Damaged;
        }
        if holds_index(self.compressed.as_slice(), block) {
            return Reply::Compressed;
        }
        Reply::Asked { serial: self.next }
    }

    /// What an index that may be filled gives.
    fn flight_reply(&self, index: u32, digest: Digest32) -> Reply
        ensures value { result ≡ flight_reply (flight_row index self.now.state.flight) (is_in index self.now.state.map) digest }
    {
        if let Some(row) = find_row(self.flight.as_slice(), index) {
            return Reply::Busy { window: row.window };
        }
        if self.indices.digest_of(index).is_some() {
            return Reply::Present;
        }
        Reply::Put { place: 0, digest }
    }

    fn put_reply(&self, index: u32, digest: Digest32) -> Reply
        requires damaged { Rise self.now.state.damaged }
        requires compressed { Rise self.now.state.compressed }
        ensures value { result ≡ put_reply (nat_le (self.now.state.n + self.now.state.m) index) (has index self.now.state.damaged) (has index self.now.state.compressed) (flight_reply (flight_row index self.now.state.flight) (is_in index self.now.state.map) digest) }
    {
        if u64::from(index)
            >= u64::from(self.indices.data_blocks()) + u64::from(self.indices.hash_blocks())
        {
            return Reply::OutOfRange;
        }
        if holds_index(self.damaged.as_slice(), index) {
            return Reply::Damaged;
        }
        if holds_index(self.compressed.as_slice(), index) {
            return Reply::Compressed;
        }
        self.flight_reply(index, digest)
    }

    /// Whether the window has this index, written.
    fn has_written(&self, window: Window, index: u32) -> bool
        ensures value { result ≡ is_at is_written window (flight_row index self.now.state.flight) }
    {
        match find_row(self.flight.as_slice(), index) {
            Some(row) => is_written_of(window, row),
            None => false,
        }
    }

    /// Whether the window has this index, settled.
    fn has_settled(&self, window: Window, index: u32) -> bool
        ensures value { result ≡ is_at is_settled window (flight_row index self.now.state.flight) }
    {
        match find_row(self.flight.as_slice(), index) {
            Some(row) => is_settled_of(window, row),
            None => false,
        }
    }

    fn place_reply(&self, window: Window, index: u32) -> Reply
        ensures value { result ≡ place_reply (is_at is_written window (flight_row index self.now.state.flight)) }
    {
        if self.has_written(window, index) {
            Reply::Placed
        } else {
            Reply::Stranger
        }
    }

    fn gate_reply(&self, window: Window, index: u32) -> Reply
        requires few { length self.now.state.reads < 2 ^ 32 }
        ensures value { result ≡ gate_reply (is_at is_settled window (flight_row index self.now.state.flight)) (count_by (waits_on index) self.now.state.reads) }
    {
        if self.has_settled(window, index) {
            let marked = count_waiting(self.reads.as_slice(), index);
            Reply::Gated { marked }
        } else {
            Reply::Stranger
        }
    }

    fn cancel_reply(&self, who: u32, serial: u32) -> Reply
        ensures value { result ≡ cancel_reply (read_of who serial self.now.state.reads) }
    {
        match look_at(self.reads.as_slice(), who, serial, 0) {
            Decision::Stranger => Reply::Stranger,
            Decision::Hand { .. } | Decision::TimedOut { .. } | Decision::NotYet => {
                Reply::Cancelled
            }
        }
    }

    fn take_reply(&self, alloc: Global, after: u32, max: u32) -> Result<Reply, OutOfMemory>
        requires rising { AreRising self.now.state.reads }
        ensures value { IfOk result (λ reply. reply ≡ take_reply self.now.state after max) }
    {
        let records = pending_after(alloc, self.reads.as_slice(), &self.id, after, max)?;
        Ok(Reply::Taken {
            records,
            readers: self.readers,
        })
    }

    fn times_reply(&self, uid: u32) -> Reply
        ensures value { result ≡ times_reply (length self.now.state.times == MOST_ROWS) (is_in uid self.now.state.times) }
    {
        if self.times.len() == MOST_ROWS && times_at(self.times.as_slice(), uid).is_none() {
            Reply::TimesFull
        } else {
            Reply::TimesSet
        }
    }

    fn ranges_reply(
        &self,
        alloc: Global,
        start: u32,
        end: u32,
        room: u32,
    ) -> Result<Reply, OutOfMemory>
        ensures value { IfOk result (λ reply. reply ≡ ranges_reply self.now.state.map (self.now.state.n + self.now.state.m) start end room) }
    {
        match filled(alloc, self, start, end, room) {
            Ok(Ranges { list, next, more }) => Ok(Reply::Filled { list, next, more }),
            Err(RangeFault::BadRange) => Ok(Reply::BadRange),
            Err(RangeFault::OutOfMemory) => Err(std::alloc::AllocError),
        }
    }

    fn count_reply(&self) -> Reply
        requires few { length self.now.state.map < 2 ^ 32 }
        ensures value { result ≡ count_reply self.now.state.map self.now.state.n }
    {
        let (data_count, hash_count) = self.indices.counts();
        Reply::Counted {
            data_count,
            hash_count,
        }
    }

    /// What a fill is answered before a write or sync failed, and what it is answered after.
    fn unless_failed(&self, reply: Reply) -> Reply
        ensures value { result ≡ unless_failed self.now.state.failed reply }
    {
        match self.failed {
            Some(at) => Reply::Failed { at },
            None => reply,
        }
    }

    /// What the file answers, where no device call fails. A `Put` has the place 0.
    pub fn reply_to(&self, alloc: Global, who: u32, event: Event) -> Result<Reply, OutOfMemory>
        requires works { IsWorkable self.now.state }
        ensures value { IfOk result (λ reply. reply ≡ reply_of self.now.state who event) }
        ensures memory { OnErr result (has_list event ≡ true) }
    {
        match event {
            Event::Ask { block, .. } => Ok(self.ask_reply(block)),
            Event::Poll { serial, now } => Ok(self.poll_reply(who, serial, now)),
            Event::Cancel { serial } => Ok(self.cancel_reply(who, serial)),
            Event::Claim { .. } => Ok(self.unless_failed(Reply::Claimed)),
            Event::PutData { index, digest, .. } => {
                Ok(self.unless_failed(self.put_reply(index, digest)))
            }
            Event::PutPlace { window, index } => {
                Ok(self.unless_failed(self.place_reply(window, index)))
            }
            Event::Settle { .. } => Ok(self.unless_failed(Reply::Settled)),
            Event::Gate { window, index } => {
                Ok(self.unless_failed(self.gate_reply(window, index)))
            }
            Event::Release { .. } => Ok(Reply::Released),
            Event::TakePending { after, max } => self.take_reply(alloc, after, max),
            Event::SetTimes { uid, .. } => Ok(self.times_reply(uid)),
            Event::Ranges { start, end, room } => self.ranges_reply(alloc, start, end, room),
            Event::Count => Ok(self.count_reply()),
            Event::Leave => Ok(Reply::Left {
                readers: self.readers.saturating_sub(1),
            }),
        }
    }
}
