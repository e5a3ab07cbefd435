// The state of one file as plain vectors, and what each event changes of it. Room is taken first, so that an event happens whole or not.
ghost use Rattle.std.specs.Prelude.{◌≡◌, ◌+◌, ◌-◌, ◌^◌, ◌<◌, ◌≤◌, ◌++◌, [], ◌∷◌, map, length, Some, All, OnOk, OnErr, vec_len, vec_capacity};
ghost use Rattle.inc_pending.specs.Keyed.{insert};
ghost use Rattle.inc_pending.specs.Polling.{AreRising};
ghost use Rattle.inc_model.specs.relation.State.{all_places, fly, land, claim, spend, unclaim};
ghost use Rattle.inc_model.specs.relation.Stages.{written, placed};
ghost use Rattle.inc_model.specs.executed.IndexLists.{opening_over};
ghost use Rattle.inc_model.specs.relation.Changes.{with_read, without_read, broken_off, synced, begins, opens, with_faults};

use crate::state_lists::claims::{claim_in_room, drop_claim, use_place};
use crate::state_lists::flight::{
    acknowledge_rows, fly_in_room, land_window, settle_rows, stage_to,
};
use crate::state_lists::keyed::{put_in_room, times_at};
use crate::{
    Digest32, FileState, FlightRow, Id, IndexRows, Indices, MOST_ENTRIES, OutOfMemory, ReadRow,
    Rows, Stage, Times, Window,
};
use inc_pending::{DEFAULT_TIMES, asked_read, drop_read, mark_reads};
use std::alloc::Global;
use std::marker::Model;

pub(crate) mod copies;
mod lookups;
pub(crate) mod places;
mod reply_table;
mod state_changes;

/// The state of one file, over the indices in one form or the other.
#[derive(Drop)]
pub struct FileCore<I: Indices> {
    pub(crate) id: Id,
    pub(crate) root: Option<Digest32>,
    pub(crate) indices: I,
    pub(crate) damaged: Vec<u32>,
    pub(crate) compressed: Vec<u32>,
    pub(crate) reads: Vec<ReadRow>,
    pub(crate) next: u32,
    pub(crate) times: Vec<(u32, Times)>,
    pub(crate) flight: Vec<FlightRow>,
    pub(crate) claimed: Vec<(Window, u32)>,
    pub(crate) faults: u64,
    pub(crate) failed: Option<u64>,
    pub(crate) readers: u32,
}

impl<I: Indices> Model for FileCore<I> {
    ghost use Rattle.std.specs.Prelude.{◌-◌, min, vec_len, vec_capacity};
    ghost use Rattle.inc_model.specs.executed.CoreState.{CoreState};

    ghost Value = { CoreState };

    ghost view = { λ c. record {
      state = record {
        id = c.id;
        n = (I.lists c.indices).n;
        m = (I.lists c.indices).m;
        root = c.root;
        map = (I.lists c.indices).map;
        damaged = c.damaged.items;
        compressed = c.compressed.items;
        reads = c.reads.items;
        next = c.next;
        times = c.times.items;
        flight = c.flight.items;
        claimed = c.claimed.items;
        begun = (I.lists c.indices).begun;
        acknowledged = (I.lists c.indices).acknowledged;
        faults = c.faults;
        failed = c.failed;
        readers = c.readers;
      };
      room = min (vec_capacity c.flight - vec_len c.flight) (I.room c.indices - vec_len c.flight);
    } };
}

impl FileCore<IndexRows> {
    /// It takes no memory.
    pub fn new(state: FileState) -> FileCore<IndexRows>
        ensures value { result.state ≡ state }
    {
        let FileState {
            id,
            n,
            m,
            root,
            map,
            damaged,
            compressed,
            reads,
            next,
            times,
            flight,
            claimed,
            begun,
            acknowledged,
            faults,
            failed,
            readers,
        } = state;
        FileCore {
            id,
            root,
            indices: IndexRows {
                n,
                m,
                map: map.into_vec(),
                begun: begun.into_vec(),
                acknowledged: acknowledged.into_vec(),
            },
            damaged: damaged.into_vec(),
            compressed: compressed.into_vec(),
            reads: reads.into_vec(),
            next,
            times: times.into_vec(),
            flight: flight.into_vec(),
            claimed: claimed.into_vec(),
            faults,
            failed,
            readers,
        }
    }

    /// It takes no memory.
    pub fn into_state(self) -> FileState
        ensures value { result ≡ self.state }
    {
        let FileCore {
            id,
            root,
            indices,
            damaged,
            compressed,
            reads,
            next,
            times,
            flight,
            claimed,
            faults,
            failed,
            readers,
        } = self;
        let IndexRows {
            n,
            m,
            map,
            begun,
            acknowledged,
        } = indices;
        FileState {
            id,
            n,
            m,
            root,
            map: Rows::from_vec(map),
            damaged: Rows::from_vec(damaged),
            compressed: Rows::from_vec(compressed),
            reads: Rows::from_vec(reads),
            next,
            times: Rows::from_vec(times),
            flight: Rows::from_vec(flight),
            claimed: Rows::from_vec(claimed),
            begun: Rows::from_vec(begun),
            acknowledged: Rows::from_vec(acknowledged),
            faults,
            failed,
            readers,
        }
    }
}

impl<I: Indices> FileCore<I> {
    /// A file as it is opened. It takes no memory.
    pub fn over(
        alloc: Global,
        id: Id,
        root: Option<Digest32>,
        indices: I,
        damaged: Vec<u32>,
        compressed: Vec<u32>,
        faults: u64,
        readers: u32,
    ) -> FileCore<I>
        ensures value { result.state ≡ opening_over id root (I.lists indices) damaged.items compressed.items faults readers }
    {
        FileCore {
            id,
            root,
            indices,
            damaged,
            compressed,
            reads: Vec::new(alloc),
            next: 1,
            times: Vec::new(alloc),
            flight: Vec::new(alloc),
            claimed: Vec::new(alloc),
            faults,
            failed: None,
            readers,
        }
    }

    /// The device's count of faults, as a call that failed told it.
    pub fn count_faults(&mut self, count: u64)
        ensures state { self.new.state ≡ with_faults count self.old.state }
        ensures room { self.old.room ≤ self.new.room }
    {
        self.faults = count;
    }

    /// Ends all fills: a write or sync failed, in the entry at this position.
    pub fn break_off(&mut self, at: u64, count: u64)
        ensures state { self.new.state ≡ broken_off at count self.old.state }
        ensures room { self.old.room ≤ self.new.room }
    {
        self.faults = count;
        if self.failed.is_none() {
            self.failed = Some(at);
        }
    }

    /// Adds a read.
    pub fn ask(&mut self, who: u32, block: u32, uid: u32, now: u64) -> Result<(), OutOfMemory>
        requires serials { self.old.state.next + 1 < 2 ^ 32 }
        ensures ok { OnOk result (self.new.state ≡ with_read self.old.state who block uid now) }
        ensures err { OnErr result (self.new.state ≡ self.old.state) }
        ensures room { self.old.room ≤ self.new.room }
    {
        let present = self.indices.digest_of(block).is_some();
        let times = times_at(self.times.as_slice(), uid).unwrap_or(DEFAULT_TIMES);
        self.reads.push(asked_read(self.next, who, block, present, uid, now, times))?;
        self.next += 1;
        Ok(())
    }

    pub fn forget_read(&mut self, who: u32, serial: u32)
        requires rising { AreRising self.old.state.reads }
        ensures state { self.new.state ≡ without_read who serial self.old.state }
        ensures room { self.old.room ≤ self.new.room }
    {
        drop_read(&mut self.reads, who, serial);
    }

    /// A block's bytes are written.
    pub fn write(&mut self, window: Window, index: u32, digest: Digest32) -> Result<(), OutOfMemory>
        ensures ok { OnOk result (self.new.state ≡ record self.old.state { flight = fly (written window index digest) self.old.state.flight }) }
        ensures err { OnErr result (self.new.state ≡ self.old.state) }
        ensures room { self.old.room ≤ self.new.room + 1 }
        ensures memory { OnErr result (self.old.room ≡ 0) }
    {
        self.flight.reserve(1)?;
        let row = FlightRow {
            window,
            index,
            digest,
            stage: Stage::Written,
        };
        fly_in_room(&mut self.flight, row);
        Ok(())
    }

    /// A block's place is written.
    pub fn place(&mut self, index: u32)
        ensures state { self.new.state ≡ record self.old.state { flight = placed index self.old.state.flight } }
        ensures room { self.old.room ≤ self.new.room }
    {
        stage_to(&mut self.flight, index, Stage::Placed);
    }

    /// What was written is durable.
    pub fn sync(&mut self) -> Result<(), OutOfMemory>
        requires within { All (λ row. row.index < self.old.state.n + self.old.state.m) self.old.state.flight }
        ensures ok { OnOk result (self.new.state ≡ synced self.old.state) }
        ensures err { OnErr result (self.new.state ≡ self.old.state) }
        ensures room { self.old.room ≤ self.new.room }
        ensures memory { OnErr result (self.old.room ≡ 0) }
    {
        self.indices.reserve(self.flight.len())?;
        acknowledge_rows(self.flight.as_slice(), &mut self.indices);
        settle_rows(&mut self.flight);
        Ok(())
    }

    /// A gate write began.
    pub fn begin(&mut self, index: u32, digest: Digest32) -> Result<(), OutOfMemory>
        requires within { index < self.old.state.n + self.old.state.m }
        requires alone { I.can_begin self.old.state.map index digest }
        ensures ok { OnOk result (self.new.state ≡ begins index digest self.old.state) }
        ensures err { OnErr result (self.new.state ≡ self.old.state) }
        ensures room { self.old.room ≤ self.new.room + 1 }
        ensures memory { OnErr result (self.old.room ≡ 0) }
    {
        self.indices.reserve(1)?;
        self.indices.begin(index, digest);
        Ok(())
    }

    /// Opens an entry, and makes exactly its reads done.
    pub fn open(&mut self, index: u32, digest: Digest32) -> Result<(), OutOfMemory>
        requires few { length self.old.state.reads < 2 ^ 32 }
        requires within { index < self.old.state.n + self.old.state.m }
        ensures ok { OnOk result (self.new.state ≡ opens index digest self.old.state) }
        ensures err { OnErr result (self.new.state ≡ self.old.state) }
        ensures room { self.old.room ≤ self.new.room + 1 }
        ensures memory { OnErr result (self.old.room ≡ 0) }
    {
        self.indices.reserve(1)?;
        self.indices.open(index, digest);
        mark_reads(&mut self.reads, index);
        stage_to(&mut self.flight, index, Stage::Gated);
        Ok(())
    }

    /// A window's rows leave the flight.
    pub fn land(&mut self, window: Window)
        ensures state { self.new.state ≡ record self.old.state { flight = land window self.old.state.flight } }
        ensures room { self.old.room ≤ self.new.room }
    {
        land_window(&mut self.flight, window);
    }

    pub fn set_times(&mut self, uid: u32, times: Times) -> Result<(), OutOfMemory>
        ensures ok { OnOk result (self.new.state ≡ record self.old.state { times = insert uid times self.old.state.times }) }
        ensures err { OnErr result (self.new.state ≡ self.old.state) }
        ensures room { self.old.room ≤ self.new.room }
    {
        self.times.reserve(1)?;
        put_in_room(&mut self.times, uid, times);
        Ok(())
    }

    pub fn set_readers(&mut self, readers: u32)
        ensures state { self.new.state ≡ record self.old.state { readers = readers } }
        ensures room { self.old.room ≤ self.new.room }
    {
        self.readers = readers;
    }

    /// Gives a window so many places more.
    pub fn claim(&mut self, window: Window, places: u32) -> Result<(), OutOfMemory>
        requires few { all_places self.old.state.claimed + places ≤ MOST_ENTRIES }
        ensures ok { OnOk result (self.new.state ≡ record self.old.state { claimed = claim window places self.old.state.claimed }) }
        ensures err { OnErr result (self.new.state ≡ self.old.state) }
        ensures room { self.old.room ≤ self.new.room }
    {
        self.claimed.reserve(1)?;
        claim_in_room(&mut self.claimed, window, places);
        Ok(())
    }

    /// Uses one of a window's places.
    pub fn spend(&mut self, window: Window)
        ensures state { self.new.state ≡ record self.old.state { claimed = spend window self.old.state.claimed } }
        ensures room { self.old.room ≤ self.new.room }
    {
        use_place(&mut self.claimed, window);
    }

    pub fn unclaim(&mut self, window: Window)
        ensures state { self.new.state ≡ record self.old.state { claimed = unclaim window self.old.state.claimed } }
        ensures room { self.old.room ≤ self.new.room }
    {
        drop_claim(&mut self.claimed, window);
    }

    /// Takes room for so many more events of fills.
    pub fn make_room(&mut self, places: usize) -> Result<(), OutOfMemory>
        ensures state { self.new.state ≡ self.old.state }
        ensures room { self.old.room ≤ self.new.room }
        ensures ok { OnOk result (places ≤ self.new.room) }
        ensures memory { OnErr result (self.old.room < places) }
    {
        if places == 0 {
            return Ok(());
        }
        self.flight.reserve(places)?;
        // The rows in flight and so many more are no more than there is room for, so that their sum fits.
        let _most = self.flight.capacity();
        self.indices.reserve(self.flight.len() + places)?;
        Ok(())
    }
}
