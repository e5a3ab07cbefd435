// What each entry changes of the state.
ghost use Rattle.std.specs.Prelude.{◌≡◌, ◌+◌, ◌^◌, ◌<◌, ◌≤◌, length, Some, All, OnOk, OnErr};
ghost use Rattle.inc_pending.specs.Polling.{AreRising};
ghost use Rattle.inc_model.specs.relation.State.{flight_row, all_places};
ghost use Rattle.inc_model.specs.relation.Changes.{ask_change, poll_change, cancel_change, put_data_change, put_place_change, settle_change, gate_row_change, gate_change, release_change, times_change, leave_change, claim_change, change};
ghost use Rattle.inc_model.specs.relation.Step.{HasRoom};
ghost use Rattle.inc_model.specs.executed.CoreFacts.{IsWorkable};
ghost use Rattle.inc_model.specs.executed.CoreState.{MayBeginNow, MayBeginBy, MayBegin, MayWantMemory};

use crate::file_core::FileCore;
use crate::state_lists::flight::find_row;
use crate::{Digest32, Event, Indices, MOST_ENTRIES, OutOfMemory, Reply, Times, Window};

impl<I: Indices> FileCore<I> {
    fn change_reads(
        &mut self,
        who: u32,
        block: u32,
        uid: u32,
        now: u64,
        reply: &Reply,
    ) -> Result<(), OutOfMemory>
        requires serials { self.old.state.next + 1 < 2 ^ 32 }
        ensures ok { OnOk result (self.new.state ≡ ask_change self.old.state who block uid now reply.now) }
        ensures err { OnErr result (self.new.state ≡ self.old.state) }
        ensures room { self.old.room ≤ self.new.room }
    {
        match reply {
            Reply::Asked { .. } => self.ask(who, block, uid, now),
            _ => Ok(()),
        }
    }

    fn change_polled(&mut self, who: u32, serial: u32, reply: &Reply)
        requires rising { AreRising self.old.state.reads }
        ensures state { self.new.state ≡ poll_change self.old.state who serial reply.now }
        ensures room { self.old.room ≤ self.new.room }
    {
        match reply {
            Reply::NoPath { .. } | Reply::Handed { .. } | Reply::TimedOut { .. } => {
                self.forget_read(who, serial);
            }
            Reply::Fault { count } => self.count_faults(*count),
            _ => {}
        }
    }

    fn change_cancelled(&mut self, who: u32, serial: u32, reply: &Reply)
        requires rising { AreRising self.old.state.reads }
        ensures state { self.new.state ≡ cancel_change self.old.state who serial reply.now }
        ensures room { self.old.room ≤ self.new.room }
    {
        match reply {
            Reply::Cancelled => self.forget_read(who, serial),
            _ => {}
        }
    }

    fn change_claimed(
        &mut self,
        window: Window,
        places: u32,
        reply: &Reply,
    ) -> Result<(), OutOfMemory>
        requires few { all_places self.old.state.claimed + places ≤ MOST_ENTRIES }
        ensures ok { OnOk result (self.new.state ≡ record self.old.state { claimed = claim_change self.old.state.claimed window places reply.now }) }
        ensures err { OnErr result (self.new.state ≡ self.old.state) }
        ensures room { self.old.room ≤ self.new.room }
    {
        match reply {
            Reply::Claimed => self.claim(window, places),
            _ => Ok(()),
        }
    }

    fn change_written(
        &mut self,
        at: u64,
        window: Window,
        index: u32,
        digest: Digest32,
        reply: &Reply,
    ) -> Result<(), OutOfMemory>
        ensures ok { OnOk result (self.new.state ≡ put_data_change at self.old.state window index digest reply.now) }
        ensures err { OnErr result (self.new.state ≡ self.old.state) }
        ensures room { self.old.room ≤ self.new.room + 1 }
        ensures kept { OnErr result (self.old.room ≤ self.new.room) }
        ensures memory { OnErr result (self.old.room ≡ 0) }
    {
        match reply {
            Reply::Put { .. } => self.write(window, index, digest),
            Reply::Fault { count } => {
                self.break_off(at, *count);
                Ok(())
            }
            _ => Ok(()),
        }
    }

    fn change_placed(&mut self, at: u64, index: u32, reply: &Reply)
        ensures state { self.new.state ≡ put_place_change at self.old.state index reply.now }
        ensures room { self.old.room ≤ self.new.room }
    {
        match reply {
            Reply::Placed => self.place(index),
            Reply::Fault { count } => self.break_off(at, *count),
            _ => {}
        }
    }

    fn change_settled(&mut self, at: u64, reply: &Reply) -> Result<(), OutOfMemory>
        requires within { All (λ row. row.index < self.old.state.n + self.old.state.m) self.old.state.flight }
        ensures ok { OnOk result (self.new.state ≡ settle_change at self.old.state reply.now) }
        ensures err { OnErr result (self.new.state ≡ self.old.state) }
        ensures room { self.old.room ≤ self.new.room }
        ensures memory { OnErr result (self.old.room ≡ 0) }
    {
        match reply {
            Reply::Settled => self.sync(),
            Reply::Fault { count } => {
                self.break_off(at, *count);
                Ok(())
            }
            _ => Ok(()),
        }
    }

    fn change_gated_row(
        &mut self,
        at: u64,
        index: u32,
        digest: Digest32,
        reply: &Reply,
    ) -> Result<(), OutOfMemory>
        requires few { length self.old.state.reads < 2 ^ 32 }
        requires within { index < self.old.state.n + self.old.state.m }
        requires alone { MayBeginNow (I.can_begin self.old.state.map index digest) reply.now }
        ensures ok { OnOk result (self.new.state ≡ gate_row_change at self.old.state index digest reply.now) }
        ensures err { OnErr result (self.new.state ≡ self.old.state) }
        ensures room { self.old.room ≤ self.new.room + 1 }
        ensures kept { OnErr result (self.old.room ≤ self.new.room) }
        ensures memory { OnErr result (self.old.room ≡ 0) }
    {
        match reply {
            Reply::Gated { .. } => self.open(index, digest),
            Reply::Fault { count } => {
                self.begin(index, digest)?;
                self.break_off(at, *count);
                Ok(())
            }
            _ => Ok(()),
        }
    }

    /// The digest that a gate opens is that of the index in flight.
    fn change_gated(&mut self, at: u64, index: u32, reply: &Reply) -> Result<(), OutOfMemory>
        requires few { length self.old.state.reads < 2 ^ 32 }
        requires within { All (λ row. row.index < self.old.state.n + self.old.state.m) self.old.state.flight }
        requires alone { MayBeginBy I.can_begin self.old.state.map index (flight_row index self.old.state.flight) reply.now }
        ensures ok { OnOk result (self.new.state ≡ gate_change at self.old.state index (flight_row index self.old.state.flight) reply.now) }
        ensures err { OnErr result (self.new.state ≡ self.old.state) }
        ensures room { self.old.room ≤ self.new.room + 1 }
        ensures kept { OnErr result (self.old.room ≤ self.new.room) }
        ensures memory { OnErr result (self.old.room ≡ 0) }
    {
        match find_row(self.flight.as_slice(), index) {
            Some(row) => self.change_gated_row(at, index, row.digest, reply),
            None => Ok(()),
        }
    }

    fn change_times(&mut self, uid: u32, times: Times, reply: &Reply) -> Result<(), OutOfMemory>
        ensures ok { OnOk result (self.new.state ≡ times_change self.old.state uid times reply.now) }
        ensures err { OnErr result (self.new.state ≡ self.old.state) }
        ensures room { self.old.room ≤ self.new.room }
    {
        match reply {
            Reply::TimesSet => self.set_times(uid, times),
            _ => Ok(()),
        }
    }

    fn change_readers(&mut self, reply: &Reply)
        ensures state { self.new.state ≡ leave_change self.old.state reply.now }
        ensures room { self.old.room ≤ self.new.room }
    {
        match reply {
            Reply::Left { readers } => self.set_readers(*readers),
            _ => {}
        }
    }

    /// Changes the state by an entry before which so many stand.
    #[tactic(auto, using(crate::proofs::unchanged::Claims::written_claims, crate::proofs::unchanged::Claims::placed_claims, crate::proofs::unchanged::Claims::settled_claims, crate::proofs::unchanged::Claims::gated_claims, crate::proofs::unchanged::Claims::asked_claims, crate::proofs::unchanged::Claims::polled_claims, crate::proofs::unchanged::Claims::cancelled_claims, crate::proofs::unchanged::Claims::times_claims, crate::proofs::unchanged::Claims::left_claims))]
    pub fn apply(
        &mut self,
        at: u64,
        who: u32,
        event: Event,
        reply: &Reply,
    ) -> Result<(), OutOfMemory>
        requires works { IsWorkable self.old.state }
        requires room { HasRoom at self.old.state event }
        requires serials { self.old.state.next + 1 < 2 ^ 32 }
        requires alone { MayBegin I.can_begin self.old.state event reply.now }
        ensures ok { OnOk result (self.new.state ≡ change at self.old.state who event reply.now) }
        ensures err { OnErr result (self.new.state ≡ self.old.state) }
        ensures room { self.old.room ≤ self.new.room + 1 }
        ensures kept { OnErr result (self.old.room ≤ self.new.room) }
        ensures memory { OnErr result (MayWantMemory event self.old.room) }
    {
        match event {
            Event::Ask { block, uid, now } => self.change_reads(who, block, uid, now, reply),
            Event::Poll { serial, .. } => {
                self.change_polled(who, serial, reply);
                Ok(())
            }
            Event::Cancel { serial } => {
                self.change_cancelled(who, serial, reply);
                Ok(())
            }
            Event::Claim { window, places } => self.change_claimed(window, places, reply),
            Event::PutData {
                window,
                index,
                digest,
            } => {
                self.change_written(at, window, index, digest, reply)?;
                self.spend(window);
                Ok(())
            }
            Event::PutPlace { window, index } => {
                self.change_placed(at, index, reply);
                self.spend(window);
                Ok(())
            }
            Event::Settle { window } => {
                self.change_settled(at, reply)?;
                self.spend(window);
                Ok(())
            }
            Event::Gate { window, index } => {
                self.change_gated(at, index, reply)?;
                self.spend(window);
                Ok(())
            }
            Event::Release { window } => {
                self.land(window);
                self.unclaim(window);
                Ok(())
            }
            Event::SetTimes { uid, t } => self.change_times(uid, t, reply),
            Event::Leave => {
                self.change_readers(reply);
                Ok(())
            }
            Event::TakePending { .. } | Event::Ranges { .. } | Event::Count => Ok(()),
        }
    }
}
