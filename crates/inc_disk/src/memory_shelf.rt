ghost use Rattle.std.specs.Prelude.{◌≡◌, ◌==◌, ◌+◌, ◌-◌, ◌^◌, ◌<◌, ◌≤◌, ◌++◌, [], ◌∷◌, length, min, not, is_some, OnOk, OnErr, IfOk, IfSome, IsNone, IsTrue, Some, false, refl};
ghost use Rattle.std.specs.FinMap.{get, keys};
ghost use Rattle.std.specs.List.{list_any};
ghost use Rattle.std.specs.Option.{option_copied, option_to_list};
ghost use Rattle.std.specs.Str.{bytes_eq};
ghost use Rattle.inc_io.specs.Causes.{HasCauseAt, Joins};
ghost use Rattle.inc_io.specs.Names.{without};
ghost use Rattle.inc_io.specs.Outside.{IsIn, IsOut, LendsName};
ghost use Rattle.inc_io.specs.declared.failed.LendFault.TheVariants.{Failed as lend_failed};
ghost use Rattle.inc_disk.specs.Disk.{Now, reads_of, settled};
ghost use Rattle.inc_disk.specs.Log.{Creates, KeepsUnlessLent, contents_of, entries_of, newest_of};
ghost use Rattle.inc_disk.specs.Book.{IsFresh, is_failed, log_of};

use crate::book::Book;
use crate::entry::Entry;
use crate::history::History;
use crate::newest::{names_of, newest};
use crate::shelf_log::ShelfLog;
use crate::state::State;
use crate::{MemDisk, OutOfMemory, Shelf};
use inc_io::{
    Backing, Bytes, LendFault, Name, NameList, ReadShelf, Schedule, has_name, remove_name,
};
use std::alloc::Global;

/// A shelf in memory, for tests. It lends copies, so its files stay while they are out.
#[derive(Drop)]
pub struct MemShelf {
    alloc: Global,
    book: Book,
    out: NameList,
    room: u64,
    calls: u32,
    schedule: Schedule,
    ghost reserved: { length out ≤ book.free },
}

impl MemShelf {
    /// An empty shelf. Each disk that it lends fails past `room` bytes and past so many calls.
    pub fn new(alloc: Global, room: u64, calls: u32) -> MemShelf
        ensures empty { log_of result.book.entries.items ≡ [] }
        ensures none_out { result.out ≡ [] }
        ensures limits { (result.room ≡ room) × (result.calls ≡ calls) }
        ensures failing { result.schedule.failing.items ≡ [] }
        ensures begun { (result.schedule.made ≡ 0) × (result.schedule.faults ≡ 0) }
    {
        MemShelf {
            alloc,
            book: Book::new(alloc),
            out: NameList::new(alloc),
            room,
            calls,
            schedule: Schedule::new(Vec::new(alloc)),
        }
    }

    /// Puts a file on the shelf, all of it synced, in place of the one with its name.
    #[tactic(auto, using(crate::proofs::LogLemmas::log_push))]
    pub fn put(&mut self, name: Name, bytes: Bytes) -> Result<(), OutOfMemory>
        ensures ok { OnOk result (log_of self.new.book.entries.items ≡ (name, settled bytes) ∷ log_of self.old.book.entries.items) }
        ensures err { OnErr result (log_of self.new.book.entries.items ≡ log_of self.old.book.entries.items) }
        ensures same_out { self.new.out ≡ self.old.out }
        ensures same_limits { (self.new.room ≡ self.old.room) × (self.new.calls ≡ self.old.calls) }
        ensures same_schedule { self.new.schedule ≡ self.old.schedule }
    {
        self.book.hold()?;
        let history = History::of(self.alloc, State::settled(self.alloc, bytes));
        self.book.add(Entry { name, history });
        Ok(())
    }

    /// What a file that is there and not lent reads as.
    pub fn bytes(&self, name: &Name) -> Option<&[u8]>
        ensures out { IsTrue (list_any (bytes_eq name.now) self.now.out) → IsNone result }
        ensures value { list_any (bytes_eq name.now) self.now.out ≡ false
            → option_copied result ≡ get (contents_of (log_of self.now.book.entries.items)) name.now }
    {
        if has_name(self.out.as_slice(), name) {
            return None;
        }
        match newest(self.book.entries.as_slice(), name.as_str()) {
            Some(state) => Some(state.reads()),
            None => None,
        }
    }

    /// Makes the shelf's own calls with these numbers fail: `names`, `open_read`, `open_disk` and `create_disk` count together, from 0,
    /// from the shelf's beginning.
    pub fn fail(&mut self, calls: Vec<u64>)
        ensures value { self.new ≡ record self.old { schedule = record self.old.schedule { failing = calls } } }
    {
        self.schedule.failing = calls;
    }

    /// How often a call has failed, those of disks that came back among them.
    pub fn faults(&self) -> u64
        ensures value { result ≡ self.now.schedule.faults }
    {
        self.schedule.faults
    }

    /// A disk that begins in this state.
    fn disk(&self, state: State) -> MemDisk
        ensures states { result.history ≡ state ∷ [] }
        ensures faults { result.schedule.faults ≡ 0 }
        ensures fresh { IsFresh self.now.room self.now.calls result }
    {
        let limit = Some(u64::from(self.calls));
        let schedule = Schedule::new(Vec::new(self.alloc));
        MemDisk::of(self.alloc, state, self.room, limit, schedule)
    }

    /// Notes that a name is out, and holds room for what will be given back.
    fn take_out(&mut self, name: &Name) -> Result<(), OutOfMemory>
        ensures ok { OnOk result (self.new.out ≡ self.old.out ++ name.now ∷ []) }
        ensures err { OnErr result (self.new.out ≡ self.old.out) }
        ensures held { OnOk result (self.new.book.free ≡ self.old.book.free + 1) }
        ensures kept { self.new.book.entries.items ≡ self.old.book.entries.items }
        ensures same_limits { (self.new.room ≡ self.old.room) × (self.new.calls ≡ self.old.calls) }
        ensures same_schedule { self.new.schedule ≡ self.old.schedule }
    {
        self.book.hold()?;
        self.out.push(name.copy(self.alloc)?)?;
        Ok(())
    }

    /// Lends a copy of a file in its newest state.
    fn lend(&mut self, name: &Name) -> Result<Option<MemDisk>, OutOfMemory>
        ensures found { IfOk result (λ lent. is_some lent ≡ is_some (newest_of name.now (log_of self.old.book.entries.items))) }
        ensures states { IfOk result (λ lent. IfSome lent (λ disk.
            disk.history ≡ option_to_list (newest_of name.now (log_of self.old.book.entries.items)))) }
        ensures faults { IfOk result (λ lent. IfSome lent (λ disk. disk.schedule.faults ≡ 0)) }
        ensures fresh { IfOk result (λ lent. IfSome lent (λ disk. IsFresh self.old.room self.old.calls disk)) }
        ensures lends { LendsName name.now (Some self.old.out) (Some self.new.out) result }
        ensures kept { self.new.book.entries.items ≡ self.old.book.entries.items }
        ensures same_limits { (self.new.room ≡ self.old.room) × (self.new.calls ≡ self.old.calls) }
        ensures same_schedule { self.new.schedule ≡ self.old.schedule }
    {
        let Some(state) = newest(self.book.entries.as_slice(), name.as_str()) else {
            return Ok(None);
        };
        let state = state.copy(self.alloc)?;
        self.take_out(name)?;
        Ok(Some(self.disk(state)))
    }

    /// Lends a new, empty file, where there is none.
    #[tactic(auto, using(crate::proofs::LogLemmas::log_push))]
    fn create(&mut self, name: &Name) -> Result<Option<MemDisk>, OutOfMemory>
        ensures found { IfOk result (λ lent. is_some lent ≡ not (is_some (newest_of name.now (log_of self.old.book.entries.items)))) }
        ensures states { IfOk result (λ lent. IfSome lent (λ disk. disk.history ≡ settled [] ∷ [])) }
        ensures created { Creates name.now (Some (log_of self.old.book.entries.items)) (Some (log_of self.new.book.entries.items)) result }
        ensures faults { IfOk result (λ lent. IfSome lent (λ disk. disk.schedule.faults ≡ 0)) }
        ensures fresh { IfOk result (λ lent. IfSome lent (λ disk. IsFresh self.old.room self.old.calls disk)) }
        ensures lends { LendsName name.now (Some self.old.out) (Some self.new.out) result }
        ensures same_limits { (self.new.room ≡ self.old.room) × (self.new.calls ≡ self.old.calls) }
        ensures same_schedule { self.new.schedule ≡ self.old.schedule }
    {
        if newest(self.book.entries.as_slice(), name.as_str()).is_some() {
            return Ok(None);
        }
        let own = name.copy(self.alloc)?;
        self.book.hold()?;
        self.take_out(name)?;
        let history = History::of(self.alloc, empty(self.alloc));
        self.book.add(Entry { name: own, history });
        Ok(Some(self.disk(empty(self.alloc))))
    }

    /// Notes that a name is back, with so many faults, and gives the name that was kept.
    #[tactic(auto, using(crate::proofs::NamesLemmas::one_less, crate::proofs::NamesLemmas::length_without))]
    fn take_back(&mut self, name: &Name, faults: u64) -> Option<Name>
        ensures returned { self.new.out ≡ without name.now self.old.out }
        ensures found { is_some result ≡ list_any (bytes_eq name.now) self.old.out }
        ensures same { IfSome result (λ own. own ≡ name.now) }
        ensures held { IfSome result (λ own. length self.new.out < self.new.book.free) }
        ensures kept { self.new.book ≡ self.old.book }
        ensures cause { Joins self.old.schedule.faults faults self.new.schedule.faults }
        ensures same_failing { self.new.schedule.failing.items ≡ self.old.schedule.failing.items }
        ensures same_made { self.new.schedule.made ≡ self.old.schedule.made }
        ensures same_limits { (self.new.room ≡ self.old.room) × (self.new.calls ≡ self.old.calls) }
    {
        self.schedule.faults = self.schedule.faults.saturating_add(faults);
        remove_name(&mut self.out, name)
    }
}

impl ReadShelf for MemShelf {
    type File = MemDisk;

    type Kept = ShelfLog;

    ghost kept = { λ shelf. log_of shelf.book.entries.items };

    ghost contents = { λ log. Some (contents_of log) };

    ghost out = { λ shelf. Some shelf.out };

    ghost faults = { λ shelf. shelf.schedule.faults };

    fn names(&mut self) -> Result<NameList, LendFault>
        ensures told { IfOk result (λ names. names ≡ keys (contents_of (log_of self.old.book.entries.items))) }
        ensures kept { log_of self.new.book.entries.items ≡ log_of self.old.book.entries.items }
        ensures same_out { Some self.new.out ≡ Some self.old.out }
        ensures cause { HasCauseAt lend_failed self.old.schedule.faults self.new.schedule.faults result }

        // It fails exactly at the calls that are to fail.
        ensures fails { is_failed result ≡ list_any (λ number. number == self.old.schedule.made) self.old.schedule.failing.items }
        ensures counted { self.new.schedule.made ≡ min (self.old.schedule.made + 1) (2 ^ 64 - 1) }
        ensures same_failing { self.new.schedule.failing.items ≡ self.old.schedule.failing.items }
        ensures same_limits { (self.new.room ≡ self.old.room) × (self.new.calls ≡ self.old.calls) }
    {
        self.schedule.call()?;
        Ok(names_of(self.alloc, self.book.entries.as_slice())?)
    }

    fn open_read(&mut self, name: &Name) -> Result<Option<MemDisk>, LendFault>
        requires { IsIn name.now (Some self.old.out) }
        ensures found { IfOk result (λ lent. is_some lent ≡ is_some (get (contents_of (log_of self.old.book.entries.items)) name.now)) }
        ensures reads { IfOk result (λ lent. IfSome lent (λ disk.
            reads_of disk.history ≡ get (contents_of (log_of self.old.book.entries.items)) name.now)) }
        ensures fresh { IfOk result (λ lent. IfSome lent (λ disk. disk.schedule.faults ≡ 0)) }
        ensures lends { LendsName name.now (Some self.old.out) (Some self.new.out) result }
        ensures kept { log_of self.new.book.entries.items ≡ log_of self.old.book.entries.items }
        ensures cause { HasCauseAt lend_failed self.old.schedule.faults self.new.schedule.faults result }

        // The disk has the name's newest state. The call fails exactly where it is to fail.
        ensures states { IfOk result (λ lent. IfSome lent (λ disk.
            disk.history ≡ option_to_list (newest_of name.now (log_of self.old.book.entries.items)))) }
        ensures limits { IfOk result (λ lent. IfSome lent (λ disk. IsFresh self.old.room self.old.calls disk)) }
        ensures fails { is_failed result ≡ list_any (λ number. number == self.old.schedule.made) self.old.schedule.failing.items }
        ensures counted { self.new.schedule.made ≡ min (self.old.schedule.made + 1) (2 ^ 64 - 1) }
        ensures same_failing { self.new.schedule.failing.items ≡ self.old.schedule.failing.items }
        ensures same_limits { (self.new.room ≡ self.old.room) × (self.new.calls ≡ self.old.calls) }
    {
        self.schedule.call()?;
        Ok(self.lend(name)?)
    }

    fn close_read(&mut self, name: &Name, file: MemDisk)
        requires { IsOut name.now (Some self.old.out) }
        ensures returned { Some self.new.out ≡ Some (without name.now self.old.out) }
        ensures kept { log_of self.new.book.entries.items ≡ log_of self.old.book.entries.items }
        ensures cause { Joins self.old.schedule.faults file.schedule.faults self.new.schedule.faults }
        ensures same_failing { self.new.schedule.failing.items ≡ self.old.schedule.failing.items }
        ensures same_made { self.new.schedule.made ≡ self.old.schedule.made }
        ensures same_limits { (self.new.room ≡ self.old.room) × (self.new.calls ≡ self.old.calls) }
    {
        let _ = self.take_back(name, file.fault_count());
    }
}

impl Shelf for MemShelf {
    type Disk = MemDisk;

    ghost log = { λ log. Some log };

    ghost contents_now = { λ log. refl };

    fn open_disk(&mut self, name: &Name) -> Result<Option<MemDisk>, LendFault>
        requires { IsIn name.now (Some self.old.out) }
        ensures found { IfOk result (λ lent. is_some lent ≡ is_some (newest_of name.now (log_of self.old.book.entries.items))) }
        ensures states { IfOk result (λ lent. IfSome lent (λ disk.
            disk.history ≡ option_to_list (newest_of name.now (log_of self.old.book.entries.items)))) }
        ensures fresh { IfOk result (λ lent. IfSome lent (λ disk. disk.schedule.faults ≡ 0)) }
        ensures lends { LendsName name.now (Some self.old.out) (Some self.new.out) result }
        ensures kept { log_of self.new.book.entries.items ≡ log_of self.old.book.entries.items }
        ensures cause { HasCauseAt lend_failed self.old.schedule.faults self.new.schedule.faults result }
        ensures limits { IfOk result (λ lent. IfSome lent (λ disk. IsFresh self.old.room self.old.calls disk)) }
        ensures fails { is_failed result ≡ list_any (λ number. number == self.old.schedule.made) self.old.schedule.failing.items }
        ensures counted { self.new.schedule.made ≡ min (self.old.schedule.made + 1) (2 ^ 64 - 1) }
        ensures same_failing { self.new.schedule.failing.items ≡ self.old.schedule.failing.items }
        ensures same_limits { (self.new.room ≡ self.old.room) × (self.new.calls ≡ self.old.calls) }
    {
        self.schedule.call()?;
        Ok(self.lend(name)?)
    }

    fn create_disk(&mut self, name: &Name) -> Result<Option<MemDisk>, LendFault>
        requires { IsIn name.now (Some self.old.out) }
        ensures found { IfOk result (λ lent. is_some lent ≡ not (is_some (newest_of name.now (log_of self.old.book.entries.items)))) }
        ensures states { IfOk result (λ lent. IfSome lent (λ disk. disk.history ≡ settled [] ∷ [])) }
        ensures empty { IfOk result (λ lent. IfSome lent (λ disk. Now disk.history (λ state. state ≡ settled []))) }
        ensures created { Creates name.now (Some (log_of self.old.book.entries.items)) (Some (log_of self.new.book.entries.items)) result }
        ensures fresh { IfOk result (λ lent. IfSome lent (λ disk. disk.schedule.faults ≡ 0)) }
        ensures lends { LendsName name.now (Some self.old.out) (Some self.new.out) result }
        ensures kept { KeepsUnlessLent (log_of self.old.book.entries.items) (log_of self.new.book.entries.items) result }
        ensures cause { HasCauseAt lend_failed self.old.schedule.faults self.new.schedule.faults result }
        ensures limits { IfOk result (λ lent. IfSome lent (λ disk. IsFresh self.old.room self.old.calls disk)) }
        ensures fails { is_failed result ≡ list_any (λ number. number == self.old.schedule.made) self.old.schedule.failing.items }
        ensures counted { self.new.schedule.made ≡ min (self.old.schedule.made + 1) (2 ^ 64 - 1) }
        ensures same_failing { self.new.schedule.failing.items ≡ self.old.schedule.failing.items }
        ensures same_limits { (self.new.room ≡ self.old.room) × (self.new.calls ≡ self.old.calls) }
    {
        self.schedule.call()?;
        Ok(self.create(name)?)
    }

    #[tactic(auto, using(crate::proofs::LogLemmas::log_push, crate::proofs::NamesLemmas::is_there))]
    fn close_disk(&mut self, name: &Name, disk: MemDisk)
        requires { IsOut name.now (Some self.old.out) }
        ensures returned { Some self.new.out ≡ Some (without name.now self.old.out) }
        ensures logged { Some (log_of self.new.book.entries.items) ≡ Some (entries_of name.now disk.history ++ log_of self.old.book.entries.items) }
        ensures cause { Joins self.old.schedule.faults disk.schedule.faults self.new.schedule.faults }
        ensures same_failing { self.new.schedule.failing.items ≡ self.old.schedule.failing.items }
        ensures same_made { self.new.schedule.made ≡ self.old.schedule.made }
        ensures same_limits { (self.new.room ≡ self.old.room) × (self.new.calls ≡ self.old.calls) }
    {
        let faults = disk.fault_count();
        let history = disk.into_history();
        let Some(name) = self.take_back(name, faults) else {
            unreachable!()
        };
        self.book.add(Entry { name, history });
    }
}

/// The state of a new file.
fn empty(alloc: Global) -> State
    ensures value { result ≡ settled [] }
{
    State::settled(alloc, Bytes::from_vec(Vec::new(alloc)))
}
