ghost use Rattle.std.specs.Prelude.{◌≡◌, ◌==◌, ◌+◌, ◌-◌, ◌^◌, ◌≤◌, [], false, All, IsSome, length, min, None};
ghost use Rattle.std.specs.List.{list_any};
ghost use Rattle.inc_frame.specs.declared.piece.Piece.{Piece};
ghost use Rattle.std.specs.Prelude.{List};

use crate::held::Held;
use crate::{Given, Loader, LoaderFile, LoaderTurn};
use inc_frame::PieceList;
use inc_io::Schedule;
use inc_pending::PendingRecord;
use std::alloc::Global;

/// A loader for tests: it gives the lists that it was made with, one a call.
#[derive(Drop)]
pub struct FakeLoader {
    held: Held,
    lists: Vec<PieceList>,
    schedule: Schedule,
    ghost sized: { All (λ (pieces : List Piece). (1 ≤ length pieces) × (length pieces ≤ 64)) lists.items },
}

impl FakeLoader {
    ghost use Rattle.inc_loader.specs.Turns.{IsFreshLoader};

    /// A loader that gives these lists of 1 to 64 pieces each. Its calls of `give` with these numbers, from 0, fail and use up no list.
    pub fn new(alloc: Global, pieces: Vec<PieceList>, fail: Vec<u64>) -> FakeLoader
        requires some { 1 ≤ length pieces.items }
        requires sized { All (λ (list : List Piece). (1 ≤ length list) × (length list ≤ 64)) pieces.items }
        ensures lists { result.lists.items ≡ pieces.items }
        ensures schedule { (result.schedule.failing.items ≡ fail.items) × (result.schedule.made ≡ 0) × (result.schedule.faults ≡ 0) }
        ensures fresh { IsFreshLoader result.held.files result.held.told.items result.held.given.items None
            (length result.lists.items == 0) result.held.stopped }
    {
        FakeLoader {
            held: Held::new(alloc),
            lists: pieces,
            schedule: Schedule::new(fail),
        }
    }
}

impl Loader for FakeLoader {
    ghost use Rattle.inc_loader.specs.Fake.{GivesNext, has_failed};
    ghost use Rattle.std.specs.Prelude.{true};
    ghost use Rattle.inc_loader.specs.Turns.{Answers, GivenCause, GivesMarks, HearsRead, Prepares, StaysTrue, TurnCause};
    ghost use Rattle.inc_loader.specs.declared.loader_file.LoaderFile.{LoaderFile};
    ghost use Rattle.inc_tree.specs.shape.Limits.{most_size};

    ghost prepared = { λ loader. loader.held.files };

    ghost told = { λ loader. loader.held.told.items };

    ghost given = { λ loader. loader.held.given.items };

    ghost refused = { λ _. None };

    ghost ended = { λ loader. length loader.lists.items == 0 };

    ghost stopped = { λ loader. loader.held.stopped };

    ghost idle = { λ _. 0 };

    ghost faults = { λ loader. loader.schedule.faults };

    fn prepare(&mut self, files: &[LoaderFile]) -> LoaderTurn
        requires { All (λ (file : LoaderFile). file.size ≤ most_size) files.now }
        ensures prepares { Prepares files.now result self.old.held.files self.new.held.files }
        ensures told { self.new.held.told.items ≡ self.old.held.told.items }
        ensures given { self.new.held.given.items ≡ self.old.held.given.items }
        ensures stopped { self.new.held.stopped ≡ self.old.held.stopped }
        ensures cause { TurnCause self.old.schedule.faults self.new.schedule.faults result }
        ensures lists { self.new.lists ≡ self.old.lists }
        ensures schedule { self.new.schedule ≡ self.old.schedule }
    {
        match self.held.prepare(files) {
            Ok(()) => LoaderTurn::Fine,
            Err(_) => LoaderTurn::OutOfMemory,
        }
    }

    fn tell(&mut self, read: &PendingRecord) -> LoaderTurn
        ensures tells { HearsRead read.now result self.old.held.told.items self.new.held.told.items }
        ensures prepared { self.new.held.files ≡ self.old.held.files }
        ensures given { self.new.held.given.items ≡ self.old.held.given.items }
        ensures stopped { self.new.held.stopped ≡ self.old.held.stopped }
        ensures cause { TurnCause self.old.schedule.faults self.new.schedule.faults result }
        ensures lists { self.new.lists ≡ self.old.lists }
        ensures schedule { self.new.schedule ≡ self.old.schedule }
    {
        match self.held.tell(read) {
            Ok(()) => LoaderTurn::Fine,
            Err(_) => LoaderTurn::OutOfMemory,
        }
    }

    fn give(&mut self) -> Given
        requires { IsSome self.old.held.files }
        ensures gives { GivesMarks self.old.held.files result self.old.held.given.items self.new.held.given.items }
        ensures answers { Answers result (length self.new.lists.items == 0) None 0 0 }
        ensures prepared { self.new.held.files ≡ self.old.held.files }
        ensures told { self.new.held.told.items ≡ self.old.held.told.items }
        ensures ended { StaysTrue (length self.old.lists.items == 0) (length self.new.lists.items == 0) }
        ensures stopped { self.new.held.stopped ≡ self.old.held.stopped }
        ensures later { self.old.schedule.faults ≤ self.new.schedule.faults }
        ensures cause { GivenCause self.old.schedule.faults self.new.schedule.faults result }

        // It gives the lists one after another, and fails only at the calls that are to fail.
        ensures next { GivesNext result self.old.lists.items self.new.lists.items }
        ensures fails { has_failed result ≡ list_any (λ number. number == self.old.schedule.made) self.old.schedule.failing.items }
        ensures counted { self.new.schedule.made ≡ min (self.old.schedule.made + 1) (2 ^ 64 - 1) }
        ensures same_failing { self.new.schedule.failing.items ≡ self.old.schedule.failing.items }
    {
        if self.schedule.call().is_err() {
            return Given::Failed;
        }
        if self.lists.is_empty() {
            return Given::Done;
        }
        if self.held.keep(self.lists[0].as_slice()).is_err() {
            return Given::OutOfMemory;
        }
        Given::Pieces(self.lists.remove(0))
    }

    fn stop(&mut self) -> LoaderTurn
        ensures stopped { self.new.held.stopped ≡ true }
        ensures prepared { self.new.held.files ≡ self.old.held.files }
        ensures told { self.new.held.told.items ≡ self.old.held.told.items }
        ensures given { self.new.held.given.items ≡ self.old.held.given.items }
        ensures cause { TurnCause self.old.schedule.faults self.new.schedule.faults result }
        ensures lists { self.new.lists ≡ self.old.lists }
        ensures schedule { self.new.schedule ≡ self.old.schedule }
    {
        self.held.stop();
        LoaderTurn::Fine
    }
}
