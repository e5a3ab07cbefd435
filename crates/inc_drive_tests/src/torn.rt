//! A loader that fails at each of its calls of one kind.
ghost use Rattle.std.specs.Prelude.{◌≡◌, ◌+◌, ◌≤◌};
ghost use Rattle.inc_io.specs.Causes.{Rose};
ghost use Rattle.inc_loader.specs.declared.turn.LoaderTurn.TheVariants.{Failed};

use inc_loader::{FakeLoader, Given, Loader, LoaderFile, LoaderTurn};
use inc_pending::PendingRecord;

#[derive(Clone, Copy, PartialEq, Eq)]
pub enum Call {
    Prepare,
    Tell,
    Give,
    Stop,
}

#[derive(Drop)]
pub struct TornLoader {
    pub inner: FakeLoader,
    pub torn: Call,
    pub faults: u64,
}

impl TornLoader {
    fn fail(&mut self)
        ensures later { self.old.faults ≤ self.new.faults }
        ensures rose { Rose self.old.faults self.new.faults }
        ensures inner { self.new.inner ≡ self.old.inner }
    {
        self.faults = self.faults.saturating_add(1);
    }
}

impl Loader for TornLoader {
    ghost prepared = { λ loader. ⟦<FakeLoader as Loader>⟧.prepared loader.inner };

    ghost told = { λ loader. ⟦<FakeLoader as Loader>⟧.told loader.inner };

    ghost given = { λ loader. ⟦<FakeLoader as Loader>⟧.given loader.inner };

    ghost refused = { λ loader. ⟦<FakeLoader as Loader>⟧.refused loader.inner };

    ghost ended = { λ loader. ⟦<FakeLoader as Loader>⟧.ended loader.inner };

    ghost stopped = { λ loader. ⟦<FakeLoader as Loader>⟧.stopped loader.inner };

    ghost idle = { λ loader. ⟦<FakeLoader as Loader>⟧.idle loader.inner };

    ghost faults = { λ loader. loader.faults + ⟦<FakeLoader as Loader>⟧.faults loader.inner };

    fn prepare(&mut self, files: &[LoaderFile]) -> LoaderTurn {
        if self.torn == Call::Prepare {
            self.fail();
            return LoaderTurn::Failed;
        }
        self.inner.prepare(files)
    }

    fn tell(&mut self, read: &PendingRecord) -> LoaderTurn {
        if self.torn == Call::Tell {
            self.fail();
            return LoaderTurn::Failed;
        }
        self.inner.tell(read)
    }

    fn give(&mut self) -> Given {
        if self.torn == Call::Give {
            self.fail();
            return Given::Failed;
        }
        self.inner.give()
    }

    fn stop(&mut self) -> LoaderTurn {
        let stopped = self.inner.stop();
        if self.torn == Call::Stop {
            self.fail();
            return LoaderTurn::Failed;
        }
        stopped
    }
}
