ghost use Rattle.std.specs.Prelude.{◌≡◌, ◌≤◌, true, ℕ, Bool, List, All, Option, IsSome};
ghost use Rattle.inc_frame.specs.declared.fault.FrameFault.{FrameFault};
ghost use Rattle.inc_loader.specs.Turns.{Answers, GivenCause, GivesMarks, Prepares, StaysRefused, StaysTrue, HearsRead, TurnCause};
ghost use Rattle.inc_loader.specs.declared.loader_file.LoaderFile.{LoaderFile};
ghost use Rattle.inc_loader.specs.declared.mark.PieceMark.{PieceMark};
ghost use Rattle.inc_pending.specs.declared.pending_record.PendingRecord.{PendingRecord};
ghost use Rattle.inc_tree.specs.shape.Limits.{most_size};

use crate::{Given, LoaderFile, LoaderTurn};
use inc_pending::PendingRecord;

/// What brings the blocks of files. Whoever drives a loader prepares it first and stops it last, and tells and asks between.
pub trait Loader: Drop {
    /// The files that it was prepared for, once it was.
    ghost prepared: { Self → Option (List LoaderFile) };

    /// The reads that it was told.
    ghost told: { Self → List PendingRecord };

    /// The marks of the pieces that it gave.
    ghost given: { Self → List PieceMark };

    /// The fault for which its stream is refused.
    ghost refused: { Self → Option FrameFault };

    /// Whether it has no more pieces.
    ghost ended: { Self → Bool };

    ghost stopped: { Self → Bool };

    /// How often it had nothing to give for now, at least.
    ghost idle: { Self → ℕ };

    /// How often a call has failed.
    ghost faults: { Self → ℕ };

    /// Names the files whose pieces it is to give.
    fn prepare(&mut self, files: &[LoaderFile]) -> LoaderTurn
        requires { All (λ (file : LoaderFile). file.size ≤ most_size) files.now }
        ensures prepares { Prepares files.now result (prepared self.old) (prepared self.new) }
        ensures told { told self.new ≡ told self.old }
        ensures given { given self.new ≡ given self.old }
        ensures refused { StaysRefused (refused self.old) (refused self.new) }
        ensures ended { StaysTrue (ended self.old) (ended self.new) }
        ensures stopped { stopped self.new ≡ stopped self.old }
        ensures idle { idle self.old ≤ idle self.new }
        ensures later { faults self.old ≤ faults self.new }
        ensures cause { TurnCause (faults self.old) (faults self.new) result };

    /// Tells it a read that waits for its block.
    fn tell(&mut self, read: &PendingRecord) -> LoaderTurn
        ensures tells { HearsRead read.now result (told self.old) (told self.new) }
        ensures prepared { prepared self.new ≡ prepared self.old }
        ensures given { given self.new ≡ given self.old }
        ensures refused { StaysRefused (refused self.old) (refused self.new) }
        ensures ended { StaysTrue (ended self.old) (ended self.new) }
        ensures stopped { stopped self.new ≡ stopped self.old }
        ensures idle { idle self.old ≤ idle self.new }
        ensures later { faults self.old ≤ faults self.new }
        ensures cause { TurnCause (faults self.old) (faults self.new) result };

    /// Asks for the next pieces of a loader that was prepared.
    fn give(&mut self) -> Given
        requires { IsSome (prepared self.old) }
        ensures gives { GivesMarks (prepared self.old) result (given self.old) (given self.new) }
        ensures answers { Answers result (ended self.new) (refused self.new) (idle self.old) (idle self.new) }
        ensures prepared { prepared self.new ≡ prepared self.old }
        ensures told { told self.new ≡ told self.old }
        ensures refused { StaysRefused (refused self.old) (refused self.new) }
        ensures ended { StaysTrue (ended self.old) (ended self.new) }
        ensures stopped { stopped self.new ≡ stopped self.old }
        ensures idle { idle self.old ≤ idle self.new }
        ensures later { faults self.old ≤ faults self.new }
        ensures cause { GivenCause (faults self.old) (faults self.new) result };

    /// Says that nobody waits any more.
    fn stop(&mut self) -> LoaderTurn
        ensures stopped { stopped self.new ≡ true }
        ensures prepared { prepared self.new ≡ prepared self.old }
        ensures told { told self.new ≡ told self.old }
        ensures given { given self.new ≡ given self.old }
        ensures refused { StaysRefused (refused self.old) (refused self.new) }
        ensures ended { StaysTrue (ended self.old) (ended self.new) }
        ensures idle { idle self.old ≤ idle self.new }
        ensures later { faults self.old ≤ faults self.new }
        ensures cause { TurnCause (faults self.old) (faults self.new) result };
}

// Whoever is generic in its loader takes a boxed one too.
impl Loader for Box<dyn Loader + Send> {
    ghost prepared = { λ b. (Loader-box b).prepared b.value };

    ghost told = { λ b. (Loader-box b).told b.value };

    ghost given = { λ b. (Loader-box b).given b.value };

    ghost refused = { λ b. (Loader-box b).refused b.value };

    ghost ended = { λ b. (Loader-box b).ended b.value };

    ghost stopped = { λ b. (Loader-box b).stopped b.value };

    ghost idle = { λ b. (Loader-box b).idle b.value };

    ghost faults = { λ b. (Loader-box b).faults b.value };

    fn prepare(&mut self, files: &[LoaderFile]) -> LoaderTurn {
        (**self).prepare(files)
    }

    fn tell(&mut self, read: &PendingRecord) -> LoaderTurn {
        (**self).tell(read)
    }

    fn give(&mut self) -> Given {
        (**self).give()
    }

    fn stop(&mut self) -> LoaderTurn {
        (**self).stop()
    }
}
