ghost use Rattle.std.specs.Prelude.{◌≡◌, ℕ, ◌<◌, ◌≤◌, ◌==◌, ◌↔◌, List, [], length, if◌then◌else◌, OnOk, OnErr, IfOk, IfErr};
ghost use Rattle.inc_pending.specs.Keyed.{lookup, insert, Stands, Lacks};
ghost use Rattle.inc_pending.specs.Times.{times_of, default_times};
ghost use Rattle.inc_pending.specs.declared.timeouts.Times.{Times};
ghost use Rattle.inc_pending.specs.declared.timeouts.TimesFault.TheVariants.{OutOfMemory as out_of_memory};

use crate::OutOfMemory;
use std::alloc::{AllocFailed, Global};
use std::marker::Model;

/// How long the reads of a user are held back, and how long they wait, in microseconds.
#[derive(Clone, Copy, Debug, PartialEq, Eq)]
pub struct Times {
    /// How long a read of a block that is there is held back at least.
    pub least_read: u64,
    /// How long a read is held back at least where its block isn't there yet.
    pub least_pending: u64,
    /// How long a read waits for its block at most.
    pub most_pending: u64,
}

/// The times of a user without a row: nothing is held back, and a read waits for a second.
pub const DEFAULT_TIMES: Times = Times {
    least_read: 0,
    least_pending: 0,
    most_pending: 1_000_000,
};

/// How many users may have rows.
pub const MOST_ROWS: usize = 256;

#[derive(Clone, Copy, Debug, PartialEq, Eq)]
pub enum TimesFault {
    /// `MOST_ROWS` other users have rows, and this one has none.
    Full,
    OutOfMemory,
}

impl From<OutOfMemory> for TimesFault {
    ghost from_gives = { λ _ fault. fault ≡ out_of_memory };

    fn from(_: OutOfMemory) -> TimesFault {
        TimesFault::OutOfMemory
    }
}

impl<T: Drop> From<AllocFailed<T>> for TimesFault {
    ghost from_gives = { λ _ fault. fault ≡ out_of_memory };

    fn from(_: AllocFailed<T>) -> TimesFault {
        TimesFault::OutOfMemory
    }
}

/// The times of each user, by rising uid: a map of at most `MOST_ROWS` rows.
#[derive(Drop)]
pub struct Timeouts {
    rows: Vec<(u32, Times)>,
}

impl Model for Timeouts {
    ghost use Rattle.std.specs.Prelude.{List, ℕ, length, ◌≤◌};
    ghost use Rattle.inc_pending.specs.declared.timeouts.Times.{Times};
    ghost use Rattle.inc_pending.specs.Times.{HoldsTimes};

    ghost Value = { List (ℕ × Times) };

    ghost view = { λ t. t.rows.items };

    ghost invariant = { λ t. HoldsTimes t.rows.items };
}

/// The place of a user's row, or the place that it would have.
fn place_of(rows: &[(u32, Times)], uid: u32) -> Result<usize, usize>
    ensures there { IfOk result (λ at. Stands rows.now at uid) }
    ensures missing { IfErr result (λ at. Lacks rows.now at uid) }
{
    for (i, row) in rows.iter().enumerate() {
        if row.0 == uid {
            return Ok(i);
        }
        if uid < row.0 {
            return Err(i);
        }
    }
    Err(rows.len())
}

impl Timeouts {
    /// No rows. It takes no memory.
    pub fn new(alloc: Global) -> Timeouts
        ensures value { result ≡ [] }
    {
        Timeouts {
            rows: Vec::new(alloc),
        }
    }

    /// Sets the times of a user.
    pub fn set(&mut self, uid: u32, t: Times) -> Result<(), TimesFault>
        ensures ok { OnOk result (self.new ≡ insert uid t self.old) }
        ensures err { OnErr result (self.new ≡ self.old) }
        ensures full { (result ≡ Err TimesFault.Full) ↔ ((length self.old ≡ MOST_ROWS) × (lookup uid self.old ≡ None)) }

        // Only this user's times change.
        ensures map { OnOk result ((other : ℕ) → lookup other self.new ≡ (if other == uid then Some t else lookup other self.old)) }
        ensures few { length self.new ≤ MOST_ROWS }
    {
        match place_of(self.rows.as_slice(), uid) {
            Ok(at) => {
                self.rows[at] = (uid, t);
                Ok(())
            }
            Err(at) => {
                if self.rows.len() == MOST_ROWS {
                    return Err(TimesFault::Full);
                }
                self.rows.insert(at, (uid, t))?;
                Ok(())
            }
        }
    }

    /// The times of a user.
    pub fn get(&self, uid: u32) -> Times
        ensures value { result ≡ times_of uid self.now }
    {
        match place_of(self.rows.as_slice(), uid) {
            Ok(at) => self.rows[at].1,
            Err(_) => DEFAULT_TIMES,
        }
    }
}
