ghost use Rattle.std.specs.Prelude.{◌≡◌, ◌+◌, ◌-◌, ◌<◌, ◌≤◌, ◌++◌, [], ◌∷◌, length, OnOk, OnErr};
ghost use Rattle.std.specs.Vec.{vec_capacity};

use crate::OutOfMemory;
use crate::entry::Entry;
use std::alloc::Global;

/// The entries of a shelf in memory, with room held free for those to come: a disk is given back without taking memory.
#[derive(Drop)]
pub struct Book {
    /// Oldest first.
    pub entries: Vec<Entry>,
    pub free: usize,
    ghost fits: { length entries.items + free ≤ vec_capacity entries },
}

impl Book {
    pub fn new(alloc: Global) -> Book
        ensures entries { result.entries.items ≡ [] }
        ensures free { result.free ≡ 0 }
    {
        Book {
            entries: Vec::new(alloc),
            free: 0,
        }
    }

    /// Holds room free for one entry more.
    pub fn hold(&mut self) -> Result<(), OutOfMemory>
        ensures same { self.new.entries.items ≡ self.old.entries.items }
        ensures ok { OnOk result (self.new.free ≡ self.old.free + 1) }
        ensures err { OnErr result (self.new.free ≡ self.old.free) }
    {
        self.entries.reserve(self.free + 1)?;
        self.free += 1;
        Ok(())
    }

    /// Adds an entry in room that is held.
    pub fn add(&mut self, entry: Entry)
        requires { 0 < self.old.free }
        ensures added { self.new.entries.items ≡ self.old.entries.items ++ entry ∷ [] }
        ensures free { self.new.free ≡ self.old.free - 1 }
    {
        self.entries.push(entry).unwrap();
        self.free -= 1;
    }
}
