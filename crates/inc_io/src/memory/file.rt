ghost use Rattle.std.specs.Prelude.{◌≡◌, ◌==◌, ◌≤◌, ◌+◌, ◌-◌, ◌++◌, length, take, drop, min, is_err, IfOk, Some};
ghost use Rattle.inc_io.specs.Causes.{HasCause};

use crate::{Backing, Bytes, Failed, copy_part};

/// A file in memory, for tests.
#[derive(Drop)]
pub struct MemFile {
    bytes: Bytes,
    calls: u32,
    faults: u64,
}

impl MemFile {
    /// A file with these bytes that fails past so many calls.
    pub fn new(bytes: Bytes, calls: u32) -> MemFile
        ensures bytes { result.bytes ≡ bytes }
        ensures calls { result.calls ≡ calls }
        ensures faults { result.faults ≡ 0 }
    {
        MemFile {
            bytes,
            calls,
            faults: 0,
        }
    }

    /// Counts a call, and says whether it fails.
    fn call(&mut self) -> Result<(), Failed>
        ensures bytes { self.new.bytes ≡ self.old.bytes }
        ensures fails { is_err result ≡ (self.old.calls == 0) }
        ensures counted { self.new.calls ≡ self.old.calls - 1 }
        ensures cause { HasCause self.old.faults self.new.faults result }
    {
        if self.calls == 0 {
            self.faults = self.faults.saturating_add(1);
            return Err(Failed);
        }
        self.calls -= 1;
        Ok(())
    }
}

impl Backing for MemFile {
    type Kept = Bytes;

    ghost kept = { λ file. file.bytes };

    ghost reads = { λ bytes. Some bytes };

    ghost faults = { λ file. file.faults };

    fn fault_count(&self) -> u64 {
        self.faults
    }

    fn len(&mut self) -> Result<u64, Failed>
        ensures told { IfOk result (λ len. len ≡ length self.old.bytes) }
        ensures kept { self.new.bytes ≡ self.old.bytes }
        ensures cause { HasCause self.old.faults self.new.faults result }

        // It fails only past the number of calls that the file takes.
        ensures fails { is_err result ≡ (self.old.calls == 0) }
        ensures counted { self.new.calls ≡ self.old.calls - 1 }
    {
        self.call()?;
        Ok(self.bytes.len() as u64)
    }

    fn read_at(&mut self, at: u64, room: &mut [u8]) -> Result<usize, Failed>
        ensures count { IfOk result (λ count. count ≡ min (length room.old) (length self.old.bytes - at)) }
        ensures bytes { IfOk result (λ count. room.new ≡ take count (drop at self.old.bytes) ++ drop count room.old) }
        ensures within { IfOk result (λ count. count ≤ length room.old) }
        ensures kept { self.new.bytes ≡ self.old.bytes }
        ensures cause { HasCause self.old.faults self.new.faults result }
        ensures fails { is_err result ≡ (self.old.calls == 0) }
        ensures counted { self.new.calls ≡ self.old.calls - 1 }
    {
        self.call()?;
        Ok(copy_part(self.bytes.as_slice(), at, room))
    }
}
