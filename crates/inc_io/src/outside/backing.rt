ghost use Rattle.std.specs.Prelude.{◌≡◌, ◌≤◌, ◌-◌, ◌++◌, ℕ, List, length, take, drop, min, Option, IfSome, IfOk};
ghost use Rattle.inc_io.specs.Causes.{HasCause};

use crate::Failed;

/// A backing file that is read by places.
pub trait Backing {
    /// What no call of this trait changes: plain data. It alone tells what the file reads as, and of a disk also what a crash may leave.
    type Kept;

    ghost kept: { Self → Self.Kept };

    /// The file's bytes, where it tells them.
    ghost reads: { Self.Kept → Option (List ℕ) };

    /// How often a call has failed.
    ghost faults: { Self → ℕ };

    /// The count of faults as a number, so that code that is generic over files can answer it.
    fn fault_count(&self) -> u64
        ensures value { result ≡ faults self.now };

    /// The file's length in bytes.
    fn len(&mut self) -> Result<u64, Failed>
        ensures told { IfSome (reads (kept self.old)) (λ bytes. IfOk result (λ len. len ≡ length bytes)) }
        ensures kept { kept self.new ≡ kept self.old }
        ensures cause { HasCause (faults self.old) (faults self.new) result };

    /// Fills the front of the room with the bytes from a place on: as many as the room takes and the file has.
    /// After a failure the room may hold any bytes.
    fn read_at(&mut self, at: u64, room: &mut [u8]) -> Result<usize, Failed>
        ensures count { IfSome (reads (kept self.old)) (λ bytes. IfOk result (λ count. count ≡ min (length room.old) (length bytes - at))) }
        ensures bytes { IfSome (reads (kept self.old)) (λ bytes. IfOk result (λ count.
            room.new ≡ take count (drop at bytes) ++ drop count room.old)) }
        ensures within { IfOk result (λ count. count ≤ length room.old) }
        ensures kept { kept self.new ≡ kept self.old }
        ensures cause { HasCause (faults self.old) (faults self.new) result };
}
