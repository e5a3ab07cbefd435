ghost use Rattle.std.specs.Prelude.{◌≡◌, ◌+◌, ◌^◌, ◌≤◌, ◌<◌, List, length, IfSome};
ghost use Rattle.inc_io.specs.Causes.{HasCause};
ghost use Rattle.inc_disk.specs.Disk.{DiskState, SoundNow, Writes, Syncs, reads_of};

use inc_io::{Backing, Failed};

/// A backing file that is written by places and synced. What it kept back until a sync, a crash may lose.
pub trait Disk: Backing {
    /// The states that the disk has been in, newest first; none where it doesn't tell them. How many they are is its moment.
    ghost states: { Self.Kept → List DiskState };

    /// Writes the whole piece, over what is there and past the end.
    fn write_at(&mut self, at: u64, piece: &[u8]) -> Result<(), Failed>
        requires place { IfSome (Self.reads (Self.kept self.old)) (λ bytes. at ≤ length bytes) }
        requires end { at + length piece.now < 2 ^ 48 }
        ensures written { Writes at piece.now (states (Self.kept self.old)) (states (Self.kept self.new)) result }
        ensures cause { HasCause (Self.faults self.old) (Self.faults self.new) result };

    /// Settles all that was written: after it a crash leaves what a read gives.
    fn sync(&mut self) -> Result<(), Failed>
        ensures synced { Syncs (states (Self.kept self.old)) (states (Self.kept self.new)) result }
        ensures cause { HasCause (Self.faults self.old) (Self.faults self.new) result };

    /// What the disk reads as is what its newest state reads as.
    ghost reads_now: { (kept : Self.Kept) → Self.reads kept ≡ reads_of (states kept) };

    /// What the disk reads as is one of the images that a crash may leave.
    ghost sound: { (disk : Self) → SoundNow (states (Self.kept disk)) };
}
