ghost use Rattle.std.specs.Prelude.{◌≡◌, ◌≤◌, List, length, Option, None, IfOk};
ghost use Rattle.inc_real.specs.Calls.{Synced, Took};
ghost use Rattle.inc_real.specs.declared.file.FileCall.{FileCall};

use inc_io::Bytes;
use std::fs::{File, OpenFile};
use std::io;
use std::os::unix::fs::FileExt;

/// A call that changed a file or settled it.
#[derive(Drop)]
pub enum FileCall {
    Wrote { at: u64, piece: Bytes },
    SyncedAll,
}

/// An open file as a disk needs it: calls of the system, none of them tried again here.
pub trait PlacedFile {
    /// The calls that changed it or settled it, where it tells them. The system's files don't.
    ghost calls: { Self → Option (List FileCall) };

    fn length(&mut self) -> io::Result<u64>
        ensures same { calls self.new ≡ calls self.old };

    /// Fills a front of the room from a place on. No byte for a room that isn't empty is the file's end.
    fn read_front(&mut self, at: u64, room: &mut [u8]) -> io::Result<usize>
        ensures within { IfOk result (λ count. count ≤ length room.old) }
        ensures same { calls self.new ≡ calls self.old };

    /// Writes a front of the piece.
    fn write_front(&mut self, at: u64, piece: &[u8]) -> io::Result<usize>
        ensures within { IfOk result (λ count. count ≤ length piece.now) }
        ensures took { Took at piece.now (calls self.old) (calls self.new) result };

    fn sync_whole(&mut self) -> io::Result<()>
        ensures synced { Synced (calls self.old) (calls self.new) result };
}

impl PlacedFile for File {
    ghost calls = { λ _. None };

    fn length(&mut self) -> io::Result<u64> {
        Ok(self.metadata()?.len())
    }

    fn read_front(&mut self, at: u64, room: &mut [u8]) -> io::Result<usize> {
        self.read_at(room, at)
    }

    fn write_front(&mut self, at: u64, piece: &[u8]) -> io::Result<usize> {
        self.write_at(piece, at)
    }

    fn sync_whole(&mut self) -> io::Result<()> {
        self.sync_all()
    }
}
