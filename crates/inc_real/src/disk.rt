ghost use Rattle.std.specs.Prelude.{◌≡◌, ◌+◌, ◌^◌, ◌<◌, ◌≤◌, length, take, IfOk, OnOk, None, [], refl};
ghost use Rattle.inc_io.specs.Causes.{Rose, HasCause};
ghost use Rattle.inc_disk.specs.Disk.{Syncs, Writes};
ghost use Rattle.inc_real.specs.Calls.{HasWritten, Synced};

use crate::PlacedFile;
use inc_disk::Disk;
use inc_io::{Backing, Failed};
use std::io;
use std::io::ErrorKind;

/// A file as a disk, read and written by places. A sync is the file system's own.
#[derive(Drop)]
pub struct RealDisk<F: PlacedFile + Drop> {
    file: F,
    faults: u64,
}

impl<F: PlacedFile + Drop> RealDisk<F> {
    /// A file that was opened for what will be asked of it.
    pub fn of(file: F) -> RealDisk<F>
        ensures fresh { result.faults ≡ 0 }
        ensures file { result.file ≡ file }
    {
        RealDisk { file, faults: 0 }
    }

    /// Gives the file back.
    pub fn into_file(self) -> F
        ensures value { result ≡ self.file }
    {
        self.file
    }

    fn fault(&mut self) -> Failed
        ensures later { self.old.faults ≤ self.new.faults }
        ensures rose { Rose self.old.faults self.new.faults }
        ensures file { self.new.file ≡ self.old.file }
    {
        self.faults = self.faults.saturating_add(1);
        Failed
    }
}

/// Fills the room with the bytes from a place on, as far as the file goes. A call that a signal broke off is made again.
fn read_whole<F: PlacedFile>(file: &mut F, at: u64, room: &mut [u8]) -> io::Result<usize>
    ensures within { IfOk result (λ count. count ≤ length room.old) }
    ensures same { F.calls file.new ≡ F.calls file.old }
{
    let mut count = 0;
    for _ in 0..u64::MAX {
        if count >= room.len() {
            break;
        }
        match file.read_front(at.saturating_add(count as u64), &mut room[count..]) {
            Ok(0) => break,
            Ok(more) => count += more,
            Err(error) if error.kind() == ErrorKind::Interrupted => {}
            Err(error) => return Err(error),
        }
    }
    Ok(count)
}

/// Writes a front of the piece, and says how long it is: empty where a signal broke the call off. A call that takes no byte is a failure.
#[tactic(auto, using(crate::proofs::Writing::front_written, crate::proofs::Writing::none_written))]
fn write_part<F: PlacedFile>(file: &mut F, at: u64, piece: &[u8]) -> io::Result<usize>
    ensures within { IfOk result (λ count. count ≤ length piece.now) }
    ensures written { IfOk result (λ count. HasWritten at (take count piece.now) (F.calls file.old) (F.calls file.new)) }
{
    match file.write_front(at, piece) {
        Ok(0) => Err(io::Error::from(ErrorKind::WriteZero)),
        Ok(count) => Ok(count),
        Err(error) if error.kind() == ErrorKind::Interrupted => Ok(0),
        Err(error) => Err(error),
    }
}

/// Writes the whole piece from a place on.
fn write_whole<F: PlacedFile>(file: &mut F, at: u64, piece: &[u8]) -> io::Result<()>
    requires end { at + length piece.now < 2 ^ 48 }
    ensures written { OnOk result (HasWritten at piece.now (F.calls file.old) (F.calls file.new)) }
{
    let mut done = 0;
    for _ in 0..u64::MAX {
        if done >= piece.len() {
            return Ok(());
        }
        done += write_part(file, at + done as u64, &piece[done..])?;
    }
    Err(io::Error::from(ErrorKind::TimedOut))
}

impl<F: PlacedFile + Drop> Backing for RealDisk<F> {
    type Kept = ();

    ghost kept = { λ _. tt };

    ghost reads = { λ _. None };

    ghost faults = { λ disk. disk.faults };

    fn fault_count(&self) -> u64 {
        self.faults
    }

    fn len(&mut self) -> Result<u64, Failed>
        ensures cause { HasCause self.old.faults self.new.faults result }
        ensures same { F.calls self.new.file ≡ F.calls self.old.file }
    {
        match self.file.length() {
            Ok(len) => Ok(len),
            Err(_) => Err(self.fault()),
        }
    }

    fn read_at(&mut self, at: u64, room: &mut [u8]) -> Result<usize, Failed>
        ensures within { IfOk result (λ count. count ≤ length room.old) }
        ensures cause { HasCause self.old.faults self.new.faults result }
        ensures same { F.calls self.new.file ≡ F.calls self.old.file }
    {
        match read_whole(&mut self.file, at, room) {
            Ok(count) => Ok(count),
            Err(_) => Err(self.fault()),
        }
    }
}

impl<F: PlacedFile + Drop> Disk for RealDisk<F> {
    ghost states = { λ _. [] };

    /// The file is asked for the whole piece, and for nothing else.
    fn write_at(&mut self, at: u64, piece: &[u8]) -> Result<(), Failed>
        requires end { at + length piece.now < 2 ^ 48 }
        ensures cause { HasCause self.old.faults self.new.faults result }
        ensures asked { OnOk result (HasWritten at piece.now (F.calls self.old.file) (F.calls self.new.file)) }
    {
        match write_whole(&mut self.file, at, piece) {
            Ok(()) => Ok(()),
            Err(_) => Err(self.fault()),
        }
    }

    /// One sync of the whole file.
    fn sync(&mut self) -> Result<(), Failed>
        ensures cause { HasCause self.old.faults self.new.faults result }
        ensures asked { Synced (F.calls self.old.file) (F.calls self.new.file) result }
    {
        match self.file.sync_whole() {
            Ok(()) => Ok(()),
            Err(_) => Err(self.fault()),
        }
    }

    ghost reads_now = { λ _. refl };

    ghost sound = { λ _ _ _ e. absurd (cc) };
}
