ghost use Rattle.std.specs.Prelude.{◌≡◌, Some};

use crate::{
    FileCall, FileSink, FileSource, FolderShelf, NullSink, PlacedFile, RealBell, RealDisk,
};
use inc_disk::{Disk, Shelf};
use inc_io::{Backing, Bell, Bytes, Failed, LendFault, Name, ReadShelf, Sink, Source};
use std::alloc::Global;
use std::fs::File;
use std::io::ErrorKind;
use std::os::fd::AsRawFd;
use std::test::Fail;
use std::{fs, io};

/// A file that keeps its calls. It takes at most `cut` bytes in one, and a signal breaks off the first `broken` of them.
#[derive(Drop)]
struct RecordedFile {
    alloc: Global,
    calls: Vec<FileCall>,
    cut: usize,
    broken: u32,
}

impl RecordedFile {
    fn new(alloc: Global, cut: usize, broken: u32) -> RecordedFile {
        RecordedFile {
            alloc,
            calls: Vec::new(alloc),
            cut,
            broken,
        }
    }

    fn is_broken_off(&mut self) -> bool
        ensures same { self.new.calls ≡ self.old.calls }
    {
        let broken = self.broken > 0;
        self.broken = self.broken.saturating_sub(1);
        broken
    }
}

impl PlacedFile for RecordedFile {
    ghost calls = { λ file. Some file.calls.items };

    fn length(&mut self) -> io::Result<u64> {
        Ok(7)
    }

    fn read_front(&mut self, _at: u64, room: &mut [u8]) -> io::Result<usize> {
        if self.is_broken_off() {
            return Err(io::Error::from(ErrorKind::Interrupted));
        }
        let count = room.len().min(self.cut);
        room[..count].fill(b'r');
        Ok(count)
    }

    fn write_front(&mut self, at: u64, piece: &[u8]) -> io::Result<usize> {
        if self.is_broken_off() {
            return Err(io::Error::from(ErrorKind::Interrupted));
        }
        let count = piece.len().min(self.cut);
        let Ok(piece) = Bytes::of(self.alloc, &piece[..count]) else {
            return Err(io::Error::from(ErrorKind::OutOfMemory));
        };
        if self.calls.push(FileCall::Wrote { at, piece }).is_err() {
            return Err(io::Error::from(ErrorKind::OutOfMemory));
        }
        Ok(count)
    }

    fn sync_whole(&mut self) -> io::Result<()> {
        if self.is_broken_off() {
            return Err(io::Error::from(ErrorKind::Other));
        }
        if self.calls.push(FileCall::SyncedAll).is_err() {
            return Err(io::Error::from(ErrorKind::OutOfMemory));
        }
        Ok(())
    }
}

fn is_write(call: &FileCall, wanted: u64, bytes: &[u8]) -> bool {
    match call {
        FileCall::Wrote { at, piece } => *at == wanted && piece.as_slice() == bytes,
        FileCall::SyncedAll => false,
    }
}

#[test]
fn a_write_goes_on_until_the_whole_piece_is_written(rt: HostRuntime) -> Result<(), Fail> {
    let mut disk = RealDisk::of(RecordedFile::new(rt.alloc(), 3, 1));
    assert_eq!(rt; disk.write_at(5, b"abcdefgh"), Ok(()));
    let calls = disk.into_file().calls;
    assert_eq!(rt; calls.len(), 3);
    assert!(rt; is_write(&calls[0], 5, b"abc"));
    assert!(rt; is_write(&calls[1], 8, b"def"));
    assert!(rt; is_write(&calls[2], 11, b"gh"));
    Ok(())
}

#[test]
fn a_sync_is_one_sync_of_the_file(rt: HostRuntime) -> Result<(), Fail> {
    let mut disk = RealDisk::of(RecordedFile::new(rt.alloc(), 3, 1));
    assert_eq!(rt; disk.sync(), Err(Failed));
    assert_eq!(rt; disk.fault_count(), 1);
    assert_eq!(rt; disk.sync(), Ok(()));
    assert_eq!(rt; disk.len(), Ok(7));
    let calls = disk.into_file().calls;
    assert_eq!(rt; calls.len(), 1);
    assert!(rt; matches!(calls[0], FileCall::SyncedAll));
    Ok(())
}

#[test]
fn a_file_that_takes_no_byte_fails_a_write_and_ends_a_read(rt: HostRuntime) -> Result<(), Fail> {
    let mut disk = RealDisk::of(RecordedFile::new(rt.alloc(), 0, 0));
    assert_eq!(rt; disk.write_at(0, b"a"), Err(Failed));
    assert_eq!(rt; disk.read_at(0, &mut [0; 4]), Ok(0));
    assert_eq!(rt; disk.fault_count(), 1);
    Ok(())
}

#[test]
fn a_read_goes_on_until_the_room_is_full(rt: HostRuntime) -> Result<(), Fail> {
    let mut disk = RealDisk::of(RecordedFile::new(rt.alloc(), 3, 2));
    let mut room = [0; 4];
    assert_eq!(rt; disk.read_at(0, &mut room), Ok(4));
    assert_eq!(rt; room, *b"rrrr");
    Ok(())
}

/// Whether no file was lent. One that was is given back.
fn is_missing<R: std::rt::Files<File = File> + AllocGlobal + Clone + Drop>(
    lent: Option<RealDisk<File>>,
    shelf: &mut FolderShelf<'_, R>,
    name: &Name,
) -> bool {
    match lent {
        Some(file) => {
            shelf.close_read(name, file);
            false
        }
        None => true,
    }
}

#[test]
fn a_created_file_keeps_what_was_written(rt: HostRuntime) -> Result<(), Fail> {
    let name = Name::of(rt.alloc(), b"inc-real-test")?.ok_or("a name")?;
    let _ = fs::remove_file(&rt, name.as_str());
    let mut shelf = FolderShelf::new(&rt);
    let mut disk = shelf.create_disk(&name)?.ok_or("a new file")?;
    let written = disk.write_at(0, b"bytes");
    let synced = disk.sync();
    shelf.close_disk(&name, disk);
    written?;
    synced?;
    let again = shelf.create_disk(&name)?;
    assert!(rt; is_missing(again, &mut shelf, &name));
    let mut room = [0; 8];
    let mut file = shelf.open_read(&name)?.ok_or("a file")?;
    let len = file.len();
    let count = file.read_at(1, &mut room);
    shelf.close_read(&name, file);
    assert_eq!(rt; len?, 5);
    assert_eq!(rt; count?, 4);
    assert!(rt; &room[..4] == b"ytes".as_slice());
    fs::remove_file(&rt, name.as_str())?;
    let gone = shelf.open_read(&name)?;
    assert!(rt; is_missing(gone, &mut shelf, &name));
    Ok(())
}

/// Whether a second shelf is refused the disk while it is out, and lends it afterwards. A reader is lent it in any case.
#[test]
fn a_file_has_one_writer_at_a_time(rt: HostRuntime) -> Result<(), Fail> {
    let name = Name::of(rt.alloc(), b"inc-real-lock")?.ok_or("a name")?;
    let _ = fs::remove_file(&rt, name.as_str());
    let mut first = FolderShelf::new(&rt);
    let mut second = FolderShelf::new(&rt);
    let disk = first.create_disk(&name)?.ok_or("a new file")?;
    let refused = matches!(second.open_disk(&name), Err(LendFault::Failed));
    let read = second.open_read(&name)?;
    let missing = is_missing(read, &mut second, &name);
    first.close_disk(&name, disk);
    assert!(rt; refused);
    assert!(rt; !missing);
    let disk = second.open_disk(&name)?.ok_or("a disk")?;
    let refused = matches!(first.open_disk(&name), Err(LendFault::Failed));
    second.close_disk(&name, disk);
    assert!(rt; refused);
    fs::remove_file(&rt, name.as_str())?;
    Ok(())
}

#[test]
fn nobody_rests_past_a_ring_or_past_the_time(rt: HostRuntime) -> Result<(), Fail> {
    let bell = RealBell::new(&rt);
    let seen = bell.seen();
    bell.rest(seen, 0);
    bell.ring();
    bell.rest(seen, u64::MAX);
    assert_eq!(rt; bell.seen(), 1);
    Ok(())
}

/// What is written stands in the file before the sink is gone.
#[test]
fn a_file_source_reads_what_a_file_sink_wrote(rt: HostRuntime) -> Result<(), Fail> {
    let path = "inc-real-stream";
    let mut sink = FileSink::create(&rt, path);
    let mut source = FileSource::open(&rt, path);
    let mut room = [0; 8];
    assert_eq!(rt; sink.write(b"bytes"), Ok(5));
    assert_eq!(rt; source.read(&mut room), Ok(5));
    assert!(rt; &room[..5] == b"bytes".as_slice());
    assert_eq!(rt; source.read(&mut room), Ok(0));
    fs::remove_file(&rt, path)?;
    Ok(())
}

#[test]
fn a_pipe_is_read_by_its_path_while_it_is_written(rt: HostRuntime) -> Result<(), Fail> {
    let (reader, writer) = io::pipe(&rt)?;
    let from = format!(in rt.alloc(); "/proc/self/fd/{}", reader.as_raw_fd())?;
    let to = format!(in rt.alloc(); "/proc/self/fd/{}", writer.as_raw_fd())?;
    let mut sink = FileSink::create(&rt, to.as_str());
    let mut source = FileSource::open(&rt, from.as_str());
    drop(writer);
    let mut room = [0; 8];
    assert_eq!(rt; sink.write(b"first"), Ok(5));
    assert_eq!(rt; source.read(&mut room), Ok(5));
    assert!(rt; &room[..5] == b"first".as_slice());
    assert_eq!(rt; sink.write(b"then"), Ok(4));
    drop(sink);
    assert_eq!(rt; source.read(&mut room), Ok(4));
    assert_eq!(rt; source.read(&mut room), Ok(0));
    Ok(())
}

#[test]
fn a_path_that_isnt_there_fails_at_each_call(rt: HostRuntime) -> Result<(), Fail> {
    let mut source = FileSource::open(&rt, "inc-real-nowhere/stream");
    let mut sink = FileSink::create(&rt, "inc-real-nowhere/requests");
    let mut room = [0; 8];
    assert_eq!(rt; source.read(&mut room), Err(Failed));
    assert_eq!(rt; source.read(&mut room), Err(Failed));
    assert_eq!(rt; sink.write(b"bytes"), Err(Failed));
    assert_eq!(rt; sink.write(b"bytes"), Err(Failed));
    assert_eq!(rt; NullSink::new().write(b"bytes"), Ok(5));
    Ok(())
}
