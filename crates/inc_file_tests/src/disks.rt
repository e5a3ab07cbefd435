use inc_disk::{Disk, MemDisk};
use inc_io::{Backing, Bytes, Failed};
use std::alloc::Global;
use std::test::Fail;

const ROOM: u64 = 1000;

const MANY: u32 = 1000;

const NEAR: u64 = 1_000_000;

fn disk_of(alloc: Global, bytes: &[u8]) -> Result<MemDisk, Fail> {
    Ok(MemDisk::new(alloc, Bytes::of(alloc, bytes)?, ROOM, MANY, Vec::new(alloc))?)
}

pub fn write(disk: &mut MemDisk, at: u64, piece: &[u8]) -> Result<(), Failed> {
    if (disk.bytes().len() as u64) < at {
        return Err(Failed);
    }
    if at >= NEAR {
        return Err(Failed);
    }
    if piece.len() as u64 >= NEAR {
        return Err(Failed);
    }
    disk.write_at(at, piece)
}

/// Two writes and no sync.
fn written_twice(alloc: Global) -> Result<MemDisk, Fail> {
    let mut disk = disk_of(alloc, b"abcd")?;
    write(&mut disk, 1, b"X")?;
    write(&mut disk, 3, b"YZ")?;
    Ok(disk)
}

/// Through the bounds alone, as a thread has it.
fn append_synced<D: Disk + Send>(disk: &mut D, piece: &[u8]) -> Result<u64, Failed> {
    let len = disk.len()?;
    if len < NEAR {
        if (piece.len() as u64) < NEAR {
            disk.write_at(len, piece)?;
            disk.sync()?;
        }
    }
    Ok(len)
}

/// What a disk has come to.
#[derive(Drop)]
pub struct Left {
    pub reads: Vec<u8>,
    pub synced: Vec<u8>,
    pub calls: u32,
    pub faults: u64,
}

pub fn left_on(alloc: Global, disk: &MemDisk) -> Result<Left, Fail> {
    Ok(Left {
        reads: disk.bytes().to_vec(alloc)?,
        synced: disk.synced().to_vec(alloc)?,
        calls: disk.made(),
        faults: disk.fault_count(),
    })
}

/// Whether it reads as these bytes, and its last sync left those.
fn has_come_to(left: &Left, reads: &[u8], synced: &[u8]) -> bool {
    left.reads.as_slice() == reads && left.synced.as_slice() == synced
}

fn images_among(disk: &MemDisk, images: &[&[u8]]) -> usize {
    images.iter().filter(|image| disk.is_image(**image)).count()
}

/// How many of these bytes a crash may leave of the disk of two writes.
fn images_left(alloc: Global, images: &[&[u8]]) -> Result<usize, Fail> {
    Ok(images_among(&written_twice(alloc)?, images))
}

#[test]
fn two_writes_and_no_sync_leave_any_bytes_in_both_ranges(rt: HostRuntime) -> Result<(), Fail> {
    let left = images_left(rt.alloc(), &[b"abcd".as_slice(), b"a?c?", b"a?c??"])?;
    let others = images_left(rt.alloc(), &[b"AbcdZ".as_slice(), b"aXc", b"aXcYZ!"])?;
    assert!(rt; left == 3 && others == 0);
    Ok(())
}

/// Whether two places of that disk were written since its last sync.
fn dirty_places(alloc: Global) -> Result<(bool, bool), Fail> {
    let disk = written_twice(alloc)?;
    Ok((disk.dirty(1), disk.dirty(2)))
}

#[test]
fn two_writes_are_read_and_not_synced(rt: HostRuntime) -> Result<(), Fail> {
    let left = left_on(rt.alloc(), &written_twice(rt.alloc())?)?;
    assert!(rt; has_come_to(&left, b"aXcYZ", b"abcd"));
    assert_eq!(rt; dirty_places(rt.alloc())?, (true, false));
    Ok(())
}

/// What a write past the disk's room leaves.
fn left_too_far(alloc: Global) -> Result<Left, Fail> {
    let mut disk = MemDisk::new(alloc, Bytes::of(alloc, b"abcd")?, 5, MANY, Vec::new(alloc))?;
    match write(&mut disk, 3, b"UVWX") {
        Ok(()) => Err("a failure".into()),
        Err(_) => left_on(alloc, &disk),
    }
}

#[test]
fn a_failing_write_lets_a_front_through(rt: HostRuntime) -> Result<(), Fail> {
    let left = left_too_far(rt.alloc())?;
    assert!(rt; left.reads.as_slice() == b"abcUV".as_slice() && left.faults == 1);
    Ok(())
}

/// Which of these calls succeed: two syncs, a length, and after a further call is allowed a length again.
fn successes(disk: &mut MemDisk) -> [bool; 4] {
    let first = disk.sync().is_ok();
    let second = disk.sync().is_ok();
    let third = disk.len().is_ok();
    disk.allow(1);
    [
        first,
        second,
        third,
        disk.len() == Ok(4) && disk.made() == 4,
    ]
}

/// Those of a disk whose first call is to fail and which allows two.
fn planned(alloc: Global) -> Result<[bool; 4], Fail> {
    let bytes = Bytes::of(alloc, b"abcd")?;
    let failing = [0u64].to_vec(alloc)?;
    let mut disk = MemDisk::new(alloc, bytes, ROOM, 2, failing)?;
    Ok(successes(&mut disk))
}

#[test]
fn a_disk_fails_at_planned_calls_and_past_the_last(rt: HostRuntime) -> Result<(), Fail> {
    let [first, second, third, fourth] = planned(rt.alloc())?;
    assert!(rt; !first && second && !third && fourth);
    Ok(())
}

/// The disk of two writes after a crash that left this image, where one may.
fn crashed(alloc: Global, image: &[u8]) -> Result<Option<MemDisk>, Fail> {
    let image = Bytes::of(alloc, image)?;
    Ok(written_twice(alloc)?.crash(image).ok())
}

/// What an append and a sync leave after such a crash.
fn left_after_crash(alloc: Global, image: &[u8]) -> Result<Option<Left>, Fail> {
    let Some(mut disk) = crashed(alloc, image)? else {
        return Ok(None);
    };
    match append_synced(&mut disk, b"!") {
        Ok(_) => Ok(Some(left_on(alloc, &disk)?)),
        Err(_) => Err("an append".into()),
    }
}

/// Whether a crash right after one with this image may leave the bytes from before it.
fn forgets(alloc: Global, image: &[u8]) -> Result<bool, Fail> {
    match crashed(alloc, image)? {
        Some(disk) => Ok(!disk.is_image(b"abcd")),
        None => Ok(false),
    }
}

#[test]
fn a_crash_leaves_an_image_and_settles_it(rt: HostRuntime) -> Result<(), Fail> {
    assert!(rt; left_after_crash(rt.alloc(), b"abC?Z")?.is_none());
    assert!(rt; forgets(rt.alloc(), b"a?c!Z")?);
    let left = left_after_crash(rt.alloc(), b"a?c!Z")?.ok_or("an image")?;
    assert!(rt; left.synced.as_slice() == b"a?c!Z!".as_slice());
    Ok(())
}
