ghost use Rattle.std.specs.Prelude.{◌≡◌, [], ◌∷◌, IfOk};
ghost use Rattle.inc_disk.specs.Disk.{settled};
ghost use Rattle.inc_layout.specs.Fresh.{IsFreshImage, image_of};

use crate::disks::{Left, left_on};
use inc_disk::MemDisk;
use inc_header::{HeaderFault, read_header};
use inc_io::Bytes;
use inc_layout::{FreshImage, fresh_image, fresh_unsigned};
use inc_recover::make_file;
use inc_samples::{ID, blob_of_one, one_fresh};
use std::alloc::Global;
use std::test::Fail;

const ROOM: u64 = 1000;

/// The device calls of a whole run: the zeros in place of the magic number, the front, the zeros behind it and the magic number are
/// written, and of these the first and the last two are followed by a sync.
const WHOLE: u32 = 7;

fn empty_disk(alloc: Global, room: u64, calls: u32) -> Result<MemDisk, Fail>
    ensures empty { IfOk result (λ disk. disk.history ≡ settled [] ∷ []) }
{
    let bytes = Bytes::from_vec(Vec::new(alloc));
    Ok(MemDisk::new(alloc, bytes, room, calls, Vec::new(alloc))?)
}

/// The disk after a run for this image that fails after so many device calls.
fn disk_after(alloc: Global, image: &FreshImage, room: u64, calls: u32) -> Result<MemDisk, Fail>
    requires fresh { IsFreshImage (image_of image.now) }
{
    match make_file(empty_disk(alloc, room, calls)?, image) {
        Ok(disk) => Ok(disk),
        Err((_, disk)) => Ok(disk),
    }
}

/// The same of the file of 4096 bytes.
fn one_after(alloc: Global, calls: u32) -> Result<MemDisk, Fail> {
    let image = fresh_image(alloc, 4096, ID, blob_of_one(alloc)?.as_slice())?;
    disk_after(alloc, &image, ROOM, calls)
}

fn left_after(alloc: Global, calls: u32) -> Result<Left, Fail> {
    left_on(alloc, &one_after(alloc, calls)?)
}

#[test]
fn a_whole_run_settles_the_outside_file(rt: HostRuntime) -> Result<(), Fail> {
    let left = left_after(rt.alloc(), WHOLE)?;
    assert!(rt; left.calls == WHOLE && left.faults == 0);
    assert!(rt; left.reads.as_slice() == left.synced.as_slice());
    assert!(rt; left.reads.as_slice() == one_fresh(rt.alloc())?.as_slice());
    Ok(())
}

/// By which fault the file is refused that a run leaves which stops after so many calls.
fn refusal_after(alloc: Global, calls: u32) -> Result<Option<HeaderFault>, Fail> {
    let left = left_after(alloc, calls)?;
    if left.calls == calls.saturating_add(1) && left.faults == 1 {
        Ok(read_header(left.reads.as_slice()).err())
    } else {
        Err("one failing call".into())
    }
}

#[test]
fn a_run_that_stops_leaves_a_file_that_is_refused(rt: HostRuntime) -> Result<(), Fail> {
    for calls in 0..6 {
        let fault = if calls < 2 {
            HeaderFault::Short
        } else {
            HeaderFault::BadMagic
        };
        assert_eq!(rt; refusal_after(rt.alloc(), calls)?, Some(fault));
    }
    Ok(())
}

/// The outside file with these eight bytes in front.
fn with_front(alloc: Global, front: &[u8; 8]) -> Result<Vec<u8>, Fail> {
    let mut bytes = one_fresh(alloc)?;
    for (byte, new) in bytes.as_mut_slice().iter_mut().zip(front) {
        *byte = *new;
    }
    Ok(bytes)
}

/// Whether a crash may leave these bytes of a run that stops after so many calls.
fn may_leave(alloc: Global, calls: u32, image: &[u8]) -> Result<bool, Fail> {
    Ok(one_after(alloc, calls)?.is_image(image))
}

/// Whether a crash may leave the outside file with these bytes in front, and by which fault that is refused.
fn front_left(
    alloc: Global,
    calls: u32,
    front: &[u8; 8],
) -> Result<(bool, Option<HeaderFault>), Fail> {
    let image = with_front(alloc, front)?;
    let fault = read_header(image.as_slice()).err();
    Ok((may_leave(alloc, calls, image.as_slice())?, fault))
}

/// Whether it may leave the outside file, with zeros behind it up to this length.
fn whole_left(alloc: Global, calls: u32, len: usize) -> Result<bool, Fail> {
    let mut image = one_fresh(alloc)?;
    image.resize(len, 0)?;
    may_leave(alloc, calls, image.as_slice())
}

#[test]
fn a_stop_in_the_last_write_leaves_no_good_magic_or_the_whole_file(
    rt: HostRuntime,
) -> Result<(), Fail> {
    let refused = (true, Some(HeaderFault::BadMagic));
    assert_eq!(rt; front_left(rt.alloc(), 5, &[0; 8])?, refused);
    assert!(rt; whole_left(rt.alloc(), 5, 260)?);
    assert!(rt; !whole_left(rt.alloc(), 4, 260)?);
    assert!(rt; !whole_left(rt.alloc(), 5, 261)?);
    Ok(())
}

#[test]
fn without_the_last_sync_the_magic_may_still_be_torn(rt: HostRuntime) -> Result<(), Fail> {
    let torn = with_front(rt.alloc(), b"INCFS\0\0\x01")?;
    assert!(rt; may_leave(rt.alloc(), 6, torn.as_slice())?);
    let left = left_after(rt.alloc(), 6)?;
    assert!(rt; left.reads.as_slice() == one_fresh(rt.alloc())?.as_slice());
    Ok(())
}

/// An unsigned file of 2^26 bytes of content has 163,840 bytes of entries.
fn left_by_large(alloc: Global) -> Result<Left, Fail> {
    let image = fresh_unsigned(alloc, 1 << 26, ID)?;
    left_on(alloc, &disk_after(alloc, &image, 200_000, 1000)?)
}

#[test]
fn zeros_come_in_pieces_of_64_kib(rt: HostRuntime) -> Result<(), Fail> {
    let left = left_by_large(rt.alloc())?;
    let reads = left.reads.as_slice();
    assert_eq!(rt; (left.calls, reads.len()), (WHOLE + 2, 163_986));
    assert!(rt; reads.iter().skip(146).all(|byte| *byte == 0));
    Ok(())
}
