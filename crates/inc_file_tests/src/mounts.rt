ghost use Rattle.std.specs.Prelude.{◌≤◌, length, IfSome, IsTrue};
ghost use Rattle.inc_disk.specs.Disk.{reads_of};

use crate::disks::{Left, left_on};
use inc_disk::MemDisk;
use inc_entry::Class;
use inc_fill::{Block, open_gate, padded, settle, write_data, write_place};
use inc_header::HeaderFault;
use inc_io::{Bytes, Failed};
use inc_layout::LayoutFault;
use inc_md::StatusRecord;
use inc_recover::{MountFault, Mounted, mount_file};
use inc_samples::{changed, one_fresh};
use std::alloc::Global;
use std::test::Fail;

const ROOM: u64 = 1_000_000;

/// The place of the counts in the outside file.
const COUNTS_AT: usize = 161;

/// A disk with these bytes that fails after so many calls.
fn disk_of(alloc: Global, bytes: &[u8], calls: u32) -> Result<MemDisk, Fail> {
    let bytes = Bytes::of(alloc, bytes)?;
    Ok(MemDisk::new(alloc, bytes, ROOM, calls, Vec::new(alloc))?)
}

/// The disk after a mount, and the fault, where there is one.
fn disk_after(alloc: Global, disk: MemDisk) -> (MemDisk, Option<MountFault>) {
    match mount_file(alloc, disk) {
        Ok(Mounted { disk, opened: _ }) => (disk, None),
        Err((fault, disk)) => (disk, Some(fault)),
    }
}

/// The same of a disk with these bytes that fails after so many calls.
fn left_by(alloc: Global, bytes: &[u8], calls: u32) -> Result<(Left, Option<MountFault>), Fail> {
    let (disk, fault) = disk_after(alloc, disk_of(alloc, bytes, calls)?);
    Ok((left_on(alloc, &disk)?, fault))
}

fn fault_by(alloc: Global, bytes: &[u8], calls: u32) -> Result<Option<MountFault>, Fail> {
    Ok(left_by(alloc, bytes, calls)?.1)
}

/// The outside file with these bytes as its counts.
fn with_counts(alloc: Global, counts: &[u8; 8]) -> Result<Vec<u8>, Fail> {
    let mut bytes = one_fresh(alloc)?;
    for (byte, new) in bytes.as_mut_slice().iter_mut().skip(COUNTS_AT).zip(counts) {
        *byte = *new;
    }
    Ok(bytes)
}

#[test]
fn wrong_counts_are_mended_and_nothing_else_changes(rt: HostRuntime) -> Result<(), Fail> {
    let wrong = with_counts(rt.alloc(), &[9, 0, 0, 0, 7, 0, 0, 1])?;
    let (left, _) = left_by(rt.alloc(), wrong.as_slice(), 1000)?;
    assert!(rt; left.reads.as_slice() == one_fresh(rt.alloc())?.as_slice());
    assert!(rt; left.synced.as_slice() == left.reads.as_slice());
    Ok(())
}

#[test]
fn right_counts_are_not_written(rt: HostRuntime) -> Result<(), Fail> {
    let right = left_by(rt.alloc(), one_fresh(rt.alloc())?.as_slice(), 1000)?
        .0
        .calls;
    let wrong = with_counts(rt.alloc(), &[1, 0, 0, 0, 0, 0, 0, 0])?;
    let mended = left_by(rt.alloc(), wrong.as_slice(), 1000)?.0.calls;
    assert_eq!(rt; mended, right.saturating_add(2));
    Ok(())
}

#[test]
fn a_failed_sync_is_a_fault_of_the_disk(rt: HostRuntime) -> Result<(), Fail> {
    let file = one_fresh(rt.alloc())?;
    let first = fault_by(rt.alloc(), file.as_slice(), 0)?;
    assert_eq!(rt; first, Some(MountFault::DiskFault));
    let read = fault_by(rt.alloc(), file.as_slice(), 1)?;
    assert_eq!(rt; read, Some(MountFault::Layout(LayoutFault::ReadFault)));
    Ok(())
}

#[test]
fn a_failed_sync_of_the_counts_is_a_fault_of_the_disk(rt: HostRuntime) -> Result<(), Fail> {
    let wrong = with_counts(rt.alloc(), &[0, 0, 0, 0, 0, 0, 0, 1])?;
    let calls = left_by(rt.alloc(), wrong.as_slice(), 1000)?.0.calls;
    let (left, failed) = left_by(rt.alloc(), wrong.as_slice(), calls.saturating_sub(1))?;
    assert_eq!(rt; failed, Some(MountFault::DiskFault));
    assert!(rt; left.synced.as_slice() == wrong.as_slice());
    assert!(rt; left.reads.as_slice() == one_fresh(rt.alloc())?.as_slice());
    Ok(())
}

#[test]
fn what_is_no_file_is_refused_and_given_back(rt: HostRuntime) -> Result<(), Fail> {
    let mut short = one_fresh(rt.alloc())?;
    short.truncate(40);
    let (left, refused) = left_by(rt.alloc(), short.as_slice(), 1000)?;
    let fault = MountFault::Layout(LayoutFault::Header(HeaderFault::Short));
    assert_eq!(rt; refused, Some(fault));
    assert!(rt; left.reads.as_slice() == short.as_slice());
    Ok(())
}

/// Whether a write may begin at this place.
fn is_place(disk: &MemDisk, at: u64) -> bool
    ensures near { IsTrue result → at ≤ 1000000 }
    ensures there { IsTrue result → IfSome (reads_of disk.now.history) (λ bytes. at ≤ length bytes) }
{
    at <= ROOM && at <= disk.bytes().len() as u64
}

/// Fills the file's one block, whose entry is at 250.
fn fill(disk: &mut MemDisk, block: &Block) -> Result<(), Failed> {
    if is_place(disk, 260) {
        write_data(disk, 260, block)?;
    }
    if is_place(disk, 250) {
        write_place(disk, 250, 260)?;
    }
    settle(disk)?;
    if is_place(disk, 257) {
        open_gate(disk, 250)?;
    }
    settle(disk)
}

/// The disk of a fill of the file's one block that stops at the call with this number.
fn stopped_fill(alloc: Global, calls: u32) -> Result<MemDisk, Fail> {
    let mut disk = disk_of(alloc, one_fresh(alloc)?.as_slice(), calls)?;
    let block = padded(alloc, &[0; 4096], 4096)?;
    let _ = fill(&mut disk, &block);
    Ok(disk)
}

/// What the disk reads as, with 0x5a in place of every byte that wasn't synced.
fn torn(alloc: Global, disk: &MemDisk) -> Result<Vec<u8>, Fail> {
    let mut image = Vec::new(alloc);
    for (i, byte) in disk.bytes().iter().enumerate() {
        let lost = disk.dirty(i as u64);
        image.push(if lost { 0x5a } else { *byte })?;
    }
    Ok(image)
}

/// What a mounted file says of its one block.
#[derive(Drop)]
struct Said {
    class: Option<Class>,
    status: Option<StatusRecord>,
    reads: Vec<u8>,
    is_synced: bool,
}

fn said_by(alloc: Global, mounted: &Mounted<MemDisk>) -> Result<Said, Fail> {
    Ok(Said {
        class: mounted.opened.classes.as_slice().first().copied(),
        status: mounted.opened.records.status,
        reads: mounted.disk.bytes().to_vec(alloc)?,
        is_synced: mounted.disk.synced() == mounted.disk.bytes(),
    })
}

fn said_on(alloc: Global, disk: MemDisk) -> Result<Said, Fail> {
    match mount_file(alloc, disk) {
        Ok(mounted) => said_by(alloc, &mounted),
        Err(_) => Err("a mounted file".into()),
    }
}

/// What is said once a crash has left this image of a fill that stopped at the call with this number.
fn said_after(alloc: Global, calls: u32, image: &[u8]) -> Result<Said, Fail> {
    let image = Bytes::of(alloc, image)?;
    match stopped_fill(alloc, calls)?.crash(image) {
        Ok(crashed) => said_on(alloc, crashed),
        Err(_) => Err("an image".into()),
    }
}

/// Mounts three of the images that a crash may leave of such a fill.
fn is_mounted_after(alloc: Global, calls: u32) -> Result<(), Fail> {
    let disk = stopped_fill(alloc, calls)?;
    let _ = said_after(alloc, calls, disk.synced())?;
    let _ = said_after(alloc, calls, disk.bytes())?;
    let _ = said_after(alloc, calls, torn(alloc, &disk)?.as_slice())?;
    Ok(())
}

#[test]
fn what_a_stopped_fill_leaves_is_mounted(rt: HostRuntime) -> Result<(), Fail> {
    for calls in 0..6 {
        is_mounted_after(rt.alloc(), calls)?;
    }
    Ok(())
}

/// The class of the file's block where a crash inside the gate's write left this byte.
fn class_after(alloc: Global, byte: u8) -> Result<Option<Class>, Fail> {
    let disk = stopped_fill(alloc, 4)?;
    let image = changed(alloc, disk.bytes(), &[(257, byte)])?;
    Ok(said_after(alloc, 4, image.as_slice())?.class)
}

#[test]
fn a_torn_gate_reads_as_open_or_closed(rt: HostRuntime) -> Result<(), Fail> {
    let open = Class::OpenAt {
        place: 260,
        len: 4096,
    };
    assert_eq!(rt; class_after(rt.alloc(), 0x10)?, Some(open));
    assert_eq!(rt; class_after(rt.alloc(), 0x73)?, Some(Class::Closed));
    Ok(())
}

#[test]
fn the_count_of_a_filled_block_is_written(rt: HostRuntime) -> Result<(), Fail> {
    let said = said_on(rt.alloc(), stopped_fill(rt.alloc(), 1000)?)?;
    let status = StatusRecord {
        at: 161,
        data_written: 1,
        hash_written: 0,
    };
    assert!(rt; said.status == Some(status) && said.is_synced);
    let front = with_counts(rt.alloc(), &[1, 0, 0, 0, 0, 0, 0, 0])?;
    let is_front = said.reads.as_slice().get(..169) == front.as_slice().get(..169);
    assert!(rt; is_front);
    Ok(())
}
