ghost use Rattle.std.specs.Prelude.{◌+◌, ◌<◌, ◌≤◌, length, IfSome, IsTrue};
ghost use Rattle.inc_disk.specs.Disk.{reads_of};

use crate::{Block, open_gate, padded, settle, write_data, write_place, write_status};
use inc_disk::MemDisk;
use inc_io::{Bytes, Failed};
use std::alloc::Global;
use std::test::Fail;

const NEAR: u64 = 1_000_000;

/// What stands before the entries.
const FRONT: [u8; 250] = [0x11; 250];

/// A disk with a file of so many bytes: this front, and zeros.
fn disk_of(alloc: Global, front: &[u8], len: usize) -> Result<MemDisk, Fail> {
    let mut file = front.to_vec(alloc)?;
    file.resize(len, 0u8)?;
    Ok(MemDisk::new(alloc, Bytes::from_vec(file), NEAR, 1000, Vec::new(alloc))?)
}

fn has_room(disk: &MemDisk, at: u64) -> bool
    ensures far { IsTrue result → at < 1000000 }
    ensures there { IsTrue result → IfSome (reads_of disk.now.history) (λ bytes. at + 10 ≤ length bytes) }
{
    at < NEAR && at + 10 <= disk.bytes().len() as u64
}

fn is_place(disk: &MemDisk, at: u64) -> bool
    ensures far { IsTrue result → at < 1000000 }
    ensures there { IsTrue result → IfSome (reads_of disk.now.history) (λ bytes. at ≤ length bytes) }
{
    at < NEAR && at <= disk.bytes().len() as u64
}

/// The calls of a fill up to the gate's write, or those before the first that fails.
fn gate_written(
    disk: &mut MemDisk,
    entry_at: u64,
    place: u64,
    block: &Block,
) -> Result<(), Failed> {
    if !is_place(disk, place) {
        return Err(Failed);
    }
    write_data(disk, place, block)?;
    if !has_room(disk, entry_at) {
        return Err(Failed);
    }
    write_place(disk, entry_at, place)?;
    settle(disk)?;
    if !has_room(disk, entry_at) {
        return Err(Failed);
    }
    open_gate(disk, entry_at)
}

fn fill(disk: &mut MemDisk, entry_at: u64, place: u64, block: &Block) -> Result<(), Failed> {
    gate_written(disk, entry_at, place, block)?;
    settle(disk)
}

/// Whether the disk has these bytes from a place on.
fn holds(disk: &MemDisk, at: usize, wanted: &[u8]) -> bool {
    match disk.bytes().get(at..) {
        Some(rest) => rest.starts_with(wanted),
        None => false,
    }
}

/// Whether it has this byte so often from a place on.
fn repeats(disk: &MemDisk, at: usize, count: usize, byte: u8) -> bool {
    match disk.bytes().get(at..at.saturating_add(count)) {
        Some(part) => part.iter().all(|other| *other == byte),
        None => false,
    }
}

/// The block that is stored where `count` bytes were sent for one of `len`.
fn block_of(alloc: Global, byte: u8, count: usize, len: u32) -> Result<Block, Fail> {
    let mut sent = Vec::new(alloc);
    sent.resize(count, byte)?;
    if len > 4096 {
        return Err("a block's length".into());
    }
    Ok(padded(alloc, sent.as_slice(), len)?)
}

#[test]
fn a_filled_block_stands_at_the_end(rt: HostRuntime) -> Result<(), Fail> {
    let alloc = rt.alloc();
    let mut disk = disk_of(alloc, &FRONT, 260)?;
    let block = block_of(alloc, 0x21, 4096, 4096)?;
    fill(&mut disk, 250, 260, &block)?;
    assert_eq!(rt; disk.made(), 5);
    assert_eq!(rt; disk.bytes().len(), 4356);
    assert!(rt; holds(&disk, 0, &FRONT));
    assert!(rt; holds(&disk, 250, &[4, 1, 0, 0, 0, 0, 0, 0x10, 0, 0]));
    assert!(rt; repeats(&disk, 260, 4096, 0x21));
    assert!(rt; disk.synced() == disk.bytes());
    Ok(())
}

/// Whether a last block of 904 bytes is stored with zeros, of which this many were sent.
fn stored_with_zeros(alloc: Global, sent: usize) -> Result<bool, Fail> {
    let mut disk = disk_of(alloc, &FRONT, 8192)?;
    fill(&mut disk, 260, 8192, &block_of(alloc, 0x5a, sent, 904)?)?;
    let len = disk.bytes().len();
    Ok(len == 12288 && repeats(&disk, 8192, 904, 0x5a) && repeats(&disk, 9096, 3192, 0))
}

#[test]
fn the_last_block_is_stored_with_zeros(rt: HostRuntime) -> Result<(), Fail> {
    assert!(rt; stored_with_zeros(rt.alloc(), 904)?);
    assert!(rt; stored_with_zeros(rt.alloc(), 4096)?);
    Ok(())
}

/// Whether the gate's byte is kept back, and the bytes around it aren't.
fn is_gate_alone_dirty(disk: &MemDisk, entry_at: u64) -> bool
    requires { entry_at < 1000000 }
{
    for k in 0..10 {
        if disk.dirty(entry_at + k) != (k == 7) {
            return false;
        }
    }
    true
}

#[test]
fn a_written_gate_is_one_byte_on_its_way(rt: HostRuntime) -> Result<(), Fail> {
    let alloc = rt.alloc();
    let mut disk = disk_of(alloc, &FRONT, 260)?;
    let block = block_of(alloc, 0x21, 4096, 4096)?;
    gate_written(&mut disk, 250, 260, &block)?;
    assert_eq!(rt; disk.made(), 4);
    assert!(rt; is_gate_alone_dirty(&disk, 250));
    assert_eq!(rt; disk.synced().len(), 4356);
    Ok(())
}

#[test]
fn the_counts_stand_in_their_order(rt: HostRuntime) -> Result<(), Fail> {
    let alloc = rt.alloc();
    let mut disk = disk_of(alloc, &FRONT, 8192)?;
    assert!(rt; is_place(&disk, 161));
    write_status(&mut disk, 161, 2, 1)?;
    assert!(rt; holds(&disk, 161, &[2, 0, 0, 0, 1, 0, 0, 0]));
    Ok(())
}

/// A device error in the middle ends the fill, and the gate is closed.
#[test]
fn a_fill_ends_at_its_first_fault(rt: HostRuntime) -> Result<(), Fail> {
    let alloc = rt.alloc();
    let mut disk = disk_of(alloc, &FRONT, 260)?;
    let block = block_of(alloc, 0x21, 4096, 4096)?;
    disk.allow(2);
    assert!(rt; fill(&mut disk, 250, 260, &block).is_err());
    assert_eq!(rt; disk.made(), 3);
    assert!(rt; holds(&disk, 250, &[4, 1, 0, 0, 0, 0, 0, 0, 0, 0]));
    Ok(())
}
