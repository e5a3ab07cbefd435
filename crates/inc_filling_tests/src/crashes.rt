//! A fill that a fault has ended, and a crash after it.

use crate::streams::{FIRST, HASH_BLOCK, NEVER, SECOND, fill, fillable, stream_of};
use inc_cell_samples::files::{HASH, ROOT, fresh};
use inc_disk::MemDisk;
use inc_filling::{FillFailure, FillStop};
use inc_io::Bytes;
use inc_recover::mount_file;
use std::alloc::Global;
use std::test::Fail;

/// The device calls of a group of one block that is stored: its block, its place, a sync, its gate, a sync.
const FIRST_GROUP: u32 = 5;

/// The disk of a fill that stops past so many device calls. Its first group is the hash block; the second has it again, and both data blocks.
fn stopped(alloc: Global, calls: u32) -> Result<MemDisk, Fail> {
    let stream = stream_of(alloc, &[HASH_BLOCK, HASH_BLOCK, FIRST, SECOND])?;
    let mut cell = fillable(alloc, fresh(alloc)?.as_slice(), calls)?;
    match fill(alloc, &mut cell, stream, NEVER)? {
        Err(FillFailure::Stopped(FillStop::DiskFault)) => {
            let (disk, _) = cell.into_disk();
            Ok(disk)
        }
        _ => Err("a fault of the disk".into()),
    }
}

/// Whether a mount finds the hash block once all that wasn't synced is lost.
fn hash_is_found(alloc: Global, calls: u32) -> Result<bool, Fail> {
    let disk = stopped(alloc, calls)?;
    let image = Bytes::of(alloc, disk.synced())?;
    match disk.crash(image) {
        Ok(disk) => found_on(alloc, disk),
        Err(_) => Err("an image".into()),
    }
}

fn found_on(alloc: Global, disk: MemDisk) -> Result<bool, Fail> {
    match mount_file(alloc, disk) {
        Ok(mounted) => {
            Ok(mounted.opened.digests.as_slice().get(HASH as usize) == Some(&Some(ROOT)))
        }
        Err(_) => Err("a mounted file".into()),
    }
}

#[test]
fn a_group_that_was_told_outlives_the_fault_of_the_next(rt: HostRuntime) -> Result<(), Fail> {
    for further in [0, 4, 7u32] {
        assert!(rt; hash_is_found(rt.alloc(), FIRST_GROUP + further)?);
    }
    Ok(())
}
