use inc_cell_samples::files::{
    FIRST_DIGEST, HASH, Plan, ROOT, SECOND_DIGEST, blocks, cell_of, fresh,
};
use inc_cell_samples::steps::{ONE, OTHER, Step, WHOLE, take_all};
use inc_disk::MemDisk;
use inc_io::Bytes;
use inc_layout::Opened;
use inc_recover::mount_file;
use std::alloc::Global;
use std::test::Fail;

/// The three blocks in two windows. Each settles what the other has written, and one goes on after the other's gate.
const BOTH: [Step; 16] = [
    Step::Claim(ONE),
    Step::Claim(OTHER),
    Step::Put(ONE, HASH),
    Step::Put(OTHER, 1),
    Step::Put(ONE, 0),
    Step::Place(OTHER, 1),
    Step::Place(ONE, HASH),
    Step::Place(ONE, 0),
    Step::Settle(ONE),
    Step::Gate(OTHER, 1),
    Step::Gate(ONE, HASH),
    Step::Settle(OTHER),
    Step::Gate(ONE, 0),
    Step::Settle(ONE),
    Step::Release(ONE),
    Step::Release(OTHER),
];

/// How many blocks a crash leaves at least and at most, by how many device calls the fill of the whole file has made: the first seven write
/// and settle blocks and places, three write gates, and the last settles these.
const WHOLE_LEAST: [usize; 12] = [0, 0, 0, 0, 0, 0, 0, 0, 0, 0, 0, 3];

const WHOLE_MOST: [usize; 12] = [0, 0, 0, 0, 0, 0, 0, 1, 2, 3, 3, 3];

/// The same for the two windows, where a sync comes between the second and the third gate.
const BOTH_LEAST: [usize; 13] = [0, 0, 0, 0, 0, 0, 0, 0, 0, 0, 2, 2, 3];

const BOTH_MOST: [usize; 13] = [0, 0, 0, 0, 0, 0, 0, 1, 2, 2, 3, 3, 3];

/// The disk of a new file where its calls past so many fail, once these steps were taken up to the first that failed.
fn stopped(alloc: Global, fresh: &[u8], steps: &[Step], calls: u32) -> Result<MemDisk, Fail> {
    let blocks = blocks(alloc)?;
    let mut cell = cell_of(alloc, fresh, Plan::After(calls))?;
    let _ = take_all(&mut cell, blocks.as_slice(), steps);
    let (disk, _) = cell.into_disk();
    Ok(disk)
}

/// What the disk reads as, with 0x5a in place of every byte that wasn't synced.
fn torn(alloc: Global, disk: &MemDisk) -> Result<Vec<u8>, Fail> {
    let mut image = Vec::new(alloc);
    for (at, byte) in disk.bytes().iter().enumerate() {
        let lost = disk.dirty(at as u64);
        image.push(if lost { 0x5a } else { *byte })?;
    }
    Ok(image)
}

/// How many of the file's blocks are there, where nothing else is.
fn blocks_there(opened: &Opened) -> Option<usize> {
    let wanted = [Some(FIRST_DIGEST), Some(SECOND_DIGEST), Some(ROOT)];
    let digests = opened.digests.as_slice();
    let there = digests.iter().filter(|digest| digest.is_some()).count();
    let right = digests
        .iter()
        .zip(wanted.iter())
        .filter(|(found, wanted)| *found == *wanted)
        .count();
    if there == right { Some(there) } else { None }
}

/// How many blocks a mount finds after a crash of this disk that left these bytes.
fn found_after(alloc: Global, disk: MemDisk, image: &[u8]) -> Result<usize, Fail> {
    let image = Bytes::of(alloc, image)?;
    match disk.crash(image) {
        Ok(disk) => found_on(alloc, disk),
        Err(_) => Err("an image".into()),
    }
}

fn found_on(alloc: Global, disk: MemDisk) -> Result<usize, Fail> {
    match mount_file(alloc, disk) {
        Ok(mounted) => Ok(blocks_there(&mounted.opened).ok_or("no other blocks")?),
        Err(_) => Err("a mounted file".into()),
    }
}

/// How many blocks are found after three crashes that may come now: all that wasn't synced is lost, is kept, or is torn.
fn found_in_three(alloc: Global, steps: &[Step], calls: u32) -> Result<[usize; 3], Fail> {
    let fresh = fresh(alloc)?;
    let disk = stopped(alloc, fresh.as_slice(), steps, calls)?;
    let synced = disk.synced().to_vec(alloc)?;
    let kept = disk.bytes().to_vec(alloc)?;
    let torn = torn(alloc, &disk)?;
    Ok([
        found_after(alloc, disk, synced.as_slice())?,
        found_after(
            alloc,
            stopped(alloc, fresh.as_slice(), steps, calls)?,
            kept.as_slice(),
        )?,
        found_after(
            alloc,
            stopped(alloc, fresh.as_slice(), steps, calls)?,
            torn.as_slice(),
        )?,
    ])
}

fn are_between(found: [usize; 3], least: usize, most: usize) -> bool {
    found.iter().all(|count| least <= *count && *count <= most)
}

#[test]
fn a_crash_in_a_fill_leaves_what_was_acknowledged(rt: HostRuntime) -> Result<(), Fail> {
    for (calls, (least, most)) in WHOLE_LEAST.iter().zip(WHOLE_MOST.iter()).enumerate() {
        let found = found_in_three(rt.alloc(), &WHOLE, calls as u32)?;
        assert!(rt; are_between(found, *least, *most), "after {calls} calls");
    }
    Ok(())
}

#[test]
fn a_crash_in_fills_of_two_windows_leaves_what_was_acknowledged(
    rt: HostRuntime,
) -> Result<(), Fail> {
    for (calls, (least, most)) in BOTH_LEAST.iter().zip(BOTH_MOST.iter()).enumerate() {
        let found = found_in_three(rt.alloc(), &BOTH, calls as u32)?;
        assert!(rt; are_between(found, *least, *most), "after {calls} calls");
    }
    Ok(())
}
