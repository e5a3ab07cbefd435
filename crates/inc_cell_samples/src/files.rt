//! The file of 5000 bytes with two data blocks and one hash block, whose digests come from a program outside this repository.
ghost use Rattle.std.specs.Prelude.{◌≡◌, [], ◌∷◌, IfOk};
ghost use Rattle.inc_disk.specs.Disk.{settled};

use crate::steps::Cell;
use inc_cell::FileCell;
use inc_disk::MemDisk;
use inc_fill::padded;
use inc_io::Bytes;
use inc_layout::{FreshImage, fresh_image, fresh_unsigned};
use inc_recover::{Mounted, make_file, mount_file};
use inc_tree::{Block, Digest32};
use std::alloc::Global;
use std::test::Fail;

const ID: [u8; 16] = [
    0x00, 0x11, 0x22, 0x33, 0x44, 0x55, 0x66, 0x77, 0x88, 0x99, 0xaa, 0xbb, 0xcc, 0xdd, 0xee, 0xff,
];

/// The digests of the two data blocks, the second as filled up with zeros.
pub const FIRST_DIGEST: Digest32 = [
    0xd8, 0xbc, 0xdf, 0x0a, 0xd0, 0x7a, 0x52, 0xa3, 0xd4, 0xc8, 0x79, 0x6c, 0x80, 0xc2, 0x59, 0x87,
    0x09, 0xb0, 0x7f, 0x9d, 0x3c, 0xd8, 0x5e, 0x0d, 0x36, 0x08, 0x89, 0x18, 0x82, 0x46, 0xbb, 0xce,
];

pub const SECOND_DIGEST: Digest32 = [
    0x36, 0x8e, 0x0c, 0x88, 0x9e, 0x7b, 0x59, 0xf2, 0xb3, 0x24, 0x71, 0x15, 0x7e, 0x79, 0x66, 0x9d,
    0xae, 0x12, 0xca, 0x60, 0xa4, 0xc7, 0xdf, 0x75, 0x24, 0x9a, 0xbd, 0xc9, 0xe1, 0x7e, 0x30, 0xb4,
];

/// The digest of the hash block, which is the file's root.
pub const ROOT: Digest32 = [
    0xdf, 0x5a, 0x2b, 0x4e, 0x4a, 0x3b, 0xd0, 0x35, 0x9c, 0x4d, 0xe9, 0x91, 0xad, 0x79, 0x24, 0x1e,
    0xc1, 0x29, 0x72, 0xb8, 0xf9, 0xf4, 0x72, 0x92, 0x53, 0x4c, 0xe7, 0x9d, 0x10, 0x7a, 0xbb, 0x76,
];

/// The signature blob up to its root: version 2, a hashing part of 45 bytes, SHA-256, blocks of 2^12 bytes, no salt, a root of 32 bytes.
const BLOB_FRONT: [u8; 21] = [
    2, 0, 0, 0, 45, 0, 0, 0, 1, 0, 0, 0, 12, 0, 0, 0, 0, 32, 0, 0, 0,
];

/// The index of the hash block's entry.
pub const HASH: u32 = 2;

const SIZE: u64 = 5000;

const ROOM: u64 = 1_000_000;

/// More device calls than any test makes.
pub const MANY: u32 = 1_000_000;

const READERS: u32 = 64;

/// The content: from one byte to the next one more, and one more again at each block, by the modulus 251.
pub fn content(alloc: Global) -> Result<Vec<u8>, Fail> {
    let mut bytes = Vec::new(alloc);
    for place in 0..5000u32 {
        bytes.push(((7 + place + place / 4096) % 251) as u8)?;
    }
    Ok(bytes)
}

/// The file's blocks by their indices, as they are stored.
pub fn blocks(alloc: Global) -> Result<Vec<Block>, Fail> {
    let content = content(alloc)?;
    let (first, second) = content.as_slice().split_at(content.len().min(4096));
    let mut digests = FIRST_DIGEST.to_vec(alloc)?;
    digests.extend_from_slice(SECOND_DIGEST.as_slice())?;
    let mut blocks = Vec::new(alloc);
    for bytes in [first, second, digests.as_slice()] {
        blocks.push(padded(alloc, bytes, 4096)?)?;
    }
    Ok(blocks)
}

fn blob(alloc: Global) -> Result<Vec<u8>, Fail> {
    let mut blob = BLOB_FRONT.to_vec(alloc)?;
    blob.extend_from_slice(ROOT.as_slice())?;
    blob.extend_from_slice(&[0; 4])?;
    Ok(blob)
}

fn empty_disk(alloc: Global) -> Result<MemDisk, Fail>
    ensures empty { IfOk result (λ disk. disk.history ≡ settled [] ∷ []) }
{
    let bytes = Bytes::from_vec(Vec::new(alloc));
    Ok(MemDisk::new(alloc, bytes, ROOM, MANY, Vec::new(alloc))?)
}

/// The file before a block has come.
pub fn fresh(alloc: Global) -> Result<Vec<u8>, Fail> {
    let image = fresh_image(alloc, SIZE, ID, blob(alloc)?.as_slice())?;
    match make_file(empty_disk(alloc)?, &image) {
        Ok(disk) => Ok(disk.bytes().to_vec(alloc)?),
        Err(_) => Err("a made file".into()),
    }
}

/// The same without a signature, so without a tree.
pub fn fresh_flat(alloc: Global) -> Result<Vec<u8>, Fail> {
    let image = fresh_unsigned(alloc, SIZE, ID)?;
    match make_file(empty_disk(alloc)?, &image) {
        Ok(disk) => Ok(disk.bytes().to_vec(alloc)?),
        Err(_) => Err("a made file".into()),
    }
}

/// What a disk is told to fail at, counted from its mount on.
#[derive(Clone, Copy)]
pub enum Plan {
    /// At all calls but the first ones.
    After(u32),
    /// At one call.
    At(u32),
}

/// The calls of a mount of these bytes.
fn calls_before(alloc: Global, bytes: &[u8]) -> Result<u32, Fail> {
    let bytes = Bytes::of(alloc, bytes)?;
    let disk = MemDisk::new(alloc, bytes, ROOM, MANY, Vec::new(alloc))?;
    match mount_file(alloc, disk) {
        Ok(Mounted { disk, opened: _ }) => Ok(disk.made()),
        Err(_) => Err("a mounted file".into()),
    }
}

/// A disk with these bytes that fails by a plan.
fn planned(alloc: Global, bytes: &[u8], plan: Plan) -> Result<MemDisk, Fail> {
    let before = calls_before(alloc, bytes)?;
    let mut failing = Vec::new(alloc);
    let limit = match plan {
        Plan::After(calls) => before.saturating_add(calls),
        Plan::At(call) => {
            failing.push(u64::from(before.saturating_add(call)))?;
            MANY
        }
    };
    Ok(MemDisk::new(alloc, Bytes::of(alloc, bytes)?, ROOM, limit, failing)?)
}

/// The cell of the file that this disk holds.
pub fn opened(alloc: Global, disk: MemDisk) -> Result<Cell, Fail> {
    match mount_file(alloc, disk) {
        Ok(mounted) => match FileCell::new(alloc, mounted, READERS) {
            Ok(cell) => Ok(cell),
            Err(_) => Err("memory for a cell".into()),
        },
        Err(_) => Err("a mounted file".into()),
    }
}

/// The cell of a file with these bytes, over a disk that fails by a plan.
pub fn cell_of(alloc: Global, bytes: &[u8], plan: Plan) -> Result<Cell, Fail> {
    opened(alloc, planned(alloc, bytes, plan)?)
}

/// The cell of a new file over a disk that doesn't fail.
pub fn fresh_cell(alloc: Global) -> Result<Cell, Fail> {
    cell_of(alloc, fresh(alloc)?.as_slice(), Plan::After(MANY))
}

/// What the disk of a cell reads as.
pub fn bytes_of(alloc: Global, cell: Cell) -> Result<Vec<u8>, Fail> {
    let (disk, _) = cell.into_disk();
    Ok(disk.bytes().to_vec(alloc)?)
}
