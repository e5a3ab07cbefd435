//! Two files without trees, and pieces of their blocks.
ghost use Rattle.std.specs.Prelude.{◌≡◌, ◌^◌, ◌≤◌, length, IfOk};
ghost use Rattle.inc_disk.specs.Disk.{Now, settled};
ghost use Rattle.inc_layout.specs.opening.Opening.{IsSoundOpened};
ghost use Rattle.inc_layout.specs.state.Reopening.{IsMountedOn};
ghost use Rattle.inc_loader.specs.Turns.{IsFreshLoader};

use inc_bytes::Id;
use inc_cell::FileCell;
use inc_disk::MemDisk;
use inc_frame::{Piece, PieceList};
use inc_io::Bytes;
use inc_layout::fresh_unsigned;
use inc_loader::{FakeLoader, Loader};
use inc_recover::{Mounted, make_file, mount_file};
use std::alloc::Global;
use std::test::Fail;

pub type Cell = FileCell<MemDisk>;

/// The file of 5000 bytes, with blocks of 4096 and of 904.
const FIRST: Id = [1; 16];

/// The file of 904 bytes.
const SECOND: Id = [2; 16];

const NO_FILE: Id = [3; 16];

const ROOM: u64 = 1_000_000;

/// More device calls than any test makes.
const MANY: u32 = 1_000_000;

fn cell_on(alloc: Global, mounted: Mounted<MemDisk>, readers: u32, calls: u32) -> Result<Cell, Fail>
    requires sound { IsSoundOpened mounted.opened }
    requires short { mounted.opened.len ≤ 2 ^ 46 }
    requires settled { Now mounted.disk.history (IsMountedOn settled mounted.opened) }
{
    let Mounted { mut disk, opened } = mounted;
    disk.allow(calls);
    match FileCell::new(alloc, Mounted { disk, opened }, readers) {
        Ok(cell) => Ok(cell),
        Err(_) => Err("memory for a cell".into()),
    }
}

/// The cell of a new file with so many readers, over a disk that makes so many calls more.
fn cell_of(alloc: Global, id: Id, size: u64, readers: u32, calls: u32) -> Result<Cell, Fail> {
    let image = fresh_unsigned(alloc, size, id)?;
    let bytes = Bytes::from_vec(Vec::new(alloc));
    let empty = MemDisk::new(alloc, bytes, ROOM, MANY, Vec::new(alloc))?;
    let Ok(disk) = make_file(empty, &image) else {
        return Err("a made file".into());
    };
    match mount_file(alloc, disk) {
        Ok(mounted) => cell_on(alloc, mounted, readers, calls),
        Err(_) => Err("a mounted file".into()),
    }
}

/// The first file, with so many readers.
pub fn first_cell(alloc: Global, readers: u32) -> Result<Cell, Fail> {
    cell_of(alloc, FIRST, 5000, readers, MANY)
}

/// The first file, on a disk that fails from now on.
pub fn torn_cell(alloc: Global) -> Result<Cell, Fail> {
    cell_of(alloc, FIRST, 5000, 1, 0)
}

/// The second file, with so many readers.
pub fn second_cell(alloc: Global, readers: u32) -> Result<Cell, Fail> {
    cell_of(alloc, SECOND, 904, readers, MANY)
}

/// A data block of a file, given with so many bytes.
#[derive(Clone, Copy)]
pub struct Block {
    id: Id,
    number: u32,
    len: usize,
}

pub const FIRST_BLOCK: Block = Block {
    id: FIRST,
    number: 0,
    len: 4096,
};

pub const LAST_BLOCK: Block = Block {
    id: FIRST,
    number: 1,
    len: 904,
};

/// The last block with other bytes than it has.
pub const SHORT_BLOCK: Block = Block {
    id: FIRST,
    number: 1,
    len: 100,
};

pub const ONLY_BLOCK: Block = Block {
    id: SECOND,
    number: 0,
    len: 904,
};

pub const STRAY_BLOCK: Block = Block {
    id: NO_FILE,
    number: 0,
    len: 904,
};

fn piece_of(alloc: Global, block: Block) -> Result<Piece, Fail> {
    let id = block.id;
    let bytes = vec![in alloc; 7u8; block.len]?;
    Ok(Piece {
        id,
        hash: false,
        number: block.number,
        compression: 0,
        bytes: Bytes::from_vec(bytes),
    })
}

fn pieces_of(alloc: Global, blocks: &[Block]) -> Result<Vec<Piece>, Fail>
    ensures count { IfOk result (λ pieces. length pieces.items ≡ length blocks.now) }
{
    let mut pieces = Vec::new(alloc);
    for block in blocks {
        pieces.push(piece_of(alloc, *block)?)?;
    }
    Ok(pieces)
}

/// A loader that gives these blocks in one call.
pub fn loader_of(alloc: Global, blocks: &[Block]) -> Result<FakeLoader, Fail>
    requires some { 1 ≤ length blocks.now }
    requires most { length blocks.now ≤ 64 }
    ensures fresh { IfOk result (λ loader. IsFreshLoader (⟦<FakeLoader as Loader>⟧.prepared loader) (⟦<FakeLoader as Loader>⟧.told loader) (⟦<FakeLoader as Loader>⟧.given loader)
        (⟦<FakeLoader as Loader>⟧.refused loader) (⟦<FakeLoader as Loader>⟧.ended loader) (⟦<FakeLoader as Loader>⟧.stopped loader)) }
{
    let pieces = pieces_of(alloc, blocks)?;
    let mut lists = Vec::new(alloc);
    lists.push(PieceList::from_vec(pieces))?;
    Ok(FakeLoader::new(alloc, lists, Vec::new(alloc)))
}
