//! Streams of frames, and what comes of a fill from each.
ghost use Rattle.std.specs.Prelude.{◌^◌, ◌≤◌, IfOk};
ghost use Rattle.inc_disk.specs.Disk.{Now, settled};
ghost use Rattle.inc_layout.specs.opening.Opening.{IsSoundOpened};
ghost use Rattle.inc_layout.specs.state.Reopening.{IsMountedOn};
ghost use Rattle.inc_filling.specs.Fillable.{IsFillable};

use inc_cell::FileCell;
use inc_cell_samples::files::{HASH, MANY, blocks, bytes_of, fresh};
use inc_cell_samples::steps::{Cell, ONE};
use inc_disk::MemDisk;
use inc_filling::{FillEnd, FillFailure, Filled, PieceRefusal, fill_from, new_cells_are_fillable};
use inc_frame::FrameFault;
use inc_io::{Bytes, MemSource};
use inc_model::FillError;
use inc_recover::{Mounted, mount_file};
use inc_tree::{Block, Digest32};
use sha2::{Digest, Sha256};
use std::alloc::Global;
use std::test::Fail;

const ROOM: u64 = 1_000_000;

/// The SHA-256 of the whole file, as another program fills it.
const WHOLE_SUM: Digest32 = [
    0x64, 0x63, 0xd0, 0x1b, 0x3b, 0xb5, 0xeb, 0xbf, 0xc6, 0x65, 0x03, 0x45, 0xe0, 0xa8, 0x5f, 0x01,
    0xb8, 0x7e, 0xef, 0xa9, 0x1e, 0x0a, 0x45, 0xfc, 0xde, 0x9b, 0xbc, 0x2b, 0xf5, 0x56, 0xaf, 0xbb,
];

/// The frame of a block: of this file, or of another one, with its compression.
#[derive(Clone, Copy)]
pub struct Frame {
    hash: bool,
    number: u8,
    own: bool,
    compression: u8,
}

pub const HASH_BLOCK: Frame = Frame {
    hash: true,
    number: 0,
    own: true,
    compression: 0,
};

pub const FIRST: Frame = Frame {
    hash: false,
    number: 0,
    own: true,
    compression: 0,
};

pub const SECOND: Frame = Frame {
    hash: false,
    number: 1,
    own: true,
    compression: 0,
};

const FOREIGN: Frame = Frame {
    hash: false,
    number: 0,
    own: false,
    compression: 0,
};

const PACKED: Frame = Frame {
    hash: false,
    number: 0,
    own: true,
    compression: 1,
};

/// A stream of these frames, with so many bytes of its end cut off. Its source gives 5000 bytes a call, and fails at the call of this number.
struct Row {
    frames: &'static [Frame],
    cut: usize,
    fails: u64,
    answer: Result<Filled, FillFailure>,
    entries: usize,
}

pub const NEVER: u64 = 1000;

/// A hello has 8 bytes, a frame 25 beside its block's 4096, and the end one. A group of k blocks of which w are stored enters 3w + (k - w) + 4
/// events, and k + 2 where w is 0.
const ROWS: [Row; 6] = [
    Row {
        frames: &[HASH_BLOCK, FIRST, SECOND],
        cut: 0,
        fails: NEVER,
        answer: Ok(Filled {
            written: 3,
            present: 0,
            end: FillEnd::Done,
        }),
        entries: 13,
    },
    Row {
        frames: &[HASH_BLOCK, FIRST, SECOND, HASH_BLOCK, FIRST, SECOND],
        cut: 0,
        fails: NEVER,
        answer: Ok(Filled {
            written: 3,
            present: 3,
            end: FillEnd::Done,
        }),
        entries: 18,
    },
    Row {
        frames: &[HASH_BLOCK, FIRST],
        cut: 11,
        fails: NEVER,
        answer: Ok(Filled {
            written: 1,
            present: 0,
            end: FillEnd::Stream(FrameFault::Cut { at: 8240 }),
        }),
        entries: 7,
    },
    Row {
        frames: &[HASH_BLOCK, FOREIGN, SECOND],
        cut: 0,
        fails: NEVER,
        answer: Ok(Filled {
            written: 1,
            present: 0,
            end: FillEnd::Refused(PieceRefusal::UnknownFile),
        }),
        entries: 7,
    },
    Row {
        frames: &[HASH_BLOCK, SECOND, PACKED],
        cut: 0,
        fails: NEVER,
        answer: Ok(Filled {
            written: 2,
            present: 0,
            end: FillEnd::Refused(PieceRefusal::Refused(FillError::Compressed { piece: 0 })),
        }),
        entries: 10,
    },
    Row {
        frames: &[HASH_BLOCK, FIRST, SECOND],
        cut: 0,
        fails: 1,
        answer: Err(FillFailure::Source(None)),
        entries: 7,
    },
];

/// The bytes of a stream.
pub fn stream_of(alloc: Global, frames: &[Frame]) -> Result<Vec<u8>, Fail> {
    let blocks = blocks(alloc)?;
    let mut bytes = Vec::new(alloc);
    bytes.extend_from_slice(b"INCLDR\x01\x00")?;
    for frame in frames {
        let index = if frame.hash {
            HASH
        } else {
            u32::from(frame.number)
        };
        if let Some(block) = blocks.get(index as usize) {
            push_frame(&mut bytes, *frame, block)?;
        }
    }
    bytes.push(2)?;
    Ok(bytes)
}

fn push_frame(bytes: &mut Vec<u8>, frame: Frame, block: &Block) -> Result<(), Fail> {
    bytes.push(1)?;
    for place in 0..16u8 {
        bytes.push(if frame.own { place * 17 } else { 255 })?;
    }
    bytes.extend_from_slice(&[
        u8::from(frame.hash),
        frame.compression,
        frame.number,
        0,
        0,
        0,
        0,
        16,
    ])?;
    bytes.extend_from_slice(block.as_slice())?;
    Ok(())
}

fn disk_of(alloc: Global, bytes: &[u8]) -> Result<MemDisk, Fail> {
    let bytes = Bytes::of(alloc, bytes)?;
    Ok(MemDisk::new(alloc, bytes, ROOM, MANY, Vec::new(alloc))?)
}

/// The cell of a file with these bytes, over a disk that fails past so many calls.
pub fn fillable(alloc: Global, bytes: &[u8], calls: u32) -> Result<Cell, Fail>
    ensures fillable { IfOk result (λ cell. IsFillable cell) }
{
    match mount_file(alloc, disk_of(alloc, bytes)?) {
        Ok(mounted) => cell_on(alloc, mounted, calls),
        Err(_) => Err("a mounted file".into()),
    }
}

fn cell_on(alloc: Global, mounted: Mounted<MemDisk>, calls: u32) -> Result<Cell, Fail>
    requires sound { IsSoundOpened mounted.opened }
    requires short { mounted.opened.len ≤ 2 ^ 46 }
    requires settled { Now mounted.disk.history (IsMountedOn settled mounted.opened) }
    ensures fillable { IfOk result (λ cell. IsFillable cell) }
{
    let Mounted { mut disk, opened } = mounted;
    disk.allow(calls);
    new_cells_are_fillable();
    match FileCell::new(alloc, Mounted { disk, opened }, 0) {
        Ok(cell) => Ok(cell),
        Err(_) => Err("memory for a cell".into()),
    }
}

/// Fills from these bytes.
pub fn fill(
    alloc: Global,
    cell: &mut Cell,
    stream: Vec<u8>,
    fails: u64,
) -> Result<Result<Filled, FillFailure>, Fail>
    requires fillable { IsFillable cell.old }
{
    let fails = [fails].to_vec(alloc)?;
    let mut input = MemSource::new(Bytes::from_vec(stream), 5000, fails);
    Ok(fill_from(alloc, cell, ONE, &mut input))
}

fn comes_as_said(alloc: Global, row: &Row) -> Result<bool, Fail> {
    let mut stream = stream_of(alloc, row.frames)?;
    stream.truncate(stream.len().saturating_sub(row.cut));
    let mut cell = fillable(alloc, fresh(alloc)?.as_slice(), MANY)?;
    let answer = fill(alloc, &mut cell, stream, row.fails)?;
    Ok(answer == row.answer && cell.history().len() == row.entries)
}

#[test]
fn each_stream_comes_to_its_end_after_the_pieces_before_it(rt: HostRuntime) -> Result<(), Fail> {
    for row in &ROWS {
        assert!(rt; comes_as_said(rt.alloc(), row)?);
    }
    Ok(())
}

fn whole_file(alloc: Global) -> Result<Vec<u8>, Fail> {
    let stream = stream_of(alloc, &[HASH_BLOCK, FIRST, SECOND])?;
    let mut cell = fillable(alloc, fresh(alloc)?.as_slice(), MANY)?;
    let _ = fill(alloc, &mut cell, stream, NEVER)?;
    bytes_of(alloc, cell)
}

fn sum_of(bytes: &[u8]) -> Digest32 {
    let mut hasher = Sha256::new();
    hasher.update(bytes);
    hasher.finalize()
}

#[test]
fn a_stream_makes_the_file_that_another_program_makes(rt: HostRuntime) -> Result<(), Fail> {
    let bytes = whole_file(rt.alloc())?;
    assert_eq!(rt; sum_of(bytes.as_slice()), WHOLE_SUM);
    Ok(())
}
