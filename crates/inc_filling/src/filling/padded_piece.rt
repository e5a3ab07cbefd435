// A taken piece before it is hashed.
ghost use Rattle.std.specs.Prelude.{◌≡◌, ◌+◌, ◌<◌, ◌≤◌, nat_lt, is_some, None, IfOk, IfSome};
ghost use Rattle.inc_tree.specs.shape.Geometry.{data_blocks, hash_blocks};
ghost use Rattle.inc_cell.specs.events.Pieces.{kind_count, piece_index};
ghost use Rattle.inc_filling.specs.Contents.{block_of_piece, index_of_piece, len_of_piece};
ghost use Rattle.inc_filling.specs.Refusals.{refusal_of};

use crate::OutOfMemory;
use inc_cell::FileCell;
use inc_disk::Disk;
use inc_fill::padded;
use inc_frame::Piece;
use inc_tree::{Block, Geometry};
use std::alloc::Global;

/// The block of a piece, with zeros after the `len` bytes that count, and the index at which it is stored.
#[derive(Drop)]
pub(crate) struct PaddedPiece {
    pub(crate) index: u32,
    pub(crate) len: u32,
    pub(crate) block: Block,
}

impl PaddedPiece {
    /// Of a piece that the file takes.
    pub(crate) fn of<D: Disk>(
        alloc: Global,
        cell: &FileCell<D>,
        piece: &Piece,
    ) -> Result<PaddedPiece, OutOfMemory>
        requires taken { refusal_of cell.now.opened piece.now ≡ None }
        ensures index { IfOk result (λ padded. padded.index ≡ index_of_piece cell.now.opened piece.now) }
        ensures len { IfOk result (λ padded. padded.len ≡ len_of_piece cell.now.opened piece.now) }
        ensures most { IfOk result (λ padded. padded.len ≤ 4096) }
        ensures block { IfOk result (λ padded. padded.block ≡ block_of_piece cell.now.opened piece.now) }
    {
        let tree = &cell.opened().areas.geometry;
        let index = index_in(tree, piece.hash, piece.number).unwrap();
        let len = tree.block_len(index);
        let block = padded(alloc, piece.bytes.as_slice(), len)?;
        Ok(PaddedPiece { index, len, block })
    }
}

/// The index of a block, where the file has it.
fn index_in(tree: &Geometry, hash: bool, number: u32) -> Option<u32>
    ensures there { is_some result ≡ nat_lt number (kind_count tree.now hash) }
    ensures value { IfSome result (λ index. index ≡ piece_index tree.now hash number) }
    ensures within { IfSome result (λ index. index < data_blocks tree.now + hash_blocks tree.now) }
{
    let content = tree.data_blocks();
    if hash {
        if number >= tree.hash_blocks() {
            return None;
        }
        return Some(content + number);
    }
    if number >= content {
        return None;
    }
    Some(number)
}
