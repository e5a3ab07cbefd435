// What a taken piece stores.
ghost use Rattle.std.specs.Prelude.{◌≡◌, None, IfOk};
ghost use Rattle.inc_filling.specs.Contents.{block_of_piece, index_of_piece};
ghost use Rattle.inc_filling.specs.Refusals.{refusal_of};

mod group;
mod padded_piece;

use crate::OutOfMemory;
pub use group::join_fillings;
use inc_cell::{Digested, FileCell};
use inc_disk::Disk;
use inc_frame::Piece;
use padded_piece::PaddedPiece;
use std::alloc::Global;

/// A block of a group, hashed before, and the index at which it is stored.
#[derive(Drop)]
pub struct Filling {
    pub index: u32,
    pub block: Digested,
}

impl Filling {
    /// What a piece stores that the file takes: its bytes that count, filled up to a block and hashed.
    pub fn of<D: Disk>(
        alloc: Global,
        cell: &FileCell<D>,
        piece: &Piece,
    ) -> Result<Filling, OutOfMemory>
        requires taken { refusal_of cell.now.opened piece.now ≡ None }
        ensures index { IfOk result (λ filling. filling.index ≡ index_of_piece cell.now.opened piece.now) }
        ensures block { IfOk result (λ filling. filling.block.bytes ≡ block_of_piece cell.now.opened piece.now) }
    {
        let padded = PaddedPiece::of(alloc, cell, piece)?;
        Ok(Filling {
            index: padded.index,
            block: Digested::of(padded.block, padded.len),
        })
    }
}
