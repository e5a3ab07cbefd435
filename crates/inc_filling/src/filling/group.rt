// What the pieces of a group store: their blocks are hashed four at once.
ghost use Rattle.std.specs.Prelude.{◌≡◌, length, IfOk};
ghost use Rattle.inc_filling.specs.Pieces.{AreTaken, StorePieces, fillings_joined};

use crate::filling::padded_piece::PaddedPiece;
use crate::{Filling, OutOfMemory};
use inc_cell::{Digested, FileCell};
use inc_disk::Disk;
use inc_frame::Piece;
use std::alloc::Global;

impl Filling {
    /// What each of the pieces stores, in their order: as `of`, four at once.
    pub fn group<D: Disk>(
        alloc: Global,
        cell: &FileCell<D>,
        pieces: &[Piece],
    ) -> Result<Vec<Filling>, OutOfMemory>
        requires taken { AreTaken cell.now.opened pieces.now }
        ensures stores { IfOk result (λ group. StorePieces cell.now.opened group.items pieces.now) }
    {
        let mut indices = Vec::with_capacity(alloc, pieces.len())?;
        let mut lens = Vec::with_capacity(alloc, pieces.len())?;
        let mut blocks = Vec::with_capacity(alloc, pieces.len())?;
        for at in 0..pieces.len() {
            let padded = PaddedPiece::of(alloc, cell, &pieces[at])?;
            indices.push(padded.index)?;
            lens.push(padded.len)?;
            blocks.push(padded.block)?;
        }
        let hashed = Digested::group(alloc, blocks, lens.as_slice())?;
        join_fillings(alloc, indices.as_slice(), hashed)
    }
}

/// Joins each index with its block, which were hashed together: a group in the order of both lists.
pub fn join_fillings(
    alloc: Global,
    indices: &[u32],
    blocks: Vec<Digested>,
) -> Result<Vec<Filling>, OutOfMemory>
    requires each { length blocks.items ≡ length indices.now }
    ensures value { IfOk result (λ group. group.items ≡ fillings_joined indices.now blocks.items) }
{
    let mut group = Vec::with_capacity(alloc, indices.len())?;
    for block in blocks {
        let index = indices[group.len()];
        group.push(Filling { index, block })?;
    }
    Ok(group)
}
