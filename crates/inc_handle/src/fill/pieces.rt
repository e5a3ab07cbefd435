// Pieces that are filled as one group.
ghost use Rattle.std.specs.Prelude.{◌≡◌, ◌<◌, ◌≤◌, length, None, IfOk, is_some, IfSome};
ghost use Rattle.inc_filling.specs.Contents.{block_of_piece, index_of_piece, len_of_piece};
ghost use Rattle.inc_filling.specs.Pieces.{AreTaken, StorePieces};
ghost use Rattle.inc_filling.specs.Refusals.{refusal_of};

use super::checks::index_in;
use crate::{KnownFile, OutOfMemory};
use inc_cell::Digested;
use inc_fill::padded;
use inc_filling::{Filling, join_fillings};
use inc_frame::Piece;
use inc_tree::Block;
use std::alloc::Global;

/// What a piece stores, before it is hashed: its first `len` bytes count.
#[derive(Drop)]
struct StoredPiece {
    index: u32,
    len: u32,
    block: Block,
}

/// What a piece stores that the file takes: its bytes that count, filled up to a block.
fn stored_of(alloc: Global, known: &KnownFile, piece: &Piece) -> Result<StoredPiece, OutOfMemory>
    requires taken { refusal_of known.now.opened.value piece.now ≡ None }
    ensures index { IfOk result (λ stored. stored.index ≡ index_of_piece known.now.opened.value piece.now) }
    ensures len { IfOk result (λ stored. stored.len ≡ len_of_piece known.now.opened.value piece.now) }
    ensures most { IfOk result (λ stored. stored.len ≤ 4096) }
    ensures block { IfOk result (λ stored. stored.block ≡ block_of_piece known.now.opened.value piece.now) }
{
    let tree = &known.geometry;
    let index = index_in(tree, piece.hash, piece.number).unwrap();
    let len = tree.block_len(index);
    let block = padded(alloc, piece.bytes.as_slice(), len)?;
    Ok(StoredPiece { index, len, block })
}

/// What the pieces store, hashed before any turn, four at once.
pub(super) fn fillings_of(
    alloc: Global,
    known: &KnownFile,
    pieces: &[Piece],
) -> Result<Vec<Filling>, OutOfMemory>
    requires taken { AreTaken known.now.opened.value pieces.now }
    ensures stores { IfOk result (λ group. StorePieces known.now.opened.value group.items pieces.now) }
{
    let mut indices = Vec::with_capacity(alloc, pieces.len())?;
    let mut lens = Vec::with_capacity(alloc, pieces.len())?;
    let mut blocks = Vec::with_capacity(alloc, pieces.len())?;
    for at in 0..pieces.len() {
        let stored = stored_of(alloc, known, &pieces[at])?;
        indices.push(stored.index)?;
        lens.push(stored.len)?;
        blocks.push(stored.block)?;
    }
    let hashed = Digested::group(alloc, blocks, lens.as_slice())?;
    join_fillings(alloc, indices.as_slice(), hashed)
}
