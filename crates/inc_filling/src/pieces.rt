// Pieces that are filled as one group.
ghost use Rattle.std.specs.Prelude.{◌≡◌, ◌<◌, ◌≤◌, length, vec_capacity};
ghost use Rattle.inc_filling.specs.Fillable.{IsFillable};
ghost use Rattle.inc_filling.specs.Pieces.{AreTaken, FillsPieces, piece_indices};
ghost use Rattle.inc_filling.specs.Grouped.{AreDistinct};

use crate::{FillStop, Filling, fill_group};
use inc_cell::FileCell;
use inc_disk::Disk;
use inc_frame::Piece;
use inc_model::Window;
use std::alloc::Global;

/// Fills in pieces that the file takes, as one group. Once it answers `Ok`, each of them is there and acknowledged, `stored` has the indices
/// that weren't open before, and the file reads as the definition of a fill makes it piece by piece.
pub fn fill_pieces<D: Disk>(
    alloc: Global,
    cell: &mut FileCell<D>,
    window: Window,
    pieces: &[Piece],
    stored: &mut Vec<u32>,
) -> Result<(), FillStop>
    requires fillable { IsFillable cell.old }
    requires taken { AreTaken cell.old.opened pieces.now }
    requires distinct { AreDistinct (piece_indices cell.old.opened pieces.now) }
    requires some { 0 < length pieces.now }
    requires most { length pieces.now ≤ 64 }
    requires room { length pieces.now ≤ vec_capacity stored.old }
    ensures fills { FillsPieces cell.old window pieces.now result stored.new.items cell.new }
    ensures room { vec_capacity stored.new ≡ vec_capacity stored.old }
{
    let group = Filling::group(alloc, cell, pieces)?;
    // What is open in the bytes is what the map has, so that the bytes tell which pieces are stored.
    let _entries = cell.history();
    fill_group(cell, window, group.as_slice(), stored)
}
