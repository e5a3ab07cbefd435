// Which pieces of a stream a fill takes.
ghost use Rattle.std.specs.Prelude.{◌≡◌, length, min};
ghost use Rattle.inc_bytes.specs.Tests.{first_failing, judge};
ghost use Rattle.inc_cell.specs.events.Pieces.{piece_tests};
ghost use Rattle.inc_filling.specs.Refusals.{refusal_of};

use inc_cell::FileCell;
use inc_disk::Disk;
use inc_frame::Piece;
use inc_model::FillError;
use inc_tree::BLOCK_SIZE;

/// Why a fill doesn't take a piece.
#[derive(Clone, Copy, Debug, PartialEq, Eq)]
pub enum PieceRefusal {
    /// It is a piece of another file.
    UnknownFile,
    /// It may not be stored in this one: its block is out of range, compressed, of a wrong length, or its entry is damaged.
    Refused(FillError),
}

/// Whether the file takes a piece, and else the first cause by which it doesn't.
pub fn piece_refusal<D: Disk>(cell: &FileCell<D>, piece: &Piece) -> Option<PieceRefusal>
    ensures value { result ≡ refusal_of cell.now.opened piece.now }
{
    let opened = cell.opened();
    if piece.id != opened.header.id {
        return Some(PieceRefusal::UnknownFile);
    }
    match check_words(cell, piece) {
        Ok(()) => None,
        Err(error) => Some(PieceRefusal::Refused(error)),
    }
}

/// Judges a piece of this file by its words.
fn check_words<D: Disk>(cell: &FileCell<D>, piece: &Piece) -> Result<(), FillError>
    ensures value { result ≡ judge (first_failing (piece_tests cell.now.opened piece.now.hash piece.now.number piece.now.compression (length piece.now.bytes))) tt }
{
    let len = judged_len(piece.bytes.as_slice());
    cell.piece_check(piece.hash, piece.number, piece.compression, len)
}

/// A length that is refused exactly where the bytes' own is, and fits in the check's type.
fn judged_len(bytes: &[u8]) -> u32
    ensures value { result ≡ min (length bytes.now) 4097 }
{
    bytes.len().min(BLOCK_SIZE + 1) as u32
}
