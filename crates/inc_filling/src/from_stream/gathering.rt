// The pieces of the next group are gathered.
ghost use Rattle.std.specs.Prelude.{◌≡◌, ◌≢◌, ◌+◌, ◌<◌, ◌≤◌, [], ◌∷◌, ◌++◌, ℕ, Bool, true, false, List, Option, Some, None, Err, IfOk, IfSome, OnErr, length, vec_len};
ghost use Rattle.inc_frame.specs.declared.piece.Piece.{Piece};
ghost use Rattle.inc_io.specs.Causes.{HasCauseAt};
ghost use Rattle.inc_loader.specs.Reading.{needs_no_read};
ghost use Rattle.inc_loader.specs.declared.stream.stop.ReadStop.TheVariants as stop;
ghost use Rattle.inc_filling.specs.Rounds.{AreOtherBlocks, EndsReader, HasReadPieces, MayWait, PausesAt};
ghost use Rattle.inc_layout.specs.declared.opened.Opened.{Opened};

use super::waiting::Waiting;
use crate::{FillEnd, MOST_BLOCKS_OF_GROUP, piece_refusal};
use inc_cell::FileCell;
use inc_disk::Disk;
use inc_frame::Piece;
use inc_io::Source;
use inc_loader::{PieceReader, ReadStop};

/// Why no further piece is gathered for now.
#[derive(Clone, Copy)]
pub enum Pause {
    /// The group has to be filled first.
    Group,
    End(FillEnd),
}

/// Gathers pieces until a group is whole, the fill has its end, or a read fails.
pub(crate) fn gather<D: Disk, I: Source>(
    cell: &FileCell<D>,
    input: &mut I,
    pieces: &mut PieceReader,
    waiting: &mut Waiting,
) -> Result<Pause, ReadStop>
    requires may { MayWait cell.now.opened waiting.old.pieces.items }
    ensures may { MayWait cell.now.opened waiting.new.pieces.items }
    ensures pauses { IfOk result (λ pause. PausesAt cell.now.opened waiting.new.pieces.items pieces.new pause) }
    ensures going { OnErr result (needs_no_read pieces.new.whole.items pieces.new.refused pieces.new.reader.state ≡ false) }
    ensures fed { result ≡ Err stop.Failed → pieces.new.filled ≡ 0 }
    ensures front { (all : Option (List ℕ)) (read : List ℕ) (gave : List Piece)
        → HasReadPieces all read (gave ++ waiting.old.pieces.items) pieces.old (I.ended input.old) (I.left input.old)
        → (more : List ℕ) × HasReadPieces all (read ++ more) (gave ++ waiting.new.pieces.items) pieces.new (I.ended input.new) (I.left input.new) }
    ensures cause { HasCauseAt stop.Failed (I.faults input.old) (I.faults input.new) result }
{
    while waiting.pieces.len() < MOST_BLOCKS_OF_GROUP as usize {
        pieces.read_on(input)?;
        if let Some(pause) = take_next(cell, pieces, waiting) {
            return Ok(pause);
        }
    }
    Ok(Pause::Group)
}

/// Takes the next whole piece to those that wait, if it may be of their group.
fn take_next<D: Disk>(
    cell: &FileCell<D>,
    pieces: &mut PieceReader,
    waiting: &mut Waiting,
) -> Option<Pause>
    requires may { MayWait cell.now.opened waiting.old.pieces.items }
    requires few { vec_len waiting.old.pieces < 64 }
    requires settled { needs_no_read pieces.old.whole.items pieces.old.refused pieces.old.reader.state ≡ true }
    requires fed { pieces.old.filled ≡ 0 }
    ensures may { MayWait cell.now.opened waiting.new.pieces.items }
    ensures pauses { IfSome result (λ pause. PausesAt cell.now.opened waiting.new.pieces.items pieces.new pause) }
    ensures more { result ≡ None → vec_len waiting.new.pieces ≡ vec_len waiting.old.pieces + 1 }
    ensures front { (all : Option (List ℕ)) (read : List ℕ) (gave : List Piece) (source_ended : Bool) (left : Option (List ℕ))
        → HasReadPieces all read (gave ++ waiting.old.pieces.items) pieces.old source_ended left
        → HasReadPieces all read (gave ++ waiting.new.pieces.items) pieces.new source_ended left }
{
    let Some(next) = pieces.next() else {
        return Some(Pause::End(end_of(pieces)));
    };
    if let Some(refusal) = piece_refusal(cell, next) {
        return Some(Pause::End(FillEnd::Refused(refusal)));
    }
    if waits(waiting.pieces.as_slice(), next) {
        return Some(Pause::Group);
    }
    let piece = pieces.take().unwrap();
    waiting.pieces.push_reserved(piece);
    None
}

/// The end of a stream of which no whole piece is left.
fn end_of(pieces: &PieceReader) -> FillEnd
    requires settled { needs_no_read pieces.now.whole.items pieces.now.refused pieces.now.reader.state ≡ true }
    requires none { pieces.now.whole.items ≡ [] }
    ensures end { (opened : Opened) → EndsReader opened pieces.now result }
{
    match pieces.fault() {
        Some(fault) => FillEnd::Stream(fault),
        None => FillEnd::Done,
    }
}

/// Whether a piece of the same block waits.
fn waits(waiting: &[Piece], piece: &Piece) -> bool
    ensures others { result ≡ false → AreOtherBlocks piece.now waiting.now }
    ensures some { result ≡ true → 0 < length waiting.now }
{
    for at in 0..waiting.len() {
        let other = &waiting[at];
        if other.hash == piece.hash && other.number == piece.number {
            return true;
        }
    }
    false
}
