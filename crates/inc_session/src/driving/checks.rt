// Which of the given pieces may be one group.
ghost use Rattle.std.specs.Prelude.{◌≡◌, ◌+◌, ◌-◌, ◌^◌, ◌<◌, ◌≤◌, false, length, nat_eq, take, IfSome};
ghost use Rattle.std.specs.Cmp.Lexicographic.{pointwise};
ghost use Rattle.inc_bytes.specs.Tests.{judge};
ghost use Rattle.inc_filling.specs.Rounds.{AreOtherBlocks, MayWait};
ghost use Rattle.inc_handle.specs.Checks.{piece_refusal};
ghost use Rattle.inc_handle.specs.Shared.{IsSeatOf};
ghost use Rattle.inc_session.specs.Deeds.{place_from};
ghost use Rattle.inc_turn.specs.Locks.{table_of};

use inc_bytes::Id;
use inc_disk::Disk;
use inc_frame::Piece;
use inc_handle::{FileSeat, FillPass, Filler, SharedFile};
use inc_loader::LoaderFile;
use inc_model::FillError;

/// Whether a piece of the same block is among these.
fn repeats(pieces: &[Piece], piece: &Piece) -> bool
    ensures others { result ≡ false → AreOtherBlocks piece.now pieces.now }
{
    for at in 0..pieces.len() {
        let other = &pieces[at];
        if other.hash == piece.hash && other.number == piece.number {
            return true;
        }
    }
    false
}

/// Whether a piece says that it is one of the file with this id.
fn has_id(piece: &Piece, id: Id) -> bool
    ensures value { result ≡ pointwise nat_eq piece.now.id id }
{
    piece.id == id
}

/// Whether a file takes a piece, and else why not.
pub(super) fn check_one<D: Disk>(
    file: &SharedFile<D>,
    seat: &mut FileSeat,
    pass: &FillPass,
    piece: &Piece,
) -> Result<(), FillError>
    requires own { IsSeatOf (table_of file.now.lock) file.now.begun.value seat.old }
    requires pass { pass.now.id ≡ file.now.begun.value.opened.header.id }
    ensures same { seat.new ≡ seat.old }
    ensures value { result ≡ judge (piece_refusal file.now.begun.value.opened piece.now) tt }
{
    let filler = Filler::new(file, seat, pass.session);
    filler.check_piece(pass, piece)
}

/// How many of these pieces, the first of which the file takes, may be one group: of this file, taken by it, and of different blocks.
pub(super) fn group_len<D: Disk>(
    file: &SharedFile<D>,
    seat: &mut FileSeat,
    pass: &FillPass,
    pieces: &[Piece],
) -> usize
    requires own { IsSeatOf (table_of file.now.lock) file.now.begun.value seat.old }
    requires pass { pass.now.id ≡ file.now.begun.value.opened.header.id }
    requires some { 0 < length pieces.now }
    requires first { MayWait file.now.begun.value.opened (take 1 pieces.now) }
    ensures same { seat.new ≡ seat.old }
    ensures some { 1 ≤ result }
    ensures within { result ≤ length pieces.now }
    ensures may { MayWait file.now.begun.value.opened (take result pieces.now) }
{
    let mut len = 1;
    while len < pieces.len() {
        let piece = &pieces[len];
        if !has_id(piece, file.id()) {
            return len;
        }
        if repeats(&pieces[..len], piece) {
            return len;
        }
        match check_one(file, seat, pass, piece) {
            Ok(()) => len += 1,
            Err(_) => return len,
        }
    }
    len
}

/// The number of the first of these files with this id, where they are numbered from `from` on.
pub(super) fn place_from(known: &[LoaderFile], id: &Id, from: usize) -> Option<usize>
    requires few { from + length known.now ≤ 2 ^ 64 - 1 }
    ensures value { result ≡ place_from from known.now id.now }
    ensures within { IfSome result (λ place. place < from + length known.now) }
{
    match known {
        [] => None,
        [file, rest @ ..] => {
            if file.id == *id {
                Some(from)
            } else {
                place_from(rest, id, from + 1)
            }
        }
    }
}
