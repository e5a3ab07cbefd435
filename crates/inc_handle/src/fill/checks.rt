// Whether pieces may be filled, looked at outside the lock.
ghost use Rattle.std.specs.Prelude.{◌≡◌, ◌+◌, ◌<◌, ◌≤◌, nat_lt, is_some, length, option_map, IfSome};
ghost use Rattle.inc_bytes.specs.Tests.{first_failing, judge};
ghost use Rattle.inc_tree.specs.shape.Geometry.{data_blocks, hash_blocks};
ghost use Rattle.inc_cell.specs.events.Pieces.{kind_count, piece_index, piece_tests};
ghost use Rattle.inc_handle.specs.Checks.{cause_order, first_cause, mark_tests, of_piece, piece_refusal, refusal_from};
ghost use Rattle.inc_model.specs.relation.State.{Rise, has};

use crate::KnownFile;
use inc_frame::Piece;
use inc_model::FillError;
use inc_tree::{BLOCK_SIZE, Geometry};

/// Whether a set has an index. It halves the list at each look.
fn lists(indices: &[u32], index: u32) -> bool
    requires rise { Rise indices.now }
    ensures value { result ≡ has index indices.now }
{
    indices.binary_search(&index).is_ok()
}

/// The index of a block, where the file has it.
pub(super) fn index_in(tree: &Geometry, hash: bool, number: u32) -> Option<u32>
    ensures there { is_some result ≡ nat_lt number (kind_count tree.now hash) }
    ensures value { IfSome result (λ index. index ≡ piece_index tree.now hash number) }
    ensures within { IfSome result (λ index. index < data_blocks tree.now + hash_blocks tree.now) }
{
    let content = tree.data_blocks();
    if hash {
        if number >= tree.hash_blocks() {
            return None;
        }
        return Some(content + number);
    }
    if number >= content {
        return None;
    }
    Some(number)
}

/// Judges a piece of a block whose own bytes are `own_len`, and whose entry is damaged or compressed.
#[tactic(auto, unfolding(crate::specs::Checks::mark_tests))]
fn judge_marks(
    damaged: bool,
    compressed: bool,
    own_len: u32,
    compression: u8,
    len: usize,
) -> Result<(), FillError>
    ensures value { result ≡ judge (first_failing (mark_tests damaged compressed own_len compression len)) tt }
{
    if compression != 0 {
        return Err(FillError::Compressed { piece: 0 });
    }
    if compressed {
        return Err(FillError::Compressed { piece: 0 });
    }
    if len != own_len as usize {
        if len != BLOCK_SIZE {
            return Err(FillError::BadLength { piece: 0 });
        }
    }
    if damaged {
        return Err(FillError::Damaged { piece: 0 });
    }
    Ok(())
}

/// Whether a piece may be filled, by its words alone.
pub(super) fn judge_piece(known: &KnownFile, piece: &Piece) -> Result<(), FillError>
    ensures value { result ≡ judge (first_failing (piece_tests known.now.opened.value piece.now.hash piece.now.number piece.now.compression (length piece.now.bytes))) tt }
{
    let tree = &known.geometry;
    let Some(index) = index_in(tree, piece.hash, piece.number) else {
        return Err(FillError::OutOfRange { piece: 0 });
    };
    let damaged = lists(known.damaged.as_slice(), index);
    let compressed = lists(known.compressed.as_slice(), index);
    judge_marks(
        damaged,
        compressed,
        tree.block_len(index),
        piece.compression,
        piece.bytes.as_slice().len(),
    )
}

fn order_of(error: FillError) -> u32
    ensures value { result ≡ cause_order error }
{
    match error {
        FillError::OutOfRange { .. } => 0,
        FillError::Compressed { .. } => 1,
        FillError::BadLength { .. } => 2,
        FillError::Damaged { .. } => 3,
        _ => 4,
    }
}

fn of_piece(number: u32, error: FillError) -> FillError
    ensures value { result ≡ of_piece number error }
{
    match error {
        FillError::OutOfRange { .. } => FillError::OutOfRange { piece: number },
        FillError::Compressed { .. } => FillError::Compressed { piece: number },
        FillError::BadLength { .. } => FillError::BadLength { piece: number },
        FillError::Damaged { .. } => FillError::Damaged { piece: number },
        other => other,
    }
}

/// The refusal of this piece or the one of later pieces, whichever cause comes first.
fn first_cause(own: Option<FillError>, later: Option<FillError>) -> Option<FillError>
    ensures value { result ≡ first_cause own later }
{
    let Some(error) = own else {
        return later;
    };
    let Some(other) = later else {
        return Some(error);
    };
    if order_of(other) < order_of(error) {
        return Some(other);
    }
    Some(error)
}

/// The refusal of one piece, with its number.
fn refusal_at(known: &KnownFile, number: u32, piece: &Piece) -> Option<FillError>
    ensures value { result ≡ option_map (of_piece number) (piece_refusal known.now.opened.value piece.now) }
{
    match judge_piece(known, piece) {
        Ok(()) => None,
        Err(error) => Some(of_piece(number, error)),
    }
}

/// Why a fill doesn't take these pieces.
pub(super) fn refusal_of_pieces(known: &KnownFile, pieces: &[Piece]) -> Option<FillError>
    requires few { length pieces.now ≤ 64 }
    ensures value { result ≡ refusal_from known.now.opened.value 0 pieces.now }
{
    let mut refusal = None;
    for back in 0..pieces.len() {
        let at = pieces.len() - 1 - back;
        let own = refusal_at(known, at as u32, &pieces[at]);
        refusal = first_cause(own, refusal);
    }
    refusal
}
