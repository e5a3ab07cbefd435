// Pieces that are whole, on their way to whoever asked.
ghost use Rattle.std.specs.Prelude.{◌≡◌, ◌++◌, ◌<◌, ◌≤◌, map, vec_len, IfOk, OnErr};
ghost use Rattle.std.specs.VecDeque.{deque_len};
ghost use Rattle.inc_loader.specs.Marks.{mark_of};

use crate::{LoaderFile, OutOfMemory, PieceMark};
use inc_frame::Piece;
use std::alloc::Global;
use std::collections::VecDeque;

/// The pieces that are given at a time, so that a fill takes them in one group.
const MOST_PIECES: usize = 64;

// Takes the first pieces, and keeps their marks.
pub(crate) fn take_front(
    alloc: Global,
    whole: &mut VecDeque<Piece>,
    marks: &mut Vec<PieceMark>,
    files: &[LoaderFile],
) -> Result<Vec<Piece>, OutOfMemory>
    requires { 0 < deque_len whole.old }
    ensures front { IfOk result (λ pieces. whole.old.items ≡ pieces.items ++ whole.new.items) }
    ensures marks { IfOk result (λ pieces. marks.new.items ≡ marks.old.items ++ map (mark_of files.now) pieces.items) }
    ensures some { IfOk result (λ pieces. 1 ≤ vec_len pieces) }
    ensures most { IfOk result (λ pieces. vec_len pieces ≤ 64) }
    ensures none { OnErr result ((whole.new.items ≡ whole.old.items) × (marks.new.items ≡ marks.old.items)) }
{
    let count = whole.len().min(MOST_PIECES);
    let mut pieces = Vec::with_capacity(alloc, count)?;
    marks.reserve(count)?;
    'moving: while pieces.len() < count {
        let piece = whole.pop_front().unwrap();
        marks.push(PieceMark::of(&piece, files)).unwrap();
        pieces.push(piece).unwrap();
    }
    Ok(pieces)
}
