// A generated content goes into its file, group by group.
ghost use Rattle.std.specs.Prelude.{◌≡◌, ◌+◌, ◌<◌, ◌^◌, ◌≤◌, ◌++◌, ◌==◌, false, ℕ, List, [], length, OnOk};
ghost use Rattle.inc_frame.specs.declared.piece.Piece.{Piece};
ghost use Rattle.inc_layout.specs.declared.opened.Opened.{Opened};
ghost use Rattle.inc_loader.specs.PiecesLeft.{left_of};
ghost use Rattle.inc_cell.specs.seen.Seen.{Seen};
ghost use Rattle.inc_filling.specs.Fillable.{IsFillable};
ghost use Rattle.inc_filling.specs.Generated.{FillsAll, FillsFurther, IsFilledUpTo, IsNeverFull};
ghost use Rattle.inc_filling.specs.Pieces.{AreTaken};
ghost use Rattle.inc_filling.specs.Rounds.{MayWait};

use crate::from_stream::rounds::{FillTotals, fill_waiting};
use crate::from_stream::waiting::Waiting;
use crate::{FillStop, MOST_BLOCKS_OF_GROUP, OutOfMemory};
use inc_cell::FileCell;
use inc_disk::Disk;
use inc_loader::FileInWork;
use inc_model::Window;
use std::alloc::Global;

/// Fills in what is left of a generated content, all of whose pieces the file takes: groups of 64 pieces, and a last one with the rest. No more
/// data blocks than a group has are in memory.
pub fn fill_generated<D: Disk>(
    alloc: Global,
    cell: &mut FileCell<D>,
    window: Window,
    content: &mut FileInWork,
) -> Result<FillTotals, FillStop>
    requires fillable { IsFillable cell.old }
    requires taken { AreTaken cell.old.opened (left_of content.old) }
    ensures fills { FillsAll cell.old window (left_of content.old) result cell.new }
    ensures given { OnOk result (left_of content.new ≡ []) }
    // A history has room for the largest content.
    ensures room { length cell.old.history ≤ 2 ^ 22 → IsNeverFull result }
{
    fill_rest(alloc, cell, window, content)
}

/// Fills in what is left, group after group.
fn fill_rest<D: Disk>(
    alloc: Global,
    cell: &mut FileCell<D>,
    window: Window,
    content: &mut FileInWork,
) -> Result<FillTotals, FillStop>
    requires fillable { IsFillable cell.old }
    requires taken { AreTaken cell.old.opened (left_of content.old) }
    ensures fills { FillsAll cell.old window (left_of content.old) result cell.new }
    ensures given { OnOk result (left_of content.new ≡ []) }
{
    let mut waiting = Waiting::new(alloc)?;
    let mut totals = FillTotals {
        written: 0,
        present: 0,
    };
    'filling: while !content.is_given() {
        fill_next(alloc, cell, window, content, &mut waiting, &mut totals)?;
    }
    Ok(totals)
}

/// Makes the next group of pieces, and fills it in.
fn fill_next<D: Disk>(
    alloc: Global,
    cell: &mut FileCell<D>,
    window: Window,
    content: &mut FileInWork,
    waiting: &mut Waiting,
    totals: &mut FillTotals,
) -> Result<(), FillStop>
    requires fillable { IsFillable cell.old }
    requires taken { AreTaken cell.old.opened (left_of content.old) }
    requires empty { waiting.old.pieces.items ≡ [] }
    requires some { (length (left_of content.old) == 0) ≡ false }
    requires few { totals.old.written + totals.old.present ≤ 2 ^ 37 }
    ensures fills { (start : Seen) (all : List Piece) → IsFilledUpTo start window all (left_of content.old) totals.old.written totals.old.present cell.old
        → FillsFurther start window all (left_of content.new) totals.new.written totals.new.present result cell.new }
    ensures empty { OnOk result (waiting.new.pieces.items ≡ []) }
    ensures fewer { OnOk result (length (left_of content.new) < length (left_of content.old)) }
{
    take_group(alloc, content, waiting)?;
    fill_waiting(alloc, cell, window, waiting, totals)
}

/// Makes the next pieces, as many as a group may have.
fn take_group(
    alloc: Global,
    content: &mut FileInWork,
    waiting: &mut Waiting,
) -> Result<(), OutOfMemory>
    requires empty { waiting.old.pieces.items ≡ [] }
    requires some { (length (left_of content.old) == 0) ≡ false }
    ensures front { left_of content.old ≡ waiting.new.pieces.items ++ left_of content.new }
    ensures may { (opened : Opened) → AreTaken opened (left_of content.old) → MayWait opened waiting.new.pieces.items }
    ensures some { OnOk result (length (left_of content.new) < length (left_of content.old)) }
{
    'taking: while waiting.pieces.len() < MOST_BLOCKS_OF_GROUP as usize {
        if content.is_given() {
            return Ok(());
        }
        let piece = content.piece(alloc)?;
        content.pass();
        waiting.pieces.push_reserved(piece);
    }
    Ok(())
}
