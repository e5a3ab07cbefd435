// One group of a stream: gathered, and then filled.
ghost use Rattle.std.specs.Prelude.{◌≡◌, ◌≢◌, ◌+◌, ◌^◌, ◌≤◌, ℕ, List, [], ◌++◌, Option, OnOk};
ghost use Rattle.inc_frame.specs.declared.piece.Piece.{Piece};
ghost use Rattle.inc_cell.specs.seen.Seen.{Seen};
ghost use Rattle.inc_filling.specs.Fillable.{IsFillable};
ghost use Rattle.inc_filling.specs.Filled.{AreIn, HasSourceCause};
ghost use Rattle.inc_filling.specs.Rounds.{FillsWaiting, IsUnderWay, MayWait, RoundsTo, after_round};

use super::gathering::{Pause, gather};
use super::waiting::Waiting;
use crate::{FillEnd, FillFailure, FillStop, fill_pieces};
use inc_cell::FileCell;
use inc_disk::Disk;
use inc_io::Source;
use inc_loader::{PieceReader, ReadStop};
use inc_model::Window;
use std::alloc::Global;

/// How many pieces went in.
#[derive(Clone, Copy)]
pub struct FillTotals {
    pub written: u64,
    pub present: u64,
}

/// Gathers a group and fills it in, whatever has ended the gathering.
pub(crate) fn fill_round<D: Disk, I: Source>(
    alloc: Global,
    cell: &mut FileCell<D>,
    window: Window,
    input: &mut I,
    pieces: &mut PieceReader,
    waiting: &mut Waiting,
    totals: &mut FillTotals,
) -> Result<Option<FillEnd>, FillFailure>
    requires fillable { IsFillable cell.old }
    requires empty { waiting.old.pieces.items ≡ [] }
    requires few { totals.old.written + totals.old.present ≤ 2 ^ 37 }
    ensures rounds { (start : Seen) (all : Option (List ℕ)) → IsUnderWay start window all totals.old.written totals.old.present pieces.old (I.ended input.old) (I.left input.old) cell.old
        → RoundsTo start window all (totals.old.written + totals.old.present) totals.new.written totals.new.present pieces.new (I.ended input.new) (I.left input.new) result cell.new }
    ensures empty { OnOk result (waiting.new.pieces.items ≡ []) }
    ensures source { HasSourceCause (I.faults input.old) (I.faults input.new) result }
{
    let pause = gather(cell, input, pieces, waiting);
    let filled = fill_waiting(alloc, cell, window, waiting, totals);
    outcome(pause, filled)
}

/// What waited is in before anything else is told.
fn outcome(
    pause: Result<Pause, ReadStop>,
    filled: Result<(), FillStop>,
) -> Result<Option<FillEnd>, FillFailure>
    ensures value { result ≡ after_round pause filled }
{
    match pause {
        Ok(pause) => {
            filled?;
            match pause {
                Pause::Group => Ok(None),
                Pause::End(end) => Ok(Some(end)),
            }
        }
        Err(ReadStop::Failed) => Err(FillFailure::Source(filled.err())),
        Err(ReadStop::OutOfMemory) => {
            filled?;
            Err(FillFailure::Stopped(FillStop::OutOfMemory))
        }
    }
}

/// Fills in what waits, as one group.
pub(crate) fn fill_waiting<D: Disk>(
    alloc: Global,
    cell: &mut FileCell<D>,
    window: Window,
    waiting: &mut Waiting,
    totals: &mut FillTotals,
) -> Result<(), FillStop>
    requires fillable { IsFillable cell.old }
    requires may { MayWait cell.old.opened waiting.old.pieces.items }
    requires few { totals.old.written + totals.old.present ≤ 2 ^ 37 }
    ensures fills { (start : Seen) (gave : List Piece) → AreIn start window gave totals.old.written totals.old.present cell.old
        → FillsWaiting start window (gave ++ waiting.old.pieces.items) totals.new.written totals.new.present result cell.new }
    ensures empty { OnOk result (waiting.new.pieces.items ≡ []) }
{
    let pieces = waiting.pieces.as_slice();
    if pieces.is_empty() {
        return Ok(());
    }
    fill_pieces(alloc, cell, window, pieces, &mut waiting.stored)?;
    let count = pieces.len() as u64;
    let written = waiting.stored.len() as u64;
    totals.written += written;
    totals.present += count - written;
    waiting.pieces.clear();
    Ok(())
}
