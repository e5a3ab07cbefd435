// Filling one group of pieces at a loader's seat of their file.
ghost use Rattle.std.specs.Prelude.{◌≡◌, ◌<◌, ◌≤◌, length};
ghost use Rattle.inc_cell.specs.events.CellEvents.{footing_of};
ghost use Rattle.inc_filling.specs.Rounds.{MayWait};
ghost use Rattle.inc_handle.specs.Shared.{HasGoneOn, IsSeatOf};
ghost use Rattle.inc_session.specs.DeedFills.{FillsGroupOwn};
ghost use Rattle.inc_handle.specs.Outcomes.{FillsTaken};
ghost use Rattle.inc_session.specs.Ends.{end_by_fill};
ghost use Rattle.inc_turn.specs.Locks.{seat_view, table_of};

use super::counts::DriveCounts;
use inc_disk::Disk;
use inc_frame::Piece;
use inc_handle::{FileSeat, FillPass, Filler, OutcomeList, SharedFile};
use inc_io::Bell;
use inc_model::FillError;
use inc_script::DriveEnd;
use std::alloc::Global;
use std::sync::Wait;

/// How a drive ends by a fill that gives no outcomes.
fn end_of(error: FillError) -> DriveEnd
    ensures value { result ≡ end_by_fill error }
{
    match error {
        FillError::HistoryFull { .. } => DriveEnd::HistoryFull,
        FillError::Failed { .. } => DriveEnd::Failed,
        FillError::DiskFault { .. } => DriveEnd::Fault,
        FillError::OutOfMemory => DriveEnd::OutOfMemory,
        refusal => DriveEnd::Refused(refusal),
    }
}

/// Fills pieces as one group, by a filler of its own.
fn fill_once<D: Disk, R: Wait, B: Bell>(
    rt: &R,
    alloc: Global,
    file: &SharedFile<D>,
    seat: &mut FileSeat,
    pass: &FillPass,
    pieces: &[Piece],
    bell: &B,
) -> Result<OutcomeList, FillError>
    requires own { IsSeatOf (table_of file.now.lock) file.now.begun.value seat.old }
    requires pass { pass.now.id ≡ file.now.begun.value.opened.header.id }
    requires may { MayWait file.now.begun.value.opened pieces.now }
    requires some { 0 < length pieces.now }
    requires most { length pieces.now ≤ 64 }
    ensures own { HasGoneOn seat.old seat.new }
    ensures fills { FillsTaken (footing_of file.now.begun.value) (seat_view seat.old) (record { who = seat.old.number; count = 0 }) pieces.now result (seat_view seat.new) }
{
    let mut filler = Filler::new(file, seat, pass.session);
    filler.fill(rt, alloc, pass, pieces, bell)
}

/// Fills pieces of one file as one group, and counts what became of them.
pub(super) fn fill_group<D: Disk, R: Wait, B: Bell>(
    rt: &R,
    alloc: Global,
    file: &SharedFile<D>,
    seat: &mut FileSeat,
    pass: &FillPass,
    pieces: &[Piece],
    bell: &B,
    counts: &mut DriveCounts,
) -> Result<(), DriveEnd>
    requires own { IsSeatOf (table_of file.now.lock) file.now.begun.value seat.old }
    requires pass { pass.now.id ≡ file.now.begun.value.opened.header.id }
    requires may { MayWait file.now.begun.value.opened pieces.now }
    requires some { 0 < length pieces.now }
    requires most { length pieces.now ≤ 64 }
    ensures own { HasGoneOn seat.old seat.new }
    ensures fills { FillsGroupOwn (footing_of file.now.begun.value) (seat_view seat.old) pieces.now counts.old result counts.new (seat_view seat.new) }
{
    if !counts.has_room() {
        return Err(DriveEnd::OutOfMemory);
    }
    match fill_once(rt, alloc, file, seat, pass, pieces, bell) {
        Ok(outcomes) => {
            counts.count(outcomes.as_slice());
            Ok(())
        }
        Err(error) => Err(end_of(error)),
    }
}
