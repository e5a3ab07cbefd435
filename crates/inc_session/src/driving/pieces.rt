// Filling the pieces that a loader gave, group by group.
ghost use Rattle.std.specs.Prelude.{◌≡◌, ◌<◌, ◌≤◌, length, map, slice_index_or};
ghost use Rattle.inc_cell.specs.events.CellEvents.{footing_of};
ghost use Rattle.inc_frame.specs.declared.piece.Piece.{Piece};
ghost use Rattle.inc_handle.specs.Shared.{HasGoneOn, IsSeatOf};
ghost use Rattle.inc_loader.specs.Marks.{mark_of};
ghost use Rattle.inc_session.specs.DriveSeats.{ArePassed, AreHomeSeats, files_of, homes_of};
ghost use Rattle.inc_session.specs.GivenFills.{FillsFirst, FillsGiven};
ghost use Rattle.inc_turn.specs.Locks.{seat_view, table_of};

use super::checks::{check_one, group_len, place_from};
use super::counts::DriveCounts;
use super::groups::fill_group;
use inc_disk::Disk;
use inc_frame::Piece;
use inc_handle::{FileSeat, FillPass, SharedFile};
use inc_io::Bell;
use inc_loader::LoaderFile;
use inc_script::DriveEnd;
use std::alloc::Global;
use std::sync::Wait;

/// Fills as many of these pieces, the first of which is one of this file, as may be one group, and answers how many. A first piece that the file
/// doesn't take ends the drive.
fn fill_first<D: Disk, R: Wait, B: Bell>(
    rt: &R,
    alloc: Global,
    file: &SharedFile<D>,
    seat: &mut FileSeat,
    pass: &FillPass,
    pieces: &[Piece],
    bell: &B,
    counts: &mut DriveCounts,
) -> Result<usize, DriveEnd>
    requires own { IsSeatOf (table_of file.now.lock) file.now.begun.value seat.old }
    requires pass { pass.now.id ≡ file.now.begun.value.opened.header.id }
    requires some { 0 < length pieces.now }
    requires most { length pieces.now ≤ 64 }
    requires first { (d : Piece) → (slice_index_or pieces.now 0 d).id ≡ file.now.begun.value.opened.header.id }
    ensures own { HasGoneOn seat.old seat.new }
    ensures fills { FillsFirst (footing_of file.now.begun.value) (seat_view seat.old) pieces.now counts.old result counts.new (seat_view seat.new) }
{
    if let Err(error) = check_one(file, seat, pass, &pieces[0]) {
        return Err(DriveEnd::Refused(error));
    }
    let len = group_len(file, seat, pass, pieces);
    fill_group(rt, alloc, file, seat, pass, &pieces[..len], bell, counts)?;
    Ok(len)
}

/// Fills pieces in their order, in groups of consecutive pieces of one file. The first piece that names no file, or that its file doesn't take, ends
/// the drive once the pieces before it have their outcomes.
pub(super) fn fill_given<D: Disk, R: Wait, B: Bell>(
    rt: &R,
    alloc: Global,
    files: &[SharedFile<D>],
    seats: &mut [FileSeat],
    passes: &[FillPass],
    known: &[LoaderFile],
    pieces: &[Piece],
    bell: &B,
    counts: &mut DriveCounts,
) -> Result<(), DriveEnd>
    requires seated { AreHomeSeats (homes_of files.now) seats.old }
    requires passed { ArePassed (homes_of files.now) passes.now }
    requires known { known.now ≡ files_of (homes_of files.now) }
    requires most { length pieces.now ≤ 64 }
    ensures fills { FillsGiven (homes_of files.now) known.now seats.old (map (mark_of known.now) pieces.now) counts.old result counts.new seats.new }
{
    if pieces.is_empty() {
        return Ok(());
    }
    let Some(place) = place_from(known, &pieces[0].id, 0) else {
        return Err(DriveEnd::UnknownFile);
    };
    let len = fill_first(
        rt,
        alloc,
        &files[place],
        &mut seats[place],
        &passes[place],
        pieces,
        bell,
        counts,
    )?;
    let (_, rest) = pieces.split_at(len);
    fill_given(rt, alloc, files, seats, passes, known, rest, bell, counts)
}
