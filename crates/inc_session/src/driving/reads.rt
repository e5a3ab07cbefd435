// Taking the waiting reads of the files, and telling them to the loader.
ghost use Rattle.std.specs.Prelude.{◌≡◌, ◌≤◌, ◌-◌, ◌^◌, if◌then◌else◌, true, length, map};
ghost use Rattle.inc_cell.specs.events.CellEvents.{footing_of};
ghost use Rattle.inc_handle.specs.Pending.{TakesPending};
ghost use Rattle.inc_handle.specs.Shared.{HasGoneOn, IsSeatOf};
ghost use Rattle.inc_session.specs.Deeds.{serial_after};
ghost use Rattle.inc_session.specs.DriveSeats.{AreHomeSeats, homes_of};
ghost use Rattle.inc_session.specs.ReadTakes.{TakesFile, TakesTurnOf, TellsReads};
ghost use Rattle.inc_turn.specs.Locks.{seat_view, table_of};

use super::counts::DriveCounts;
use inc_disk::Disk;
use inc_handle::{FileSeat, FillPass, Filler, SharedFile, TakenReads};
use inc_loader::{Loader, LoaderTurn};
use inc_model::FillError;
use inc_pending::PendingRecord;
use inc_script::DriveEnd;
use std::sync::Wait;

/// The serial of the last of these reads, or this one where there is none.
fn last_serial(reads: &[PendingRecord], before: u32) -> u32
    ensures value { result ≡ serial_after before reads.now }
{
    match reads {
        [] => before,
        [read, rest @ ..] => last_serial(rest, read.serial),
    }
}

/// Tells a loader reads, one by one, and counts them.
fn tell_reads<L: Loader>(
    loader: &mut L,
    reads: &[PendingRecord],
    counts: &mut DriveCounts,
) -> Result<(), DriveEnd>
    ensures tells { TellsReads reads.now (L.told loader.old) (L.told loader.new) counts.old counts.new (L.faults loader.old) (L.faults loader.new) result }
    ensures prepared { L.prepared loader.new ≡ L.prepared loader.old }
    ensures given { L.given loader.new ≡ L.given loader.old }
    ensures idle { L.idle loader.old ≤ L.idle loader.new }
{
    for read in reads {
        if counts.told == u64::MAX {
            return Err(DriveEnd::OutOfMemory);
        }
        match loader.tell(read) {
            LoaderTurn::Fine => counts.told += 1,
            LoaderTurn::Failed => return Err(DriveEnd::Fault),
            LoaderTurn::OutOfMemory => return Err(DriveEnd::OutOfMemory),
        }
    }
    Ok(())
}

/// Takes the waiting reads of a file whose serials are over this one, by a filler of its own.
fn take_once<D: Disk, R: Wait>(
    rt: &R,
    file: &SharedFile<D>,
    seat: &mut FileSeat,
    session: u32,
    after: u32,
) -> Result<TakenReads, FillError>
    requires own { IsSeatOf (table_of file.now.lock) file.now.begun.value seat.old }
    ensures own { HasGoneOn seat.old seat.new }
    ensures takes { TakesPending (footing_of file.now.begun.value) (seat_view seat.old) after (2 ^ 32 - 1) result (seat_view seat.new) }
{
    let mut filler = Filler::new(file, seat, session);
    filler.take_pending(rt, after, u32::MAX)
}

/// Takes the reads of a file that wait since the last time, and tells each of them. Answers whether the file has readers left.
pub(super) fn take_file<D: Disk, R: Wait, L: Loader>(
    rt: &R,
    loader: &mut L,
    file: &SharedFile<D>,
    seat: &mut FileSeat,
    session: u32,
    after: &mut u32,
    counts: &mut DriveCounts,
) -> Result<bool, DriveEnd>
    requires own { IsSeatOf (table_of file.now.lock) file.now.begun.value seat.old }
    ensures own { HasGoneOn seat.old seat.new }
    ensures takes { TakesFile (footing_of file.now.begun.value) (seat_view seat.old) after.old after.new (L.told loader.old) (L.told loader.new) counts.old counts.new (L.faults loader.old) (L.faults loader.new) result (seat_view seat.new) }
    ensures prepared { L.prepared loader.new ≡ L.prepared loader.old }
    ensures given { L.given loader.new ≡ L.given loader.old }
    ensures idle { L.idle loader.old ≤ L.idle loader.new }
{
    match take_once(rt, file, seat, session, *after) {
        Ok(taken) => {
            let reads = taken.records.as_slice();
            *after = last_serial(reads, *after);
            tell_reads(loader, reads, counts)?;
            Ok(taken.readers > 0)
        }
        Err(FillError::HistoryFull { .. }) => Err(DriveEnd::HistoryFull),
        // Taking reads has no other answer.
        Err(_) => Err(DriveEnd::OutOfMemory),
    }
}

/// Whether one of two is so.
fn either(first: bool, second: bool) -> bool
    ensures value { result ≡ if first then true else second }
{
    first || second
}

/// Takes and tells the waiting reads of each file, one file after the other. Answers whether any of them has readers left.
pub(super) fn take_turn<D: Disk, R: Wait, L: Loader>(
    rt: &R,
    loader: &mut L,
    files: &[SharedFile<D>],
    seats: &mut [FileSeat],
    passes: &[FillPass],
    afters: &mut [u32],
    counts: &mut DriveCounts,
) -> Result<bool, DriveEnd>
    requires seated { AreHomeSeats (homes_of files.now) seats.old }
    requires passes { length passes.now ≡ length files.now }
    requires afters { length afters.old ≡ length files.now }
    ensures takes { TakesTurnOf (homes_of files.now) seats.old afters.old afters.new (L.told loader.old) (L.told loader.new) counts.old counts.new (L.faults loader.old) (L.faults loader.new) result seats.new }
    ensures prepared { L.prepared loader.new ≡ L.prepared loader.old }
    ensures given { L.given loader.new ≡ L.given loader.old }
    ensures idle { L.idle loader.old ≤ L.idle loader.new }
{
    let mut some = false;
    for place in 0..files.len() {
        let more = take_file(
            rt,
            loader,
            &files[place],
            &mut seats[place],
            passes[place].session,
            &mut afters[place],
            counts,
        )?;
        some = either(more, some);
    }
    Ok(some)
}
