// The turns of a drive, and how it ends.
ghost use Rattle.std.specs.Prelude.{◌≡◌, ◌+◌, ◌≤◌, ℕ, List, [], length, map, Some};
ghost use Rattle.inc_cell.specs.declared.machine.CellFooting.{CellFooting};
ghost use Rattle.inc_session.specs.DriveSeats.{ArePassed, AreHomeSeats, files_of, homes_of};
ghost use Rattle.inc_session.specs.Drives.{DriveEnds, DriveGoes, DriveRuns, drive_view, no_counts};
ghost use Rattle.inc_session.specs.ReadTakes.{HasReaders};
ghost use Rattle.inc_turn.specs.declared.seat.Seat.{Seat};

use super::counts::DriveCounts;
use super::pieces::fill_given;
use super::reads::take_turn;
use inc_disk::Disk;
use inc_handle::{FileSeat, FillPass, SharedFile};
use inc_io::{Bell, Clock, Gate};
use inc_loader::{Given, Loader, LoaderFile};
use inc_script::DriveEnd;
use std::alloc::Global;
use std::sync::Wait;

/// How long a drive rests before it asks again, in microseconds, unless the bell rings.
const REST: u64 = 1000;

/// Asks the loader for pieces, once, and fills all that it gives. Answers how the drive ends, where it does.
fn ask_turn<D: Disk, R: Wait, L: Loader, B: Bell, C: Clock, G: Gate>(
    rt: &R,
    alloc: Global,
    loader: &mut L,
    files: &[SharedFile<D>],
    seats: &mut [FileSeat],
    passes: &[FillPass],
    known: &[LoaderFile],
    who: u32,
    bell: &B,
    rings: u64,
    clock: &C,
    gate: &G,
    call: u32,
    counts: &mut DriveCounts,
) -> Result<(), DriveEnd>
    requires seated { AreHomeSeats (homes_of files.now) seats.old }
    requires passed { ArePassed (homes_of files.now) passes.now }
    requires known { known.now ≡ files_of (homes_of files.now) }
    requires prepared { L.prepared loader.old ≡ Some known.now }
    ensures goes { (start : List (Seat CellFooting)) (faults turns : ℕ) (afters : List ℕ)
        (asked : DriveRuns (homes_of files.now) known.now start faults (turns + 1) 1 (drive_view seats.old (L.told loader.old) (L.given loader.old) (L.idle loader.old) (L.faults loader.old) afters counts.old))
        → HasReaders (length (homes_of files.now)) asked.log
        → DriveGoes (homes_of files.now) known.now start faults turns
        (drive_view seats.new (L.told loader.new) (L.given loader.new) (L.idle loader.new) (L.faults loader.new) afters counts.new) (L.ended loader.new) (L.refused loader.new) result }
    ensures prepared { L.prepared loader.new ≡ L.prepared loader.old }
{
    gate.before(who, call);
    let given = loader.give();
    gate.after(who, call);
    match given {
        Given::Pieces(pieces) => fill_given(
            rt,
            alloc,
            files,
            seats,
            passes,
            known,
            pieces.as_slice(),
            bell,
            counts,
        ),
        Given::Nothing => {
            bell.rest(rings, clock.now().saturating_add(REST));
            Ok(())
        }
        Given::Done => Err(DriveEnd::Done),
        Given::Bad(fault) => Err(DriveEnd::Frame(fault)),
        Given::Failed => Err(DriveEnd::Fault),
        Given::OutOfMemory => Err(DriveEnd::OutOfMemory),
    }
}

/// One turn: the reads, one call of `give`, and all that it gives. Answers how the drive ends, where it does.
fn one_turn<D: Disk, R: Wait, L: Loader, B: Bell, C: Clock, G: Gate>(
    rt: &R,
    alloc: Global,
    loader: &mut L,
    files: &[SharedFile<D>],
    seats: &mut [FileSeat],
    passes: &[FillPass],
    known: &[LoaderFile],
    who: u32,
    bell: &B,
    clock: &C,
    gate: &G,
    call: u32,
    afters: &mut [u32],
    counts: &mut DriveCounts,
) -> Result<(), DriveEnd>
    requires seated { AreHomeSeats (homes_of files.now) seats.old }
    requires passed { ArePassed (homes_of files.now) passes.now }
    requires known { known.now ≡ files_of (homes_of files.now) }
    requires prepared { L.prepared loader.old ≡ Some known.now }
    requires afters { length afters.old ≡ length files.now }
    ensures goes { (start : List (Seat CellFooting)) (faults turns : ℕ)
        → DriveRuns (homes_of files.now) known.now start faults turns 0 (drive_view seats.old (L.told loader.old) (L.given loader.old) (L.idle loader.old) (L.faults loader.old) afters.old counts.old)
        → DriveGoes (homes_of files.now) known.now start faults turns
        (drive_view seats.new (L.told loader.new) (L.given loader.new) (L.idle loader.new) (L.faults loader.new) afters.new counts.new) (L.ended loader.new) (L.refused loader.new) result }
    ensures prepared { L.prepared loader.new ≡ L.prepared loader.old }
{
    // Who looks at the bell before the reads are taken misses no ring of a gate that comes later.
    let rings = bell.seen();
    let some = take_turn(rt, loader, files, seats, passes, afters, counts)?;
    if !some {
        return Err(DriveEnd::Stopped);
    }
    ask_turn(
        rt, alloc, loader, files, seats, passes, known, who, bell, rings, clock, gate, call, counts,
    )
}

/// Turn after turn, until the drive ends.
pub(super) fn all_turns<D: Disk, R: Wait, L: Loader, B: Bell, C: Clock, G: Gate>(
    rt: &R,
    alloc: Global,
    loader: &mut L,
    files: &[SharedFile<D>],
    seats: &mut [FileSeat],
    passes: &[FillPass],
    known: &[LoaderFile],
    who: u32,
    bell: &B,
    clock: &C,
    gate: &G,
    afters: &mut [u32],
    counts: &mut DriveCounts,
) -> DriveEnd
    requires seated { AreHomeSeats (homes_of files.now) seats.old }
    requires passed { ArePassed (homes_of files.now) passes.now }
    requires known { known.now ≡ files_of (homes_of files.now) }
    requires prepared { L.prepared loader.old ≡ Some known.now }
    requires afters { length afters.old ≡ length files.now }
    requires begins { DriveRuns (homes_of files.now) known.now seats.old (L.faults loader.old) 0 0
        (drive_view seats.old (L.told loader.old) (L.given loader.old) (L.idle loader.old) (L.faults loader.old) afters.old counts.old) }
    ensures ends { DriveEnds (homes_of files.now) known.now seats.old (L.faults loader.old)
        (drive_view seats.new (L.told loader.new) (L.given loader.new) (L.idle loader.new) (L.faults loader.new) [] counts.new) (L.ended loader.new) (L.refused loader.new) result }
    ensures prepared { L.prepared loader.new ≡ L.prepared loader.old }
{
    let mut call: u32 = 0;
    for _ in rt.forever() {
        call = call.wrapping_add(1);
        match one_turn(
            rt, alloc, loader, files, seats, passes, known, who, bell, clock, gate, call, afters,
            counts,
        ) {
            Ok(()) => {}
            Err(end) => return end,
        }
    }
    unreachable!()
}
