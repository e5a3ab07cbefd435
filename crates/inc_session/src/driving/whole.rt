// A whole drive: the loader is prepared, asked turn after turn, and stopped.
ghost use Rattle.std.specs.Prelude.{◌≡◌, ◌≤◌, [], All, IfOk, map, Some};
ghost use Rattle.inc_loader.specs.Turns.{IsFreshLoader};
ghost use Rattle.inc_loader.specs.declared.loader_file.LoaderFile.{LoaderFile};
ghost use Rattle.inc_session.specs.DriveSeats.{ArePassed, AreHomeSeats, file_of_home, files_of, home_of, homes_of};
ghost use Rattle.inc_session.specs.Drives.{DriveEnds, IsCalmEnd, IsLoaderDriven, after_fault, drive_view, end_after, no_counts};
ghost use Rattle.inc_tree.specs.shape.Limits.{most_size};
ghost use Rattle.inc_turn.specs.Locks.{table_of};

use super::counts::DriveCounts;
use super::turns::all_turns;
use crate::OutOfMemory;
use inc_disk::Disk;
use inc_handle::{FileSeat, FillPass, SharedFile};
use inc_io::{Bell, Clock, Gate};
use inc_loader::{Loader, LoaderFile, LoaderTurn};
use inc_script::{DriveEnd, LoaderLine};
use std::alloc::Global;
use std::sync::Wait;

/// What a loader is told of a file.
fn known_file<D: Disk>(file: &SharedFile<D>) -> LoaderFile
    ensures value { result ≡ file_of_home (home_of (table_of file.now.lock) file.now.begun.value) }
    ensures sized { result.size ≤ most_size }
{
    LoaderFile {
        id: file.id(),
        size: file.geometry().size(),
        root: file.root().unwrap_or([0; 32]),
    }
}

/// What a loader is told of the files.
fn known_files<D: Disk>(
    alloc: Global,
    files: &[SharedFile<D>],
) -> Result<Vec<LoaderFile>, OutOfMemory>
    ensures value { IfOk result (λ known. known.items ≡ files_of (homes_of files.now)) }
    ensures sized { IfOk result (λ known. All (λ (file : LoaderFile). file.size ≤ most_size) known.items) }
{
    let mut known = Vec::new(alloc);
    for file in files {
        known.push(known_file(file))?;
    }
    Ok(known)
}

/// The end of a drive, once the loader couldn't be stopped.
fn after_fault(end: DriveEnd) -> DriveEnd
    ensures value { result ≡ after_fault end }
{
    match end {
        DriveEnd::OutOfMemory => DriveEnd::OutOfMemory,
        _ => DriveEnd::Fault,
    }
}

/// The end of a drive, once the loader was stopped.
fn end_after(end: DriveEnd, stopped: LoaderTurn) -> DriveEnd
    ensures value { result ≡ end_after end stopped }
{
    match stopped {
        LoaderTurn::Fine => end,
        LoaderTurn::Failed => after_fault(end),
        LoaderTurn::OutOfMemory => DriveEnd::OutOfMemory,
    }
}

/// Prepares the loader and drives it, up to its end.
fn run<D: Disk, R: Wait, L: Loader, B: Bell, C: Clock, G: Gate>(
    rt: &R,
    alloc: Global,
    loader: &mut L,
    files: &[SharedFile<D>],
    seats: &mut [FileSeat],
    passes: &[FillPass],
    who: u32,
    bell: &B,
    clock: &C,
    gate: &G,
    counts: &mut DriveCounts,
) -> DriveEnd
    requires seated { AreHomeSeats (homes_of files.now) seats.old }
    requires passed { ArePassed (homes_of files.now) passes.now }
    requires fresh { IsFreshLoader (L.prepared loader.old) (L.told loader.old) (L.given loader.old) (L.refused loader.old) (L.ended loader.old) (L.stopped loader.old) }
    requires none { counts.old ≡ no_counts }
    ensures ends { DriveEnds (homes_of files.now) (files_of (homes_of files.now)) seats.old (L.faults loader.old)
        (drive_view seats.new (L.told loader.new) (L.given loader.new) (L.idle loader.new) (L.faults loader.new) [] counts.new) (L.ended loader.new) (L.refused loader.new) result }
    ensures prepared { IsCalmEnd result → L.prepared loader.new ≡ Some (files_of (homes_of files.now)) }
{
    let Ok(known) = known_files(alloc, files) else {
        return DriveEnd::OutOfMemory;
    };
    let Ok(mut afters) = vec![in alloc; 0u32; files.len()] else {
        return DriveEnd::OutOfMemory;
    };
    match loader.prepare(&known) {
        LoaderTurn::Fine => all_turns(
            rt,
            alloc,
            loader,
            files,
            seats,
            passes,
            &known,
            who,
            bell,
            clock,
            gate,
            &mut afters,
            counts,
        ),
        LoaderTurn::Failed => DriveEnd::Fault,
        LoaderTurn::OutOfMemory => DriveEnd::OutOfMemory,
    }
}

/// Drives a loader over its files and stops it.
pub fn drive_loader<D: Disk, R: Wait, L: Loader, B: Bell, C: Clock, G: Gate>(
    rt: &R,
    alloc: Global,
    loader: &mut L,
    files: &[SharedFile<D>],
    seats: &mut [FileSeat],
    passes: &[FillPass],
    who: u32,
    bell: &B,
    clock: &C,
    gate: &G,
) -> LoaderLine
    requires seated { AreHomeSeats (homes_of files.now) seats.old }
    requires passed { ArePassed (homes_of files.now) passes.now }
    requires fresh { IsFreshLoader (L.prepared loader.old) (L.told loader.old) (L.given loader.old) (L.refused loader.old) (L.ended loader.old) (L.stopped loader.old) }
    ensures drives { IsLoaderDriven (homes_of files.now) seats.old seats.new (L.prepared loader.new) (L.told loader.new) (L.given loader.new)
        (L.idle loader.new) (L.faults loader.old) (L.faults loader.new) (L.ended loader.new) (L.stopped loader.new) (L.refused loader.new) result }
{
    let mut counts = DriveCounts::new();
    let end = run(
        rt,
        alloc,
        loader,
        files,
        seats,
        passes,
        who,
        bell,
        clock,
        gate,
        &mut counts,
    );
    let stopped = loader.stop();
    let last = end_after(end, stopped);
    LoaderLine {
        end: last,
        told: counts.told,
        written: counts.written,
        present: counts.present,
        busy: counts.busy,
    }
}

/// Drives one boxed loader over its files, and says how it ended. It is prepared for the files first and stopped last.
///
/// Each turn takes the reads of each file that wait since the turn before and tells each of them once. It ends where no file has readers left; else
/// the loader is asked for pieces, once, and those are filled before the next turn, in groups of at most 64 consecutive pieces of one file. `seats`
/// are seats of the files with the number `who`, and `passes` are shown to the files. The gate is passed before and after each call of `give`.
pub fn drive<D: Disk, R: Wait, B: Bell, C: Clock, G: Gate>(
    rt: &R,
    alloc: Global,
    loader: &mut Box<dyn Loader + Send>,
    files: &[SharedFile<D>],
    seats: &mut [FileSeat],
    passes: &[FillPass],
    who: u32,
    bell: &B,
    clock: &C,
    gate: &G,
) -> LoaderLine
    requires seated { AreHomeSeats (homes_of files.now) seats.old }
    requires passed { ArePassed (homes_of files.now) passes.now }
    requires fresh { IsFreshLoader
        (⟦<Box<dyn Loader + Send> as Loader>⟧.prepared loader.old)
        (⟦<Box<dyn Loader + Send> as Loader>⟧.told loader.old)
        (⟦<Box<dyn Loader + Send> as Loader>⟧.given loader.old)
        (⟦<Box<dyn Loader + Send> as Loader>⟧.refused loader.old)
        (⟦<Box<dyn Loader + Send> as Loader>⟧.ended loader.old)
        (⟦<Box<dyn Loader + Send> as Loader>⟧.stopped loader.old) }
    ensures drives { IsLoaderDriven (homes_of files.now) seats.old seats.new
        (⟦<Box<dyn Loader + Send> as Loader>⟧.prepared loader.new)
        (⟦<Box<dyn Loader + Send> as Loader>⟧.told loader.new)
        (⟦<Box<dyn Loader + Send> as Loader>⟧.given loader.new)
        (⟦<Box<dyn Loader + Send> as Loader>⟧.idle loader.new)
        (⟦<Box<dyn Loader + Send> as Loader>⟧.faults loader.old)
        (⟦<Box<dyn Loader + Send> as Loader>⟧.faults loader.new)
        (⟦<Box<dyn Loader + Send> as Loader>⟧.ended loader.new)
        (⟦<Box<dyn Loader + Send> as Loader>⟧.stopped loader.new)
        (⟦<Box<dyn Loader + Send> as Loader>⟧.refused loader.new) result }
{
    drive_loader(
        rt, alloc, loader, files, seats, passes, who, bell, clock, gate,
    )
}
