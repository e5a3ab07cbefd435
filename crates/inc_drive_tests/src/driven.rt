//! A drive over two files, each with one seat.
ghost use Rattle.std.specs.Prelude.{◌≡◌, ◌≤◌, [], length, slice_index_or, vec_capacity};
ghost use Rattle.inc_cell.specs.declared.machine.CellFooting.{CellFooting};
ghost use Rattle.inc_handle.specs.Shared.{IsSeatOf};
ghost use Rattle.inc_loader.specs.Turns.{IsFreshLoader};
ghost use Rattle.inc_turn.specs.Locks.{seat_view, table_of};
ghost use Rattle.inc_turn.specs.Opening.{AreAllSeats};
ghost use Rattle.inc_turn.specs.declared.seat.Seat.{Seat};

use crate::sample::Cell;
use inc_disk::MemDisk;
use inc_handle::{FileSeat, SharedFile, permit_fill, share, unshare};
use inc_io::{MemBell, OpenGate, StepClock};
use inc_loader::Loader;
use inc_script::LoaderLine;
use inc_session::drive_loader;
use std::alloc::Global;
use std::sync::Wait;
use std::test::Fail;

/// A shared file with its only seat, and a list that has room for it.
pub struct SeatedFile {
    file: SharedFile<MemDisk>,
    seat: FileSeat,
    room: Vec<FileSeat>,
    ghost own: { IsSeatOf (table_of file.lock) file.begun.value seat },
    ghost first: { seat.number ≡ 0 },
    ghost only: { (seat_view seat).made ≡ 1 },
    ghost empty: { room.items ≡ [] },
    ghost room_for_it: { 1 ≤ vec_capacity room },
}

/// A shared file with the only seat of its lock.
fn seated_of(file: SharedFile<MemDisk>, seats: Vec<FileSeat>) -> SeatedFile
    requires one { length seats.items ≡ 1 }
    requires own { (d : Seat CellFooting) → IsSeatOf (table_of file.lock) file.begun.value (slice_index_or seats.items 0 d) }
    requires all { AreAllSeats (table_of file.lock) seats.items }
{
    let mut room = seats;
    let seat = room.remove(0);
    SeatedFile { file, seat, room }
}

/// Shares a cell with one seat.
fn shared(alloc: Global, cell: Cell) -> Result<SeatedFile, Fail> {
    match share(alloc, cell, 1) {
        Ok((file, seats)) => Ok(seated_of(file, seats)),
        Err(_) => Err("memory for a lock".into()),
    }
}

/// Lets the lock go.
fn close(seated: SeatedFile) {
    let SeatedFile { file, seat, room } = seated;
    let mut seats = room;
    seats.push_reserved(seat);
    let _cell = unshare(file, seats);
}

/// Drives a loader over two files.
fn driven<R: Wait, L: Loader>(
    rt: &R,
    alloc: Global,
    loader: &mut L,
    first: SeatedFile,
    second: SeatedFile,
) -> LoaderLine
    requires fresh { IsFreshLoader (L.prepared loader.old) (L.told loader.old) (L.given loader.old) (L.refused loader.old) (L.ended loader.old) (L.stopped loader.old) }
{
    let SeatedFile {
        file: first_file,
        seat: first_seat,
        room: first_room,
    } = first;
    let SeatedFile {
        file: second_file,
        seat: second_seat,
        room: second_room,
    } = second;
    let passes = [permit_fill(&first_file, 7), permit_fill(&second_file, 7)];
    let files = [first_file, second_file];
    let mut seats = [first_seat, second_seat];
    let line = drive_loader(
        rt,
        alloc,
        loader,
        &files,
        &mut seats,
        &passes,
        0,
        &MemBell::new(),
        &StepClock::new(0, 0),
        &OpenGate::new(),
    );
    let [first_file, second_file] = files;
    let [first_seat, second_seat] = seats;
    close(SeatedFile {
        file: first_file,
        seat: first_seat,
        room: first_room,
    });
    close(SeatedFile {
        file: second_file,
        seat: second_seat,
        room: second_room,
    });
    line
}

/// Drives a loader over the files of two cells.
pub fn drive_both<R: Wait, L: Loader>(
    rt: &R,
    alloc: Global,
    loader: &mut L,
    first: Cell,
    second: Cell,
) -> Result<LoaderLine, Fail>
    requires fresh { IsFreshLoader (L.prepared loader.old) (L.told loader.old) (L.given loader.old) (L.refused loader.old) (L.ended loader.old) (L.stopped loader.old) }
{
    let first = shared(alloc, first)?;
    match shared(alloc, second) {
        Ok(second) => Ok(driven(rt, alloc, loader, first, second)),
        Err(error) => {
            close(first);
            Err(error)
        }
    }
}
