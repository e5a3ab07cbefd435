// A file that several seats share: its cell behind a lock.
ghost use Rattle.std.specs.Prelude.{◌≡◌, ◌≤◌, ◌<◌, IfOk, IfErr};
ghost use Rattle.inc_cell.specs.events.CellEvents.{CellTakes, footing_of};
ghost use Rattle.inc_handle.specs.Shared.{IsClosedFile, TakesTurn};
ghost use Rattle.inc_turn.specs.Locks.{IsSameSeat, lock_of, seat_view, table_of};
ghost use Rattle.inc_turn.specs.Opening.{AreAllSeats, AreNewSeats};
ghost use Rattle.std.specs.Prelude.{Some};

pub mod known;

use crate::OutOfMemory;
use inc_bytes::Id;
use inc_cell::{Answer, CellEvent, CellFooting, FileCell};
use inc_disk::Disk;
use inc_tree::{Digest32, Geometry};
use inc_turn::TurnLock;
use known::KnownFile;
use std::alloc::{AllocError, Global};
use std::snapshot::Snapshot;
use std::sync::Wait;

/// A seat at a file's lock, whatever disk the file lies on.
pub type FileSeat = inc_turn::Seat<CellFooting>;

/// One file with its history, for several seats. It has no `Drop`: unshare it to have the cell again.
pub struct SharedFile<D: Disk> {
    pub(crate) lock: TurnLock<FileCell<D>>,
    /// The cell as it was shared.
    pub(crate) begun: Snapshot<FileCell<D>>,
    pub(crate) known: KnownFile,
    pub ghost known_is: { known.opened.value ≡ begun.value.opened },
}

/// Puts a cell behind a lock with so many seats. Without memory the cell comes back.
pub fn share<D: Disk>(
    alloc: Global,
    cell: FileCell<D>,
    seats: u32,
) -> Result<(SharedFile<D>, Vec<FileSeat>), (OutOfMemory, FileCell<D>)>
    requires some { 1 ≤ seats }
    requires most { seats ≤ 72 }
    ensures begun { IfOk result (λ made. made.0.begun.value ≡ cell) }
    ensures seats { IfOk result (λ made. AreNewSeats (table_of made.0.lock) cell.history (footing_of cell) seats made.1.items) }
    ensures back { IfErr result (λ refused. refused.1 ≡ cell) }
{
    let Ok(known) = known_of(alloc, &cell) else {
        return Err((AllocError, cell));
    };
    let begun = Snapshot::of(&cell);
    match TurnLock::new(alloc, cell, seats) {
        Ok((lock, list)) => Ok((SharedFile { lock, begun, known }, list)),
        Err(refused) => Err(refused),
    }
}

/// What is known of a cell's file.
fn known_of<D: Disk>(alloc: Global, cell: &FileCell<D>) -> Result<KnownFile, OutOfMemory>
    ensures opened { IfOk result (λ known. known.opened.value ≡ cell.now.opened) }
{
    KnownFile::of(alloc, cell.opened())
}

/// Gives the cell back, once its lock is closed.
pub fn unshare<D: Disk>(file: SharedFile<D>, seats: Vec<FileSeat>) -> FileCell<D>
    requires seats { AreAllSeats (table_of file.lock) seats.items }
    ensures closed { IsClosedFile seats.items result }
{
    let SharedFile {
        lock,
        begun: _,
        known: _,
    } = file;
    lock.close(seats)
}

impl<D: Disk> SharedFile<D> {
    /// The file's id.
    pub fn id(&self) -> Id
        ensures value { result ≡ self.now.begun.value.opened.header.id }
    {
        self.known.id
    }

    /// The shape of the file's tree.
    pub fn geometry(&self) -> &Geometry
        ensures value { result.now ≡ self.now.begun.value.opened.areas.geometry }
    {
        &self.known.geometry
    }

    /// The root that proves the file's blocks, where it is signed.
    pub fn root(&self) -> Option<Digest32>
        ensures value { result ≡ self.now.known.root }
    {
        self.known.root
    }

    /// One event of a seat, once its turn has come.
    pub(crate) fn turn<R: Wait>(&self, rt: &R, seat: &mut FileSeat, event: CellEvent) -> Answer
        requires own { lock_of seat.old ≡ table_of self.now.lock }
        requires takes { CellTakes seat.old.number event }
        ensures own { IsSameSeat seat.old seat.new }
        ensures turn { TakesTurn (seat_view seat.old) event result (seat_view seat.new) }
    {
        self.lock.turn(rt, seat, event)
    }
}
