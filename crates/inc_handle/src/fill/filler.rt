// One who fills a shared file at a seat of its lock.
ghost use Rattle.std.specs.Prelude.{◌≡◌, ◌+◌, ◌%◌, ◌^◌, ◌<◌, ◌≤◌, length};
ghost use Rattle.inc_bytes.specs.Tests.{judge};
ghost use Rattle.inc_filling.specs.Grouped.{AreDistinct};
ghost use Rattle.inc_filling.specs.Pieces.{AreTaken, piece_indices};
ghost use Rattle.inc_handle.specs.Checks.{AreOfFile, piece_refusal};
ghost use Rattle.inc_handle.specs.Outcomes.{FillBy, FillsTaken, fill_refusal, is_permitted, pass_refusal};
ghost use Rattle.inc_cell.specs.events.CellEvents.{footing_of};
ghost use Rattle.inc_handle.specs.Pending.{TakesPending};
ghost use Rattle.inc_handle.specs.Shared.{HasGoneOn, IsSeatOf};
ghost use Rattle.inc_turn.specs.Locks.{seat_view, table_of};

use super::checks::{judge_piece, refusal_of_pieces};
use super::outcomes::{OutcomeList, tell};
use super::pending::{TakenReads, take_pending};
use super::pieces::fillings_of;
use super::store::fill_blocks;
use crate::{FileSeat, FillPass, KnownFile, SharedFile};
use inc_bytes::Id;
use inc_disk::Disk;
use inc_frame::Piece;
use inc_io::Bell;
use inc_model::{FillError, Window};
use std::alloc::Global;
use std::sync::Wait;

/// Fills pieces that the file takes, as one group. All memory is taken before the first event.
fn fill_taken<D: Disk, R: Wait, B: Bell>(
    rt: &R,
    alloc: Global,
    file: &SharedFile<D>,
    seat: &mut FileSeat,
    bell: &B,
    window: Window,
    pieces: &[Piece],
) -> Result<OutcomeList, FillError>
    requires own { IsSeatOf (table_of file.now.lock) file.now.begun.value seat.old }
    requires who { window.who ≡ seat.old.number }
    requires taken { AreTaken file.now.known.opened.value pieces.now }
    requires distinct { AreDistinct (piece_indices file.now.known.opened.value pieces.now) }
    requires some { 0 < length pieces.now }
    requires most { length pieces.now ≤ 64 }
    ensures own { HasGoneOn seat.old seat.new }
    ensures fills { FillsTaken (footing_of file.now.begun.value) (seat_view seat.old) window pieces.now result (seat_view seat.new) }
{
    let Ok(group) = fillings_of(alloc, &file.known, pieces) else {
        return Err(FillError::OutOfMemory);
    };
    let Ok(mut stored) = Vec::with_capacity(alloc, group.len()) else {
        return Err(FillError::OutOfMemory);
    };
    let Ok(mut ends) = Vec::with_capacity(alloc, group.len()) else {
        return Err(FillError::OutOfMemory);
    };
    let Ok(room) = Vec::with_capacity(alloc, group.len()) else {
        return Err(FillError::OutOfMemory);
    };
    let end = fill_blocks(rt, file, seat, bell, window, group, &mut stored, &mut ends);
    tell(end, ends.as_slice(), room)
}

/// Fills pieces as one group, if that is permitted and the file takes each of them.
fn fill_permitted<D: Disk, R: Wait, B: Bell>(
    rt: &R,
    alloc: Global,
    file: &SharedFile<D>,
    seat: &mut FileSeat,
    bell: &B,
    window: Window,
    permitted: bool,
    pieces: &[Piece],
) -> Result<OutcomeList, FillError>
    requires own { IsSeatOf (table_of file.now.lock) file.now.begun.value seat.old }
    requires who { window.who ≡ seat.old.number }
    requires of_file { AreOfFile file.now.begun.value.opened.header.id pieces.now }
    requires distinct { AreDistinct (piece_indices file.now.begun.value.opened pieces.now) }
    requires some { 0 < length pieces.now }
    requires most { length pieces.now ≤ 64 }
    ensures own { HasGoneOn seat.old seat.new }
    ensures fills { FillBy (fill_refusal permitted file.now.begun.value.opened pieces.now) (footing_of file.now.begun.value) (seat_view seat.old) window pieces.now result (seat_view seat.new) }
{
    if let Some(error) = refusal_by(permitted, &file.known, pieces) {
        return Err(error);
    }
    fill_taken(rt, alloc, file, seat, bell, window, pieces)
}

/// Why pieces aren't filled, before any event.
fn refusal_by(permitted: bool, known: &KnownFile, pieces: &[Piece]) -> Option<FillError>
    requires few { length pieces.now ≤ 64 }
    ensures value { result ≡ fill_refusal permitted known.now.opened.value pieces.now }
{
    if permitted {
        return refusal_of_pieces(known, pieces);
    }
    Some(FillError::NoPermission)
}

/// Whether a pass is one for this file and session.
fn is_permitted(pass: &FillPass, id: Id, session: u32) -> bool
    ensures value { result ≡ is_permitted pass.now.id pass.now.session id session }
{
    if pass.id == id {
        return pass.session == session;
    }
    false
}

/// One who fills a file at a seat of its lock, in one session.
#[derive(Drop)]
pub struct Filler<'a, D: Disk> {
    file: &'a SharedFile<D>,
    seat: &'a mut FileSeat,
    session: u32,
    /// Its fills before, modulo 2^32.
    calls: u32,
}

impl<'a, D: Disk> Filler<'a, D> {
    /// A filler at a seat of this file.
    pub fn new(file: &'a SharedFile<D>, seat: &'a mut FileSeat, session: u32) -> Filler<'a, D>
        requires own { IsSeatOf (table_of file.now.lock) file.now.begun.value seat.old }
        ensures seat { result.seat.now ≡ seat.old }
        ensures lent { result.seat.ghost_name ≡ seat.entry.ghost_name }
        ensures file { result.file.now ≡ file.now }
        ensures session { result.session ≡ session }
        ensures calls { result.calls ≡ 0 }
    {
        Filler {
            file,
            seat,
            session,
            calls: 0,
        }
    }

    /// Whether a piece may be filled with this pass, and else the first cause by which it may not, as of a piece with the number 0.
    pub fn check_piece(&self, pass: &FillPass, p: &Piece) -> Result<(), FillError>
        ensures value { result ≡ judge (pass_refusal (is_permitted pass.now.id pass.now.session self.now.file.now.begun.value.opened.header.id self.now.session) (piece_refusal self.now.file.now.begun.value.opened p.now)) tt }
    {
        check_permitted(
            is_permitted(pass, self.file.id(), self.session),
            &self.file.known,
            p,
        )
    }

    /// Takes the waiting reads whose serials are over `after`, at most `max` of them: one event of the seat.
    pub fn take_pending<R: Wait>(
        &mut self,
        rt: &R,
        after: u32,
        max: u32,
    ) -> Result<TakenReads, FillError>
        requires own { IsSeatOf (table_of self.old.file.now.lock) self.old.file.now.begun.value self.old.seat.now }
        ensures lent { self.new.seat.ghost_name ≡ self.old.seat.ghost_name }
        ensures file { self.new.file.now ≡ self.old.file.now }
        ensures session { self.new.session ≡ self.old.session }
        ensures calls { self.new.calls ≡ self.old.calls }
        ensures own { HasGoneOn self.old.seat.now self.new.seat.now }
        ensures takes { TakesPending (footing_of self.old.file.now.begun.value) (seat_view self.old.seat.now) after max result (seat_view self.new.seat.now) }
    {
        take_pending(rt, self.file, self.seat, after, max)
    }

    /// Fills pieces as one group, under one claim and with two syncs for all of them, and answers what became of each.
    pub fn fill<R: Wait, B: Bell>(
        &mut self,
        rt: &R,
        alloc: Global,
        pass: &FillPass,
        pieces: &[Piece],
        bell: &B,
    ) -> Result<OutcomeList, FillError>
        requires own { IsSeatOf (table_of self.old.file.now.lock) self.old.file.now.begun.value self.old.seat.now }
        requires of_file { AreOfFile self.old.file.now.begun.value.opened.header.id pieces.now }
        requires distinct { AreDistinct (piece_indices self.old.file.now.begun.value.opened pieces.now) }
        requires some { 0 < length pieces.now }
        requires most { length pieces.now ≤ 64 }
        ensures lent { self.new.seat.ghost_name ≡ self.old.seat.ghost_name }
        ensures file { self.new.file.now ≡ self.old.file.now }
        ensures session { self.new.session ≡ self.old.session }
        ensures calls { self.new.calls ≡ (self.old.calls + 1) % 2 ^ 32 }
        ensures own { HasGoneOn self.old.seat.now self.new.seat.now }
        ensures fills { FillBy (fill_refusal (is_permitted pass.now.id pass.now.session self.old.file.now.begun.value.opened.header.id self.old.session) self.old.file.now.begun.value.opened pieces.now) (footing_of self.old.file.now.begun.value)
            (seat_view self.old.seat.now) (record { who = self.old.seat.now.number; count = self.old.calls }) pieces.now result (seat_view self.new.seat.now) }
    {
        let window = Window {
            who: self.seat.number(),
            count: self.calls,
        };
        self.calls = self.calls.wrapping_add(1);
        let permitted = is_permitted(pass, self.file.id(), self.session);
        fill_permitted(
            rt, alloc, self.file, self.seat, bell, window, permitted, pieces,
        )
    }
}

/// Whether a piece may be filled, where that is permitted.
fn check_permitted(permitted: bool, known: &KnownFile, p: &Piece) -> Result<(), FillError>
    ensures value { result ≡ judge (pass_refusal permitted (piece_refusal known.now.opened.value p.now)) tt }
{
    if permitted {
        return judge_piece(known, p);
    }
    Err(FillError::NoPermission)
}
