// What each loader of this crate keeps: its files, the reads that it was told, and the marks of what it gave.
ghost use Rattle.std.specs.Prelude.{◌≡◌, [], ◌∷◌, ◌++◌, ◌<◌, ◌≤◌, true, false, map, vec_len, Some, None, IfOk, OnOk, OnErr, IsSome};
ghost use Rattle.std.specs.Option.{unwrap_or};
ghost use Rattle.std.specs.VecDeque.{deque_len};
ghost use Rattle.inc_loader.specs.Marks.{mark_of};
ghost use Rattle.inc_loader.specs.Turns.{Prepares};
ghost use Rattle.inc_loader.specs.declared.turn.LoaderTurn.TheVariants.{Fine};

use crate::whole::take_front;
use crate::{FileList, LoaderFile, OutOfMemory, PieceMark};
use inc_frame::Piece;
use inc_pending::PendingRecord;
use std::alloc::Global;
use std::collections::VecDeque;

#[derive(Drop)]
pub struct Held {
    pub alloc: Global,
    pub files: Option<FileList>,
    pub told: Vec<PendingRecord>,
    pub given: Vec<PieceMark>,
    pub stopped: bool,
}

impl Held {
    pub(crate) fn new(alloc: Global) -> Held
        ensures files { result.files ≡ None }
        ensures told { result.told.items ≡ [] }
        ensures given { result.given.items ≡ [] }
        ensures stopped { result.stopped ≡ false }
    {
        Held {
            alloc,
            files: None,
            told: Vec::new(alloc),
            given: Vec::new(alloc),
            stopped: false,
        }
    }

    // The first files stay.
    pub(crate) fn prepare(&mut self, files: &[LoaderFile]) -> Result<(), OutOfMemory>
        ensures prepared { OnOk result (Prepares files.now Fine self.old.files self.new.files) }
        ensures none { OnErr result (self.new.files ≡ self.old.files) }
        ensures told { self.new.told.items ≡ self.old.told.items }
        ensures given { self.new.given.items ≡ self.old.given.items }
        ensures stopped { self.new.stopped ≡ self.old.stopped }
    {
        if self.files.is_none() {
            self.files = Some(FileList::of(self.alloc, files)?);
        }
        Ok(())
    }

    pub(crate) fn tell(&mut self, read: &PendingRecord) -> Result<(), OutOfMemory>
        ensures told { OnOk result (self.new.told.items ≡ self.old.told.items ++ read.now ∷ []) }
        ensures none { OnErr result (self.new.told.items ≡ self.old.told.items) }
        ensures files { self.new.files ≡ self.old.files }
        ensures given { self.new.given.items ≡ self.old.given.items }
        ensures stopped { self.new.stopped ≡ self.old.stopped }
    {
        self.told.push(*read)?;
        Ok(())
    }

    // Keeps the marks of these pieces, all or none of them.
    pub(crate) fn keep(&mut self, pieces: &[Piece]) -> Result<(), OutOfMemory>
        requires { IsSome self.old.files }
        ensures kept { OnOk result (self.new.given.items
            ≡ self.old.given.items ++ map (mark_of (unwrap_or self.old.files [])) pieces.now) }
        ensures none { OnErr result (self.new.given.items ≡ self.old.given.items) }
        ensures files { self.new.files ≡ self.old.files }
        ensures told { self.new.told.items ≡ self.old.told.items }
        ensures stopped { self.new.stopped ≡ self.old.stopped }
    {
        let Some(files) = &self.files else {
            unreachable!()
        };
        keep_marks(&mut self.given, pieces, files.as_slice())
    }

    // Gives one piece: its mark is kept, or nothing is given.
    pub(crate) fn give_one(&mut self, piece: Piece) -> Result<Vec<Piece>, OutOfMemory>
        requires { IsSome self.old.files }
        ensures piece { IfOk result (λ pieces. pieces.items ≡ piece ∷ []) }
        ensures given { OnOk result (self.new.given.items ≡ self.old.given.items ++ mark_of (unwrap_or self.old.files []) piece ∷ []) }
        ensures none { OnErr result (self.new.given.items ≡ self.old.given.items) }
        ensures files { self.new.files ≡ self.old.files }
        ensures told { self.new.told.items ≡ self.old.told.items }
        ensures stopped { self.new.stopped ≡ self.old.stopped }
    {
        let mut pieces = Vec::new(self.alloc);
        pieces.push(piece)?;
        self.keep(&pieces)?;
        Ok(pieces)
    }

    // Takes the first of the pieces that are whole, and keeps their marks.
    pub(crate) fn take(&mut self, whole: &mut VecDeque<Piece>) -> Result<Vec<Piece>, OutOfMemory>
        requires prepared { IsSome self.old.files }
        requires some { 0 < deque_len whole.old }
        ensures front { IfOk result (λ pieces. whole.old.items ≡ pieces.items ++ whole.new.items) }
        ensures given { IfOk result (λ pieces. self.new.given.items
            ≡ self.old.given.items ++ map (mark_of (unwrap_or self.old.files [])) pieces.items) }
        ensures some { IfOk result (λ pieces. 1 ≤ vec_len pieces) }
        ensures most { IfOk result (λ pieces. vec_len pieces ≤ 64) }
        ensures none { OnErr result ((whole.new.items ≡ whole.old.items) × (self.new.given.items ≡ self.old.given.items)) }
        ensures files { self.new.files ≡ self.old.files }
        ensures told { self.new.told.items ≡ self.old.told.items }
        ensures stopped { self.new.stopped ≡ self.old.stopped }
    {
        let Some(files) = &self.files else {
            unreachable!()
        };
        take_front(self.alloc, whole, &mut self.given, files.as_slice())
    }

    pub(crate) fn stop(&mut self)
        ensures stopped { self.new.stopped ≡ true }
        ensures files { self.new.files ≡ self.old.files }
        ensures told { self.new.told.items ≡ self.old.told.items }
        ensures given { self.new.given.items ≡ self.old.given.items }
    {
        self.stopped = true;
    }
}

fn keep_marks(
    marks: &mut Vec<PieceMark>,
    pieces: &[Piece],
    files: &[LoaderFile],
) -> Result<(), OutOfMemory>
    ensures kept { OnOk result (marks.new.items ≡ marks.old.items ++ map (mark_of files.now) pieces.now) }
    ensures none { OnErr result (marks.new.items ≡ marks.old.items) }
{
    marks.reserve(pieces.len())?;
    for piece in pieces {
        marks.push(PieceMark::of(piece, files)).unwrap();
    }
    Ok(())
}
