// A loader whose contents follow from a number.
ghost use Rattle.std.specs.Prelude.{◌≡◌, ◌≤◌, [], false, None, All, length, drop};
ghost use Rattle.inc_loader.specs.ContentPieces.{AreFirstMarks, all_pieces, files_in};
ghost use Rattle.inc_loader.specs.PiecesLeft.{pieces_left};
ghost use Rattle.inc_loader.specs.declared.loader_file.LoaderFile.{LoaderFile};
ghost use Rattle.inc_tree.specs.shape.Limits.{most_size};

mod content;
mod content_queue;
mod file_in_work;
#[cfg(test)]
mod tests;

use crate::held::Held;
use crate::{Given, Loader, LoaderFile, LoaderTurn, OutOfMemory};
use content_queue::ContentQueue;
pub use file_in_work::FileInWork;
use inc_frame::PieceList;
use inc_pending::PendingRecord;
use std::alloc::Global;

/// A loader that gives all blocks of its files, in the order in which they were prepared: the hash blocks of a file, then its data blocks.
/// The content of a file is that of the loader's number at the file's size, whatever root the file has. One call gives one block, and
/// the loader holds the hash blocks of one file: a file is hashed when its first block is asked for.
#[derive(Drop)]
pub struct GenLoader {
    held: Held,
    queue: ContentQueue,
    ghost sized: { All (λ (file : LoaderFile). file.size ≤ most_size) (files_in held.files) },
    ghost unbegun: { held.files ≡ None → queue.begun ≡ 0 },
    // What was given is the front of all pieces of its files, and what is left is the rest.
    ghost marks: { AreFirstMarks queue.number (files_in held.files) held.given.items },
    ghost left: { pieces_left queue.number queue.work queue.begun (files_in held.files)
        ≡ drop (length held.given.items) (all_pieces queue.number (files_in held.files)) },
}

impl GenLoader {
    ghost use Rattle.std.specs.Prelude.{◌++◌, IsSome, IfOk, OnErr};
    ghost use Rattle.inc_loader.specs.ContentPieces.{gave_all};
    ghost use Rattle.inc_loader.specs.Reading.{pieces_in};
    ghost use Rattle.inc_loader.specs.Turns.{Answers, EndsInDone, GivenCause, GivesMarks, IsFreshLoader};

    /// A loader of the contents of this number. It takes no memory.
    pub fn new(alloc: Global, number: u64) -> GenLoader
        ensures number { result.queue.number ≡ number }
        ensures fresh { IsFreshLoader result.held.files result.held.told.items result.held.given.items None
            (gave_all result.queue.number result.held.files result.held.given.items) result.held.stopped }
    {
        GenLoader {
            held: Held::new(alloc),
            queue: ContentQueue::new(number),
        }
    }

    // Nothing is given where memory runs out.
    fn give_next(&mut self) -> Result<Given, OutOfMemory>
        requires { IsSome self.old.held.files }
        ensures gives { IfOk result (λ given. GivesMarks self.old.held.files given
            self.old.held.given.items self.new.held.given.items) }
        ensures answers { IfOk result (λ given. Answers given
            (gave_all self.new.queue.number self.new.held.files self.new.held.given.items) None 0 0) }
        ensures cause { IfOk result (λ given. GivenCause 0 0 given) }
        ensures done { IfOk result (λ given. EndsInDone given (gave_all self.old.queue.number self.old.held.files self.old.held.given.items)
            (gave_all self.new.queue.number self.new.held.files self.new.held.given.items)) }
        ensures next { IfOk result (λ given. drop (length self.old.held.given.items) (all_pieces self.old.queue.number (files_in self.old.held.files))
            ≡ pieces_in given ++ drop (length self.new.held.given.items) (all_pieces self.old.queue.number (files_in self.old.held.files))) }
        ensures none { OnErr result (self.new.held.given.items ≡ self.old.held.given.items) }
        ensures more { OnErr result (gave_all self.new.queue.number self.new.held.files self.new.held.given.items ≡ false) }
        ensures number { self.new.queue.number ≡ self.old.queue.number }
        ensures files { self.new.held.files ≡ self.old.held.files }
        ensures told { self.new.held.told.items ≡ self.old.held.told.items }
        ensures stopped { self.new.held.stopped ≡ self.old.held.stopped }
    {
        let Some(files) = &self.held.files else {
            unreachable!()
        };
        if !self.queue.go_on(self.held.alloc, files.as_slice())? {
            return Ok(Given::Done);
        }
        let piece = self.queue.piece(self.held.alloc)?;
        let pieces = self.held.give_one(piece)?;
        self.queue.pass();
        Ok(Given::Pieces(PieceList::from_vec(pieces)))
    }
}

impl Loader for GenLoader {
    ghost use Rattle.std.specs.Prelude.{◌≡◌, ◌≤◌, ◌++◌, true, None, All, IsSome, length, drop};
    ghost use Rattle.inc_loader.specs.ContentPieces.{all_pieces, files_in, gave_all};
    ghost use Rattle.inc_loader.specs.Reading.{pieces_in};
    ghost use Rattle.inc_loader.specs.Turns.{Answers, EndsInDone, GivenCause, GivesMarks, HearsRead, Prepares, StaysTrue, TurnCause};

    ghost prepared = { λ loader. loader.held.files };

    ghost told = { λ loader. loader.held.told.items };

    ghost given = { λ loader. loader.held.given.items };

    ghost refused = { λ _. None };

    ghost ended = { λ loader. gave_all loader.queue.number loader.held.files loader.held.given.items };

    ghost stopped = { λ loader. loader.held.stopped };

    ghost idle = { λ _. 0 };

    ghost faults = { λ _. 0 };

    fn prepare(&mut self, files: &[LoaderFile]) -> LoaderTurn
        requires { All (λ (file : LoaderFile). file.size ≤ most_size) files.now }
        ensures prepares { Prepares files.now result self.old.held.files self.new.held.files }
        ensures told { self.new.held.told.items ≡ self.old.held.told.items }
        ensures given { self.new.held.given.items ≡ self.old.held.given.items }
        ensures ended { StaysTrue (gave_all self.old.queue.number self.old.held.files self.old.held.given.items)
            (gave_all self.new.queue.number self.new.held.files self.new.held.given.items) }
        ensures stopped { self.new.held.stopped ≡ self.old.held.stopped }
        ensures cause { TurnCause 0 0 result }
        ensures queue { self.new.queue ≡ self.old.queue }
    {
        match self.held.prepare(files) {
            Ok(()) => LoaderTurn::Fine,
            Err(_) => LoaderTurn::OutOfMemory,
        }
    }

    fn tell(&mut self, read: &PendingRecord) -> LoaderTurn
        ensures tells { HearsRead read.now result self.old.held.told.items self.new.held.told.items }
        ensures prepared { self.new.held.files ≡ self.old.held.files }
        ensures given { self.new.held.given.items ≡ self.old.held.given.items }
        ensures ended { StaysTrue (gave_all self.old.queue.number self.old.held.files self.old.held.given.items)
            (gave_all self.new.queue.number self.new.held.files self.new.held.given.items) }
        ensures stopped { self.new.held.stopped ≡ self.old.held.stopped }
        ensures cause { TurnCause 0 0 result }
        ensures queue { self.new.queue ≡ self.old.queue }
    {
        match self.held.tell(read) {
            Ok(()) => LoaderTurn::Fine,
            Err(_) => LoaderTurn::OutOfMemory,
        }
    }

    fn give(&mut self) -> Given
        requires { IsSome self.old.held.files }
        ensures gives { GivesMarks self.old.held.files result self.old.held.given.items self.new.held.given.items }
        ensures answers { Answers result (gave_all self.new.queue.number self.new.held.files self.new.held.given.items) None 0 0 }
        ensures prepared { self.new.held.files ≡ self.old.held.files }
        ensures told { self.new.held.told.items ≡ self.old.held.told.items }
        ensures ended { StaysTrue (gave_all self.old.queue.number self.old.held.files self.old.held.given.items)
            (gave_all self.new.queue.number self.new.held.files self.new.held.given.items) }
        ensures stopped { self.new.held.stopped ≡ self.old.held.stopped }
        ensures cause { GivenCause 0 0 result }

        // It gives the pieces of its files one after another, and is done exactly when they are all given.
        ensures next { drop (length self.old.held.given.items) (all_pieces self.old.queue.number (files_in self.old.held.files))
            ≡ pieces_in result ++ drop (length self.new.held.given.items) (all_pieces self.old.queue.number (files_in self.old.held.files)) }
        ensures done { EndsInDone result (gave_all self.old.queue.number self.old.held.files self.old.held.given.items)
            (gave_all self.new.queue.number self.new.held.files self.new.held.given.items) }
        ensures number { self.new.queue.number ≡ self.old.queue.number }
    {
        match self.give_next() {
            Ok(given) => given,
            Err(_) => Given::OutOfMemory,
        }
    }

    fn stop(&mut self) -> LoaderTurn
        ensures stopped { self.new.held.stopped ≡ true }
        ensures prepared { self.new.held.files ≡ self.old.held.files }
        ensures told { self.new.held.told.items ≡ self.old.held.told.items }
        ensures given { self.new.held.given.items ≡ self.old.held.given.items }
        ensures ended { StaysTrue (gave_all self.old.queue.number self.old.held.files self.old.held.given.items)
            (gave_all self.new.queue.number self.new.held.files self.new.held.given.items) }
        ensures cause { TurnCause 0 0 result }
        ensures queue { self.new.queue ≡ self.old.queue }
    {
        self.held.stop();
        LoaderTurn::Fine
    }
}
