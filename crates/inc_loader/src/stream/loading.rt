// The calls of a loader, on its two streams.
ghost use Rattle.std.specs.Prelude.{◌≡◌, ◌≢◌, ◌+◌, ◌++◌, ◌≤◌, ℕ, List, Option, All, IsSome, take, true};
ghost use Rattle.inc_frame.specs.declared.piece.Piece.{Piece};
ghost use Rattle.inc_loader.specs.Reading.{FollowsStream, IsReadStream, before_rest, has_given_all, pieces_in};
ghost use Rattle.inc_loader.specs.Sent.{HasRequests, requests_of, sent_after};
ghost use Rattle.inc_loader.specs.Turns.{Answers, EndsInDone, GivenCause, GivesMarks, HearsRead, Prepares, StaysRefused, StaysTrue, TurnCause};
ghost use Rattle.inc_loader.specs.declared.loader_file.LoaderFile.{LoaderFile};
ghost use Rattle.inc_loader.specs.declared.turn.LoaderTurn.TheVariants as turn;
ghost use Rattle.inc_tree.specs.shape.Limits.{most_size};

use super::{ReadStop, StreamLoader};
use crate::{Given, Loader, LoaderFile, LoaderTurn};
use inc_frame::PieceList;
use inc_io::{Sink, Source};
use inc_pending::PendingRecord;

impl<I: Source + Drop, O: Sink + Drop> Loader for StreamLoader<I, O> {
    ghost prepared = { λ loader. loader.held.files };

    ghost told = { λ loader. loader.held.told.items };

    ghost given = { λ loader. loader.held.given.items };

    ghost refused = { λ loader. loader.inlet.refused };

    ghost ended = { λ loader. has_given_all loader.inlet.whole.items loader.inlet.reader.state };

    ghost stopped = { λ loader. loader.held.stopped };

    ghost idle = { λ _. 0 };

    // Those of its source and its sink.
    ghost faults = { λ loader. I.faults loader.input + O.faults loader.outlet.out };

    fn prepare(&mut self, files: &[LoaderFile]) -> LoaderTurn
        requires { All (λ (file : LoaderFile). file.size ≤ most_size) files.now }
        ensures prepares { Prepares files.now result self.old.held.files self.new.held.files }
        ensures told { self.new.held.told.items ≡ self.old.held.told.items }
        ensures given { self.new.held.given.items ≡ self.old.held.given.items }
        ensures refused { StaysRefused self.old.inlet.refused self.new.inlet.refused }
        ensures ended { StaysTrue (has_given_all self.old.inlet.whole.items self.old.inlet.reader.state)
            (has_given_all self.new.inlet.whole.items self.new.inlet.reader.state) }
        ensures stopped { self.new.held.stopped ≡ self.old.held.stopped }
        ensures later { I.faults self.old.input + O.faults self.old.outlet.out
            ≤ I.faults self.new.input + O.faults self.new.outlet.out }
        ensures cause { TurnCause (I.faults self.old.input + O.faults self.old.outlet.out)
            (I.faults self.new.input + O.faults self.new.outlet.out) result }

        // It reads nothing and sends nothing.
        ensures unread { (self.new.input ≡ self.old.input) × (self.new.inlet ≡ self.old.inlet) }
        ensures unsent { self.new.outlet ≡ self.old.outlet }
    {
        match self.held.prepare(files) {
            Ok(()) => LoaderTurn::Fine,
            Err(_) => LoaderTurn::OutOfMemory,
        }
    }

    // The room for the read is there before its request goes out.
    fn tell(&mut self, read: &PendingRecord) -> LoaderTurn
        ensures tells { HearsRead read.now result self.old.held.told.items self.new.held.told.items }
        ensures prepared { self.new.held.files ≡ self.old.held.files }
        ensures given { self.new.held.given.items ≡ self.old.held.given.items }
        ensures refused { StaysRefused self.old.inlet.refused self.new.inlet.refused }
        ensures ended { StaysTrue (has_given_all self.old.inlet.whole.items self.old.inlet.reader.state)
            (has_given_all self.new.inlet.whole.items self.new.inlet.reader.state) }
        ensures stopped { self.new.held.stopped ≡ self.old.held.stopped }
        ensures later { I.faults self.old.input + O.faults self.old.outlet.out
            ≤ I.faults self.new.input + O.faults self.new.outlet.out }
        ensures cause { TurnCause (I.faults self.old.input + O.faults self.old.outlet.out)
            (I.faults self.new.input + O.faults self.new.outlet.out) result }

        // It fails only where its sink does, and else the sink has the requests of all reads that were told.
        ensures sink { TurnCause (O.faults self.old.outlet.out) (O.faults self.new.outlet.out) result }
        ensures unread { (self.new.input ≡ self.old.input) × (self.new.inlet ≡ self.old.inlet) }
        ensures version { self.new.outlet.second ≡ self.old.outlet.second }
        ensures sends { (had : Option (List ℕ)) → result ≢ turn.Failed
            → HasRequests had (O.written self.old.outlet.out) self.old.outlet.second self.old.outlet.greeted self.old.held.told.items
            → HasRequests had (O.written self.new.outlet.out) self.new.outlet.second self.new.outlet.greeted self.new.held.told.items }
    {
        if self.held.told.reserve(1).is_err() {
            return LoaderTurn::OutOfMemory;
        }
        if self.outlet.request(read).is_err() {
            return LoaderTurn::Failed;
        }
        self.held.told.push(*read).unwrap();
        LoaderTurn::Fine
    }

    fn give(&mut self) -> Given
        requires { IsSome self.old.held.files }
        ensures gives { GivesMarks self.old.held.files result self.old.held.given.items self.new.held.given.items }
        ensures answers { Answers result (has_given_all self.new.inlet.whole.items self.new.inlet.reader.state) self.new.inlet.refused 0 0 }
        ensures prepared { self.new.held.files ≡ self.old.held.files }
        ensures told { self.new.held.told.items ≡ self.old.held.told.items }
        ensures refused { StaysRefused self.old.inlet.refused self.new.inlet.refused }
        ensures ended { StaysTrue (has_given_all self.old.inlet.whole.items self.old.inlet.reader.state)
            (has_given_all self.new.inlet.whole.items self.new.inlet.reader.state) }
        ensures stopped { self.new.held.stopped ≡ self.old.held.stopped }
        ensures later { I.faults self.old.input + O.faults self.old.outlet.out
            ≤ I.faults self.new.input + O.faults self.new.outlet.out }
        ensures cause { GivenCause (I.faults self.old.input + O.faults self.old.outlet.out)
            (I.faults self.new.input + O.faults self.new.outlet.out) result }

        // It fails only where its source does.
        ensures source { GivenCause (I.faults self.old.input) (I.faults self.new.input) result }
        ensures unsent { self.new.outlet ≡ self.old.outlet }

        // What it gave are the first whole pieces of what it read, and it is refused exactly where that has a fault.
        ensures front { (input : Option (List ℕ)) (read : List ℕ) (gave : List Piece)
            → IsReadStream input read gave self.old.inlet.whole.items self.old.inlet.reader.state self.old.inlet.refused
            (I.ended self.old.input) (before_rest (take self.old.inlet.filled self.old.inlet.room.items) (I.left self.old.input))
            → (more : List ℕ) × IsReadStream input (read ++ more) (gave ++ pieces_in result) self.new.inlet.whole.items self.new.inlet.reader.state
            self.new.inlet.refused (I.ended self.new.input) (before_rest (take self.new.inlet.filled self.new.inlet.room.items) (I.left self.new.input)) }
        ensures follows { FollowsStream result self.new.inlet.whole.items }
        ensures done { EndsInDone result (has_given_all self.old.inlet.whole.items self.old.inlet.reader.state)
            (has_given_all self.new.inlet.whole.items self.new.inlet.reader.state) }
    {
        match self.inlet.read_on(&mut self.input) {
            Ok(()) => {}
            Err(ReadStop::Failed) => return Given::Failed,
            Err(ReadStop::OutOfMemory) => return Given::OutOfMemory,
        }
        if !self.inlet.whole.is_empty() {
            return match self.held.take(&mut self.inlet.whole) {
                Ok(pieces) => Given::Pieces(PieceList::from_vec(pieces)),
                Err(_) => Given::OutOfMemory,
            };
        }
        match self.inlet.refused {
            Some(fault) => Given::Bad(fault),
            None => Given::Done,
        }
    }

    fn stop(&mut self) -> LoaderTurn
        ensures stopped { self.new.held.stopped ≡ true }
        ensures prepared { self.new.held.files ≡ self.old.held.files }
        ensures told { self.new.held.told.items ≡ self.old.held.told.items }
        ensures given { self.new.held.given.items ≡ self.old.held.given.items }
        ensures refused { StaysRefused self.old.inlet.refused self.new.inlet.refused }
        ensures ended { StaysTrue (has_given_all self.old.inlet.whole.items self.old.inlet.reader.state)
            (has_given_all self.new.inlet.whole.items self.new.inlet.reader.state) }
        ensures later { I.faults self.old.input + O.faults self.old.outlet.out
            ≤ I.faults self.new.input + O.faults self.new.outlet.out }
        ensures cause { TurnCause (I.faults self.old.input + O.faults self.old.outlet.out)
            (I.faults self.new.input + O.faults self.new.outlet.out) result }

        // It fails only where its sink does, and else the sink has the whole stream of requests.
        ensures sink { TurnCause (O.faults self.old.outlet.out) (O.faults self.new.outlet.out) result }
        ensures unread { (self.new.input ≡ self.old.input) × (self.new.inlet ≡ self.old.inlet) }
        ensures version { self.new.outlet.second ≡ self.old.outlet.second }
        ensures ends { (had : Option (List ℕ)) → result ≡ turn.Fine
            → HasRequests had (O.written self.old.outlet.out) self.old.outlet.second self.old.outlet.greeted self.old.held.told.items
            → O.written self.new.outlet.out ≡ sent_after had (requests_of self.old.outlet.second self.old.held.told.items) }
    {
        self.held.stop();
        match self.outlet.stop() {
            Ok(()) => LoaderTurn::Fine,
            Err(_) => LoaderTurn::Failed,
        }
    }
}
