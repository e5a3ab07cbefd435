ghost use Rattle.std.specs.Prelude.{◌≡◌, ◌≢◌, ℕ, ◌+◌, List, [], ◌++◌, length, false, IfOk, IfErr, IfSome, OnOk, OnErr, IsOkAnd, Err, None, Some};
ghost use Rattle.inc_frame.specs.Fronts.{Faulty, Greeting, byte_count, fault_of, front_from, has_ended, stream_front};
ghost use Rattle.inc_frame.specs.Reader.{fresh_reader, verdict_at_end};
ghost use Rattle.inc_frame.specs.ReaderStages.{stage_state};
ghost use Rattle.inc_frame.specs.declared.piece.Piece.{Piece};

use crate::reading::advance;
use crate::stage::{HELLO_LEN, HelloPart, ReadStage};
use crate::{FrameFault, OutOfMemory, Piece, PieceList};
use std::alloc::{AllocError, Global};
use std::marker::Model;
use std::mem;

/// What came of the bytes of one call.
#[derive(Drop)]
pub struct Fed {
    /// The pieces that are whole with these bytes.
    pub pieces: PieceList,
    /// How many of the bytes belong to the stream: all of them, or those up to its end.
    pub used: usize,
    /// Whether the end has come.
    pub ended: bool,
}

/// A reader of one loader's stream.
///
/// It holds at most one piece's bytes, beside what a call gives. Once a fault of the stream has come it answers that fault for good.
#[derive(Drop)]
pub struct FrameReader {
    alloc: Global,
    stage: ReadStage,
    /// The pieces that were whole before a fault, in its call.
    taken: Vec<Piece>,
}

impl Model for FrameReader {
    ghost use Rattle.std.specs.Prelude.{◌≡◌, [], None};
    ghost use Rattle.inc_frame.specs.Fronts.{fault_of};
    ghost use Rattle.inc_frame.specs.ReaderStages.{stage_state};
    ghost use Rattle.inc_frame.specs.Reader.{ReaderState};

    ghost Value = { ReaderState };

    ghost view = { λ r. record { state = stage_state r.stage; taken = r.taken.items } };

    ghost invariant = { λ r. fault_of (stage_state r.stage) ≡ None → r.taken.items ≡ [] };
}

impl FrameReader {
    /// A reader at its stream's first byte. It takes no memory before it is fed.
    pub fn new(alloc: Global) -> Result<FrameReader, OutOfMemory>
        ensures value { IsOkAnd result (λ r. r ≡ fresh_reader) }
    {
        Ok(FrameReader {
            alloc,
            stage: ReadStage::Hello(HelloPart {
                seen: [0; HELLO_LEN],
                have: 0,
            }),
            taken: Vec::new(alloc),
        })
    }

    /// Takes the next bytes of the stream. Bytes after its end are left.
    pub fn feed(&mut self, piece: &[u8]) -> Result<Fed, FrameFault>
        // Nothing has changed where memory ran out.
        ensures memory { result ≡ Err FrameFault.OutOfMemory → self.new ≡ self.old }

        // Else the stream stands where these bytes leave it, and the pieces that are whole with them are given.
        ensures state { result ≢ Err FrameFault.OutOfMemory → self.new.state ≡ (front_from self.old.state piece.now).state }
        ensures given { IfOk result (λ fed. fed.pieces ≡ (front_from self.old.state piece.now).pieces) }
        ensures ended { IfOk result (λ fed. fed.ended ≡ has_ended self.new.state) }
        ensures used { IfOk result (λ fed. byte_count self.old.state + fed.used ≡ byte_count self.new.state) }
        ensures whole { IfOk result (λ fed. fed.ended ≡ false → fed.used ≡ length piece.now) }

        // A fault of the stream is answered exactly where one has come.
        ensures sound { OnOk result (fault_of self.new.state ≡ None) }
        ensures fault { IfErr result (λ fault. fault ≢ FrameFault.OutOfMemory → self.new.state ≡ Faulty fault) }
        // The pieces before it are kept until they are taken.
        ensures kept { IfErr result (λ fault. fault ≢ FrameFault.OutOfMemory → self.new.taken ≡ self.old.taken ++ (front_from self.old.state piece.now).pieces) }
        ensures none_kept { OnOk result (self.new.taken ≡ self.old.taken) }

        // However the bytes before and these were cut, all that was given is what the joined bytes hold.
        ensures joined { (before : List ℕ) (given : List Piece) → stream_front before ≡ record { pieces = given; state = self.old.state }
            → IfOk result (λ fed. stream_front (before ++ piece.now) ≡ record { pieces = given ++ fed.pieces; state = self.new.state }) }
        ensures joined_fault { (before : List ℕ) (given : List Piece) → stream_front before ≡ record { pieces = given; state = self.old.state } → fault_of self.old.state ≡ None
            → IfErr result (λ fault. fault ≢ FrameFault.OutOfMemory → stream_front (before ++ piece.now) ≡ record { pieces = given ++ self.new.taken; state = Faulty fault }) }
    {
        if let Some(fault) = self.fault() {
            return Err(fault);
        }
        let before = self.count();
        let pieces = self.take_bytes(piece)?;
        if let Some(fault) = self.fault() {
            self.taken = pieces;
            return Err(fault);
        }
        Ok(Fed {
            pieces: PieceList::from_vec(pieces),
            used: (self.count() - before) as usize,
            ended: self.has_ended(),
        })
    }

    /// The pieces that are whole with these bytes. Nothing has changed where memory ran out.
    fn take_bytes(&mut self, piece: &[u8]) -> Result<Vec<Piece>, OutOfMemory>
        requires fine { fault_of self.old.state ≡ None }
        ensures ok { IfOk result (λ pieces. front_from self.old.state piece.now ≡ record { pieces = pieces.items; state = self.new.state }) }
        ensures kept { IfOk result (λ _. self.new.taken ≡ []) }
        ensures none_kept { self.old.taken ≡ [] }
        ensures err { OnErr result (self.new ≡ self.old) }
    {
        let mut pieces = Vec::new(self.alloc);
        let stage = mem::replace(&mut self.stage, ReadStage::Ended(0));
        match advance(self.alloc, stage, piece, &mut pieces) {
            Ok(stage) => {
                self.stage = stage;
                Ok(pieces)
            }
            Err(stage) => {
                self.stage = stage;
                Err(AllocError)
            }
        }
    }

    /// The stream's fault.
    fn fault(&self) -> Option<FrameFault>
        ensures value { result ≡ fault_of self.now.state }
        ensures of_stream { IfSome result (λ fault. fault ≢ FrameFault.OutOfMemory) }
    {
        match &self.stage {
            ReadStage::Failed(failure) => Some(failure.fault),
            _ => None,
        }
    }

    /// How many bytes of the stream have come, none after its end.
    fn count(&self) -> u64
        ensures value { result ≡ byte_count self.now.state }
    {
        match &self.stage {
            ReadStage::Hello(part) => part.have as u64,
            ReadStage::Head(part) => part.place,
            ReadStage::Body(part) => part.place,
            ReadStage::Ended(count) => *count,
            ReadStage::Failed(_) => 0,
        }
    }

    fn has_ended(&self) -> bool
        ensures value { result ≡ has_ended self.now.state }
    {
        matches!(self.stage, ReadStage::Ended(_))
    }

    /// Says that the input has ended: whether the stream had its end before.
    pub fn finish(&self) -> Result<(), FrameFault>
        ensures value { result ≡ verdict_at_end self.now.state }
    {
        if let Some(fault) = self.fault() {
            return Err(fault);
        }
        if self.has_ended() {
            return Ok(());
        }
        Err(FrameFault::Cut { at: self.count() })
    }

    /// Takes the pieces that were whole before the stream's fault in the call that met it.
    pub fn taken(&mut self) -> PieceList
        ensures value { result ≡ self.old.taken }
        ensures after { self.new ≡ record self.old { taken = [] } }
    {
        PieceList::from_vec(mem::replace(&mut self.taken, Vec::new(self.alloc)))
    }
}
