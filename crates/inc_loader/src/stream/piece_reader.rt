// The pieces of a stream, read from a source that is lent.
ghost use Rattle.std.specs.Prelude.{◌≡◌, ◌≢◌, ◌+◌, ◌<◌, ◌≤◌, IsTrue, None, Some, [], true, vec_len};
ghost use Rattle.inc_frame.specs.Fronts.{fault_of, has_ended};
ghost use Rattle.inc_frame.specs.declared.fault.FrameFault.TheVariants.{OutOfMemory as no_fault_of_the_stream};
ghost use Rattle.inc_loader.specs.Limits.{is_within};
ghost use Rattle.inc_loader.specs.Reading.{needs_no_read};

use super::ReadStop;
use crate::OutOfMemory;
use inc_frame::{FrameFault, FrameReader, Piece};
use inc_io::{Failed, Source};
use std::alloc::Global;
use std::collections::VecDeque;

/// The bytes that are asked of the source at a time.
const ROOM: usize = 16384;

/// A reader of one stream's pieces. It doesn't own its source: the same one is lent to it at each read.
#[derive(Drop)]
pub struct PieceReader {
    reader: FrameReader,
    /// The pieces that are whole and weren't taken.
    pub(crate) whole: VecDeque<Piece>,
    pub(crate) refused: Option<FrameFault>,
    room: Vec<u8>,
    /// The bytes in the room that the reader found no memory for.
    filled: usize,
    ghost placed: { filled ≤ vec_len room },
    ghost wide: { 0 < vec_len room },
    ghost within: { IsTrue (is_within reader.state) },
    ghost of_stream: { refused ≢ Some no_fault_of_the_stream },
    ghost noticed: { refused ≡ None → fault_of reader.state ≡ None },
    ghost well: { has_ended reader.state ≡ true → refused ≡ None },
    ghost emptied: { needs_no_read whole.items refused reader.state ≡ true → filled ≡ 0 },
}

impl PieceReader {
    ghost use Rattle.std.specs.Prelude.{ℕ, List, ◌∷◌, ◌++◌, take, drop, Bool, Option, Err, false, OnOk, OnErr, IfOk, IfSome, option_to_list};
    ghost use Rattle.inc_frame.specs.Fronts.{Greeting, byte_count};
    ghost use Rattle.inc_frame.specs.declared.piece.Piece.{Piece};
    ghost use Rattle.inc_io.specs.Causes.{HasCause, HasCauseAt};
    ghost use Rattle.inc_loader.specs.Reading.{IsAtEnd, IsReadStream, before_rest};
    ghost use Rattle.inc_loader.specs.declared.stream.stop.ReadStop.TheVariants as stop;

    /// A reader before its stream's first byte.
    pub fn new(alloc: Global) -> Result<PieceReader, OutOfMemory>
        ensures reader { IfOk result (λ pieces. pieces.reader.state ≡ Greeting []) }
        ensures whole { IfOk result (λ pieces. pieces.whole.items ≡ []) }
        ensures refused { IfOk result (λ pieces. pieces.refused ≡ None) }
        ensures filled { IfOk result (λ pieces. pieces.filled ≡ 0) }
    {
        Ok(PieceReader {
            reader: FrameReader::new(alloc)?,
            whole: VecDeque::new(alloc),
            refused: None,
            room: vec![in alloc; 0; ROOM]?,
            filled: 0,
        })
    }

    /// Reads on until a piece is whole, the stream has its end or its fault, or a read fails.
    pub fn read_on<I: Source>(&mut self, input: &mut I) -> Result<(), ReadStop>
        ensures settled { OnOk result (needs_no_read self.new.whole.items self.new.refused self.new.reader.state ≡ true) }
        ensures going { OnErr result (needs_no_read self.new.whole.items self.new.refused self.new.reader.state ≡ false) }
        ensures front { (all : Option (List ℕ)) (read : List ℕ) (gave : List Piece)
            → IsReadStream all read gave self.old.whole.items self.old.reader.state self.old.refused
            (I.ended input.old) (before_rest (take self.old.filled self.old.room.items) (I.left input.old))
            → (more : List ℕ) × IsReadStream all (read ++ more) gave self.new.whole.items self.new.reader.state self.new.refused
            (I.ended input.new) (before_rest (take self.new.filled self.new.room.items) (I.left input.new)) }
        // Bytes wait for memory alone.
        ensures fed { result ≢ Err stop.OutOfMemory → self.new.filled ≡ 0 }
        ensures cause { HasCauseAt stop.Failed (I.faults input.old) (I.faults input.new) result }
        ensures same { needs_no_read self.old.whole.items self.old.refused self.old.reader.state ≡ true → (self.new ≡ self.old) × (input.new ≡ input.old) }
    {
        while !self.is_settled() {
            self.read_once(input)?;
        }
        Ok(())
    }

    /// The first of the pieces that are whole and weren't taken.
    pub fn next(&self) -> Option<&Piece>
        ensures first { IfSome result (λ piece. self.now.whole.items ≡ piece.now ∷ drop 1 self.now.whole.items) }
        ensures none { result ≡ None → self.now.whole.items ≡ [] }
    {
        self.whole.front()
    }

    /// Takes that piece.
    pub fn take(&mut self) -> Option<Piece>
        ensures front { self.old.whole.items ≡ option_to_list result ++ self.new.whole.items }
        ensures none { result ≡ None → self.old.whole.items ≡ [] }
        ensures state { self.new.reader ≡ self.old.reader }
        ensures refused { self.new.refused ≡ self.old.refused }
        ensures filled { (self.new.filled ≡ self.old.filled) × (self.new.room ≡ self.old.room) }
    {
        self.whole.pop_front()
    }

    /// The fault of the stream. It comes after all pieces that are whole.
    pub fn fault(&self) -> Option<FrameFault>
        ensures value { result ≡ self.now.refused }
        ensures of_stream { result ≢ Some no_fault_of_the_stream }
    {
        self.refused
    }

    fn is_settled(&self) -> bool
        ensures value { result ≡ needs_no_read self.now.whole.items self.now.refused self.now.reader.state }
    {
        !self.whole.is_empty() || self.refused.is_some() || self.reader.finish().is_ok()
    }

    // Reads once, if the reader has taken in what was read before.
    fn read_once<I: Source>(&mut self, input: &mut I) -> Result<(), ReadStop>
        requires going { needs_no_read self.old.whole.items self.old.refused self.old.reader.state ≡ false }
        ensures on { OnOk result (needs_no_read self.new.whole.items self.new.refused self.new.reader.state ≡ false
            → byte_count self.old.reader.state < byte_count self.new.reader.state) }
        ensures going { OnErr result (needs_no_read self.new.whole.items self.new.refused self.new.reader.state ≡ false) }
        ensures front { (all : Option (List ℕ)) (read : List ℕ) (gave : List Piece)
            → IsReadStream all read gave self.old.whole.items self.old.reader.state self.old.refused
            (I.ended input.old) (before_rest (take self.old.filled self.old.room.items) (I.left input.old))
            → (more : List ℕ) × IsReadStream all (read ++ more) gave self.new.whole.items self.new.reader.state self.new.refused
            (I.ended input.new) (before_rest (take self.new.filled self.new.room.items) (I.left input.new)) }
        ensures fed { result ≢ Err stop.OutOfMemory → self.new.filled ≡ 0 }
        ensures cause { HasCauseAt stop.Failed (I.faults input.old) (I.faults input.new) result }
    {
        self.fill_room(input)?;
        if self.filled == 0 {
            self.refused = self.reader.finish().err();
            return Ok(());
        }
        self.take_in()
    }

    // Asks the source for bytes, where none are in the room.
    fn fill_room<I: Source>(&mut self, input: &mut I) -> Result<(), Failed>
        requires going { needs_no_read self.old.whole.items self.old.refused self.old.reader.state ≡ false }
        ensures coming { before_rest (take self.new.filled self.new.room.items) (I.left input.new)
            ≡ before_rest (take self.old.filled self.old.room.items) (I.left input.old) }
        ensures ended { OnOk result (self.new.filled ≡ 0 → IsAtEnd (I.ended input.new) (I.left input.new)) }
        ensures met { I.ended input.old ≡ true → I.ended input.new ≡ true }
        ensures none { OnErr result (self.new.filled ≡ 0) }
        ensures same { (self.new.reader ≡ self.old.reader) × (self.new.whole ≡ self.old.whole) × (self.new.refused ≡ self.old.refused) }
        ensures cause { HasCause (I.faults input.old) (I.faults input.new) result }
    {
        if self.filled == 0 {
            self.filled = input.read(&mut self.room)?;
        }
        Ok(())
    }

    // Gives the reader what was read. The source isn't called, whatever it gives.
    #[tactic(auto, using(crate::proofs::LimitLemmas::bytes_within))]
    fn take_in(&mut self) -> Result<(), ReadStop>
        requires going { needs_no_read self.old.whole.items self.old.refused self.old.reader.state ≡ false }
        requires some { 0 < self.old.filled }
        ensures never { result ≢ Err stop.Failed }
        ensures on { OnOk result (needs_no_read self.new.whole.items self.new.refused self.new.reader.state ≡ false
            → byte_count self.old.reader.state < byte_count self.new.reader.state) }
        ensures going { OnErr result (needs_no_read self.new.whole.items self.new.refused self.new.reader.state ≡ false) }
        ensures front { (all rest : Option (List ℕ)) (source_ended : Bool) (read : List ℕ) (gave : List Piece)
            → IsReadStream all read gave self.old.whole.items self.old.reader.state self.old.refused
            source_ended (before_rest (take self.old.filled self.old.room.items) rest)
            → (more : List ℕ) × IsReadStream all (read ++ more) gave self.new.whole.items self.new.reader.state self.new.refused
            source_ended (before_rest (take self.new.filled self.new.room.items) rest) }
        ensures fed { OnOk result (self.new.filled ≡ 0) }
    {
        match self.reader.feed(&self.room[..self.filled]) {
            Ok(fed) => {
                self.whole = VecDeque::from_vec(fed.pieces.into_vec());
                self.filled = 0;
                Ok(())
            }
            Err(fault) => match fault {
                FrameFault::OutOfMemory => Err(ReadStop::OutOfMemory),
                _ => {
                    self.whole = VecDeque::from_vec(self.reader.taken().into_vec());
                    self.refused = Some(fault);
                    self.filled = 0;
                    Ok(())
                }
            },
        }
    }
}
