//! A stream's bytes one step after another: the hello and a frame's head byte by byte, a block's bytes at once.

ghost use Rattle.std.specs.Prelude.{◌≡◌, ◌+◌, ◌<◌, [], ◌∷◌, ◌++◌, length, IfOk, IfErr, OnOk, vec_len, vec_capacity};
ghost use Rattle.inc_frame.specs.Fronts.{Framing, front_from, joined_front};
ghost use Rattle.inc_frame.specs.ReaderStages.{stage_state};

use crate::stage::{BodyPart, ReadStage};
use crate::stage_steps::{
    after_body_bytes, after_head_byte, after_hello_byte, body_bytes, next_frame, whole_piece,
};
use crate::{OutOfMemory, Piece};
use std::alloc::Global;

/// Takes some of the bytes, and gives the stage after them and the bytes that are left.
fn step<'a>(
    alloc: Global,
    stage: ReadStage,
    bytes: &'a [u8],
    pieces: &mut Vec<Piece>,
) -> Result<(ReadStage, &'a [u8]), OutOfMemory>
    requires some { 0 < length bytes.now }
    ensures same { IfOk result (λ after. joined_front pieces.new.items (front_from (stage_state after.0) after.1.now) ≡ joined_front pieces.old.items (front_from (stage_state stage) bytes.now)) }
    ensures shorter { IfOk result (λ after. length after.1.now < length bytes.now) }
{
    let (first, more) = bytes.split_at(1);
    match stage {
        ReadStage::Hello(part) => Ok((after_hello_byte(part, first[0]), more)),
        ReadStage::Head(part) => Ok((after_head_byte(alloc, part, first[0])?, more)),
        ReadStage::Body(part) => body_step(part, bytes, pieces),
        ReadStage::Ended(count) => Ok((ReadStage::Ended(count), &[])),
        ReadStage::Failed(failure) => Ok((ReadStage::Failed(failure), &[])),
    }
}

fn body_step<'a>(
    part: BodyPart,
    bytes: &'a [u8],
    pieces: &mut Vec<Piece>,
) -> Result<(ReadStage, &'a [u8]), OutOfMemory>
    requires some { 0 < length bytes.now }
    ensures same { IfOk result (λ after. joined_front pieces.new.items (front_from (stage_state after.0) after.1.now) ≡ joined_front pieces.old.items (front_from (Framing part.limit part.place (part.head ++ part.body.items)) bytes.now)) }
    ensures shorter { IfOk result (λ after. length after.1.now < length bytes.now) }
{
    let count = body_bytes(&part, bytes);
    let (now, more) = bytes.split_at(count);
    if part.body.len() + count < part.size {
        return Ok((after_body_bytes(part, now), more));
    }
    let next = next_frame(part.limit, part.place + count as u64);
    pieces.push(whole_piece(part, now))?;
    Ok((next, more))
}

/// The stage after all of the bytes. The pieces that are whole with them are added.
fn read_on(
    alloc: Global,
    stage: ReadStage,
    bytes: &[u8],
    pieces: &mut Vec<Piece>,
) -> Result<ReadStage, OutOfMemory>
    ensures value { IfOk result (λ after. joined_front pieces.old.items (front_from (stage_state stage) bytes.now) ≡ record { pieces = pieces.new.items; state = stage_state after }) }
{
    let mut at = (stage, bytes);
    'reading: while !at.1.is_empty() {
        at = step(alloc, at.0, at.1, pieces)?;
    }
    Ok(at.0)
}

/// The stage after all of the bytes, with the pieces that are whole with them; or the stage as it was, where memory ran out.
pub fn advance(
    alloc: Global,
    stage: ReadStage,
    bytes: &[u8],
    pieces: &mut Vec<Piece>,
) -> Result<ReadStage, ReadStage>
    requires none { pieces.old.items ≡ [] }
    ensures ok { IfOk result (λ after. front_from (stage_state stage) bytes.now ≡ record { pieces = pieces.new.items; state = stage_state after }) }
    ensures err { IfErr result (λ before. stage_state before ≡ stage_state stage) }
{
    match stage {
        ReadStage::Body(part) => advance_body(alloc, part, bytes, pieces),
        ReadStage::Head(part) => {
            read_on(alloc, ReadStage::Head(part), bytes, pieces).map_err(|_| ReadStage::Head(part))
        }
        ReadStage::Hello(part) => {
            read_on(alloc, ReadStage::Hello(part), bytes, pieces).map_err(|_| ReadStage::Hello(
                part,
            ))
        }
        ReadStage::Ended(count) => Ok(ReadStage::Ended(count)),
        ReadStage::Failed(failure) => Ok(ReadStage::Failed(failure)),
    }
}

/// As `advance`, where a block has begun. Its bytes are kept until nothing can fail, so that they are there if memory runs out.
fn advance_body(
    alloc: Global,
    part: BodyPart,
    bytes: &[u8],
    pieces: &mut Vec<Piece>,
) -> Result<ReadStage, ReadStage>
    requires none { pieces.old.items ≡ [] }
    ensures ok { IfOk result (λ after. front_from (Framing part.limit part.place (part.head ++ part.body.items)) bytes.now ≡ record { pieces = pieces.new.items; state = stage_state after }) }
    ensures err { IfErr result (λ before. stage_state before ≡ Framing part.limit part.place (part.head ++ part.body.items)) }
{
    if bytes.is_empty() {
        return Ok(ReadStage::Body(part));
    }
    let count = body_bytes(&part, bytes);
    let (now, more) = bytes.split_at(count);
    if part.body.len() + count < part.size {
        return Ok(after_body_bytes(part, now));
    }
    let next = next_frame(part.limit, part.place + count as u64);
    let Ok(after) = read_with_room(alloc, next, more, pieces) else {
        return Err(ReadStage::Body(part));
    };
    put_first(pieces, whole_piece(part, now));
    Ok(after)
}

/// Puts a piece before the others, where there is room for it.
fn put_first(pieces: &mut Vec<Piece>, piece: Piece)
    requires room { vec_len pieces.old < vec_capacity pieces.old }
    ensures items { pieces.new.items ≡ piece ∷ pieces.old.items }
{
    pieces.insert(0, piece).unwrap();
}

/// As `read_on`, with room for one piece more.
fn read_with_room(
    alloc: Global,
    stage: ReadStage,
    bytes: &[u8],
    pieces: &mut Vec<Piece>,
) -> Result<ReadStage, OutOfMemory>
    ensures value { IfOk result (λ after. joined_front pieces.old.items (front_from (stage_state stage) bytes.now) ≡ record { pieces = pieces.new.items; state = stage_state after }) }
    ensures room { OnOk result (vec_len pieces.new < vec_capacity pieces.new) }
{
    let after = read_on(alloc, stage, bytes, pieces)?;
    pieces.reserve(1)?;
    Ok(after)
}
