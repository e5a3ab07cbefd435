//! What one byte more of a hello or of a frame's head, or some bytes of a block, make of a stage.

ghost use Rattle.std.specs.Prelude.{◌≡◌, ◌≢◌, ◌+◌, ◌<◌, ◌≤◌, ◌^◌, min, [], ◌++◌, take, length, Option, Some, None, IfOk, IfSome, vec_len, vec_capacity};
ghost use Rattle.inc_frame.specs.Frames.{piece_of, frame_length, stream_limit};
ghost use Rattle.inc_frame.specs.Fronts.{Framing, Faulty, byte_front, frame_fault, front_from, grown_front, hello_front, ends_stream, is_hello_byte, no_piece, within_limit};
ghost use Rattle.inc_frame.specs.ReaderStages.{stage_state};

use crate::stage::{
    BodyPart, Failure, HEAD_LEN, HELLO_LEN, HeadPart, HelloPart, MOST_BYTES, ReadStage,
};
use crate::{FrameFault, OutOfMemory, Piece};
use inc_bytes::get_u32;
use inc_io::Bytes;
use std::alloc::Global;

/// A frame's first byte.
pub const FRAME: u8 = 1;

/// The end's one byte.
pub const END: u8 = 2;

/// The hello of version 1.
pub const HELLO: [u8; HELLO_LEN] = [0x49, 0x4e, 0x43, 0x4c, 0x44, 0x52, 1, 0];

/// The place of the hello's byte that tells the version.
const VERSION_AT: usize = 6;

// ---- the hello

#[tactic(auto, unfolding(crate::specs::Frames::hello_bytes))]
fn is_hello_byte(at: usize, byte: u8) -> bool
    requires inside { at < 8 }
    ensures value { result ≡ is_hello_byte at byte }
{
    if at == VERSION_AT {
        return byte == 1 || byte == 2;
    }
    byte == HELLO[at]
}

fn stream_limit(version: u8) -> u64
    ensures value { result ≡ stream_limit version }
    ensures low { result ≤ 2 ^ 36 }
    ensures high { 2 ^ 33 ≤ result }
{
    if version == 2 { 1 << 36 } else { 1 << 33 }
}

#[tactic(auto, unfolding(crate::specs::Fronts::hello_front), using(std::proofs::lemmas::List::take_more_set))]
pub fn after_hello_byte(part: HelloPart, byte: u8) -> ReadStage
    ensures value { hello_front (take part.have part.seen) byte ≡ no_piece (stage_state result) }
{
    let have = part.have;
    if !is_hello_byte(have, byte) {
        return ReadStage::Failed(Failure {
            fault: FrameFault::BadHello { at: have as u64 },
        });
    }
    let mut seen = part.seen;
    if have + 1 == HELLO_LEN {
        return ReadStage::Head(first_head(stream_limit(seen[VERSION_AT]), HELLO_LEN as u64));
    }
    seen[have] = byte;
    ReadStage::Hello(HelloPart {
        seen,
        have: have + 1,
    })
}

// ---- a frame

fn first_head(limit: u64, place: u64) -> HeadPart
    requires within { place < limit }
    requires low { limit ≤ 2 ^ 36 }
    requires behind_hello { 8 ≤ place }
    ensures value { (result.limit ≡ limit) × (result.place ≡ place) × (result.have ≡ 0) }
{
    HeadPart {
        limit,
        place,
        head: [0; HEAD_LEN],
        have: 0,
    }
}

/// The stage after a whole frame, where so many bytes have come.
pub fn next_frame(limit: u64, count: u64) -> ReadStage
    requires within { count ≤ limit }
    requires low { limit ≤ 2 ^ 36 }
    requires behind_hello { 8 ≤ count }
    ensures value { within_limit limit count [] [] ≡ no_piece (stage_state result) }
{
    if count == limit {
        return too_long(limit);
    }
    ReadStage::Head(first_head(limit, count))
}

fn too_long(limit: u64) -> ReadStage
    ensures value { stage_state result ≡ Faulty (FrameFault.TooLong limit) }
{
    ReadStage::Failed(Failure {
        fault: FrameFault::TooLong { at: limit },
    })
}

/// The number that a frame's head has as the length of its bytes.
fn frame_length(head: &[u8; HEAD_LEN]) -> usize
    ensures value { result ≡ frame_length head.now }
{
    usize::from(head[23]) + 256 * usize::from(head[24])
}

/// Whether these are the end, and no frame.
fn ends_stream(head: &[u8; HEAD_LEN], have: usize) -> bool
    requires some { 1 ≤ have }
    requires most { have ≤ HEAD_LEN }
    ensures value { result ≡ ends_stream (take have head.now) }
{
    let alone = have == 1;
    let end = head[0] == END;
    alone & end
}

/// The fault that the last of a frame's bytes makes, which is at this place of the stream.
#[tactic(auto, unfolding(crate::specs::Fronts::frame_fault))]
fn frame_fault(head: &[u8; HEAD_LEN], have: usize, place: u64) -> Option<FrameFault>
    requires some { 1 ≤ have }
    requires most { have ≤ HEAD_LEN }
    requires behind { have ≤ place + 1 }
    ensures value { frame_fault (take have head.now) place ≡ result }
    ensures of_stream { IfSome result (λ fault. fault ≢ FrameFault.OutOfMemory) }
    ensures size { result ≡ None → have ≡ HEAD_LEN → (1 ≤ frame_length head.now) × (frame_length head.now ≤ MOST_BYTES) }
{
    if have == 1 {
        if head[0] == FRAME {
            None
        } else {
            Some(FrameFault::BadKind { at: place })
        }
    } else if have == 18 {
        if head[17] <= 1 {
            None
        } else {
            Some(FrameFault::BadKind { at: place })
        }
    } else if have == HEAD_LEN {
        let size = frame_length(head);
        if 1 <= size && size <= MOST_BYTES {
            None
        } else {
            Some(FrameFault::BadLength { at: place - 1 })
        }
    } else {
        None
    }
}

/// The stage after one more byte of a frame's head.
pub fn after_head_byte(alloc: Global, part: HeadPart, byte: u8) -> Result<ReadStage, OutOfMemory>
    ensures value { IfOk result (λ after. byte_front (Framing part.limit part.place (take part.have part.head)) byte ≡ no_piece (stage_state after)) }
{
    let place = part.place;
    let mut head = part.head;
    head[part.have] = byte;
    let have = part.have + 1;
    if ends_stream(&head, have) {
        return Ok(ReadStage::Ended(place + 1));
    }
    if let Some(fault) = frame_fault(&head, have, place) {
        return Ok(ReadStage::Failed(Failure { fault }));
    }
    after_sound_head(alloc, part.limit, place + 1, head, have)
}

/// The stage where a frame has begun with these bytes, and none of them is wrong.
fn after_sound_head(
    alloc: Global,
    limit: u64,
    count: u64,
    head: [u8; HEAD_LEN],
    have: usize,
) -> Result<ReadStage, OutOfMemory>
    requires most { have ≤ HEAD_LEN }
    requires sound { have ≡ HEAD_LEN → (1 ≤ frame_length head) × (frame_length head ≤ MOST_BYTES) }
    requires within { count ≤ limit }
    requires low { limit ≤ 2 ^ 36 }
    requires behind_hello { have + 8 ≤ count }
    ensures value { IfOk result (λ after. grown_front limit count (take have head) ≡ no_piece (stage_state after)) }
{
    if count == limit {
        return Ok(too_long(limit));
    }
    if have < HEAD_LEN {
        return Ok(ReadStage::Head(HeadPart {
            limit,
            place: count,
            head,
            have,
        }));
    }
    let size = frame_length(&head);
    let body = Vec::with_capacity(alloc, size)?;
    Ok(ReadStage::Body(BodyPart {
        limit,
        place: count,
        head,
        size,
        body,
    }))
}

/// How many of these bytes are the block's, as long as the stream may be.
pub fn body_bytes(part: &BodyPart, bytes: &[u8]) -> usize
    ensures length { result ≤ length bytes.now }
    ensures body { vec_len part.now.body + result ≤ part.now.size }
    ensures limit { part.now.place + result ≤ part.now.limit }
    ensures some { 0 < length bytes.now → 0 < result }
    // Where it is less than all of them, the block is whole or the stream is too long.
    ensures all { vec_len part.now.body + result < part.now.size → part.now.place + result < part.now.limit → result ≡ length bytes.now }
{
    let missing = part.size - part.body.len();
    let most = missing.min(bytes.len());
    let left = part.limit - part.place;
    if (most as u64) <= left {
        most
    } else {
        left as usize
    }
}

/// Appends bytes for which there is room.
fn append(body: &mut Vec<u8>, bytes: &[u8])
    requires room { vec_len body.old + length bytes.now ≤ vec_capacity body.old }
    ensures items { body.new.items ≡ body.old.items ++ bytes.now }
    ensures len { vec_len body.new ≡ vec_len body.old + length bytes.now }
    ensures capacity { vec_capacity body.old ≤ vec_capacity body.new }
{
    body.extend_from_slice(bytes).unwrap();
}

/// The stage after some of the block's bytes, but not the last of them.
pub fn after_body_bytes(part: BodyPart, bytes: &[u8]) -> ReadStage
    requires some { 0 < length bytes.now }
    requires more { vec_len part.body + length bytes.now < part.size }
    requires limit { part.place + length bytes.now ≤ part.limit }
    ensures value { front_from (Framing part.limit part.place (part.head ++ part.body.items)) bytes.now ≡ no_piece (stage_state result) }
    ensures full { part.place + length bytes.now ≡ part.limit → stage_state result ≡ Faulty (FrameFault.TooLong part.limit) }
{
    let limit = part.limit;
    let place = part.place + bytes.len() as u64;
    if place == limit {
        return too_long(limit);
    }
    let head = part.head;
    let size = part.size;
    let mut body = part.body;
    append(&mut body, bytes);
    ReadStage::Body(BodyPart {
        limit,
        place,
        head,
        size,
        body,
    })
}

/// The piece of a frame whose last bytes are these.
pub fn whole_piece(part: BodyPart, bytes: &[u8]) -> Piece
    requires last { vec_len part.body + length bytes.now ≡ part.size }
    ensures value { result ≡ piece_of (part.head ++ (part.body.items ++ bytes.now)) }
{
    let head = part.head;
    let mut body = part.body;
    append(&mut body, bytes);
    piece_from(&head, body)
}

fn piece_from(head: &[u8; HEAD_LEN], bytes: Vec<u8>) -> Piece
    ensures value { result ≡ piece_of (head.now ++ bytes.items) }
{
    let mut id = [0; 16];
    id.copy_from_slice(&head[1..17]);
    Piece {
        id,
        hash: head[17] == 1,
        number: get_u32(head, 19).unwrap(),
        compression: head[18],
        bytes: Bytes::from_vec(bytes),
    }
}
