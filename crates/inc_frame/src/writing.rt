ghost use Rattle.std.specs.Prelude.{◌≡◌, ℕ, ◌+◌, ◌<◌, ◌≤◌, [], ◌∷◌, ◌++◌, List, length, ◌^◌, IfOk, OnOk};
ghost use Rattle.inc_bytes.specs.Fields.{AreBytes, le_bytes};
ghost use Rattle.inc_frame.specs.Frames.{IsPiece, end_bytes, frame_bytes, hello_bytes, kind_byte, stream_limit};
ghost use Rattle.inc_frame.specs.Fronts.{Ended, Framing, Greeting, front_from, joined_front, no_piece, within_limit};
ghost use Rattle.inc_frame.specs.Requests.{request_bytes, request_bytes2, request_hello_bytes};

use crate::stage::{HEAD_LEN, HELLO_LEN, MOST_BYTES};
use crate::stage_steps::{END, FRAME, HELLO};
use crate::{OutOfMemory, Piece};
use inc_bytes::Id;
use inc_io::Bytes;
use inc_pending::PendingRecord;
use std::alloc::Global;

/// The number of bytes of a request, version 1.
const REQUEST_LEN: usize = 33;

/// The number of bytes of a request, version 2.
const REQUEST_LEN_2: usize = 41;

// ---- a loader's stream

/// The hello of a stream of version 1.
#[tactic(auto, unfolding(crate::specs::Frames::hello_bytes))]
pub fn write_hello() -> [u8; HELLO_LEN]
    ensures value { result ≡ hello_bytes 1 }
    // A stream that begins so goes on with frames.
    ensures read_again { (more : List ℕ) → front_from (Greeting []) (result ++ more) ≡ front_from (Framing (stream_limit 1) 8 []) more }
{
    HELLO
}

fn kind_byte(hash: bool) -> u8
    ensures value { result ≡ kind_byte hash }
{
    if hash { 1 } else { 0 }
}

/// The frame of these fields.
#[tactic(auto, using(inc_bytes::proofs::Numbers::le_bytes_2, inc_bytes::proofs::Numbers::le_bytes_4))]
fn frame_with(
    alloc: Global,
    id: &Id,
    hash: bool,
    compression: u8,
    number: u32,
    bytes: &[u8],
) -> Result<Vec<u8>, OutOfMemory>
    requires most { length bytes.now ≤ MOST_BYTES }
    ensures value { IfOk result (λ frame. frame.items ≡ 1 ∷ id.now ++ (kind_byte hash ∷ compression ∷ []) ++ le_bytes 4 number ++ le_bytes 2 (length bytes.now) ++ bytes.now) }
    ensures id { (length id.now ≡ 16) × AreBytes id.now }
    ensures bytes { AreBytes bytes.now }
    ensures numbers { (number < 2 ^ 32) × (compression < 256) }
{
    let mut frame = Vec::with_capacity(alloc, HEAD_LEN + bytes.len())?;
    frame.push(FRAME)?;
    frame.extend_from_slice(id)?;
    frame.extend_from_slice(&[kind_byte(hash), compression])?;
    frame.extend_from_slice(&number.to_le_bytes())?;
    frame.extend_from_slice(&(bytes.len() as u16).to_le_bytes())?;
    frame.extend_from_slice(bytes)?;
    Ok(frame)
}

/// The frame of a piece of 1 to 4096 bytes.
pub fn write_frame(alloc: Global, p: &Piece) -> Result<Bytes, OutOfMemory>
    requires some { 1 ≤ length p.now.bytes }
    requires most { length p.now.bytes ≤ MOST_BYTES }
    ensures value { IfOk result (λ frame. frame ≡ frame_bytes p.now) }
    ensures spelled { OnOk result (IsPiece p.now) }
    // It is read again where a frame may stand, whatever follows.
    ensures read_again { IfOk result (λ frame. (limit place : ℕ) (more : List ℕ) → place + length frame ≤ limit
        → front_from (Framing limit place []) (frame ++ more)
        ≡ joined_front (p.now ∷ []) (front_from (within_limit limit (place + length frame) [] []).state more)) }
{
    let bytes = p.bytes.as_slice();
    let frame = frame_with(alloc, &p.id, p.hash, p.compression, p.number, bytes)?;
    Ok(Bytes::from_vec(frame))
}

/// The end of a stream.
pub fn write_end() -> [u8; 1]
    ensures value { result ≡ end_bytes }
    // A stream ends so wherever a frame may stand.
    ensures read_again { (limit place : ℕ) (more : List ℕ) → front_from (Framing limit place []) (result ++ more) ≡ no_piece (Ended (place + 1)) }
{
    [END]
}

// ---- a stream of requests

/// The hello of a stream of requests, version 1.
#[tactic(auto, unfolding(crate::specs::Requests::request_hello_bytes))]
pub fn request_hello() -> [u8; HELLO_LEN]
    ensures value { result ≡ request_hello_bytes 1 }
{
    [0x49, 0x4e, 0x43, 0x52, 0x45, 0x51, 1, 0]
}

/// The request for the block that a read waits for, version 1.
#[tactic(auto, unfolding(crate::specs::Requests::request_bytes))]
pub fn write_request(r: &PendingRecord) -> [u8; REQUEST_LEN]
    ensures value { result ≡ request_bytes r.now }
{
    let mut bytes = [FRAME; REQUEST_LEN];
    bytes[1..].copy_from_slice(&r.to_bytes());
    bytes
}

/// The hello of a stream of requests, version 2.
#[tactic(auto, unfolding(crate::specs::Requests::request_hello_bytes))]
pub fn request_hello2() -> [u8; HELLO_LEN]
    ensures value { result ≡ request_hello_bytes 2 }
{
    [0x49, 0x4e, 0x43, 0x52, 0x45, 0x51, 2, 0]
}

/// The request for the block that a read waits for, with the user who asked, version 2.
#[tactic(auto, unfolding(crate::specs::Requests::request_bytes2))]
pub fn write_request2(r: &PendingRecord) -> [u8; REQUEST_LEN_2]
    ensures value { result ≡ request_bytes2 r.now }
{
    let mut bytes = [FRAME; REQUEST_LEN_2];
    bytes[1..].copy_from_slice(&r.to_bytes2());
    bytes
}

/// The end of a stream of requests.
pub fn write_stop() -> [u8; 1]
    ensures value { result ≡ end_bytes }
{
    [END]
}
