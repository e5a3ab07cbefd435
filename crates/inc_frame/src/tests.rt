use super::*;
use crate::reading::advance;
use crate::stage::{HEAD_LEN, HeadPart, ReadStage};
use inc_bytes::Id;
use inc_io::Bytes;
use inc_pending::PendingRecord;
use std::alloc::{AllocError, Global};
use std::test::*;

const ID: Id = [
    0x00, 0x11, 0x22, 0x33, 0x44, 0x55, 0x66, 0x77, 0x88, 0x99, 0xaa, 0xbb, 0xcc, 0xdd, 0xee, 0xff,
];

/// More bytes than a stream here has.
const AT_ONCE: usize = 8192;

/// What a reader answers over a whole input.
#[derive(Clone, Copy, Debug, PartialEq, Eq)]
struct Given {
    pieces: usize,
    used: usize,
    ended: bool,
}

/// The stream of one data piece of 4096 zeros, byte by byte as the format's table has it.
fn zeros_stream(alloc: Global) -> Result<Vec<u8>, AllocError> {
    let mut bytes = Vec::new(alloc);
    bytes.extend_from_slice(b"INCLDR\x01\x00")?;
    bytes.push(1)?;
    bytes.extend_from_slice(&ID)?;
    bytes.extend_from_slice(&[0, 0, 0, 0, 0, 0, 0x00, 0x10])?;
    for _ in 0..4096 {
        bytes.push(0)?;
    }
    bytes.push(2)?;
    Ok(bytes)
}

/// That stream with these bytes at a place.
fn changed_stream(alloc: Global, at: usize, by: &[u8]) -> Result<Vec<u8>, AllocError> {
    let mut bytes = zeros_stream(alloc)?;
    for (i, byte) in by.iter().enumerate() {
        if let Some(place) = at.checked_add(i) {
            if place < bytes.len() {
                bytes[place] = *byte;
            }
        }
    }
    Ok(bytes)
}

/// Feeds all of the bytes, so many at a time, and ends the input.
fn read_all(alloc: Global, bytes: &[u8], size: usize) -> Result<Given, FrameFault> {
    let mut reader = FrameReader::new(alloc)?;
    let mut given = Given {
        pieces: 0,
        used: 0,
        ended: false,
    };
    for piece in bytes.chunks(size.max(1)) {
        let fed = reader.feed(piece)?;
        given.pieces = given.pieces.saturating_add(fed.pieces.as_slice().len());
        given.used = given.used.saturating_add(fed.used);
        given.ended = fed.ended;
    }
    reader.finish()?;
    Ok(given)
}

/// The fault of the stream with these bytes at a place, where both ways of cutting it agree.
fn fault_with(alloc: Global, at: usize, by: &[u8]) -> Option<FrameFault> {
    let bytes = changed_stream(alloc, at, by).ok()?;
    let whole = read_all(alloc, bytes.as_slice(), AT_ONCE).err()?;
    let single = read_all(alloc, bytes.as_slice(), 1).err()?;
    if whole == single { Some(whole) } else { None }
}

#[test]
fn a_stream_is_the_same_however_it_is_cut(rt: HostRuntime) -> Result<(), Fail> {
    let alloc = rt.alloc();
    let bytes = zeros_stream(alloc)?;
    assert_eq!(rt; bytes.len(), 4130);
    let all = Given {
        pieces: 1,
        used: 4130,
        ended: true,
    };
    for size in [AT_ONCE, 1, 20, 4096] {
        assert_eq!(rt; read_all(alloc, bytes.as_slice(), size), Ok(all));
    }
    let second = changed_stream(alloc, 6, &[2])?;
    assert_eq!(rt; read_all(alloc, second.as_slice(), AT_ONCE), Ok(all));
    assert_eq!(rt; read_all(alloc, second.as_slice(), 1), Ok(all));
    Ok(())
}

#[test]
fn a_piece_has_the_fields_of_its_frame(rt: HostRuntime) -> Result<(), Fail> {
    let alloc = rt.alloc();
    let bytes = changed_stream(alloc, 25, &[1, 7, 4, 3, 2, 1])?;
    let mut reader = FrameReader::new(alloc)?;
    let fed = reader.feed(bytes.as_slice())?;
    let pieces = fed.pieces.as_slice();
    assert_eq!(rt; pieces.len(), 1);
    let piece = &pieces[0];
    assert_eq!(rt; piece.id, ID);
    assert!(rt; piece.hash);
    assert_eq!(rt; piece.compression, 7);
    assert_eq!(rt; piece.number, 0x0102_0304);
    assert_eq!(rt; piece.bytes.len(), 4096);
    Ok(())
}

#[test]
fn a_fault_is_at_its_first_byte(rt: HostRuntime) {
    let alloc = rt.alloc();
    assert_eq!(rt;
        fault_with(alloc, 6, &[3]),
        Some(FrameFault::BadHello { at: 6 })
    );
    assert_eq!(rt;
        fault_with(alloc, 7, &[1]),
        Some(FrameFault::BadHello { at: 7 })
    );
    assert_eq!(rt;
        fault_with(alloc, 8, &[7]),
        Some(FrameFault::BadKind { at: 8 })
    );
    assert_eq!(rt;
        fault_with(alloc, 25, &[5]),
        Some(FrameFault::BadKind { at: 25 })
    );
    assert_eq!(rt;
        fault_with(alloc, 31, &[0, 0]),
        Some(FrameFault::BadLength { at: 31 })
    );
    assert_eq!(rt;
        fault_with(alloc, 31, &[1, 0x10]),
        Some(FrameFault::BadLength { at: 31 })
    );
}

/// The fault after these bytes of a stream of which all but so many may have come.
fn fault_near_limit(alloc: Global, left: u64, bytes: &[u8]) -> Option<FrameFault> {
    let limit = 1 << 33;
    let stage = ReadStage::Head(HeadPart {
        limit,
        place: limit - left.clamp(1, 4096),
        head: [0; HEAD_LEN],
        have: 0,
    });
    match advance(alloc, stage, bytes, &mut Vec::new(alloc)) {
        Ok(ReadStage::Failed(failure)) => Some(failure.fault),
        Ok(_) | Err(_) => None,
    }
}

#[test]
fn a_stream_without_an_end_is_too_long(rt: HostRuntime) -> Result<(), Fail> {
    let alloc = rt.alloc();
    let bytes = zeros_stream(alloc)?;
    let frame = bytes.as_slice().get(8..).ok_or("long enough")?;
    let fault = Some(FrameFault::TooLong { at: 8589934592 });
    assert_eq!(rt; fault_near_limit(alloc, 1, frame), fault);
    assert_eq!(rt; fault_near_limit(alloc, 25, frame), fault);
    assert_eq!(rt; fault_near_limit(alloc, 4000, frame), fault);
    assert_eq!(rt; fault_near_limit(alloc, 1, &[2]), None);
    Ok(())
}

#[test]
fn an_input_that_ends_early_is_cut(rt: HostRuntime) -> Result<(), Fail> {
    let alloc = rt.alloc();
    let bytes = zeros_stream(alloc)?;
    for end in [0, 8, 20, 4129] {
        let front = bytes.as_slice().get(..end).ok_or("long enough")?;
        let fault = Err(FrameFault::Cut { at: end as u64 });
        assert_eq!(rt; read_all(alloc, front, AT_ONCE), fault);
        assert_eq!(rt; read_all(alloc, front, 1), fault);
    }
    Ok(())
}

#[test]
fn bytes_after_the_end_are_left(rt: HostRuntime) -> Result<(), Fail> {
    let alloc = rt.alloc();
    let mut bytes = zeros_stream(alloc)?;
    bytes.push(9)?;
    let mut reader = FrameReader::new(alloc)?;
    let fed = reader.feed(bytes.as_slice())?;
    assert_eq!(rt;
        (fed.pieces.as_slice().len(), fed.used, fed.ended),
        (1, 4130, true)
    );
    let after = reader.feed(&[9])?;
    assert_eq!(rt;
        (after.pieces.as_slice().len(), after.used, after.ended),
        (0, 0, true)
    );
    Ok(())
}

#[test]
fn pieces_before_a_fault_are_kept_and_the_fault_stays(rt: HostRuntime) -> Result<(), Fail> {
    let alloc = rt.alloc();
    let bytes = changed_stream(alloc, 4129, &[3])?;
    let fault = FrameFault::BadKind { at: 4129 };
    let mut reader = FrameReader::new(alloc)?;
    assert_eq!(rt; reader.feed(bytes.as_slice()).err(), Some(fault));
    assert_eq!(rt; reader.feed(&[2]).err(), Some(fault));
    assert_eq!(rt; reader.finish(), Err(fault));
    assert_eq!(rt; reader.taken().as_slice().len(), 1);
    assert_eq!(rt; reader.taken().as_slice().len(), 0);
    Ok(())
}

#[test]
fn what_is_written_has_the_bytes_of_the_format(rt: HostRuntime) -> Result<(), Fail> {
    let alloc = rt.alloc();
    let expected = zeros_stream(alloc)?;
    let bytes = Bytes::of(alloc, &[0; 4096])?;
    let piece = Piece {
        id: ID,
        hash: false,
        number: 0,
        compression: 0,
        bytes,
    };
    let mut written = write_hello().to_vec(alloc)?;
    written.extend_from_slice(write_frame(alloc, &piece)?.as_slice())?;
    written.extend_from_slice(&write_end())?;
    assert!(rt; written.as_slice() == expected.as_slice());
    Ok(())
}

fn asked_record() -> PendingRecord {
    PendingRecord {
        id: ID,
        asked: 1000,
        block: 4,
        serial: 1,
        uid: 10000,
    }
}

#[test]
fn a_request_is_a_one_and_the_record(rt: HostRuntime) {
    let request = write_request(&asked_record());
    let (front, fields) = request.split_at(17);
    assert_eq!(rt; front[0], 1);
    assert!(rt; &front[1..] == ID.as_slice());
    assert!(rt; fields == [0xe8, 3, 0, 0, 0, 0, 0, 0, 4, 0, 0, 0, 1, 0, 0, 0].as_slice());
}

#[test]
fn a_request_of_version_2_has_the_user(rt: HostRuntime) {
    let first = write_request(&asked_record());
    let second = write_request2(&asked_record());
    let (front, user) = second.split_at(33);
    assert!(rt; front == first.as_slice());
    assert!(rt; user == [0x10, 0x27, 0, 0, 0, 0, 0, 0].as_slice());
}

#[test]
fn requests_begin_with_their_version_and_end_with_a_two(rt: HostRuntime) {
    assert!(rt; request_hello().as_slice() == b"INCREQ\x01\x00".as_slice());
    assert!(rt; request_hello2().as_slice() == b"INCREQ\x02\x00".as_slice());
    assert_eq!(rt; write_stop(), [2]);
}
