ghost use Rattle.std.specs.Prelude.{◌≡◌, IfOk, IsSome};

use super::StreamLoader;
use crate::{Given, Loader, LoaderFile, LoaderTurn};
use inc_bytes::Id;
use inc_frame::FrameFault;
use inc_io::{Bytes, MemSink, MemSource};
use inc_pending::PendingRecord;
use std::alloc::{AllocError, Global};
use std::process::Abort;
use std::test::Fail;

const ID: Id = [
    0x00, 0x11, 0x22, 0x33, 0x44, 0x55, 0x66, 0x77, 0x88, 0x99, 0xaa, 0xbb, 0xcc, 0xdd, 0xee, 0xff,
];

// What a loader answers at first and then, over a stream of one piece in this version.
fn two_answers(alloc: Global, version: u8) -> Result<[u8; 2], AllocError> {
    let stream = one_piece(alloc, version)?;
    let mut loader = prepared(alloc, stream, Vec::new(alloc), Vec::new(alloc))?;
    Ok([answer(&mut loader), answer(&mut loader)])
}

#[test]
fn both_versions_are_read_byte_by_byte(rt: HostRuntime) -> Result<(), Fail> {
    assert_eq!(rt; two_answers(rt.alloc(), 1)?, *b"pd");
    assert_eq!(rt; two_answers(rt.alloc(), 2)?, *b"pd");
    Ok(())
}

#[test]
fn a_fault_at_any_byte_loses_none(rt: HostRuntime) -> Result<(), Fail> {
    let alloc = rt.alloc();
    // The stream has 35 bytes, and the piece is whole with the 34th.
    for call in 0..35u64 {
        let fails = [call].to_vec(alloc)?;
        let mut loader = prepared(alloc, one_piece(alloc, 1)?, fails, Vec::new(alloc))?;
        let answers = [
            answer(&mut loader),
            answer(&mut loader),
            answer(&mut loader),
        ];
        let wanted = if call < 34 { *b"fpd" } else { *b"pfd" };
        assert_eq!(rt; answers, wanted, "call {call}");
    }
    Ok(())
}

#[test]
fn a_stream_that_is_cut_gives_its_pieces_first(rt: HostRuntime) -> Result<(), Fail> {
    let alloc = rt.alloc();
    let mut bytes = one_piece(alloc, 1)?;
    let _ = bytes.pop();
    let mut loader = prepared(alloc, bytes, Vec::new(alloc), Vec::new(alloc))?;
    assert!(rt; matches!(loader.give(), Given::Pieces(_)));
    assert!(rt; matches!(loader.give(), Given::Bad(FrameFault::Cut { at: 34 })));
    Ok(())
}

#[test]
fn a_told_read_goes_out_at_once(rt: HostRuntime) -> Result<(), Fail> {
    let alloc = rt.alloc();
    let mut loader = prepared(
        alloc,
        one_piece(alloc, 1)?,
        Vec::new(alloc),
        Vec::new(alloc),
    )?;
    assert!(rt; matches!(loader.tell(&read()), LoaderTurn::Fine));
    let request: [u8; 41] = [
        0x49, 0x4e, 0x43, 0x52, 0x45, 0x51, 0x01, 0x00, 0x01, 0x00, 0x11, 0x22, 0x33, 0x44, 0x55,
        0x66, 0x77, 0x88, 0x99, 0xaa, 0xbb, 0xcc, 0xdd, 0xee, 0xff, 0x05, 0x00, 0x00, 0x00, 0x00,
        0x00, 0x00, 0x00, 0x02, 0x00, 0x00, 0x00, 0x01, 0x00, 0x00, 0x00,
    ];
    assert_eq!(rt; loader.outlet.out.bytes(), request.as_slice());
    assert!(rt; matches!(loader.stop(), LoaderTurn::Fine));
    assert_eq!(rt; loader.outlet.out.bytes().len(), 42);
    Ok(())
}

#[test]
fn a_fault_at_any_byte_that_goes_out_is_answered(rt: HostRuntime) -> Result<(), Fail> {
    let alloc = rt.alloc();
    // The hello and the request have 41 bytes, and the end is one.
    for call in 0..42u64 {
        let fails = [call].to_vec(alloc)?;
        let mut loader = prepared(alloc, one_piece(alloc, 1)?, Vec::new(alloc), fails)?;
        let told = loader.tell(&read());
        let stopped = loader.stop();
        assert_eq!(rt; told == LoaderTurn::Failed, call < 41, "call {call}");
        assert_eq!(rt; stopped == LoaderTurn::Failed, call == 41, "call {call}");
        assert_eq!(rt; loader.held.told.is_empty(), call < 41, "call {call}");
    }
    Ok(())
}

// The first letter of what the loader answers.
fn answer(loader: &mut StreamLoader<MemSource, MemSink>) -> u8
    requires { IsSome loader.old.held.files }
    ensures { loader.new.held.files ≡ loader.old.held.files }
{
    match loader.give() {
        Given::Pieces(_) => b'p',
        Given::Nothing => b'n',
        Given::Done => b'd',
        Given::Bad(_) => b'b',
        Given::Failed => b'f',
        Given::OutOfMemory => b'o',
    }
}

fn read() -> PendingRecord {
    PendingRecord {
        id: ID,
        asked: 5,
        block: 2,
        serial: 1,
        uid: 0,
    }
}

// A stream of one piece with one byte.
fn one_piece(alloc: Global, version: u8) -> Result<Vec<u8>, AllocError> {
    let mut bytes = Vec::new(alloc);
    bytes.extend_from_slice(&[0x49, 0x4e, 0x43, 0x4c, 0x44, 0x52, version, 0, 1])?;
    bytes.extend_from_slice(&ID)?;
    bytes.extend_from_slice(&[0, 0, 0, 0, 0, 0, 1, 0, 7, 2])?;
    Ok(bytes)
}

// A loader over this stream, a byte a call, whose source and sink fail at the calls with these numbers.
fn prepared(
    alloc: Global,
    bytes: Vec<u8>,
    source_fails: Vec<u64>,
    sink_fails: Vec<u64>,
) -> Result<StreamLoader<MemSource, MemSink>, AllocError>
    ensures { IfOk result (λ loader. IsSome loader.held.files) }
{
    let source = MemSource::new(Bytes::from_vec(bytes), 1, source_fails);
    let sink = MemSink::new(alloc, 100, 1, sink_fails)?;
    let mut loader = StreamLoader::new(alloc, source, sink)?;
    let file = LoaderFile {
        id: ID,
        size: 4096,
        root: [0; 32],
    };
    match loader.prepare(&[file]) {
        LoaderTurn::Fine => Ok(loader),
        _ => Err(AllocError),
    }
}
