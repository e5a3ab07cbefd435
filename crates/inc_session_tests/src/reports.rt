use inc_frame::FrameFault;
use inc_io::{Bytes, Name};
use inc_model::{FillError, Found, ReadError, Rows};
use inc_script::{DriveEnd, FileLine, LoaderLine, OutOfMemory, parse_script, report};
use inc_tree::{Block, Digest32, Geometry, Path, Shown, Unproved, verify};
use std::alloc::Global;
use std::process::Abort;
use std::test::Fail;

// FIPS 180-4's digest of 4096 zeros.
const ZEROS_DIGEST: Digest32 = [
    0xad, 0x7f, 0xac, 0xb2, 0x58, 0x6f, 0xc6, 0xe9, 0x66, 0xc0, 0x04, 0xd7, 0xd1, 0xd1, 0x6b, 0x02,
    0x4f, 0x58, 0x05, 0xff, 0x7c, 0xb4, 0x7c, 0x7a, 0x85, 0xda, 0xbd, 0x8b, 0x48, 0x89, 0x2c, 0xa7,
];

/// The one block of a file of zeros, proved.
fn proved(rt: &impl Abort, alloc: Global) -> Result<Shown, OutOfMemory> {
    let tree = Geometry::of(4096).expect(rt, "within the limit");
    assert_eq!(rt; tree.data_blocks(), 1);
    assert_eq!(rt; tree.depth(), 0);
    assert!(rt; !tree.is_flat());
    let path = Path::of(alloc, &[])?;
    assert_eq!(rt; path.as_slice().len(), 0);
    let block = verify(&ZEROS_DIGEST, &tree, 0, Block::zeros(alloc)?, path);
    Ok(Shown::Proved(block.expect(rt, "the root's block")))
}

/// The last block of a file of 5000 zeros that has no root.
fn without_root(rt: &impl Abort, alloc: Global) -> Result<Shown, OutOfMemory> {
    let tree = Geometry::flat_of(5000).expect(rt, "within the limit");
    assert_eq!(rt; tree.data_blocks(), 2);
    Ok(Shown::Unproved(Unproved::of(&tree, 1, Block::zeros(alloc)?)))
}

/// The report of a session of one read, of block 0 of a file, with this reply.
fn report_of(alloc: Global, reply: Result<Found, ReadError>) -> Result<Bytes, Fail> {
    let script = parse_script(alloc, b"reader 1 one 0\nend\n")?;
    let replies = [Rows::from_vec(vec![in alloc; reply]?)];
    Ok(report(alloc, &script, replies.as_slice(), &[], &[])?)
}

/// What it says of the read, without the line's first four words.
fn told_in(text: &[u8]) -> Option<&[u8]> {
    text.strip_prefix(b"read 1 one 0 ")?
        .strip_suffix(b"\nend\n")
}

/// Whether the read is told so.
fn is_told(alloc: Global, reply: Result<Found, ReadError>, wanted: &[u8]) -> Result<bool, Fail> {
    let text = report_of(alloc, reply)?;
    Ok(told_in(text.as_slice()).is_some_and(|told| told == wanted))
}

fn found(shown: Shown) -> Result<Found, ReadError> {
    Ok(Found { shown, at: 10 })
}

#[test]
fn a_block_is_reported_with_what_vouches_for_it(rt: HostRuntime) -> Result<(), Fail> {
    let alloc = rt.alloc();
    let good = b"ok 4096 at 10 ad7facb2586fc6e966c004d7d1d16b024f5805ff7cb47c7a85dabd8b48892ca7";
    assert!(rt; is_told(alloc, found(proved(&rt, alloc)?), good)?);
    let bare =
        b"unproved 904 at 10 ad7facb2586fc6e966c004d7d1d16b024f5805ff7cb47c7a85dabd8b48892ca7";
    assert!(rt; is_told(alloc, found(without_root(&rt, alloc)?), bare)?);
    Ok(())
}

#[test]
fn an_error_is_reported_with_its_fields(rt: HostRuntime) -> Result<(), Fail> {
    let alloc = rt.alloc();
    assert!(rt; is_told(alloc, Err(ReadError::OutOfRange), b"out-of-range")?);
    assert!(rt; is_told(alloc, Err(ReadError::Damaged), b"damaged")?);
    assert!(rt; is_told(alloc, Err(ReadError::Compressed), b"compressed")?);
    assert!(rt; is_told(alloc, Err(ReadError::ReadFault), b"read-fault")?);
    let full = ReadError::HistoryFull {
        entries: 9,
        claimed: 3,
    };
    assert!(rt; is_told(alloc, Err(full), b"history-full")?);
    let absent = ReadError::PathAbsent { hash: 6, at: 4 };
    assert!(rt; is_told(alloc, Err(absent), b"path-absent 6 at 4")?);
    Ok(())
}

#[test]
fn a_late_read_is_reported_with_its_moments(rt: HostRuntime) -> Result<(), Fail> {
    let late = ReadError::TimedOut {
        serial: 3,
        deadline: 1_001_000,
        now: 1_001_007,
        at: 12,
    };
    let told = b"timed-out serial 3 deadline 1001000 now 1001007 at 12";
    assert!(rt; is_told(rt.alloc(), Err(late), told)?);
    Ok(())
}

#[test]
fn a_broken_path_is_reported_with_both_digests(rt: HostRuntime) -> Result<(), Fail> {
    let broken = ReadError::Corrupt {
        level: 1,
        wanted: ZEROS_DIGEST,
        got: [0; 32],
        at: 8,
    };
    let told =
        b"corrupt level 1 wanted ad7facb2586fc6e966c004d7d1d16b024f5805ff7cb47c7a85dabd8b48892ca7 got 0000000000000000000000000000000000000000000000000000000000000000 at 8";
    assert!(rt; is_told(rt.alloc(), Err(broken), told)?);
    Ok(())
}

/// Whether the report of a session of one loader alone has this line.
fn is_line_of(alloc: Global, end: DriveEnd, wanted: &[u8]) -> Result<bool, Fail> {
    let script = parse_script(alloc, b"end")?;
    let line = LoaderLine {
        end,
        told: 1,
        written: 2,
        present: 3,
        busy: 4,
    };
    let text = report(alloc, &script, &[], &[line], &[])?;
    let Some(word) = text.as_slice().strip_prefix(b"loader 1 ") else {
        return Ok(false);
    };
    let Some(word) = word.strip_suffix(b" told 1 written 2 present 3 busy 4\nend\n") else {
        return Ok(false);
    };
    Ok(word == wanted)
}

#[test]
fn a_loader_is_reported_with_how_it_ended(rt: HostRuntime) -> Result<(), Fail> {
    let alloc = rt.alloc();
    let refused = DriveEnd::Refused(FillError::BadLength { piece: 2 });
    let cut = DriveEnd::Frame(FrameFault::Cut { at: 20 });
    assert!(rt; is_line_of(alloc, DriveEnd::Done, b"done")?);
    assert!(rt; is_line_of(alloc, DriveEnd::Stopped, b"stopped")?);
    assert!(rt; is_line_of(alloc, DriveEnd::UnknownFile, b"unknown-file")?);
    assert!(rt; is_line_of(alloc, refused, b"refused-bad-length")?);
    assert!(rt; is_line_of(alloc, cut, b"frame-cut")?);
    assert!(rt; is_line_of(alloc, DriveEnd::Fault, b"fault")?);
    assert!(rt; is_line_of(alloc, DriveEnd::Failed, b"failed")?);
    assert!(rt; is_line_of(alloc, DriveEnd::HistoryFull, b"history-full")?);
    Ok(())
}

fn file_line(rt: &impl Abort, alloc: Global, name: &[u8]) -> Result<FileLine, Fail> {
    Ok(FileLine {
        name: Name::of(alloc, name)?.expect(rt, "a name"),
        entries: 12,
        filled: 1,
        total: 1,
        kept: 1,
        lost: 0,
    })
}

#[test]
fn a_session_without_readers_reports_its_end_alone(rt: HostRuntime) -> Result<(), Fail> {
    let alloc = rt.alloc();
    let script = parse_script(alloc, b"end")?;
    let text = report(alloc, &script, &[], &[], &[])?;
    assert_eq!(rt; text.as_slice(), b"end\n".as_slice());
    Ok(())
}

/// The replies of two readers, of two reads and of one.
fn three_replies(alloc: Global) -> Result<Vec<Rows<Result<Found, ReadError>>>, Fail> {
    let first = vec![in alloc; Err(ReadError::Damaged), Err(ReadError::Compressed)]?;
    let second = vec![in alloc; Err(ReadError::ReadFault)]?;
    Ok(vec![in alloc; Rows::from_vec(first), Rows::from_vec(second)]?)
}

/// The report of a session of two readers and the two files that they read.
fn report_of_two(rt: &impl Abort, alloc: Global) -> Result<Bytes, Fail> {
    let script = parse_script(alloc, b"reader 7 one 1-2\nreader 8 two 0\nend")?;
    let files = [file_line(rt, alloc, b"one")?, file_line(rt, alloc, b"two")?];
    let replies = three_replies(alloc)?;
    Ok(report(alloc, &script, replies.as_slice(), &[], files.as_slice())?)
}

#[test]
fn reads_come_first_then_loaders_then_files(rt: HostRuntime) -> Result<(), Fail> {
    let text = report_of_two(&rt, rt.alloc())?;
    let wanted =
        b"read 1 one 1 damaged\nread 1 one 2 compressed\nread 2 two 0 read-fault\nfile one entries 12 filled 1 of 1 log 1 lost 0\nfile two entries 12 filled 1 of 1 log 1 lost 0\nend\n";
    assert!(rt; text.as_slice() == wanted.as_slice());
    Ok(())
}
