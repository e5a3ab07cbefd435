use crate::runs::{Plan, Run, WELL, over_shelf};
use inc_samples::{ID, changed, content, two, two_fresh};
use std::alloc::{AllocError, Global};
use std::test::Fail;

/// A part of a stream for the file of 5000 bytes.
#[derive(Clone, Copy)]
enum Part {
    Hash,
    First,
    Last,
    /// The last block with a byte too few.
    Short,
    /// A block that the file hasn't.
    Beyond,
    /// A block of another file.
    Other,
    Compressed,
    /// A frame of a kind that there is none of.
    Kind,
    /// A frame without a byte.
    Empty,
    End,
}

/// A frame of a stream, of this kind of block.
fn put_frame(
    stream: &mut Vec<u8>,
    id: &[u8; 16],
    words: [u8; 3],
    bytes: &[u8],
) -> Result<(), AllocError> {
    let len = (bytes.len().min(4096) as u16).to_le_bytes();
    stream.extend_from_slice(&[1])?;
    stream.extend_from_slice(id.as_slice())?;
    stream.extend_from_slice(&[words[0], words[1], words[2], 0, 0, 0, len[0], len[1]])?;
    stream.extend_from_slice(bytes)
}

fn put_part(alloc: Global, stream: &mut Vec<u8>, part: Part) -> Result<(), AllocError> {
    let content = content(alloc)?;
    let first = content.as_slice().get(..4096).unwrap_or(&[]);
    let last = content.as_slice().get(4096..).unwrap_or(&[]);
    match part {
        Part::Hash => {
            let whole = two(alloc)?;
            let leaves = whole.as_slice().get(4096..8192).unwrap_or(&[]);
            put_frame(stream, &ID, [1, 0, 0], leaves)
        }
        Part::First => put_frame(stream, &ID, [0, 0, 0], first),
        Part::Last => put_frame(stream, &ID, [0, 0, 1], last),
        Part::Short => put_frame(stream, &ID, [0, 0, 1], last.get(1..).unwrap_or(&[])),
        Part::Beyond => put_frame(stream, &ID, [0, 0, 2], first),
        Part::Other => put_frame(stream, &[7; 16], [0, 0, 0], first),
        Part::Compressed => put_frame(stream, &ID, [0, 1, 0], first),
        Part::Kind => put_frame(stream, &ID, [2, 0, 0], first),
        Part::Empty => put_frame(stream, &ID, [0, 0, 0], &[]),
        Part::End => stream.extend_from_slice(&[2]),
    }
}

fn stream_of(alloc: Global, parts: &[Part]) -> Result<Vec<u8>, AllocError> {
    let mut stream = b"INCLDR\x01\x00".to_vec(alloc)?;
    for part in parts {
        put_part(alloc, &mut stream, *part)?;
    }
    Ok(stream)
}

/// A fill of this file with these parts.
fn fill(alloc: Global, file: Option<&[u8]>, parts: &[Part], plan: Plan) -> Result<Run, AllocError> {
    let stream = stream_of(alloc, parts)?;
    over_shelf(alloc, "fill two", file, stream.as_slice(), plan)
}

/// Whether a fill of this file ends well, says this line and leaves that file.
fn fills(
    alloc: Global,
    file: &[u8],
    parts: &[Part],
    line: &[u8],
    wanted: &[u8],
) -> Result<bool, AllocError> {
    let Run { status, text, file } = fill(alloc, Some(file), parts, WELL)?;
    let is_line = text.as_slice() == line;
    let is_file = match file {
        Some(file) => file.as_slice() == wanted,
        None => false,
    };
    Ok(status == 0 && is_line && is_file)
}

const ALL: &[Part] = &[Part::Hash, Part::First, Part::Last, Part::End];

fn fills_fresh(alloc: Global) -> Result<bool, AllocError> {
    let fresh = two_fresh(alloc)?;
    let whole = two(alloc)?;
    let line = b"filled two written 3 present 0\n";
    fills(alloc, fresh.as_slice(), ALL, line, whole.as_slice())
}

/// The counts of the whole file are set.
fn fills_whole(alloc: Global) -> Result<bool, AllocError> {
    let whole = two(alloc)?;
    let wanted = changed(alloc, whole.as_slice(), &[(161, 2), (165, 1)])?;
    let line = b"filled two written 0 present 3\n";
    fills(alloc, whole.as_slice(), ALL, line, wanted.as_slice())
}

/// The file with its hash block and its first data block alone.
fn half(alloc: Global) -> Result<Vec<u8>, AllocError> {
    let whole = two(alloc)?;
    let mut half = changed(alloc, whole.as_slice(), &[(261, 0), (267, 0)])?;
    half.truncate(12288);
    Ok(half)
}

fn fills_half(alloc: Global) -> Result<bool, AllocError> {
    let fresh = two_fresh(alloc)?;
    let half = half(alloc)?;
    let parts = [Part::Hash, Part::First, Part::End];
    let line = b"filled two written 2 present 0\n";
    fills(alloc, fresh.as_slice(), &parts, line, half.as_slice())
}

fn fills_the_rest(alloc: Global) -> Result<bool, AllocError> {
    let half = half(alloc)?;
    let whole = two(alloc)?;
    let wanted = changed(alloc, whole.as_slice(), &[(161, 1), (165, 1)])?;
    let line = b"filled two written 1 present 2\n";
    fills(alloc, half.as_slice(), ALL, line, wanted.as_slice())
}

#[test]
fn a_file_is_filled_as_the_outside_program_fills_it(rt: HostRuntime) -> Result<(), Fail> {
    assert!(rt; fills_fresh(rt.alloc())?);
    assert!(rt; fills_half(rt.alloc())?);
    Ok(())
}

#[test]
fn what_is_there_is_present_and_counted_in_the_record(rt: HostRuntime) -> Result<(), Fail> {
    assert!(rt; fills_whole(rt.alloc())?);
    assert!(rt; fills_the_rest(rt.alloc())?);
    Ok(())
}

/// A stream that is refused, and how that is told.
struct Refusal {
    parts: &'static [Part],
    status: u8,
    says: &'static str,
}

const REFUSALS: &[Refusal] = &[
    Refusal {
        parts: &[Part::Hash, Part::First],
        status: 2,
        says: "stream cut at 8250\n",
    },
    Refusal {
        parts: &[Part::Hash, Part::First, Part::Kind, Part::End],
        status: 2,
        says: "stream bad-kind at 8267\n",
    },
    Refusal {
        parts: &[Part::Hash, Part::First, Part::Empty, Part::End],
        status: 2,
        says: "stream bad-length at 8273\n",
    },
    Refusal {
        parts: &[Part::Hash, Part::First, Part::Other, Part::Last, Part::End],
        status: 3,
        says: "refused two unknown-file\n",
    },
    Refusal {
        parts: &[Part::Hash, Part::First, Part::Beyond, Part::Last],
        status: 3,
        says: "refused two out-of-range\n",
    },
    Refusal {
        parts: &[Part::Hash, Part::First, Part::Compressed, Part::Last],
        status: 3,
        says: "refused two compressed\n",
    },
    Refusal {
        parts: &[Part::Hash, Part::First, Part::Short, Part::Last],
        status: 3,
        says: "refused two bad-length\n",
    },
];

/// Whether a fill of the fresh file is refused so, and the pieces before that are in.
fn is_refused(alloc: Global, refusal: &Refusal) -> Result<bool, AllocError> {
    let fresh = two_fresh(alloc)?;
    let half = half(alloc)?;
    let Run { status, text, file } = fill(alloc, Some(fresh.as_slice()), refusal.parts, WELL)?;
    let is_told = text.as_slice() == refusal.says.as_bytes();
    let is_half = match file {
        Some(file) => file.as_slice() == half.as_slice(),
        None => false,
    };
    Ok(status == refusal.status && is_told && is_half)
}

fn are_refused(alloc: Global, refusals: &[Refusal]) -> Result<bool, AllocError> {
    for refusal in refusals {
        if !is_refused(alloc, refusal)? {
            return Ok(false);
        }
    }
    Ok(true)
}

#[test]
fn the_pieces_before_a_refusal_are_in_and_none_after_it(rt: HostRuntime) -> Result<(), Fail> {
    assert!(rt; are_refused(rt.alloc(), REFUSALS)?);
    Ok(())
}

fn is_missing(alloc: Global) -> Result<bool, AllocError> {
    let Run { status, text, file } = fill(alloc, None, ALL, WELL)?;
    let is_told = text.as_slice() == b"refused two missing\n".as_slice();
    Ok(status == 3 && is_told && file.is_none())
}

/// A disk that fails once the file is opened.
const FEW: Plan<'static> = Plan {
    calls: 16,
    shelf: &[],
    input: &[],
    sink: &[],
};

fn fails_silently(alloc: Global) -> Result<bool, AllocError> {
    let fresh = two_fresh(alloc)?;
    let Run { status, text, file } = fill(alloc, Some(fresh.as_slice()), ALL, FEW)?;
    Ok(status == 5 && text.is_empty() && file.is_some())
}

#[test]
fn a_missing_file_and_a_failing_disk_have_their_statuses(rt: HostRuntime) -> Result<(), Fail> {
    assert!(rt; is_missing(rt.alloc())?);
    assert!(rt; fails_silently(rt.alloc())?);
    Ok(())
}
