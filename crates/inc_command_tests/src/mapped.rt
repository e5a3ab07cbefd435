// Names that their verdicts judge: parts of other files, and names that are refused.
ghost use Rattle.std.specs.Prelude.{◌≡◌, ◌%◌, ◌+◌, ◌<◌, ◌^◌, [], IfOk};

use crate::runs::{MANY, ROOM, Run, WELL, over_shelf, run_over};
use inc_disk::MemShelf;
use inc_header::{Header, HeaderKind, write_header};
use inc_io::{Bytes, Name};
use inc_samples::{ID, content, one, two, with_blocks};
use std::alloc::Global;
use std::test::Fail;

/// An id that no plain file has.
const NO_ID: [u8; 16] = [9; 16];

/// The id of the unsigned file.
const RAW_ID: [u8; 16] = [255; 16];

fn put(alloc: Global, shelf: &mut MemShelf, name: &[u8], bytes: &[u8]) -> Result<(), Fail>
    ensures none_out { shelf.new.out ≡ shelf.old.out }
{
    let name = Name::of(alloc, name)?.ok_or("a name")?;
    Ok(shelf.put(name, Bytes::of(alloc, bytes)?)?)
}

/// A header that shows so many bytes of a file from an offset on.
fn mapped(offset: u64, size: u64, id: [u8; 16]) -> [u8; 56]
    requires start { offset % 4096 ≡ 0 }
    requires end { offset + size < 2 ^ 64 }
{
    let header = Header {
        kind: HeaderKind::Mapped { offset },
        size,
        id,
    };
    write_header(&header)
}

/// An unsigned file of 5000 bytes.
fn raw(alloc: Global) -> Result<Vec<u8>, Fail> {
    let words = "make raw 5000 ffffffffffffffffffffffffffffffff --unsigned";
    let Run { file, .. } = over_shelf(alloc, words, None, &[], WELL)?;
    let fresh = file.ok_or("a file that is made")?;
    Ok(with_blocks(alloc, fresh.as_slice())?)
}

/// Two files of one id, of which the first one keeps it, parts of it, and an unsigned file with a part of it.
fn put_good(alloc: Global, shelf: &mut MemShelf) -> Result<(), Fail>
    ensures none_out { shelf.new.out ≡ shelf.old.out }
{
    put(alloc, shelf, b"two", two(alloc)?.as_slice())?;
    put(alloc, shelf, b"twos", one(alloc)?.as_slice())?;
    put(alloc, shelf, b"last", mapped(4096, 904, ID).as_slice())?;
    put(alloc, shelf, b"front", mapped(0, 100, ID).as_slice())?;
    put(alloc, shelf, b"raw", raw(alloc)?.as_slice())?;
    put(alloc, shelf, b"bare", mapped(4096, 10, RAW_ID).as_slice())
}

/// Parts of a file that isn't there, of a name that is a part itself, and past the end; and one that begins within a block.
fn put_bad(alloc: Global, shelf: &mut MemShelf) -> Result<(), Fail>
    ensures none_out { shelf.new.out ≡ shelf.old.out }
{
    put(alloc, shelf, b"lost", mapped(0, 1, NO_ID).as_slice())?;
    put(alloc, shelf, b"chain", mapped(0, 1, NO_ID).as_slice())?;
    put(alloc, shelf, b"past", mapped(4096, 905, ID).as_slice())?;
    let mut bent = mapped(4096, 1, ID);
    bent[24] = 100;
    put(alloc, shelf, b"bent", bent.as_slice())
}

fn names(alloc: Global) -> Result<MemShelf, Fail>
    ensures none_out { IfOk result (λ shelf. shelf.out ≡ []) }
{
    let mut shelf = MemShelf::new(alloc, ROOM, MANY);
    put_good(alloc, &mut shelf)?;
    put_bad(alloc, &mut shelf)?;
    Ok(shelf)
}

/// Words of a command, and how it ends.
struct Row {
    words: &'static str,
    status: u8,
    says: &'static str,
}

fn ends(alloc: Global, words: &str, status: u8, text: &[u8]) -> Result<bool, Fail> {
    let mut shelf = names(alloc)?;
    let (ended, said) = run_over(alloc, words, &mut shelf, &[], WELL)?;
    Ok(ended == status && said.as_slice() == text)
}

fn all_end(alloc: Global, rows: &[Row]) -> Result<bool, Fail> {
    for row in rows {
        if !ends(alloc, row.words, row.status, row.says.as_bytes())? {
            return Ok(false);
        }
    }
    Ok(true)
}

/// Whether a command prints this part of the content.
fn prints(alloc: Global, words: &str, start: usize, end: usize) -> Result<bool, Fail> {
    let content = content(alloc)?;
    let part = content.as_slice().get(start..end).unwrap_or(&[]);
    Ok(!part.is_empty() && ends(alloc, words, 0, part)?)
}

#[test]
fn a_mapped_name_shows_blocks_of_its_original(rt: HostRuntime) -> Result<(), Fail> {
    assert!(rt; prints(rt.alloc(), "read last 0", 4096, 5000)?);
    assert!(rt; prints(rt.alloc(), "read front 0", 0, 100)?);
    assert!(rt; prints(rt.alloc(), "read bare 0 --unproved", 4096, 4106)?);
    Ok(())
}

const OF_PARTS: &[Row] = &[
    Row {
        words: "read last 1",
        status: 4,
        says: "block 1 out-of-range\n",
    },
    Row {
        words: "check last",
        status: 0,
        says: "checked ok 1 of 1\n",
    },
    Row {
        words: "inspect last",
        status: 0,
        says: "mapped size 904 offset 4096 original 00112233445566778899aabbccddeeff\n",
    },
    Row {
        words: "ranges last 0 1 1",
        status: 3,
        says: "refused last mapped\n",
    },
    Row {
        words: "check last --root df5a2b4e4a3bd0359c4de991ad79241ec12972b8f9f47292534ce79d107abb76",
        status: 0,
        says: "checked ok 1 of 1\n",
    },
    Row {
        words: "read last 0 --root af5a2b4e4a3bd0359c4de991ad79241ec12972b8f9f47292534ce79d107abb76",
        status: 3,
        says: "refused last root-differs\n",
    },
    Row {
        words: "read bare 0",
        status: 3,
        says: "refused bare unsigned\n",
    },
    Row {
        words: "check bare",
        status: 3,
        says: "refused bare unsigned\n",
    },
    Row {
        words: "inspect bare",
        status: 0,
        says: "mapped size 10 offset 4096 original ffffffffffffffffffffffffffffffff\n",
    },
];

#[test]
fn a_mapped_name_is_judged_by_its_original(rt: HostRuntime) -> Result<(), Fail> {
    assert!(rt; all_end(rt.alloc(), OF_PARTS)?);
    Ok(())
}

const REFUSED: &[Row] = &[
    Row {
        words: "fill last",
        status: 3,
        says: "refused last mapped\n",
    },
    Row {
        words: "fill twos",
        status: 3,
        says: "refused twos same-id\n",
    },
    Row {
        words: "read twos 0",
        status: 3,
        says: "refused twos same-id\n",
    },
    Row {
        words: "check twos",
        status: 3,
        says: "refused twos same-id\n",
    },
    Row {
        words: "inspect twos",
        status: 3,
        says: "refused twos same-id\n",
    },
    Row {
        words: "ranges twos 0 1 1",
        status: 3,
        says: "refused twos same-id\n",
    },
    Row {
        words: "read lost 0",
        status: 3,
        says: "refused lost no-original\n",
    },
    Row {
        words: "check chain",
        status: 3,
        says: "refused chain no-original\n",
    },
    Row {
        words: "inspect past",
        status: 3,
        says: "refused past past-original\n",
    },
    Row {
        words: "read bent 0",
        status: 3,
        says: "refused bent bad-mapping\n",
    },
];

#[test]
fn a_name_is_refused_by_the_word_of_its_verdict(rt: HostRuntime) -> Result<(), Fail> {
    assert!(rt; all_end(rt.alloc(), REFUSED)?);
    Ok(())
}
