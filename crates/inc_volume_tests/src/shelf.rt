ghost use Rattle.std.specs.Prelude.{◌≡◌, ◌%◌, ◌+◌, ◌<◌, ◌^◌, [], IfOk};

use inc_disk::MemShelf;
use inc_header::{Header, HeaderFault, HeaderKind, write_header};
use inc_io::{Bytes, Name};
use inc_layout::{LayoutFault, fresh_unsigned};
use inc_samples::{ID, changed, one_fresh, two, two_fresh};
use inc_volume::Verdict;
use std::alloc::Global;
use std::test::Fail;

/// More bytes than a file has.
pub const ROOM: u64 = 1 << 20;

/// More calls than a verdict or a mount makes of a file.
pub const MANY: u32 = 100;

/// An id that no file has.
pub const NO_ID: [u8; 16] = [9; 16];

/// The id of a file that is refused.
const REFUSED_ID: [u8; 16] = [8; 16];

/// The id of an unsigned file of 4096 bytes.
const UNSIGNED_ID: [u8; 16] = [7; 16];

/// A name of the shelf, and what it is.
#[derive(Drop)]
pub struct Case {
    pub name: &'static [u8],
    pub verdict: Verdict,
}

/// All names, in byte order.
pub const CASES: [Case; 10] = [
    Case {
        name: b"at-its-end",
        verdict: Verdict::Mapped {
            original: ID,
            offset: 4096,
            size: 904,
        },
    },
    Case {
        name: b"both",
        verdict: Verdict::Plain {
            id: ID,
            complete: true,
        },
    },
    Case {
        name: b"later",
        verdict: Verdict::SameId { id: ID },
    },
    Case {
        name: b"no-file",
        verdict: Verdict::Refused(LayoutFault::Header(HeaderFault::Short)),
    },
    Case {
        name: b"of-none",
        verdict: Verdict::NoOriginal { original: NO_ID },
    },
    Case {
        name: b"of-refused",
        verdict: Verdict::NoOriginal {
            original: REFUSED_ID,
        },
    },
    Case {
        name: b"of-unsigned",
        verdict: Verdict::Mapped {
            original: UNSIGNED_ID,
            offset: 0,
            size: 4096,
        },
    },
    Case {
        name: b"past-its-end",
        verdict: Verdict::PastOriginal { original: ID },
    },
    Case {
        name: b"refused",
        verdict: Verdict::Refused(LayoutFault::MapOutside),
    },
    Case {
        name: b"unsigned",
        verdict: Verdict::Plain {
            id: UNSIGNED_ID,
            complete: false,
        },
    },
];

pub fn name_of(alloc: Global, bytes: &[u8]) -> Result<Name, Fail> {
    Ok(Name::of(alloc, bytes)?.ok_or("a name")?)
}

/// A header that shows so many bytes of a file from an offset on.
fn mapped(offset: u64, size: u64, id: [u8; 16]) -> [u8; 56]
    requires start { offset % 4096 ≡ 0 }
    requires end { offset + size < 2 ^ 64 }
{
    let header = Header {
        kind: HeaderKind::Mapped { offset },
        size,
        id,
    };
    write_header(&header)
}

/// The file with another id, of this byte alone.
fn with_id(alloc: Global, file: &[u8], byte: u8) -> Result<Vec<u8>, Fail> {
    let mut copy = changed(alloc, file, &[])?;
    for place in 40..56 {
        if let Some(old) = copy.get_mut(place) {
            *old = byte;
        }
    }
    Ok(copy)
}

/// An unsigned file with this id before its block has come.
pub fn unsigned(alloc: Global, id: [u8; 16]) -> Result<Vec<u8>, Fail> {
    let image = fresh_unsigned(alloc, 4096, id).map_err(|_| "a file")?;
    let mut bytes = image.front.as_slice().to_vec(alloc)?;
    bytes.resize(156, 0u8)?;
    Ok(bytes)
}

pub fn put(alloc: Global, shelf: &mut MemShelf, name: &[u8], bytes: &[u8]) -> Result<(), Fail>
    ensures none_out { shelf.new.out ≡ shelf.old.out }
{
    let name = name_of(alloc, name)?;
    Ok(shelf.put(name, Bytes::of(alloc, bytes)?)?)
}

/// The shelf with a file under each name. Of the two files of one id the later one in byte order is put there first.
pub fn full_shelf(alloc: Global) -> Result<MemShelf, Fail>
    ensures none_out { IfOk result (λ shelf. shelf.out ≡ []) }
{
    let mut shelf = MemShelf::new(alloc, ROOM, MANY);
    put_plain(alloc, &mut shelf)?;
    put(
        alloc,
        &mut shelf,
        b"at-its-end",
        mapped(4096, 904, ID).as_slice(),
    )?;
    put(
        alloc,
        &mut shelf,
        b"past-its-end",
        mapped(4096, 905, ID).as_slice(),
    )?;
    put(
        alloc,
        &mut shelf,
        b"of-none",
        mapped(0, 4096, NO_ID).as_slice(),
    )?;
    put(
        alloc,
        &mut shelf,
        b"of-unsigned",
        mapped(0, 4096, UNSIGNED_ID).as_slice(),
    )?;
    put(
        alloc,
        &mut shelf,
        b"of-refused",
        mapped(0, 4096, REFUSED_ID).as_slice(),
    )?;
    Ok(shelf)
}

fn put_plain(alloc: Global, shelf: &mut MemShelf) -> Result<(), Fail>
    ensures none_out { shelf.new.out ≡ shelf.old.out }
{
    put(alloc, shelf, b"later", two_fresh(alloc)?.as_slice())?;
    put(alloc, shelf, b"both", two(alloc)?.as_slice())?;
    put(alloc, shelf, b"no-file", b"abc".as_slice())?;
    let fresh = one_fresh(alloc)?;
    let refused = with_id(alloc, &fresh[..fresh.len().saturating_sub(1)], 8)?;
    put(alloc, shelf, b"refused", refused.as_slice())?;
    put(
        alloc,
        shelf,
        b"unsigned",
        unsigned(alloc, UNSIGNED_ID)?.as_slice(),
    )
}
