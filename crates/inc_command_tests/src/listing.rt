ghost use Rattle.std.specs.Prelude.{◌≡◌, ◌%◌, ◌+◌, ◌<◌, ◌^◌, [], IfOk};

use crate::runs::{MANY, ROOM, WELL, run_over};
use inc_disk::MemShelf;
use inc_header::{Header, HeaderKind, write_header};
use inc_io::{Bytes, Name};
use inc_samples::{ID, changed, one, one_fresh, two_fresh};
use std::alloc::Global;
use std::test::Fail;

/// An id that no file has.
const NO_ID: [u8; 16] = [9; 16];

fn put(alloc: Global, shelf: &mut MemShelf, name: &[u8], bytes: &[u8]) -> Result<(), Fail>
    ensures none_out { shelf.new.out ≡ shelf.old.out }
{
    let name = Name::of(alloc, name)?.ok_or("a name")?;
    Ok(shelf.put(name, Bytes::of(alloc, bytes)?)?)
}

/// The fresh file of 5000 bytes, with an id whose bytes are all 0xff.
fn last_by_id(alloc: Global) -> Result<Vec<u8>, Fail> {
    let mut file = changed(alloc, two_fresh(alloc)?.as_slice(), &[])?;
    for place in 40..56 {
        if let Some(byte) = file.get_mut(place) {
            *byte = 0xff;
        }
    }
    Ok(file)
}

/// A header that shows so many bytes of a file from an offset on.
fn mapped(offset: u64, size: u64, id: [u8; 16]) -> [u8; 56]
    requires start { offset % 4096 ≡ 0 }
    requires end { offset + size < 2 ^ 64 }
{
    let header = Header {
        kind: HeaderKind::Mapped { offset },
        size,
        id,
    };
    write_header(&header)
}

/// Three bytes, a complete file of the lowest id, and an incomplete one of the highest id under a lower name.
fn three(alloc: Global) -> Result<MemShelf, Fail>
    ensures none_out { IfOk result (λ shelf. shelf.out ≡ []) }
{
    let mut shelf = MemShelf::new(alloc, ROOM, MANY);
    put(alloc, &mut shelf, b"junk", b"abc".as_slice())?;
    put(alloc, &mut shelf, b"two", one(alloc)?.as_slice())?;
    put(alloc, &mut shelf, b"one", last_by_id(alloc)?.as_slice())?;
    Ok(shelf)
}

/// Two files of one id, and parts of a file that is there, of one that isn't, and past the end.
fn parts(alloc: Global) -> Result<MemShelf, Fail>
    ensures none_out { IfOk result (λ shelf. shelf.out ≡ []) }
{
    let mut shelf = MemShelf::new(alloc, ROOM, MANY);
    put(alloc, &mut shelf, b"b", one_fresh(alloc)?.as_slice())?;
    put(alloc, &mut shelf, b"a", one(alloc)?.as_slice())?;
    put(alloc, &mut shelf, b"part", mapped(0, 4096, ID).as_slice())?;
    put(alloc, &mut shelf, b"past", mapped(4096, 1, ID).as_slice())?;
    put(alloc, &mut shelf, b"lost", mapped(0, 1, NO_ID).as_slice())?;
    Ok(shelf)
}

/// Whether a listing of this shelf ends with this status and says this.
fn lists(alloc: Global, shelf: &mut MemShelf, status: u8, text: &str) -> Result<bool, Fail>
    requires none_out { shelf.old.out ≡ [] }
{
    let (ended, said) = run_over(alloc, "list", shelf, &[], WELL)?;
    Ok(ended == status && said.as_slice() == text.as_bytes())
}

#[test]
fn files_are_listed_by_id_and_what_is_none_by_name(rt: HostRuntime) -> Result<(), Fail> {
    let mut shelf = three(rt.alloc())?;
    let lines = concat!(
        "index 00112233445566778899aabbccddeeff two\n",
        "index ffffffffffffffffffffffffffffffff one\n",
        "incomplete ffffffffffffffffffffffffffffffff one\n",
        "refused junk short\n"
    );
    assert!(rt; lists(rt.alloc(), &mut shelf, 0, lines)?);
    Ok(())
}

#[test]
fn a_part_has_its_original_and_the_first_of_an_id_keeps_it(rt: HostRuntime) -> Result<(), Fail> {
    let mut shelf = parts(rt.alloc())?;
    let lines = concat!(
        "index 00112233445566778899aabbccddeeff a\n",
        "mapped part original 00112233445566778899aabbccddeeff\n",
        "refused b same-id\n",
        "refused lost no-original\n",
        "refused past past-original\n"
    );
    assert!(rt; lists(rt.alloc(), &mut shelf, 0, lines)?);
    Ok(())
}

#[test]
fn an_empty_shelf_has_no_line_and_one_that_fails_is_told(rt: HostRuntime) -> Result<(), Fail> {
    let mut shelf = MemShelf::new(rt.alloc(), ROOM, MANY);
    assert!(rt; lists(rt.alloc(), &mut shelf, 0, "")?);
    let mut shelf = MemShelf::new(rt.alloc(), ROOM, MANY);
    shelf.fail([0].as_slice().to_vec(rt.alloc())?);
    assert!(rt; lists(rt.alloc(), &mut shelf, 5, "")?);
    Ok(())
}
