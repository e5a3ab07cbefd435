ghost use Rattle.std.specs.Prelude.{◌≡◌, [], IfOk};
ghost use Rattle.inc_io.specs.Outside.{NoneOut};

use crate::disks::write;
use inc_disk::{MemDisk, MemShelf, Shelf};
use inc_io::{Backing, Bytes, Failed, LendFault, Name, NameList, ReadShelf};
use std::alloc::Global;
use std::test::Fail;

const ROOM: u64 = 1000;

const MANY: u32 = 1000;

fn name_of(alloc: Global, bytes: &[u8]) -> Result<Name, Fail> {
    Ok(Name::of(alloc, bytes)?.ok_or("a name")?)
}

fn shelf_with(
    alloc: Global,
    name: &[u8],
    bytes: &[u8],
    calls: u32,
) -> Result<(MemShelf, Name), Fail>
    ensures none_out { IfOk result (λ made. made.0.out ≡ []) }
{
    let name = name_of(alloc, name)?;
    let mut shelf = MemShelf::new(alloc, ROOM, calls);
    shelf.put(name.copy(alloc)?, Bytes::of(alloc, bytes)?)?;
    Ok((shelf, name))
}

/// Whether these bytes stand under the name.
fn has(shelf: &MemShelf, name: &Name, bytes: &[u8]) -> bool {
    shelf.bytes(name).is_some_and(|stored| stored == bytes)
}

/// The file's length, and four of its bytes.
fn four_of(file: &mut MemDisk) -> Result<(u64, [u8; 4]), Failed> {
    let len = file.len()?;
    let mut room = [0; 4];
    let _ = file.read_at(3, &mut room)?;
    Ok((len, room))
}

/// Length and four bytes of the file, which is lent and given back. While it is out nothing stands under its name.
#[tactic(auto, using(inc_disk::proofs::NamesLemmas::alone_out))]
fn lent_four(shelf: &mut MemShelf, name: &Name) -> Option<(u64, [u8; 4])>
    requires none_out { shelf.old.out ≡ [] }
{
    let Ok(Some(mut file)) = shelf.open_read(name) else {
        return None;
    };
    let is_out = shelf.bytes(name).is_none();
    let four = four_of(&mut file).ok();
    shelf.close_read(name, file);
    if is_out { four } else { None }
}

#[test]
fn a_file_is_lent_and_read_by_places(rt: HostRuntime) -> Result<(), Fail> {
    let (mut shelf, name) = shelf_with(rt.alloc(), b"one", b"0123456789", MANY)?;
    assert_eq!(rt; lent_four(&mut shelf, &name), Some((10, *b"3456")));
    assert!(rt; has(&shelf, &name, b"0123456789"));
    Ok(())
}

/// The names of a shelf on which one of three was put twice.
fn names_put(alloc: Global) -> Result<NameList, Fail> {
    let mut shelf = MemShelf::new(alloc, ROOM, MANY);
    for name in [b"b".as_slice(), b"a", b"ab", b"b"] {
        shelf.put(name_of(alloc, name)?, Bytes::of(alloc, name)?)?;
    }
    shelf.names().map_err(|_| "names".into())
}

#[test]
fn names_come_in_byte_order(rt: HostRuntime) -> Result<(), Fail> {
    let names = names_put(rt.alloc())?;
    let [first, _, third] = names.as_slice() else {
        return Err("three names".into());
    };
    assert!(rt; first.as_slice() == b"a".as_slice() && third.as_slice() == b"b".as_slice());
    Ok(())
}

/// Whether the first of two calls for the file's length succeeds and the second doesn't.
#[tactic(auto, using(inc_disk::proofs::NamesLemmas::alone_out))]
fn lends_for_one_call(shelf: &mut MemShelf, name: &Name) -> bool
    requires none_out { shelf.old.out ≡ [] }
{
    let Ok(Some(mut file)) = shelf.open_read(name) else {
        return false;
    };
    let first = file.len();
    let second = file.len();
    shelf.close_read(name, file);
    first == Ok(10) && second == Err(Failed)
}

fn has_no_names(shelf: &mut MemShelf) -> bool
    ensures out { shelf.new.out ≡ shelf.old.out }
{
    matches!(shelf.names(), Err(LendFault::Failed))
}

/// How many faults a shelf counts whose first call fails, and whose files fail after one call.
fn faults_met(alloc: Global) -> Result<Option<u64>, Fail> {
    let (mut shelf, name) = shelf_with(alloc, b"one", b"0123456789", 1)?;
    shelf.fail([0u64].to_vec(alloc)?);
    let is_met = has_no_names(&mut shelf) && lends_for_one_call(&mut shelf, &name);
    Ok(if is_met { Some(shelf.faults()) } else { None })
}

#[test]
fn planned_faults_come_at_their_calls(rt: HostRuntime) -> Result<(), Fail> {
    assert_eq!(rt; faults_met(rt.alloc())?, Some(2));
    Ok(())
}

/// Writes over one byte, and gives the disk back without a sync.
#[tactic(auto, using(inc_disk::proofs::NamesLemmas::alone_out))]
fn write_and_return(shelf: &mut MemShelf, name: &Name) -> Result<(), Fail>
    requires none_out { shelf.old.out ≡ [] }
    ensures none_out { IfOk result (λ done. shelf.new.out ≡ []) }
{
    let Ok(Some(mut disk)) = shelf.open_disk(name) else {
        return Err(Fail::from("the file is not lent"));
    };
    let written = write(&mut disk, 1, b"X");
    shelf.close_disk(name, disk);
    Ok(written?)
}

/// Whether the file is lent as a disk that reads as these bytes, and whose last sync left those.
#[tactic(auto, using(inc_disk::proofs::NamesLemmas::alone_out))]
fn lends(shelf: &mut MemShelf, name: &Name, reads: &[u8], synced: &[u8]) -> bool
    requires none_out { shelf.old.out ≡ [] }
{
    let Ok(Some(disk)) = shelf.open_disk(name) else {
        return false;
    };
    let same = disk.bytes() == reads && disk.synced() == synced;
    shelf.close_disk(name, disk);
    same
}

#[test]
fn what_was_not_synced_is_lent_again(rt: HostRuntime) -> Result<(), Fail> {
    let (mut shelf, name) = shelf_with(rt.alloc(), b"one", b"abcd", MANY)?;
    write_and_return(&mut shelf, &name)?;
    assert!(rt; has(&shelf, &name, b"aXcd"));
    assert!(rt; lends(&mut shelf, &name, b"aXcd", b"abcd"));
    Ok(())
}

/// Whether a new file of this name is lent. It is given back as it is.
#[tactic(auto, using(inc_disk::proofs::NamesLemmas::alone_out))]
fn create<S: Shelf>(shelf: &mut S, name: &Name) -> Result<bool, LendFault>
    requires none_out { NoneOut (S.out shelf.old) }
    ensures none_out { NoneOut (S.out shelf.new) }
{
    let Some(disk) = shelf.create_disk(name)? else {
        return Ok(false);
    };
    shelf.close_disk(name, disk);
    Ok(true)
}

/// Whether no file stands after a failed call, an empty one after the next, and then none is made.
fn creates_once(shelf: &mut MemShelf, name: &Name) -> bool
    requires none_out { shelf.old.out ≡ [] }
{
    let first = create(shelf, name);
    let is_missing = shelf.bytes(name).is_none();
    let second = create(shelf, name);
    let is_there = has(shelf, name, b"");
    let third = create(shelf, name);
    let is_as_planned = first == Err(LendFault::Failed) && second == Ok(true);
    is_as_planned && third == Ok(false) && is_missing && is_there
}

#[test]
fn a_new_file_stands_whole_or_not_at_all(rt: HostRuntime) -> Result<(), Fail> {
    let mut shelf = MemShelf::new(rt.alloc(), ROOM, MANY);
    shelf.fail([0u64].to_vec(rt.alloc())?);
    let name = name_of(rt.alloc(), b"new")?;
    assert!(rt; creates_once(&mut shelf, &name));
    Ok(())
}
