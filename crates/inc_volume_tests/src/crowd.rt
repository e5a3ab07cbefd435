// A folder of many files.
ghost use Rattle.std.specs.Prelude.{◌≡◌, [], IfOk};

use crate::shelf::{MANY, ROOM, name_of, put, unsigned};
use inc_disk::MemShelf;
use inc_io::Name;
use inc_volume::{Verdict, survey};
use std::alloc::Global;
use std::test::Fail;

const FILES: u32 = 300;

/// Names in the order of their numbers.
fn name_bytes(number: u32) -> [u8; 4] {
    let [_, _, high, low] = number.to_be_bytes();
    [b'f', b'a' + high % 16, b'a' + low / 16, b'a' + low % 16]
}

fn id_of(number: u32) -> [u8; 16] {
    let mut id = [0; 16];
    id[..4].copy_from_slice(&number.to_be_bytes());
    id
}

/// A shelf with an unsigned file under each name, without its block, and with an id of its own.
fn crowded_shelf(alloc: Global) -> Result<MemShelf, Fail>
    ensures none_out { IfOk result (λ shelf. shelf.out ≡ []) }
{
    let mut shelf = MemShelf::new(alloc, ROOM, MANY);
    for number in 0..FILES {
        let file = unsigned(alloc, id_of(number))?;
        put(
            alloc,
            &mut shelf,
            name_bytes(number).as_slice(),
            file.as_slice(),
        )?;
    }
    Ok(shelf)
}

/// Whether each file has its own verdict, by its place.
fn are_plain(rows: &[(Name, Verdict)]) -> bool {
    for number in 0..FILES {
        let Some(row) = rows.get(number as usize) else {
            return false;
        };
        let wanted = Verdict::Plain {
            id: id_of(number),
            complete: false,
        };
        if row.0.as_slice() != name_bytes(number).as_slice() || row.1 != wanted {
            return false;
        }
    }
    rows.len() == FILES as usize
}

#[test]
fn each_of_many_files_has_its_verdict(rt: HostRuntime) -> Result<(), Fail> {
    let mut shelf = crowded_shelf(rt.alloc())?;
    let list = survey(rt.alloc(), &mut shelf).map_err(|_| "a survey")?;
    assert!(rt; are_plain(list.as_slice()));
    Ok(())
}
