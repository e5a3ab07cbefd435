use super::*;
use inc_bytes::Id;
use inc_io::Name;
use std::test::*;

/// Files in the order in which they are added, whether they are complete, and whether their id is there already.
struct Case {
    id: Id,
    name: &'static [u8],
    complete: bool,
    is_there: bool,
}

const FIRST: Id = [
    0x00, 0x11, 0x22, 0x33, 0x44, 0x55, 0x66, 0x77, 0x88, 0x99, 0xaa, 0xbb, 0xcc, 0xdd, 0xee, 0xff,
];

const CASES: [Case; 3] = [
    Case {
        id: [0xff; 16],
        name: b"two",
        complete: false,
        is_there: false,
    },
    Case {
        id: FIRST,
        name: b"one",
        complete: true,
        is_there: false,
    },
    Case {
        id: FIRST,
        name: b"three",
        complete: true,
        is_there: true,
    },
];

fn is_added(index: &mut Index, id: Id, name: Name, complete: bool) -> Option<bool> {
    match index.add(id, name, complete) {
        Ok(()) => Some(true),
        Err(IndexFault::SameId) => Some(false),
        Err(IndexFault::OutOfMemory) => None,
    }
}

fn adds_all(rt: &HostRuntime, index: &mut Index) -> bool {
    let mut good = true;
    for case in &CASES {
        let Ok(Some(name)) = Name::of(rt.alloc(), case.name) else {
            return false;
        };
        if is_added(index, case.id, name, case.complete) != Some(!case.is_there) {
            good = false;
        }
    }
    good
}

fn is_list(list: &[IdName], wanted: &[&[u8]]) -> bool {
    if list.len() != wanted.len() {
        return false;
    }
    for (place, name) in wanted.iter().enumerate() {
        if list[place].1.as_slice() != *name {
            return false;
        }
    }
    true
}

#[test]
fn files_are_listed_by_id_and_the_first_keeps_it(rt: HostRuntime) -> Result<(), Fail> {
    let mut index = Index::new(rt.alloc());
    assert!(rt; adds_all(&rt, &mut index));
    let all = index.index_list(rt.alloc())?;
    assert!(rt; is_list(all.as_slice(), &[b"one", b"two"]));
    let incomplete = index.incomplete_list(rt.alloc())?;
    assert!(rt; is_list(incomplete.as_slice(), &[b"two"]));
    Ok(())
}

#[test]
fn an_id_is_32_digits(rt: HostRuntime) -> Result<(), Fail> {
    let text = id_text(rt.alloc(), &FIRST)?;
    assert_eq!(rt;
        text.as_slice(),
        b"00112233445566778899aabbccddeeff".as_slice()
    );
    assert_eq!(rt; read_id("00112233445566778899aabbccddeeff"), Some(FIRST));
    assert_eq!(rt; read_id("00112233445566778899aabbccddeef"), None);
    Ok(())
}
