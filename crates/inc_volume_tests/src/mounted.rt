use crate::shelf::{NO_ID, full_shelf, name_of};
use inc_disk::MemShelf;
use inc_io::Name;
use inc_volume::{MountRefusal, Verdict, mount, unmount};
use std::alloc::Global;
use std::test::Fail;

fn names_of(alloc: Global, texts: &[&'static [u8]]) -> Result<Vec<Name>, Fail> {
    let mut names = Vec::new(alloc);
    for text in texts {
        names.push(name_of(alloc, text)?)?;
    }
    Ok(names)
}

/// Whether no disk of these names is out.
fn are_back(shelf: &MemShelf, names: &[Name]) -> bool {
    names.iter().all(|name| shelf.bytes(name).is_some())
}

#[test]
fn a_mapped_name_has_its_original_mounted(rt: HostRuntime) -> Result<(), Fail> {
    let mut shelf = full_shelf(rt.alloc())?;
    let names = names_of(
        rt.alloc(),
        &[
            b"of-unsigned".as_slice(),
            b"both".as_slice(),
            b"unsigned".as_slice(),
        ],
    )?;
    let [part, plain, ..] = names.as_slice() else {
        return Err(Fail::from("two names"));
    };
    let Ok(volume) = mount(rt.alloc(), &mut shelf, names.as_slice()) else {
        return Err(Fail::from("a volume"));
    };
    assert_eq!(rt; volume.files.len(), 2);
    assert!(rt; volume.files[0].0.as_slice() == b"unsigned".as_slice());
    assert!(rt; volume.files[1].0.as_slice() == b"both".as_slice());
    assert!(rt; !are_back(&shelf, names.as_slice()));
    let shown = volume.mapped(part).ok_or("a mapped name")?;
    assert!(rt; shown.0.as_slice() == b"unsigned".as_slice());
    assert_eq!(rt; shown.1.translate(0), Some((0, 4096)));
    assert!(rt; volume.mapped(plain).is_none());
    unmount(volume, &mut shelf);
    assert!(rt; are_back(&shelf, names.as_slice()));
    Ok(())
}

#[test]
fn the_first_name_that_is_not_good_refuses_all(rt: HostRuntime) -> Result<(), Fail> {
    let mut shelf = full_shelf(rt.alloc())?;
    let names = names_of(
        rt.alloc(),
        &[
            b"both".as_slice(),
            b"of-none".as_slice(),
            b"missing".as_slice(),
        ],
    )?;
    let refusal = mount(rt.alloc(), &mut shelf, names.as_slice()).err();
    assert!(rt; is_of_none(&refusal));
    let [both, ..] = names.as_slice() else {
        return Err(Fail::from("a name"));
    };
    assert!(rt; shelf.bytes(both).is_some());
    Ok(())
}

fn is_of_none(refusal: &Option<MountRefusal>) -> bool {
    match refusal {
        Some(MountRefusal::Bad { name, verdict }) => {
            name.as_slice() == b"of-none".as_slice()
                && *verdict == Verdict::NoOriginal { original: NO_ID }
        }
        _ => false,
    }
}
