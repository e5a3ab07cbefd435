use crate::runs::{Plan, Run, WELL, over_shelf};
use inc_samples::{changed, two, two_fresh};
use std::alloc::{AllocError, Global};
use std::test::Fail;

/// What is told of the content of 5000 bytes of number 7. Its root is that of a program outside.
const TOLD: &str = "big b size 5000 data 2 hash 1\n\
    root df5a2b4e4a3bd0359c4de991ad79241ec12972b8f9f47292534ce79d107abb76\n\
    filled 3\n\
    checked ok 2 of 2\n";

/// Where the outside program's file has another id: the number and the size, eight bytes each.
const OWN_ID: &[(usize, u8)] = &[
    (40, 7),
    (41, 0),
    (42, 0),
    (43, 0),
    (44, 0),
    (45, 0),
    (46, 0),
    (47, 0),
    (48, 136),
    (49, 19),
    (50, 0),
    (51, 0),
    (52, 0),
    (53, 0),
    (54, 0),
    (55, 0),
];

/// Whether the file of the outside program stands afterwards, but for the id.
fn makes_two(alloc: Global) -> Result<bool, AllocError> {
    let whole = two(alloc)?;
    let wanted = changed(alloc, whole.as_slice(), OWN_ID)?;
    let Run { status, text, file } = over_shelf(alloc, "big b 7 5000", None, &[], WELL)?;
    let is_told = text.as_slice() == TOLD.as_bytes();
    let is_file = match file {
        Some(file) => file.as_slice() == wanted.as_slice(),
        None => false,
    };
    Ok(status == 0 && is_told && is_file)
}

/// Whether a run over an empty shelf ends well and says this.
fn says_of_new(alloc: Global, words: &str, told: &str) -> Result<bool, AllocError> {
    let Run { status, text, .. } = over_shelf(alloc, words, None, &[], WELL)?;
    Ok(status == 0 && text.as_slice() == told.as_bytes())
}

#[test]
fn a_generated_content_is_made_filled_and_checked(rt: HostRuntime) -> Result<(), Fail> {
    assert!(rt; makes_two(rt.alloc())?);
    let one_byte = "big a size 1 data 1 hash 0\n\
        root ad7facb2586fc6e966c004d7d1d16b024f5805ff7cb47c7a85dabd8b48892ca7\n\
        filled 1\n\
        checked ok 1 of 1\n";
    assert!(rt; says_of_new(rt.alloc(), "big a 0 1", one_byte)?);
    let nothing = "big a size 0 data 0 hash 0\n\
        root 0000000000000000000000000000000000000000000000000000000000000000\n\
        filled 0\n\
        checked ok 0 of 0\n";
    assert!(rt; says_of_new(rt.alloc(), "big a 0 0", nothing)?);
    Ok(())
}

/// Whether a name under which a file stands is refused so, and the file stays.
fn is_refused(alloc: Global, words: &str, told: &str) -> Result<bool, AllocError> {
    let stood = two_fresh(alloc)?;
    let Run { status, text, file } = over_shelf(alloc, words, Some(stood.as_slice()), &[], WELL)?;
    let stays = match file {
        Some(file) => file.as_slice() == stood.as_slice(),
        None => false,
    };
    Ok(status == 3 && text.as_slice() == told.as_bytes() && stays)
}

#[test]
fn too_large_a_size_is_refused_before_a_name(rt: HostRuntime) -> Result<(), Fail> {
    let larger = "big two 7 17179869185";
    assert!(rt; is_refused(rt.alloc(), larger, "refused two too-large\n")?);
    assert!(rt; is_refused(rt.alloc(), "big two 7 5000", "refused two exists\n")?);
    Ok(())
}

/// Whether a disk that fails from this call on is told as a fault, with no text.
fn fails_from(alloc: Global, calls: u32) -> Result<bool, AllocError> {
    let plan = Plan { calls, ..WELL };
    let Run { status, text, .. } = over_shelf(alloc, "big b 7 5000", None, &[], plan)?;
    Ok(status == 5 && text.is_empty())
}

#[test]
fn a_failing_disk_is_told_at_each_step(rt: HostRuntime) -> Result<(), Fail> {
    for calls in [0, 3, 8, 20] {
        assert!(rt; fails_from(rt.alloc(), calls)?);
    }
    Ok(())
}
