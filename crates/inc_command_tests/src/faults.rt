use crate::runs::{Plan, WELL, over_shelf};
use inc_samples::{blob_of_two, two};
use std::alloc::{AllocError, Global};
use std::test::Fail;

/// The status of a command, and how many bytes it writes.
fn ends(
    alloc: Global,
    words: &str,
    file: Option<&[u8]>,
    plan: Plan,
) -> Result<(u8, usize), AllocError> {
    let run = over_shelf(alloc, words, file, blob_of_two(), plan)?;
    Ok((run.status, run.text.len()))
}

/// The same over the file of 5000 bytes.
fn ends_over_two(alloc: Global, words: &str, plan: Plan) -> Result<(u8, usize), AllocError> {
    let file = two(alloc)?;
    ends(alloc, words, Some(file.as_slice()), plan)
}

/// Of the file are read its length, its header, three records in two parts each, blob and map, the block and the one block of its path.
#[test]
fn a_read_makes_twelve_calls_of_the_file(rt: HostRuntime) -> Result<(), Fail> {
    let twelve = Plan { calls: 12, ..WELL };
    assert_eq!(rt; ends_over_two(rt.alloc(), "read two 1", twelve)?, (0, 904));
    let eleven = Plan { calls: 11, ..WELL };
    assert_eq!(rt; ends_over_two(rt.alloc(), "read two 1", eleven)?, (5, 0));
    Ok(())
}

#[test]
fn a_fault_outside_ends_a_command(rt: HostRuntime) -> Result<(), Fail> {
    let shelf = Plan {
        shelf: &[0],
        ..WELL
    };
    assert_eq!(rt; ends_over_two(rt.alloc(), "read two 1", shelf)?, (5, 0));
    let sink = Plan { sink: &[1], ..WELL };
    assert_eq!(rt; ends_over_two(rt.alloc(), "read two 0", sink)?, (5, 1000));
    let sink = Plan { sink: &[0], ..WELL };
    assert_eq!(rt; ends(rt.alloc(), "reed", None, sink)?, (1, 0));
    let input = Plan {
        input: &[2],
        ..WELL
    };
    let words = "make two 5000 00112233445566778899aabbccddeeff";
    assert_eq!(rt; ends(rt.alloc(), words, None, input)?, (5, 0));
    Ok(())
}
