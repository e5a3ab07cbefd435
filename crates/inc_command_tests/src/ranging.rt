use crate::runs::{WELL, over_shelf, says};
use inc_samples::{changed, two_fresh};
use std::alloc::{AllocError, Global};
use std::test::Fail;

/// Size and number of entries of a file of five data blocks and one hash block, of which 0, 1, 3 and 5 are there: places and sizes of their
/// entries.
const FIVE: [(usize, u8); 11] = [
    (32, 0),
    (33, 0x50),
    (87, 6),
    (251, 0x20),
    (257, 0x10),
    (261, 0x30),
    (267, 0x10),
    (281, 0x40),
    (287, 0x10),
    (301, 0x10),
    (307, 0x10),
];

fn five(alloc: Global) -> Result<Vec<u8>, AllocError> {
    let fresh = two_fresh(alloc)?;
    let mut file = changed(alloc, fresh.as_slice(), &FIVE)?;
    file.resize(20480, 0u8)?;
    Ok(file)
}

/// A question about that file, and what is said.
struct Question {
    words: &'static str,
    status: u8,
    says: &'static str,
}

fn are_answered(alloc: Global, questions: &[Question]) -> Result<bool, AllocError> {
    let file = five(alloc)?;
    for question in questions {
        let text = question.says.as_bytes();
        if !says(
            alloc,
            file.as_slice(),
            question.words,
            question.status,
            text,
        ) {
            return Ok(false);
        }
    }
    Ok(true)
}

const WITHIN: &[Question] = &[
    Question {
        words: "ranges f 0 6 2",
        status: 0,
        says: "0 2\n3 4\nnext 5 more\n",
    },
    Question {
        words: "ranges f 0 6 8",
        status: 0,
        says: "0 2\n3 4\n5 6\nnext 6 end\n",
    },
    Question {
        words: "ranges f 1 6 0",
        status: 0,
        says: "next 1 more\n",
    },
    Question {
        words: "ranges f 6 6 0",
        status: 0,
        says: "next 6 end\n",
    },
];

#[test]
fn ranges_of_the_blocks_that_are_there_have_a_line_each(rt: HostRuntime) -> Result<(), Fail> {
    assert!(rt; are_answered(rt.alloc(), WITHIN)?);
    Ok(())
}

const BEYOND: &[Question] = &[
    Question {
        words: "ranges f 4 9 8",
        status: 3,
        says: "refused f bad-range\n",
    },
    Question {
        words: "ranges f 0 7 8",
        status: 3,
        says: "refused f bad-range\n",
    },
    Question {
        words: "ranges f 3 2 8",
        status: 3,
        says: "refused f bad-range\n",
    },
];

#[test]
fn bounds_in_the_wrong_order_or_behind_the_file_are_refused(rt: HostRuntime) -> Result<(), Fail> {
    assert!(rt; are_answered(rt.alloc(), BEYOND)?);
    Ok(())
}

/// Whether ranges of a name without a file are refused.
fn is_missing(alloc: Global) -> Result<bool, AllocError> {
    let run = over_shelf(alloc, "ranges f 0 0 1", None, &[], WELL)?;
    Ok(run.status == 3 && run.text.as_slice() == b"refused f missing\n".as_slice())
}

#[test]
fn no_file_and_what_is_none_are_refused_before_the_bounds(rt: HostRuntime) -> Result<(), Fail> {
    assert!(rt; is_missing(rt.alloc())?);
    assert!(rt; says(rt.alloc(), b"", "ranges f 1 0 1", 3, b"refused f short\n"));
    Ok(())
}
