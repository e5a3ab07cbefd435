use crate::runs::says;
use std::alloc::{AllocError, Global};

/// Whether these words are refused by this place.
fn misfits_at(alloc: Global, words: &str, at: u8) -> Result<bool, AllocError> {
    let line = format!(in alloc; "words {at}\n")?;
    Ok(says(alloc, b"", words, 1, line.as_bytes()))
}

/// Words whose first that doesn't fit, or is missing, stands at this place.
struct Misfit {
    words: &'static str,
    at: u8,
}

/// Whether all of them are told so.
fn are_told(alloc: Global, misfits: &[Misfit]) -> bool {
    for misfit in misfits {
        if misfits_at(alloc, misfit.words, misfit.at) != Ok(true) {
            return false;
        }
    }
    true
}

const OF_A_COMMAND: &[Misfit] = &[
    Misfit { words: "", at: 0 },
    Misfit {
        words: "reed one 0",
        at: 0,
    },
    Misfit {
        words: "read",
        at: 1,
    },
    Misfit {
        words: "read a/b 0",
        at: 1,
    },
    Misfit {
        words: "read one",
        at: 2,
    },
    Misfit {
        words: "read one 4294967296",
        at: 2,
    },
    Misfit {
        words: "read one +1",
        at: 2,
    },
    Misfit {
        words: "read one 000000000000000000001",
        at: 2,
    },
    Misfit {
        words: "read one 0 extra",
        at: 3,
    },
    Misfit {
        words: "check",
        at: 1,
    },
    Misfit {
        words: "check two 0",
        at: 2,
    },
    Misfit {
        words: "inspect two --root 00",
        at: 2,
    },
    Misfit {
        words: "fill",
        at: 1,
    },
    Misfit {
        words: "fill a/b",
        at: 1,
    },
    Misfit {
        words: "list one",
        at: 1,
    },
];

#[test]
fn words_that_fit_no_command_are_named_by_place(rt: HostRuntime) {
    assert!(rt; are_told(rt.alloc(), OF_A_COMMAND));
}

const OF_A_MAKE: &[Misfit] = &[
    Misfit {
        words: "make",
        at: 1,
    },
    Misfit {
        words: "make .",
        at: 1,
    },
    Misfit {
        words: "make one -1 00112233445566778899aabbccddeeff",
        at: 2,
    },
    Misfit {
        words: "make one 18446744073709551616 0",
        at: 2,
    },
    Misfit {
        words: "make one 4096",
        at: 3,
    },
    Misfit {
        words: "make one 4096 00112233-4455-6677-8899-aabbccddeef",
        at: 3,
    },
    Misfit {
        words: "make one 4096 --unsigned 00112233445566778899aabbccddeeff",
        at: 3,
    },
    Misfit {
        words: "make one 4096 00112233445566778899aabbccddeeff extra",
        at: 4,
    },
    Misfit {
        words: "make one 4096 00112233445566778899aabbccddeeff --unsigned x",
        at: 5,
    },
];

#[test]
fn words_of_a_make_are_named_by_place(rt: HostRuntime) {
    assert!(rt; are_told(rt.alloc(), OF_A_MAKE));
}

const OF_RANGES: &[Misfit] = &[
    Misfit {
        words: "ranges",
        at: 1,
    },
    Misfit {
        words: "ranges a/b 0 0 0",
        at: 1,
    },
    Misfit {
        words: "ranges f",
        at: 2,
    },
    Misfit {
        words: "ranges f x",
        at: 2,
    },
    Misfit {
        words: "ranges f 0",
        at: 3,
    },
    Misfit {
        words: "ranges f 0 4294967296 0",
        at: 3,
    },
    Misfit {
        words: "ranges f 0 1",
        at: 4,
    },
    Misfit {
        words: "ranges f 0 1 -1",
        at: 4,
    },
    Misfit {
        words: "ranges f 0 1 2 3",
        at: 5,
    },
];

#[test]
fn words_of_ranges_are_named_by_place(rt: HostRuntime) {
    assert!(rt; are_told(rt.alloc(), OF_RANGES));
}

const BEHIND_A_NAME: &[Misfit] = &[
    Misfit {
        words: "fill one two",
        at: 2,
    },
    Misfit {
        words: "read two 0 --rood 00",
        at: 3,
    },
    Misfit {
        words: "read two --unproved 0",
        at: 2,
    },
    Misfit {
        words: "read two 0 --unproved x",
        at: 4,
    },
    Misfit {
        words: "read two 0 --unproved --root 00",
        at: 4,
    },
    Misfit {
        words: "read two 0 --root",
        at: 4,
    },
    Misfit {
        words: "read two 0 --root ab",
        at: 4,
    },
    Misfit {
        words: "read two 0 --root df5a2b4e4a3bd0359c4de991ad79241ec12972b8f9f47292534ce79d107abb76 --unproved",
        at: 5,
    },
    Misfit {
        words: "check two --unproved",
        at: 2,
    },
    Misfit {
        words: "check two --root 0",
        at: 3,
    },
];

#[test]
fn words_behind_a_name_are_named_by_place(rt: HostRuntime) {
    assert!(rt; are_told(rt.alloc(), BEHIND_A_NAME));
}
