use inc_script::{OutOfMemory, ReaderLine, Script, ScriptFault, TimesLine, parse_script};
use std::alloc::Global;
use std::test::Fail;

/// The fault of a text that is no script.
fn fault_of(alloc: Global, text: &[u8]) -> Option<ScriptFault> {
    parse_script(alloc, text).err()
}

/// A text, and the line that is the first of none of the forms, or none.
struct Text {
    text: &'static [u8],
    bad: Option<u32>,
}

/// Whether each of them is refused by this line, or is a script.
fn are_judged(alloc: Global, texts: &[Text]) -> bool {
    for text in texts {
        let fault = text.bad.map(|line| ScriptFault::BadLine { line });
        if fault_of(alloc, text.text) != fault {
            return false;
        }
    }
    true
}

const IN_ORDER: &[Text] = &[
    Text {
        text: b"reader 1 one 3-2\nend\n",
        bad: Some(1),
    },
    Text {
        text: b"end\nreader 1 one 0\n",
        bad: Some(2),
    },
];

#[test]
fn the_first_fault_is_named_with_its_line(rt: HostRuntime) {
    let no_end = Some(ScriptFault::NoEnd { line: 2 });
    assert!(rt; are_judged(rt.alloc(), IN_ORDER));
    assert!(rt; fault_of(rt.alloc(), b"reader 1 one 0\n") == no_end);
    assert!(rt; fault_of(rt.alloc(), b"reader 1 one 0") == no_end);
    assert!(rt; fault_of(rt.alloc(), b"") == Some(ScriptFault::NoEnd { line: 1 }));
}

/// The fault of a text of so many such lines and then one more.
fn fault_of_many(
    alloc: Global,
    line: &[u8],
    count: usize,
    last: &[u8],
) -> Result<Option<ScriptFault>, OutOfMemory> {
    let mut text = Vec::new(alloc);
    for _ in 0..count {
        text.extend_from_slice(line)?;
    }
    text.extend_from_slice(last)?;
    Ok(fault_of(alloc, text.as_slice()))
}

fn many(line: u32) -> Option<ScriptFault> {
    Some(ScriptFault::TooMany { line })
}

#[test]
fn a_script_has_at_most_64_readers_and_256_times(rt: HostRuntime) -> Result<(), Fail> {
    let reader = b"reader 1 one 0\n";
    let times = b"timeouts one 1 0 0 9\n";
    assert!(rt; fault_of_many(rt.alloc(), reader, 64, b"end")?.is_none());
    assert!(rt; fault_of_many(rt.alloc(), reader, 65, b"end")? == many(65));
    assert!(rt; fault_of_many(rt.alloc(), times, 256, b"end")?.is_none());
    assert!(rt; fault_of_many(rt.alloc(), times, 257, b"end")? == many(257));
    Ok(())
}

#[test]
fn a_line_of_no_form_comes_before_one_too_many(rt: HostRuntime) -> Result<(), Fail> {
    let reader = b"reader 1 one 0\n";
    let bad = Some(ScriptFault::BadLine { line: 65 });
    assert!(rt; fault_of_many(rt.alloc(), reader, 64, b"reader 1 one 3-2\n")? == bad);
    assert!(rt; fault_of_many(rt.alloc(), reader, 65, b"reader\n")? == many(65));
    Ok(())
}

#[test]
fn a_script_makes_at_most_2_to_the_18_reads(rt: HostRuntime) {
    let most = b"reader 1 one 0-262143\nend\n";
    assert!(rt; fault_of(rt.alloc(), most).is_none());
    assert!(rt; fault_of(rt.alloc(), b"reader 1 one 0-262144\nend\n") == many(1));
    assert!(rt; fault_of(rt.alloc(), b"reader 1 one 7 1-262143 0\nend\n") == many(1));
    let over_two = b"#\nreader 1 one 0-262143\nreader 2 one 4294967295\nend\n";
    assert!(rt; fault_of(rt.alloc(), over_two) == many(3));
}

#[test]
fn a_script_has_at_most_2_to_the_20_bytes(rt: HostRuntime) -> Result<(), Fail> {
    let eight = b"\n\n\n\n\n\n\n\n";
    let no_end = Some(ScriptFault::NoEnd { line: 1048577 });
    let too_long = Some(ScriptFault::TooLong);
    assert!(rt; fault_of_many(rt.alloc(), eight, 1 << 17, b"")? == no_end);
    assert!(rt; fault_of_many(rt.alloc(), eight, 1 << 17, b"\n")? == too_long);
    Ok(())
}

const WITHOUT_A_FORM: &[Text] = &[
    Text {
        text: b"\n# reader\n#\n\nend\n\n#end\n",
        bad: None,
    },
    Text {
        text: b"end\n\n#\nend",
        bad: Some(4),
    },
    Text {
        text: b" # no comment\nend\n",
        bad: Some(1),
    },
    Text {
        text: b"  \nend\n",
        bad: Some(1),
    },
];

#[test]
fn what_says_nothing_is_passed_over(rt: HostRuntime) {
    assert!(rt; are_judged(rt.alloc(), WITHOUT_A_FORM));
}

const SPACED: &[Text] = &[
    Text {
        text: b"reader   1 one  0     1-2\nend",
        bad: None,
    },
    Text {
        text: b" reader 1 one 0\nend",
        bad: Some(1),
    },
    Text {
        text: b"reader 1 one 0 \nend",
        bad: Some(1),
    },
    Text {
        text: b"reader\t1 one 0\nend",
        bad: Some(1),
    },
    Text {
        text: b"reader 1 one 0\r\nend",
        bad: Some(1),
    },
    Text {
        text: b"end ",
        bad: Some(1),
    },
];

#[test]
fn fields_stand_between_spaces(rt: HostRuntime) {
    assert!(rt; are_judged(rt.alloc(), SPACED));
}

const READERS: &[Text] = &[
    Text {
        text: b"reader 1 one\nend",
        bad: Some(1),
    },
    Text {
        text: b"reader 1 a/b 0\nend",
        bad: Some(1),
    },
    Text {
        text: b"reader 4294967296 one 0\nend",
        bad: Some(1),
    },
    Text {
        text: b"reader 1 one 4294967296\nend",
        bad: Some(1),
    },
    Text {
        text: b"reader 1 one 0-\nend",
        bad: Some(1),
    },
    Text {
        text: b"reader 1 one -0\nend",
        bad: Some(1),
    },
    Text {
        text: b"reader 1 one 0-1-2\nend",
        bad: Some(1),
    },
    Text {
        text: b"reader 1 one +0\nend",
        bad: Some(1),
    },
];

#[test]
fn a_reader_has_a_number_a_name_and_blocks(rt: HostRuntime) {
    assert!(rt; are_judged(rt.alloc(), READERS));
}

const TIMES: &[Text] = &[
    Text {
        text: b"timeouts one 1 0 0 18446744073709551615\nend",
        bad: None,
    },
    Text {
        text: b"timeouts one 1 0 0 18446744073709551616\nend",
        bad: Some(1),
    },
    Text {
        text: b"timeouts one 1 0 0\nend",
        bad: Some(1),
    },
    Text {
        text: b"timeouts one 1 0 0 0 0\nend",
        bad: Some(1),
    },
    Text {
        text: b"timeouts 1 one 0 0 0\nend",
        bad: Some(1),
    },
];

#[test]
fn a_timeouts_line_has_three_times(rt: HostRuntime) {
    assert!(rt; are_judged(rt.alloc(), TIMES));
}

/// Whether the line is of file one and user 7, with these three times.
fn has_times(line: &TimesLine, first: u64, second: u64, third: u64) -> bool {
    let is_named = line.name.as_str() == "one" && line.uid == 7;
    let times = line.times;
    is_named
        && times.least_read == first
        && times.least_pending == second
        && times.most_pending == third
}

/// Whether the line is of this user and file, with these spans.
fn has_reads(line: &ReaderLine, uid: u32, name: &str, blocks: &[(u32, u32)]) -> bool {
    line.uid == uid && line.name.as_str() == name && line.blocks.as_slice() == blocks
}

fn is_in_order(script: &Script) -> bool {
    let ([times], [first, second]) = (script.times.as_slice(), script.readers.as_slice()) else {
        return false;
    };
    has_times(times, 10, 20, 30)
        && has_reads(first, 7, "one", &[(5, 5), (0, 2)])
        && has_reads(second, 8, "two", &[(4, 4)])
}

#[test]
fn a_script_is_read_in_its_order(rt: HostRuntime) {
    let text = b"# two users\ntimeouts one 7 10 20 0030\nreader 7 one 5 0-2\nreader 8 two 4\nend";
    assert!(rt; parse_script(rt.alloc(), text).is_ok_and(|script| is_in_order(&script)));
}
