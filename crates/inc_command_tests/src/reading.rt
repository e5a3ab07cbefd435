use crate::runs::says;
use inc_samples::{DATA_TURNED, HASH_TURNED, changed, content, one, two};
use std::alloc::{AllocError, Global};
use std::test::Fail;

/// Bytes of the file of 5000 bytes that are others, and what `read two 0` then says.
struct Change {
    places: &'static [(usize, u8)],
    says: &'static str,
}

/// Whether the file is refused by this word.
fn is_refused(alloc: Global, whole: &[u8], change: &Change) -> Result<bool, AllocError> {
    let file = changed(alloc, whole, change.places)?;
    let line = format!(in alloc; "refused two {}\n", change.says)?;
    Ok(says(alloc, file.as_slice(), "read two 0", 3, line.as_bytes()))
}

fn are_refused(alloc: Global, changes: &[Change]) -> Result<bool, AllocError> {
    let file = two(alloc)?;
    for change in changes {
        if !is_refused(alloc, file.as_slice(), change)? {
            return Ok(false);
        }
    }
    Ok(true)
}

/// Whether the block isn't shown, and this line says why.
fn is_held_back(alloc: Global, whole: &[u8], change: &Change) -> Result<bool, AllocError> {
    let file = changed(alloc, whole, change.places)?;
    let line = change.says.as_bytes();
    Ok(says(alloc, file.as_slice(), "read two 0", 4, line))
}

fn are_held_back(alloc: Global, changes: &[Change]) -> Result<bool, AllocError> {
    let file = two(alloc)?;
    for change in changes {
        if !is_held_back(alloc, file.as_slice(), change)? {
            return Ok(false);
        }
    }
    Ok(true)
}

/// Whether a read of this file prints this part of the content.
fn prints(alloc: Global, file: &[u8], words: &str, part: &[u8]) -> bool {
    says(alloc, file, words, 0, part)
}

/// Whether the file, of which these bytes are others and so many are there, shows its last block.
fn shows_last(
    alloc: Global,
    places: &[(usize, u8)],
    len: usize,
    words: &str,
) -> Result<bool, Fail> {
    let file = changed(alloc, two(alloc)?.as_slice(), places)?;
    let content = content(alloc)?;
    let part = content.as_slice().get(4096..).unwrap_or(&[]);
    let front = file.as_slice().get(..len).unwrap_or(&[]);
    Ok(part.len() == 904 && prints(alloc, front, words, part))
}

#[test]
fn a_block_is_printed_without_its_padding(rt: HostRuntime) -> Result<(), Fail> {
    assert!(rt; shows_first(rt.alloc())?);
    assert!(rt; shows_last(rt.alloc(), &[], 16384, "read two 01")?);
    // A last block may be stored by its own length.
    assert!(rt; shows_last(rt.alloc(), &[(266, 0x88), (267, 0x03)], 13192, "read two 1")?);
    // Another entry's class is no matter.
    let compressed = [(256, 0x84), (257, 3), (258, 1)];
    assert!(rt; shows_last(rt.alloc(), &compressed, 16384, "read two 1")?);
    assert!(rt;
        prints(
            rt.alloc(),
            one(rt.alloc())?.as_slice(),
            "read one 0",
            &[0; 4096]
        )
    );
    Ok(())
}

fn shows_first(alloc: Global) -> Result<bool, Fail> {
    let file = two(alloc)?;
    let content = content(alloc)?;
    let part = content.as_slice().get(..4096).unwrap_or(&[]);
    Ok(part.len() == 4096 && prints(alloc, file.as_slice(), "read two 0", part))
}

const OF_A_HEADER: &[Change] = &[
    Change {
        places: &[(0, 72)],
        says: "bad-magic",
    },
    Change {
        places: &[(8, 2)],
        says: "bad-version",
    },
    Change {
        places: &[(16, 57)],
        says: "bad-header-size",
    },
    Change {
        places: &[(19, 32)],
        says: "bad-block-size",
    },
    Change {
        places: &[(20, 1)],
        says: "bad-flags",
    },
    Change {
        places: &[(20, 2)],
        says: "bad-mapping",
    },
    Change {
        places: &[(20, 2), (24, 0)],
        says: "no-original",
    },
    Change {
        places: &[(36, 4)],
        says: "too-large",
    },
];

/// Whether the file's first 55 bytes are refused as too short.
fn short_is_refused(alloc: Global) -> Result<bool, AllocError> {
    let file = two(alloc)?;
    let short = file.as_slice().get(..55).unwrap_or(&[]);
    Ok(says(alloc, short, "read two 0", 3, b"refused two short\n"))
}

#[test]
fn each_fault_of_a_header_has_its_word(rt: HostRuntime) -> Result<(), Fail> {
    assert!(rt; short_is_refused(rt.alloc())?);
    assert!(rt; are_refused(rt.alloc(), OF_A_HEADER)?);
    Ok(())
}

const OF_A_CHAIN: &[Change] = &[
    Change {
        places: &[(25, 128)],
        says: "outside",
    },
    Change {
        places: &[(57, 36)],
        says: "bad-size",
    },
    Change {
        places: &[(91, 1), (92, 35)],
        says: "two-maps",
    },
    Change {
        places: &[(138, 3), (139, 47)],
        says: "two-signatures",
    },
    Change {
        places: &[(63, 57)],
        says: "not-rising",
    },
    Change {
        places: &[(56, 9)],
        says: "no-map",
    },
];

#[test]
fn each_fault_of_a_chain_has_its_word(rt: HostRuntime) -> Result<(), Fail> {
    assert!(rt; are_refused(rt.alloc(), OF_A_CHAIN)?);
    Ok(())
}

const OF_A_SIGNATURE: &[Change] = &[
    Change {
        places: &[(114, 161), (115, 31)],
        says: "signature-too-long",
    },
    Change {
        places: &[(120, 1)],
        says: "signature-outside",
    },
    Change {
        places: &[(114, 3)],
        says: "signature-short",
    },
    Change {
        places: &[(193, 3)],
        says: "signature-bad-version",
    },
    Change {
        places: &[(114, 58)],
        says: "signature-trailing",
    },
    Change {
        places: &[(201, 2)],
        says: "signature-bad-algorithm",
    },
    Change {
        places: &[(205, 13)],
        says: "signature-bad-block-size",
    },
    Change {
        places: &[(206, 1)],
        says: "signature-salted",
    },
    Change {
        places: &[(210, 31)],
        says: "signature-bad-root-size",
    },
];

#[test]
fn each_fault_of_a_signature_has_its_word(rt: HostRuntime) -> Result<(), Fail> {
    assert!(rt; are_refused(rt.alloc(), OF_A_SIGNATURE)?);
    Ok(())
}

const OF_MAP_AND_TREE: &[Change] = &[
    Change {
        places: &[(87, 4)],
        says: "map-count",
    },
    Change {
        places: &[(81, 1)],
        says: "map-outside",
    },
    Change {
        places: &[(126, 1)],
        says: "tree-size",
    },
    Change {
        places: &[(132, 1)],
        says: "tree-outside",
    },
    Change {
        places: &[(79, 240)],
        says: "overlap",
    },
    Change {
        places: &[(252, 1)],
        says: "place-past-end",
    },
];

#[test]
fn each_fault_of_map_and_tree_has_its_word(rt: HostRuntime) -> Result<(), Fail> {
    assert!(rt; are_refused(rt.alloc(), OF_MAP_AND_TREE)?);
    Ok(())
}

const OF_A_BLOCK: &[Change] = &[
    Change {
        places: &[(251, 0)],
        says: "block 0 damaged\n",
    },
    Change {
        places: &[(256, 132), (257, 3), (258, 1)],
        says: "block 0 compressed\n",
    },
    Change {
        places: &[(257, 0)],
        says: "block 0 absent\n",
    },
    Change {
        places: &[(257, 5)],
        says: "block 0 absent\n",
    },
    Change {
        places: &[(277, 0)],
        says: "block 0 path-absent 0\n",
    },
    Change {
        places: &[(8192, 0x06)],
        says: DATA_TURNED,
    },
    Change {
        places: &[(4128, 0x37)],
        says: HASH_TURNED,
    },
];

#[test]
fn each_reason_of_a_block_has_its_words(rt: HostRuntime) -> Result<(), Fail> {
    assert!(rt; are_held_back(rt.alloc(), OF_A_BLOCK)?);
    let file = two(rt.alloc())?;
    let line = b"block 2 out-of-range\n";
    assert!(rt; says(rt.alloc(), file.as_slice(), "read two 2", 4, line));
    Ok(())
}
