use crate::runs::{Run, WELL, over_shelf, says};
use inc_samples::{changed, content, two, with_blocks};
use std::alloc::{AllocError, Global};
use std::test::Fail;

/// A new unsigned file of 5000 bytes, where its make says this line.
fn fresh(alloc: Global) -> Result<Option<Vec<u8>>, AllocError> {
    let words = "make raw 5000 00112233445566778899aabbccddeeff --unsigned";
    let Run { status, text, file } = over_shelf(alloc, words, None, b"not looked at", WELL)?;
    let is_line = text.as_slice() == b"made raw data 2 hash 0 length 166\n".as_slice();
    Ok(if status == 0 && is_line { file } else { None })
}

fn says_of_fresh(alloc: Global, words: &str, text: &[u8]) -> Result<bool, AllocError> {
    match fresh(alloc)? {
        Some(file) => Ok(file.len() == 166 && says(alloc, file.as_slice(), words, 4, text)),
        None => Ok(false),
    }
}

/// Whether the file once its blocks have come says this.
fn says_of_filled(alloc: Global, words: &str, status: u8, text: &[u8]) -> Result<bool, AllocError> {
    let Some(fresh) = fresh(alloc)? else {
        return Ok(false);
    };
    let file = with_blocks(alloc, fresh.as_slice())?;
    Ok(says(alloc, file.as_slice(), words, status, text))
}

/// Whether it prints its last block.
fn prints_last(alloc: Global, words: &str) -> Result<bool, AllocError> {
    let content = content(alloc)?;
    let last = content.as_slice().get(4096..).unwrap_or(&[]);
    Ok(last.len() == 904 && says_of_filled(alloc, words, 0, last)?)
}

#[test]
fn a_block_of_an_unsigned_file_is_shown_to_who_takes_it_unproved(
    rt: HostRuntime,
) -> Result<(), Fail> {
    assert!(rt; prints_last(rt.alloc(), "read raw 1 --unproved")?);
    let none = b"block 5 out-of-range\n";
    assert!(rt; says_of_filled(rt.alloc(), "read raw 5 --unproved", 4, none)?);
    let absent = b"block 0 absent\n";
    assert!(rt; says_of_fresh(rt.alloc(), "read raw 0 --unproved", absent)?);
    Ok(())
}

fn is_refused(alloc: Global, words: &str) -> Result<bool, AllocError> {
    says_of_filled(alloc, words, 3, b"refused raw unsigned\n")
}

#[test]
fn an_unsigned_file_is_refused_to_who_asks_for_a_proof(rt: HostRuntime) -> Result<(), Fail> {
    assert!(rt; is_refused(rt.alloc(), "read raw 1")?);
    assert!(rt; is_refused(rt.alloc(), "read raw 5")?);
    assert!(rt; is_refused(rt.alloc(), "check raw")?);
    let words =
        "read raw 1 --root df5a2b4e4a3bd0359c4de991ad79241ec12972b8f9f47292534ce79d107abb76";
    assert!(rt; is_refused(rt.alloc(), words)?);
    Ok(())
}

#[test]
fn an_inspection_of_an_unsigned_file_has_no_root(rt: HostRuntime) -> Result<(), Fail> {
    let lines = concat!(
        "plain size 5000 id 00112233445566778899aabbccddeeff\n",
        "map at 146 count 2\n",
        "signature none\n",
        "root none\n",
        "tree at 0 blocks 0\n",
        "filled data 2 of 2 hash 0 of 0\n",
        "damaged 0 compressed 0\n"
    );
    assert!(rt; says_of_filled(rt.alloc(), "inspect raw", 0, lines.as_bytes())?);
    Ok(())
}

/// Whether a read says this of the file of 5000 bytes in which these bytes are others.
fn says_of_two(
    alloc: Global,
    places: &[(usize, u8)],
    words: &str,
    status: u8,
    text: &[u8],
) -> Result<bool, AllocError> {
    let file = changed(alloc, two(alloc)?.as_slice(), places)?;
    Ok(says(alloc, file.as_slice(), words, status, text))
}

fn refuses(alloc: Global, places: &[(usize, u8)], line: &[u8]) -> Result<bool, AllocError> {
    says_of_two(alloc, places, "read two 0 --unproved", 3, line)
}

/// A signed file whose signature record is of an unknown type is an unsigned one, and its map has entries of hash blocks too many.
#[test]
fn an_unsigned_file_is_judged_as_any_other(rt: HostRuntime) -> Result<(), Fail> {
    let count = b"refused two map-count\n";
    assert!(rt; refuses(rt.alloc(), &[(91, 9)], count)?);
    let no_map = b"refused two no-map\n";
    assert!(rt; refuses(rt.alloc(), &[(91, 9), (56, 9)], no_map)?);
    let outside = b"refused two map-outside\n";
    assert!(rt; refuses(rt.alloc(), &[(91, 9), (87, 2), (81, 1)], outside)?);
    Ok(())
}

/// Whether a read of the last block, taken unproved, shows it.
fn shows_last(alloc: Global, places: &[(usize, u8)]) -> Result<bool, AllocError> {
    let content = content(alloc)?;
    let last = content.as_slice().get(4096..).unwrap_or(&[]);
    Ok(says_of_two(alloc, places, "read two 1 --unproved", 0, last)? && last.len() == 904)
}

#[test]
fn on_a_signed_file_the_word_unproved_changes_nothing(rt: HostRuntime) -> Result<(), Fail> {
    assert!(rt; shows_last(rt.alloc(), &[])?);
    let line = b"block 0 path-absent 0\n";
    assert!(rt; says_of_two(rt.alloc(), &[(277, 0)], "read two 0 --unproved", 4, line)?);
    // Without a signature the tree's bytes are no part of the file.
    assert!(rt; shows_last(rt.alloc(), &[(91, 9), (87, 2)])?);
    Ok(())
}
