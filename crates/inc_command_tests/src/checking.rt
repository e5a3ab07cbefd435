use crate::runs::says;
use inc_samples::{DATA_TURNED, changed, content, empty, one, two};
use std::alloc::{AllocError, Global};
use std::test::Fail;

#[test]
fn a_file_without_content_has_no_block(rt: HostRuntime) -> Result<(), Fail> {
    let none = empty(rt.alloc())?;
    let file = none.as_slice();
    assert!(rt; says(rt.alloc(), file, "check nil", 0, b"checked ok 0 of 0\n"));
    assert!(rt; says(rt.alloc(), file, "read nil 0", 4, b"block 0 out-of-range\n"));
    Ok(())
}

/// Whether a check of the file of 5000 bytes, in which this byte is another, says this.
fn checks(alloc: Global, place: (usize, u8), text: &[u8]) -> Result<bool, AllocError> {
    let file = changed(alloc, two(alloc)?.as_slice(), &[place])?;
    Ok(says(alloc, file.as_slice(), "check two", 4, text))
}

#[test]
fn a_check_names_each_bad_block(rt: HostRuntime) -> Result<(), Fail> {
    let lines = b"block 1 absent\nchecked ok 1 of 2\n";
    assert!(rt; checks(rt.alloc(), (267, 0), lines)?);
    let lines = format!(in rt.alloc(); "{DATA_TURNED}checked ok 1 of 2\n")?;
    assert!(rt; checks(rt.alloc(), (8192, 0x06), lines.as_bytes())?);
    Ok(())
}

#[test]
fn an_inspection_has_seven_lines(rt: HostRuntime) -> Result<(), Fail> {
    let lines = concat!(
        "plain size 4096 id 00112233445566778899aabbccddeeff\n",
        "map at 250 count 1\n",
        "signature at 193 size 57\n",
        "root ad7facb2586fc6e966c004d7d1d16b024f5805ff7cb47c7a85dabd8b48892ca7\n",
        "tree at 0 blocks 0\n",
        "filled data 1 of 1 hash 0 of 0\n",
        "damaged 0 compressed 0\n"
    );
    let file = one(rt.alloc())?;
    assert!(rt;
        says(
            rt.alloc(),
            file.as_slice(),
            "inspect one",
            0,
            lines.as_bytes()
        )
    );
    Ok(())
}

/// Whether this command over the file of 5000 bytes prints its last block.
fn prints_last(alloc: Global, words: &str) -> Result<bool, AllocError> {
    let file = two(alloc)?;
    let content = content(alloc)?;
    let last = content.as_slice().get(4096..).unwrap_or(&[]);
    Ok(last.len() == 904 && says(alloc, file.as_slice(), words, 0, last))
}

#[test]
fn a_root_from_outside_has_to_be_the_files(rt: HostRuntime) -> Result<(), Fail> {
    let same = "read two 1 --root df5a2b4e4a3bd0359c4de991ad79241ec12972b8f9f47292534ce79d107abb76";
    assert!(rt; prints_last(rt.alloc(), same)?);
    let high = "read two 1 --root DF5A2B4E4A3BD0359C4DE991AD79241EC12972B8F9F47292534CE79D107ABB76";
    assert!(rt; prints_last(rt.alloc(), high)?);
    Ok(())
}

#[test]
fn a_file_of_another_root_is_refused(rt: HostRuntime) -> Result<(), Fail> {
    let file = two(rt.alloc())?;
    let refused = b"refused two root-differs\n";
    let other =
        "read two 9 --root df5a2b4e4a3bd0359c4de991ad79241ec12972b8f9f47292534ce79d107abb70";
    assert!(rt; says(rt.alloc(), file.as_slice(), other, 3, refused));
    let other = "check two --root af5a2b4e4a3bd0359c4de991ad79241ec12972b8f9f47292534ce79d107abb76";
    assert!(rt; says(rt.alloc(), file.as_slice(), other, 3, refused));
    Ok(())
}

#[test]
fn a_check_counts_the_good_blocks(rt: HostRuntime) -> Result<(), Fail> {
    let file = two(rt.alloc())?;
    let all = b"checked ok 2 of 2\n";
    assert!(rt; says(rt.alloc(), file.as_slice(), "check two", 0, all));
    let same = "check two --root df5a2b4e4a3bd0359c4de991ad79241ec12972b8f9f47292534ce79d107abb76";
    assert!(rt; says(rt.alloc(), file.as_slice(), same, 0, all));
    Ok(())
}
