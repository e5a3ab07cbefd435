use crate::runs::{Run, WELL, over_shelf};
use inc_samples::{blob_of_one, blob_of_two, one_fresh, two_fresh};
use std::alloc::{AllocError, Global};
use std::test::Fail;

const ONE: &str = "make one 4096 00112233445566778899aabbccddeeff";

/// What a make over an empty shelf leaves, where it ends well and says this line.
fn made(
    alloc: Global,
    words: &str,
    blob: &[u8],
    line: &[u8],
) -> Result<Option<Vec<u8>>, AllocError> {
    let Run { status, text, file } = over_shelf(alloc, words, None, blob, WELL)?;
    let is_well = status == 0 && text.as_slice() == line;
    Ok(if is_well { file } else { None })
}

/// Whether it leaves this file.
fn makes(
    alloc: Global,
    words: &str,
    blob: &[u8],
    line: &[u8],
    wanted: &[u8],
) -> Result<bool, AllocError> {
    match made(alloc, words, blob, line)? {
        Some(file) => Ok(file.as_slice() == wanted),
        None => Ok(false),
    }
}

/// The file of 4096 bytes.
fn makes_one(alloc: Global) -> Result<bool, AllocError> {
    let wanted = one_fresh(alloc)?;
    let blob = blob_of_one(alloc)?;
    let line = b"made one data 1 hash 0 length 260\n";
    makes(alloc, ONE, blob.as_slice(), line, wanted.as_slice())
}

/// The file of 5000 bytes.
fn makes_two(alloc: Global) -> Result<bool, AllocError> {
    let wanted = two_fresh(alloc)?;
    let words = "make two 5000 {00112233-4455-6677-8899-AABBCCDDEEFF}";
    let line = b"made two data 2 hash 1 length 8192\n";
    makes(alloc, words, blob_of_two(), line, wanted.as_slice())
}

/// How long a file without content is.
fn empty_len(alloc: Global) -> Result<Option<usize>, AllocError> {
    let blob = blob_of_one(alloc)?;
    let words = "make nil 0 urn:uuid:00112233-4455-6677-8899-aabbccddeeff";
    let line = b"made nil data 0 hash 0 length 250\n";
    Ok(made(alloc, words, blob.as_slice(), line)?.map(|file| file.len()))
}

#[test]
fn a_file_is_made_as_the_outside_program_makes_it(rt: HostRuntime) -> Result<(), Fail> {
    assert!(rt; makes_one(rt.alloc())?);
    assert!(rt; makes_two(rt.alloc())?);
    assert_eq!(rt; empty_len(rt.alloc())?, Some(250));
    Ok(())
}

/// Whether the file that a run left is the one from before it.
fn stays(before: Option<&[u8]>, after: &Option<Vec<u8>>) -> bool {
    match (before, after) {
        (None, None) => true,
        (Some(before), Some(after)) => before == after.as_slice(),
        _ => false,
    }
}

/// Whether a make is refused by this word, and leaves what was there.
fn refuses(
    alloc: Global,
    words: &str,
    file: Option<&[u8]>,
    blob: &[u8],
    word: &str,
) -> Result<bool, AllocError> {
    let line = format!(in alloc; "refused one {word}\n")?;
    let run = over_shelf(alloc, words, file, blob, WELL)?;
    let is_line = run.text.as_slice() == line.as_bytes();
    Ok(run.status == 3 && is_line && stays(file, &run.file))
}

/// The blob of the file of 5000 bytes with zeros behind it, up to this length.
fn long_blob(alloc: Global, len: usize) -> Result<Vec<u8>, AllocError> {
    let mut blob = blob_of_two().to_vec(alloc)?;
    blob.resize(len, 0)?;
    Ok(blob)
}

/// Whether a make with such a blob is refused by this word.
fn refuses_long(alloc: Global, words: &str, len: usize, word: &str) -> Result<bool, AllocError> {
    let blob = long_blob(alloc, len)?;
    refuses(alloc, words, None, blob.as_slice(), word)
}

#[test]
fn a_make_judges_blob_and_size_and_then_the_name(rt: HostRuntime) -> Result<(), Fail> {
    let large = "make one 17179869185 00112233445566778899aabbccddeeff";
    let blob = blob_of_two();
    assert!(rt; refuses(rt.alloc(), large, Some(b"here"), blob, "too-large")?);
    assert!(rt; refuses(rt.alloc(), ONE, Some(b"here"), blob, "exists")?);
    assert!(rt; refuses(rt.alloc(), ONE, None, &[], "signature-short")?);
    assert!(rt; refuses_long(rt.alloc(), large, 58, "signature-trailing")?);
    assert!(rt; refuses_long(rt.alloc(), ONE, 8096, "signature-trailing")?);
    assert!(rt; refuses_long(rt.alloc(), ONE, 8097, "signature-too-long")?);
    Ok(())
}
