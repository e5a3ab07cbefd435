use inc_cell::{Answer, CellReply, Digested, NumberList};
use inc_cell_samples::files::{FIRST_DIGEST, SECOND_DIGEST, content, fresh_cell};
use inc_cell_samples::steps::{Cell, ONE};
use inc_fill::padded;
use inc_model::{FillError, Reply};
use inc_tree::{Block, Digest32};
use std::alloc::Global;
use std::test::Fail;

/// The SHA-256 of 4096 zeros.
const ZEROS_DIGEST: Digest32 = [
    0xad, 0x7f, 0xac, 0xb2, 0x58, 0x6f, 0xc6, 0xe9, 0x66, 0xc0, 0x04, 0xd7, 0xd1, 0xd1, 0x6b, 0x02,
    0x4f, 0x58, 0x05, 0xff, 0x7c, 0xb4, 0x7c, 0x7a, 0x85, 0xda, 0xbd, 0x8b, 0x48, 0x89, 0x2c, 0xa7,
];

/// The content's two blocks, the second with other bytes behind its own, and the first one twice more.
fn unclean_blocks(alloc: Global) -> Result<Vec<Block>, Fail> {
    let content = content(alloc)?;
    let (first, second) = content.as_slice().split_at(content.len().min(4096));
    let mut last = second.to_vec(alloc)?;
    last.resize(4096, 9u8)?;
    let mut blocks = Vec::new(alloc);
    for bytes in [first, last.as_slice(), first, first, first] {
        blocks.push(padded(alloc, bytes, 4096)?)?;
    }
    Ok(blocks)
}

fn digests_of_group(alloc: Global) -> Result<Vec<Digest32>, Fail> {
    let blocks = unclean_blocks(alloc)?;
    let lens = [4096, 904, 0, 4096, 0];
    if blocks.len() != lens.len() {
        return Err("five blocks".into());
    }
    let group = Digested::group(alloc, blocks, &lens)?;
    let mut digests = Vec::new(alloc);
    for block in group.as_slice() {
        digests.push(block.digest())?;
    }
    Ok(digests)
}

#[test]
fn a_group_is_hashed_by_what_counts_of_each_block(rt: HostRuntime) -> Result<(), Fail> {
    let digests = digests_of_group(rt.alloc())?;
    let wanted = [
        FIRST_DIGEST,
        SECOND_DIGEST,
        ZEROS_DIGEST,
        FIRST_DIGEST,
        ZEROS_DIGEST,
    ];
    assert!(rt; digests.as_slice() == wanted.as_slice());
    Ok(())
}

/// The digest with which a block is put that was hashed as one of so many bytes.
fn digest_put(alloc: Global, cell: &mut Cell, len: u32) -> Result<Option<Digest32>, Fail> {
    let mut bytes = content(alloc)?;
    bytes.as_mut_slice().reverse();
    bytes.truncate(904);
    bytes.as_mut_slice().reverse();
    let block = padded(alloc, bytes.as_slice(), 904)?;
    let block = Digested::of(block, len.min(4096));
    let Answer { reply, .. } = cell.put_digested(ONE.who, ONE, 1, &block);
    match reply {
        CellReply::Done(Reply::Put { digest, .. }) => Ok(Some(digest)),
        _ => Ok(None),
    }
}

#[test]
fn a_hashed_block_is_put_by_what_counts_in_its_file(rt: HostRuntime) -> Result<(), Fail> {
    for len in [904, 4096] {
        let mut cell = fresh_cell(rt.alloc())?;
        assert_eq!(rt;
            digest_put(rt.alloc(), &mut cell, len)?,
            Some(SECOND_DIGEST)
        );
    }
    Ok(())
}

/// The answers to pieces that are good, of no block of either kind, compressed, and of a wrong length.
fn checks(cell: &Cell) -> [Result<(), FillError>; 7] {
    [
        cell.piece_check(false, 1, 0, 904),
        cell.piece_check(false, 1, 0, 4096),
        cell.piece_check(true, 0, 0, 4096),
        cell.piece_check(true, 1, 1, 4096),
        cell.piece_check(false, 2, 0, 904),
        cell.piece_check(false, 0, 1, 904),
        cell.piece_check(false, 0, 0, 904),
    ]
}

#[test]
fn a_piece_is_refused_by_its_words(rt: HostRuntime) -> Result<(), Fail> {
    let checks = checks(&fresh_cell(rt.alloc())?);
    let past = Err(FillError::OutOfRange { piece: 0 });
    let compressed = Err(FillError::Compressed { piece: 0 });
    let length = Err(FillError::BadLength { piece: 0 });
    assert_eq!(rt;
        checks,
        [Ok(()), Ok(()), Ok(()), past, past, compressed, length]
    );
    Ok(())
}

fn is_kept(numbers: &[u32]) -> bool {
    match NumberList::of(numbers) {
        Some(list) => list.as_slice() == numbers,
        None => false,
    }
}

#[test]
fn a_list_keeps_four_numbers_and_no_more(rt: HostRuntime) {
    assert!(rt; is_kept(&[]) && is_kept(&[3, 1, 4, 1]));
    assert!(rt; NumberList::of(&[3, 1, 4, 1, 5]).is_none());
}
