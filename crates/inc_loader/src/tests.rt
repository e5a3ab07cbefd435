ghost use Rattle.std.specs.Prelude.{◌≡◌};

use crate::{FakeLoader, Given, Loader, LoaderFile, LoaderTurn, PieceMark};
use inc_bytes::Id;
use inc_frame::{Piece, PieceList};
use inc_io::Bytes;
use inc_tree::Digest32;
use std::alloc::{AllocError, Global};
use std::process::Abort;
use std::test::Fail;

const ID: Id = [
    0x00, 0x11, 0x22, 0x33, 0x44, 0x55, 0x66, 0x77, 0x88, 0x99, 0xaa, 0xbb, 0xcc, 0xdd, 0xee, 0xff,
];

// fs-verity's root of the generated content of number 7 at 904 bytes, which is the digest of its one block.
pub(crate) const ROOT_OF_NUMBER_7_AT_904: Digest32 = [
    0xde, 0xe0, 0x2a, 0xba, 0x5f, 0x61, 0x4a, 0xf3, 0x3a, 0x16, 0x98, 0x89, 0x2b, 0xdb, 0x08, 0x9a,
    0x40, 0xdd, 0x7d, 0x2c, 0xf0, 0x39, 0x55, 0xa5, 0x0d, 0xbb, 0x81, 0xf8, 0x19, 0xf4, 0x3c, 0xae,
];

#[test]
fn a_mark_is_that_of_the_stored_block(rt: HostRuntime) -> Result<(), Fail> {
    // The content goes on after byte 904, which is the file's end.
    let piece = piece_of(rt.alloc(), false)?;
    let mark = PieceMark::of(&piece, &[file_of(904)]);
    assert_eq!(rt; mark.digest, ROOT_OF_NUMBER_7_AT_904);
    assert_eq!(rt; mark.len, 4096);
    // A hash block is whole, and so is a block that no file has.
    assert!(rt; PieceMark::of(&piece_of(rt.alloc(), true)?, &[file_of(904)]).digest != mark.digest);
    assert!(rt; PieceMark::of(&piece, &[]).digest != mark.digest);
    Ok(())
}

#[test]
fn a_loader_for_tests_gives_its_lists_one_by_one(rt: HostRuntime) -> Result<(), Fail> {
    let alloc = rt.alloc();
    let mut lists = Vec::new(alloc);
    lists.push(PieceList::of(alloc, &[piece_of(alloc, false)?])?)?;
    assert_eq!(rt; lists.len(), 1);
    assert_eq!(rt; lists[0].as_slice().len(), 1);
    let mut loader = FakeLoader::new(alloc, lists, vec![in alloc; 0; 1]?);
    match loader.prepare(&[file_of(904)]) {
        LoaderTurn::Fine => {}
        _ => panic!(&rt; "not prepared"),
    }
    assert!(rt; matches!(loader.give(), Given::Failed));
    assert_eq!(rt; given_count(loader.give()), 1);
    assert!(rt; matches!(loader.give(), Given::Done));
    Ok(())
}

fn given_count(given: Given) -> usize {
    match given {
        Given::Pieces(pieces) => pieces.as_slice().len(),
        _ => 0,
    }
}

fn file_of(size: u64) -> LoaderFile
    ensures { result.size ≡ size }
{
    LoaderFile {
        id: ID,
        size,
        root: ROOT_OF_NUMBER_7_AT_904,
    }
}

// Block 0 of the generated content of number 7, as a piece of this kind.
fn piece_of(alloc: Global, hash: bool) -> Result<Piece, AllocError> {
    let mut bytes = Vec::with_capacity(alloc, 4096)?;
    for at in 0..4096u32 {
        bytes.push(((7 + at) % 251) as u8)?;
    }
    Ok(Piece {
        id: ID,
        hash,
        number: 0,
        compression: 0,
        bytes: Bytes::from_vec(bytes),
    })
}
