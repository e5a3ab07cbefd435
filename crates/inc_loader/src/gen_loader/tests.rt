// The contents are those of fs-verity's tools' trees: their roots are the digests of the first hash blocks.
ghost use Rattle.std.specs.Prelude.{◌≡◌, ◌≤◌, IfOk, IsSome, All};
ghost use Rattle.inc_loader.specs.Turns.{IsFreshLoader, Prepares};
ghost use Rattle.inc_loader.specs.declared.loader_file.LoaderFile.{LoaderFile};
ghost use Rattle.inc_tree.specs.shape.Limits.{most_size};

use super::GenLoader;
use crate::tests::ROOT_OF_NUMBER_7_AT_904;
use crate::{Given, Loader, LoaderFile, LoaderTurn, PieceMark};
use inc_tree::Digest32;
use std::alloc::{AllocError, Global};
use std::process::Abort;
use std::test::Fail;

const ROOT_OF_NUMBER_7_AT_5000: Digest32 = [
    0xdf, 0x5a, 0x2b, 0x4e, 0x4a, 0x3b, 0xd0, 0x35, 0x9c, 0x4d, 0xe9, 0x91, 0xad, 0x79, 0x24, 0x1e,
    0xc1, 0x29, 0x72, 0xb8, 0xf9, 0xf4, 0x72, 0x92, 0x53, 0x4c, 0xe7, 0x9d, 0x10, 0x7a, 0xbb, 0x76,
];

const ROOT_OF_NUMBER_5_AT_528384: Digest32 = [
    0x68, 0xbb, 0x3c, 0x16, 0xb8, 0xdf, 0x41, 0x0d, 0xc2, 0xff, 0xf2, 0x0f, 0x72, 0xe1, 0x6a, 0x02,
    0x64, 0xfb, 0xb9, 0x11, 0x5a, 0xd3, 0xcd, 0xf7, 0x1e, 0x9c, 0xdb, 0x81, 0xdd, 0x76, 0x55, 0x89,
];

#[test]
fn all_blocks_of_each_file_come_in_order(rt: HostRuntime) -> Result<(), Fail> {
    // The empty file between the two has no piece.
    let files = [file_of(1, 5000), file_of(2, 0), file_of(3, 904)];
    let mut loader = loader_for(rt.alloc(), 7, &files)?;
    let given = [
        gives_a_piece(&mut loader),
        gives_a_piece(&mut loader),
        gives_a_piece(&mut loader),
        gives_a_piece(&mut loader),
    ];
    assert_eq!(rt; given, [true; 4]);
    assert!(rt; matches!(loader.give(), Given::Done));
    let marks = loader.held.given.as_slice();
    assert_eq!(rt; marks.len(), 4);
    expect_mark(&rt, &marks[0], 1, true, 0, 4096);
    expect_mark(&rt, &marks[1], 1, false, 0, 4096);
    expect_mark(&rt, &marks[2], 1, false, 1, 904);
    expect_mark(&rt, &marks[3], 3, false, 0, 904);
    assert_eq!(rt; marks[0].digest, ROOT_OF_NUMBER_7_AT_5000);
    assert_eq!(rt; marks[3].digest, ROOT_OF_NUMBER_7_AT_904);
    Ok(())
}

#[test]
fn the_top_hash_block_comes_first(rt: HostRuntime) -> Result<(), Fail> {
    let mut loader = loader_for(rt.alloc(), 5, &[file_of(1, 528384)])?;
    assert!(rt; matches!(loader.give(), Given::Pieces(_)));
    let marks = loader.held.given.as_slice();
    assert_eq!(rt; marks.len(), 1);
    assert_eq!(rt; marks[0].digest, ROOT_OF_NUMBER_5_AT_528384);
    Ok(())
}

#[test]
fn a_loader_is_one_in_a_box_too(rt: HostRuntime) -> Result<(), Fail> {
    let alloc = rt.alloc();
    let mut loader: Box<dyn Loader + Send> = Box::new(alloc, GenLoader::new(alloc, 7))?;
    assert!(rt;
        matches!(
            prepare_fresh(&mut loader, &[file_of(1, 904)]),
            LoaderTurn::Fine
        )
    );
    assert!(rt; matches!(loader.give(), Given::Pieces(_)));
    assert!(rt; matches!(loader.stop(), LoaderTurn::Fine));
    Ok(())
}

// What a driver of loaders asks of each that it is lent.
fn prepare_fresh(loader: &mut Box<dyn Loader + Send>, files: &[LoaderFile]) -> LoaderTurn
    requires fresh { IsFreshLoader (prepared loader.old) (told loader.old) (given loader.old) (refused loader.old)
        (ended loader.old) (stopped loader.old) }
    requires sized { All (λ (file : LoaderFile). file.size ≤ most_size) files.now }
    ensures { Prepares files.now result (prepared loader.old) (prepared loader.new) }
{
    loader.prepare(files)
}

fn gives_a_piece(loader: &mut GenLoader) -> bool
    requires { IsSome loader.old.held.files }
    ensures { loader.new.held.files ≡ loader.old.held.files }
{
    matches!(loader.give(), Given::Pieces(_))
}

fn expect_mark(rt: &impl Abort, mark: &PieceMark, file: u8, hash: bool, number: u32, len: u64) {
    assert_eq!(rt; mark.id, [file; 16]);
    assert_eq!(rt; (mark.hash, mark.number, mark.len), (hash, number, len));
}

fn file_of(id: u8, size: u64) -> LoaderFile
    ensures { result.size ≡ size }
{
    LoaderFile {
        id: [id; 16],
        size,
        root: [0; 32],
    }
}

fn loader_for(alloc: Global, number: u64, files: &[LoaderFile]) -> Result<GenLoader, AllocError>
    requires { All (λ (file : LoaderFile). file.size ≤ most_size) files.now }
    ensures { IfOk result (λ loader. IsSome loader.held.files) }
{
    let mut loader = GenLoader::new(alloc, number);
    match loader.prepare(files) {
        LoaderTurn::Fine => Ok(loader),
        _ => Err(AllocError),
    }
}
