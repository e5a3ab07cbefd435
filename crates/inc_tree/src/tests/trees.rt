// The roots and hash areas are those that fs-verity's tools give for the generated contents.
ghost use Rattle.std.specs.Prelude.{◌<◌, ◌≤◌, ◌*◌};

use super::{ROOT_OF_NUMBER_5_AT_528384, ROOT_OF_NUMBER_7_AT_5000, ZEROS_DIGEST, generated};
use crate::digest::digest_whole;
use crate::{Digest32, Path, Tree, build, check_path, collision};
use std::alloc::{AllocError, Global};
use std::process::Abort;
use std::test::Fail;

const AREA_OF_NUMBER_5_AT_528384: Digest32 = [
    0x09, 0x22, 0xc4, 0x2d, 0x5e, 0x38, 0x83, 0xd5, 0xa9, 0x9d, 0x3c, 0x0f, 0xef, 0xc0, 0x99, 0xcf,
    0x84, 0xa0, 0x10, 0xac, 0xb0, 0x2d, 0x67, 0x8a, 0x09, 0x37, 0x9f, 0xc5, 0xaa, 0x24, 0xa2, 0x3c,
];

#[test]
fn a_content_of_two_blocks_has_one_hash_block(rt: HostRuntime) -> Result<(), Fail> {
    let tree = tree_of(rt.alloc(), 7, 5000)?.expect(&rt, "within the limit");
    assert_eq!(rt; tree.root, ROOT_OF_NUMBER_7_AT_5000);
    assert_eq!(rt; tree.hash_blocks.as_slice().len(), 1);
    assert_eq!(rt; tree.geometry.size(), 5000);
    Ok(())
}

#[test]
fn a_content_of_one_block_is_its_own_root(rt: HostRuntime) -> Result<(), Fail> {
    let zeros = build(rt.alloc(), &[0; 4096]).expect(&rt, "ample memory");
    assert_eq!(rt; zeros.root, ZEROS_DIGEST);
    assert_eq!(rt; zeros.hash_blocks.as_slice().len(), 0);
    let nothing = build(rt.alloc(), &[]).expect(&rt, "ample memory");
    assert_eq!(rt; nothing.root, [0; 32]);
    Ok(())
}

#[test]
fn the_top_level_comes_first(rt: HostRuntime) -> Result<(), Fail> {
    let tree = tree_of(rt.alloc(), 5, 528384)?.expect(&rt, "within the limit");
    assert_eq!(rt; tree.root, ROOT_OF_NUMBER_5_AT_528384);
    let mut area = Vec::new(rt.alloc());
    for block in tree.hash_blocks.as_slice() {
        area.extend_from_slice(block.as_slice())?;
    }
    assert_eq!(rt; digest_whole(&area), AREA_OF_NUMBER_5_AT_528384);
    Ok(())
}

#[test]
fn the_genuine_block_is_no_collision(rt: HostRuntime) -> Result<(), Fail> {
    let content = content_of(rt.alloc(), 7, 5000)?;
    assert!(rt; is_genuine(&rt, rt.alloc(), &content, 0, &generated(7, 0))?);
    Ok(())
}

// The tree of the first bytes of a generated content, if there is one.
fn tree_of(alloc: Global, number: u64, size: usize) -> Result<Option<Tree>, AllocError>
    requires number { number < 251 }
    requires size { size ≤ 1000 * 4096 }
{
    let content = content_of(alloc, number, size)?;
    Ok(build(alloc, &content).ok())
}

fn content_of(alloc: Global, number: u64, size: usize) -> Result<Vec<u8>, AllocError>
    requires number { number < 251 }
    requires size { size ≤ 1000 * 4096 }
{
    let mut content = Vec::new(alloc);
    for index in 0..size.div_ceil(4096) {
        content.extend_from_slice(&generated(number, index as u64))?;
    }
    content.truncate(size);
    Ok(content)
}

// Whether a block that the root of a content of two to 128 blocks takes for the content's is that block.
fn is_genuine(
    rt: &impl Abort,
    alloc: Global,
    content: &[u8],
    index: u32,
    bytes: &[u8],
) -> Result<bool, AllocError> {
    let tree = build(alloc, content).expect(rt, "within the limit");
    assert!(rt; index < tree.geometry.data_blocks());
    assert_eq!(rt; tree.geometry.depth(), 1);
    assert!(rt; bytes.len() <= 4096);
    let path = Path::of(alloc, tree.hash_blocks.as_slice())?;
    assert_eq!(rt; path.as_slice().len(), 1);
    check_path(&tree.root, &tree.geometry, index, bytes, &path).expect(rt, "the root's block");
    Ok(collision(alloc, content, index, bytes, &path)?.is_none())
}
