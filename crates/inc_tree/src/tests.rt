ghost use Rattle.std.specs.Prelude.{◌<◌, ◌≤◌};

use crate::{
    BLOCK_SIZE, Block, Digest32, Geometry, Path, Shown, TooLarge, Unproved, Verified, check_path,
    digest_block, digest_blocks, verify,
};
use std::alloc::{AllocError, Global};
use std::process::Abort;
use std::test::Fail;

mod trees;

// The values are FIPS 180-4's and those of fs-verity: SHA-256 of 4096 zeros, and the roots of generated contents.
const ZEROS_DIGEST: Digest32 = [
    0xad, 0x7f, 0xac, 0xb2, 0x58, 0x6f, 0xc6, 0xe9, 0x66, 0xc0, 0x04, 0xd7, 0xd1, 0xd1, 0x6b, 0x02,
    0x4f, 0x58, 0x05, 0xff, 0x7c, 0xb4, 0x7c, 0x7a, 0x85, 0xda, 0xbd, 0x8b, 0x48, 0x89, 0x2c, 0xa7,
];

const ROOT_OF_NUMBER_7_AT_904: Digest32 = [
    0xde, 0xe0, 0x2a, 0xba, 0x5f, 0x61, 0x4a, 0xf3, 0x3a, 0x16, 0x98, 0x89, 0x2b, 0xdb, 0x08, 0x9a,
    0x40, 0xdd, 0x7d, 0x2c, 0xf0, 0x39, 0x55, 0xa5, 0x0d, 0xbb, 0x81, 0xf8, 0x19, 0xf4, 0x3c, 0xae,
];

const ROOT_OF_NUMBER_7_AT_5000: Digest32 = [
    0xdf, 0x5a, 0x2b, 0x4e, 0x4a, 0x3b, 0xd0, 0x35, 0x9c, 0x4d, 0xe9, 0x91, 0xad, 0x79, 0x24, 0x1e,
    0xc1, 0x29, 0x72, 0xb8, 0xf9, 0xf4, 0x72, 0x92, 0x53, 0x4c, 0xe7, 0x9d, 0x10, 0x7a, 0xbb, 0x76,
];

const ROOT_OF_NUMBER_5_AT_528384: Digest32 = [
    0x68, 0xbb, 0x3c, 0x16, 0xb8, 0xdf, 0x41, 0x0d, 0xc2, 0xff, 0xf2, 0x0f, 0x72, 0xe1, 0x6a, 0x02,
    0x64, 0xfb, 0xb9, 0x11, 0x5a, 0xd3, 0xcd, 0xf7, 0x1e, 0x9c, 0xdb, 0x81, 0xdd, 0x76, 0x55, 0x89,
];

#[test]
fn a_size_gives_the_levels_of_fs_verity(rt: HostRuntime) -> Result<(), Fail> {
    expect_levels(&rt, 0, 0, &[]);
    expect_levels(&rt, 904, 1, &[]);
    expect_levels(&rt, 4096, 1, &[]);
    expect_levels(&rt, 4097, 2, &[1]);
    expect_levels(&rt, 524288, 128, &[1]);
    expect_levels(&rt, 524289, 129, &[2, 1]);
    expect_levels(&rt, 3145728, 768, &[6, 1]);
    expect_levels(&rt, 67112960, 16385, &[129, 2, 1]);
    expect_levels(&rt, 1073741824, 262144, &[2048, 16, 1]);
    expect_levels(&rt, 17179869184, 4194304, &[32768, 256, 2, 1]);
    assert_eq!(rt; Geometry::of(17179869185).err(), Some(TooLarge));
    Ok(())
}

#[test]
fn a_flat_shape_has_no_level(rt: HostRuntime) -> Result<(), Fail> {
    let tree = Geometry::flat_of(5000).expect(&rt, "within the limit");
    assert!(rt; tree.is_flat());
    assert_eq!(rt; tree.size(), 5000);
    assert_eq!(rt; tree.data_blocks(), 2);
    assert_eq!(rt; tree.hash_blocks(), 0);
    assert_eq!(rt; tree.depth(), 0);
    assert_eq!(rt; tree.block_len(1), 904);
    assert_eq!(rt; Geometry::flat_of(17179869185).err(), Some(TooLarge));
    Ok(())
}

#[test]
fn the_last_block_of_the_greatest_file_has_four_levels(rt: HostRuntime) -> Result<(), Fail> {
    let tree = Geometry::of(17179869184).expect(&rt, "within the limit");
    assert_eq!(rt; tree.data_blocks(), 4194304);
    assert_eq!(rt; tree.hash_blocks(), 33027);
    assert_eq!(rt; tree.depth(), 4);
    for (level, block) in [(0, 33026), (1, 258), (2, 2), (3, 0)] {
        assert_eq!(rt; tree.path_block(4194303, level), block, "level {level}");
    }
    Ok(())
}

#[test]
fn a_path_goes_through_these_blocks(rt: HostRuntime) -> Result<(), Fail> {
    let tree = Geometry::of(528384).expect(&rt, "within the limit");
    assert_eq!(rt; tree.data_blocks(), 129);
    assert_eq!(rt; tree.depth(), 2);
    for (index, level, block) in [(0, 0, 1), (127, 0, 1), (128, 0, 2), (0, 1, 0), (128, 1, 0)] {
        assert_eq!(rt;
            tree.path_block(index, level),
            block,
            "level {level} of {index}"
        );
    }

    let tree = Geometry::of(5000).expect(&rt, "within the limit");
    assert_eq!(rt; tree.data_blocks(), 2);
    assert_eq!(rt; tree.hash_blocks(), 1);
    for (index, len) in [(0, 4096), (1, 904), (2, 4096)] {
        assert_eq!(rt; tree.block_len(index), len, "block {index}");
    }
    Ok(())
}

#[test]
fn a_short_block_is_hashed_with_zeros_after_it(rt: HostRuntime) {
    assert_eq!(rt; digest_block(&[]), ZEROS_DIGEST);
    assert_eq!(rt; digest_of_front(&[0; BLOCK_SIZE], BLOCK_SIZE), ZEROS_DIGEST);
    assert_eq!(rt;
        digest_of_front(&generated(7, 0), 904),
        ROOT_OF_NUMBER_7_AT_904
    );
}

#[test]
fn a_turned_bit_breaks_the_path_where_it_counts(rt: HostRuntime) -> Result<(), Fail> {
    let leaf = last_leaf();
    let top = top_over(&leaf);
    let alloc = rt.alloc();
    assert_eq!(rt; breaking_level(&rt, alloc, &leaf, &top)?, None);
    // the data block's own digest
    assert_eq!(rt;
        breaking_level(&rt, alloc, &turned(leaf, 31), &top)?,
        Some(0)
    );
    // another slot of its hash block
    assert_eq!(rt;
        breaking_level(&rt, alloc, &turned(leaf, 32), &top)?,
        Some(1)
    );
    // a slot of the top block that the path does not go through
    assert_eq!(rt;
        breaking_level(&rt, alloc, &leaf, &turned(top, 0))?,
        Some(2)
    );
    Ok(())
}

#[test]
fn what_stands_after_the_content_is_cleared(rt: HostRuntime) -> Result<(), Fail> {
    // The generated content goes on after byte 904, which is the file's end.
    let second = generated(7, 1);
    let mut leaf = [0; BLOCK_SIZE];
    put_digest(&mut leaf, 0, &digest_block(&generated(7, 0)));
    put_digest(&mut leaf, 1, &digest_of_front(&second, 904));
    let block = verified(&rt, rt.alloc(), &leaf, &second)?;
    assert_eq!(rt; block.len, 904);
    assert_eq!(rt;
        digest_block(block.content()),
        digest_block(block.bytes.as_slice())
    );
    Ok(())
}

#[test]
fn what_no_root_vouches_for_is_marked(rt: HostRuntime) -> Result<(), Fail> {
    let tree = Geometry::flat_of(5000).expect(&rt, "within the limit");
    assert_eq!(rt; tree.data_blocks(), 2);
    let bytes = Block::of(rt.alloc(), &generated(7, 1))?.expect(&rt, "a whole block");
    let shown = Shown::Unproved(Unproved::of(&tree, 1, bytes));
    assert!(rt; !shown.is_proved());
    assert_eq!(rt; shown.index(), 1);
    assert_eq!(rt; shown.len(), 904);
    assert_eq!(rt; shown.content().len(), 904);
    assert_eq!(rt;
        digest_block(shown.block().as_slice()),
        digest_of_front(&generated(7, 1), 904)
    );
    Ok(())
}

#[test]
fn five_blocks_are_hashed_each_into_its_place(rt: HostRuntime) -> Result<(), Fail> {
    let alloc = rt.alloc();
    let mut blocks = Vec::new(alloc);
    for index in 0..5 {
        let mut block = Block::of(alloc, &generated(7, 0))?.expect(&rt, "a whole block");
        block.clear_from(if index % 2 == 0 { 0 } else { 904 });
        blocks.push(block)?;
    }
    let mut digests = [[0; 32]; 5];
    assert_eq!(rt; blocks.len(), 5);
    digest_blocks(blocks.as_slice(), &mut digests);
    for index in 0..5 {
        assert!(rt;
            digests[index]
                == if index % 2 == 0 {
                    ZEROS_DIGEST
                } else {
                    ROOT_OF_NUMBER_7_AT_904
                }
        );
    }
    Ok(())
}

#[test]
fn blocks_are_made_and_given_back(rt: HostRuntime) -> Result<(), Fail> {
    let alloc = rt.alloc();
    assert!(rt; Block::of(alloc, &[7; 4095])?.is_none());
    assert!(rt; Block::from_vec(vec![in alloc; 7; 4097]?).is_none());
    let mut block = Block::from_vec(vec![in alloc; 7; 4096]?).expect(&rt, "a whole block");
    block.clear_from(0);
    assert_eq!(rt; digest_block(block.copy(alloc)?.as_slice()), ZEROS_DIGEST);
    assert_eq!(rt; Block::zeros(alloc)?.into_vec().len(), 4096);
    Ok(())
}

#[test]
fn paths_are_made_and_given_back(rt: HostRuntime) -> Result<(), Fail> {
    let path = path_of(&rt, rt.alloc(), &[1; BLOCK_SIZE], &[2; BLOCK_SIZE])?;
    let path = Path::from_vec(path.into_vec());
    assert_eq!(rt; path.as_slice().len(), 2);
    assert_eq!(rt; path.as_slice()[1].as_slice()[0], 2);
    Ok(())
}

// The levels' counts, leaf level first. In the hash area the top level stands first.
fn expect_levels(rt: &impl Abort, size: u64, blocks: u32, counts: &[u32]) {
    let tree = Geometry::of(size).expect(rt, "within the limit");
    assert_eq!(rt; tree.size(), size);
    assert_eq!(rt; tree.data_blocks(), blocks);
    assert_eq!(rt; tree.depth() as usize, counts.len());
    let mut start: u32 = 0;
    for level in (0..tree.depth()).rev() {
        assert_eq!(rt; tree.level_count(level), counts[level as usize]);
        assert_eq!(rt; tree.level_start(level), start);
        start = start.saturating_add(tree.level_count(level));
    }
    assert_eq!(rt; tree.hash_blocks(), start);
}

// The byte at place p of the generated content is (number + p + p / 4096) mod 251.
fn generated(number: u64, index: u64) -> [u8; BLOCK_SIZE]
    requires block { index < 1000 }
    requires number { number < 251 }
{
    let mut block = [0; BLOCK_SIZE];
    for at in 0..BLOCK_SIZE {
        block[at] = ((number + index * 4096 + at as u64 + index) % 251) as u8;
    }
    block
}

// The last block of the leaf level over the generated content of number 5 at 528384 bytes, which is 129 blocks.
fn last_leaf() -> [u8; BLOCK_SIZE] {
    let mut leaf = [0; BLOCK_SIZE];
    put_digest(&mut leaf, 0, &digest_block(&generated(5, 128)));
    leaf
}

// The block above it and above the other leaf block.
fn top_over(last: &[u8; BLOCK_SIZE]) -> [u8; BLOCK_SIZE] {
    let mut first = [0; BLOCK_SIZE];
    for index in 0..128 {
        put_digest(
            &mut first,
            index,
            &digest_block(&generated(5, index as u64)),
        );
    }
    let mut top = [0; BLOCK_SIZE];
    put_digest(&mut top, 0, &digest_block(&first));
    put_digest(&mut top, 1, &digest_block(last));
    top
}

fn turned(mut block: [u8; BLOCK_SIZE], at: usize) -> [u8; BLOCK_SIZE]
    requires { at < 4096 }
{
    block[at] ^= 1;
    block
}

fn put_digest(block: &mut [u8; BLOCK_SIZE], slot: usize, digest: &Digest32)
    requires { slot < 128 }
{
    block[32 * slot..32 * slot + 32].copy_from_slice(digest);
}

fn digest_of_front(block: &[u8; BLOCK_SIZE], len: usize) -> Digest32
    requires { len ≤ 4096 }
{
    digest_block(&block[..len])
}

fn path_of(rt: &impl Abort, alloc: Global, leaf: &[u8], top: &[u8]) -> Result<Path, AllocError> {
    let leaf = Block::of(alloc, leaf)?.expect(rt, "a whole block");
    let top = Block::of(alloc, top)?.expect(rt, "a whole block");
    Path::of(alloc, &[leaf, top])
}

fn breaking_level(
    rt: &impl Abort,
    alloc: Global,
    leaf: &[u8],
    top: &[u8],
) -> Result<Option<u32>, AllocError> {
    let tree = Geometry::of(528384).expect(rt, "within the limit");
    assert_eq!(rt; tree.data_blocks(), 129);
    assert_eq!(rt; tree.depth(), 2);
    assert!(rt; !tree.is_flat());
    let path = path_of(rt, alloc, leaf, top)?;
    assert_eq!(rt; path.as_slice().len(), 2);
    let checked = check_path(
        &ROOT_OF_NUMBER_5_AT_528384,
        &tree,
        128,
        &generated(5, 128),
        &path,
    );
    Ok(checked.err().map(|broken| broken.level))
}

fn verified(
    rt: &impl Abort,
    alloc: Global,
    leaf: &[u8],
    bytes: &[u8],
) -> Result<Verified, AllocError> {
    let tree = Geometry::of(5000).expect(rt, "within the limit");
    assert_eq!(rt; tree.data_blocks(), 2);
    assert_eq!(rt; tree.depth(), 1);
    assert!(rt; !tree.is_flat());
    let leaf = Block::of(alloc, leaf)?.expect(rt, "a whole block");
    let path = Path::of(alloc, &[leaf])?;
    assert_eq!(rt; path.as_slice().len(), 1);
    let bytes = Block::of(alloc, bytes)?.expect(rt, "a whole block");
    Ok(verify(&ROOT_OF_NUMBER_7_AT_5000, &tree, 1, bytes, path).expect(rt, "the root's block"))
}
