ghost use Rattle.std.specs.Prelude.{◌≡◌, ◌≤◌, take};
ghost use Rattle.inc_tree.specs.read_block.Path.{block_digest};

use super::*;
use inc_tree::{BLOCK_SIZE, Block, Digest32, Geometry, Path, build, digest_block, verify};
use std::alloc::Global;
use std::test::Fail;

fn digest_of_front(block: &Block, len: u32) -> Digest32
    requires { len ≤ 4096 }
    ensures value { result ≡ block_digest (take len block.now) }
{
    digest_block(&block.as_slice()[..len as usize])
}

// Where the path of block 1 breaks, if this byte stands everywhere in the block and no block of its path is read anew.
fn breaking_level(
    alloc: Global,
    known: KnownPath,
    tree: &Geometry,
    byte: u8,
) -> Result<Option<u32>, OutOfMemory>
    requires shape { known.shape ≡ tree.now }
    requires index { known.index ≡ 1 }
{
    let Some(block) = Block::from_vec(vec![in alloc; byte; BLOCK_SIZE]?) else {
        return Ok(Some(9));
    };
    if known.missing() != 0 {
        return Ok(Some(9));
    }
    let len = tree.block_len(1);
    let digest = digest_of_front(&block, len);
    match known.check(block, digest, Path::from_vec(Vec::new(alloc))) {
        Ok(_) => Ok(None),
        Err(broken) => Ok(Some(broken.level)),
    }
}

#[test]
fn a_kept_path_is_not_read_again(rt: HostRuntime) -> Result<(), Fail> {
    let alloc = rt.alloc();
    let content = vec![in alloc; 0; 2 * BLOCK_SIZE]?;
    let tree = build(alloc, &content).expect(&rt, "two blocks");
    let path = Path::of(alloc, tree.hash_blocks.as_slice())?;
    assert_eq!(rt; path.as_slice().len(), tree.geometry.depth() as usize);
    let block = Block::zeros(alloc)?;
    let first = verify(&tree.root, &tree.geometry, 0, block, path).expect(&rt, "the content's");
    let mut cache = HashCache::new(alloc, &tree.root, &tree.geometry, 64)?;
    assert_eq!(rt; cache.known_path(alloc, 1)?.missing(), 1);
    cache.keep_path(alloc, &first)?;
    let known = cache.known_path(alloc, 1)?;
    assert_eq!(rt; known.numbers(), [0].as_slice());
    assert_eq!(rt; breaking_level(alloc, known, &tree.geometry, 0)?, None);
    let known = cache.known_path(alloc, 1)?;
    assert_eq!(rt; breaking_level(alloc, known, &tree.geometry, 1)?, Some(0));
    Ok(())
}
