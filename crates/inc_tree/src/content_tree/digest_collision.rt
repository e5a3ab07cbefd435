// What it would take for another block to be taken for a content's.
ghost use Rattle.std.specs.Prelude.{◌≡◌, ◌≢◌, ◌<◌, ◌≤◌, ℕ, length, IfOk, IfSome, IfNone, OnSome};
ghost use Rattle.inc_tree.specs.content_tree.Collision.{IsCollision};
ghost use Rattle.inc_tree.specs.shape.Geometry.{tree_of, blocks_of, data_blocks, hash_blocks};
ghost use Rattle.inc_tree.specs.shape.Limits.{most_size};
ghost use Rattle.inc_tree.specs.read_block.Path.{padded, IsProof};
ghost use Rattle.inc_tree.specs.content_tree.Root.{content_block, root_of, path_through};

use super::block_of;
use crate::{Block, OutOfMemory, Path, Tree, TreeFault, build};
use std::alloc::{AllocError, Global};

/// A block that a content's root takes for the content's is that block, or here are two blocks of one digest. It builds the content's
/// tree and looks for the highest level at which the two paths differ.
pub fn collision(
    alloc: Global,
    content: &[u8],
    index: u32,
    bytes: &[u8],
    path: &Path,
) -> Result<Option<(Block, Block)>, OutOfMemory>
    requires fits { length content.now ≤ most_size }
    requires here { index < blocks_of (length content.now) }
    requires one_block { length bytes.now ≤ 4096 }
    requires good { IsProof (root_of content.now) (tree_of (length content.now)) index bytes.now path.now }
    ensures genuine { IfOk result (λ found. IfNone found (padded bytes.now ≡ padded (content_block content.now index))) }
    ensures another { IfOk result (λ found. OnSome found (padded bytes.now ≢ padded (content_block content.now index))) }
    ensures pair { IfOk result (λ found. IfSome found (λ pair. IsCollision pair.0 pair.1)) }
{
    let tree = small_tree(alloc, content)?;
    let shown = Block::padded(alloc, bytes)?;
    let own = Block::padded(alloc, block_of(content, index))?;
    if shown.as_slice() == own.as_slice() {
        return Ok(None);
    }
    let mut level = tree.geometry.depth();
    while level > 0 {
        level -= 1;
        let place = tree.geometry.path_block(index, level);
        let ours = &tree.hash_blocks.as_slice()[place as usize];
        let theirs = &path.as_slice()[level as usize];
        if ours.as_slice() != theirs.as_slice() {
            return Ok(Some((theirs.copy(alloc)?, ours.copy(alloc)?)));
        }
    }
    Ok(Some((shown, own)))
}

// The tree of a content that isn't too large.
fn small_tree(alloc: Global, content: &[u8]) -> Result<Tree, OutOfMemory>
    requires { length content.now ≤ most_size }
    ensures geometry { IfOk result (λ tree. tree.geometry ≡ tree_of (length content.now)) }
    ensures root { IfOk result (λ tree. tree.root ≡ root_of content.now) }
    ensures count { IfOk result (λ tree. length tree.hash_blocks ≡ hash_blocks tree.geometry) }
    ensures paths { IfOk result (λ tree. (index : ℕ) → index < data_blocks tree.geometry
        → IsProof tree.root tree.geometry index (content_block content.now index) (path_through tree.geometry tree.hash_blocks index)) }
{
    match build(alloc, content) {
        Ok(tree) => Ok(tree),
        Err(TreeFault::OutOfMemory) => Err(AllocError),
        Err(TreeFault::TooLarge) => unreachable!(),
    }
}
