// The tree of a whole content.
ghost use Rattle.std.specs.Prelude.{◌≡◌, ◌*◌, ◌<◌, ◌≤◌, ◌^◌, ℕ, List, length, IfOk, OnOk, IfErr};
ghost use Rattle.inc_tree.specs.shape.Geometry.{tree_of, blocks_of, data_blocks, hash_blocks};
ghost use Rattle.inc_tree.specs.content_tree.HashLevel.{KeepsDigests};
ghost use Rattle.inc_tree.specs.shape.Limits.{most_size};
ghost use Rattle.inc_tree.specs.read_block.Path.{IsProof};
ghost use Rattle.inc_tree.specs.content_tree.Root.{content_block, root_of, area_of, root_over, area_over, path_through};
ghost use Rattle.inc_tree.specs.declared.content_tree.TreeFault.TheVariants.{TooLarge as too_large};

mod digest_collision;
mod growth;
mod hash_level;

use crate::{BLOCK_SIZE, Digest32, Geometry, OutOfMemory, Path, TooLarge, digest_block};
pub use digest_collision::collision;
use growth::{Grown, grow};
pub use hash_level::HashLevel;
use std::alloc::{AllocError, Global};

/// A content's root, and the hash blocks between the content and its root.
#[derive(Drop)]
pub struct Tree {
    pub geometry: Geometry,
    pub root: Digest32,
    /// In the order of the hash area: the top level first.
    pub hash_blocks: Path,
}

/// Why there is no tree over a content.
#[derive(Clone, Copy, Debug, PartialEq, Eq)]
pub enum TreeFault {
    TooLarge,
    OutOfMemory,
}

impl From<TooLarge> for TreeFault {
    ghost from_gives = { λ _ fault. fault ≡ too_large };

    fn from(_: TooLarge) -> TreeFault {
        TreeFault::TooLarge
    }
}

impl From<AllocError> for TreeFault {
    ghost use Rattle.inc_tree.specs.declared.content_tree.TreeFault.TheVariants.{OutOfMemory as want_of_memory};

    ghost from_gives = { λ _ fault. fault ≡ want_of_memory };

    fn from(_: AllocError) -> TreeFault {
        TreeFault::OutOfMemory
    }
}

/// The tree over a content, whose every block is read and hashed once.
pub fn build(alloc: Global, content: &[u8]) -> Result<Tree, TreeFault>
    ensures geometry { IfOk result (λ tree. tree.geometry ≡ tree_of (length content.now)) }
    ensures root { IfOk result (λ tree. tree.root ≡ root_of content.now) }
    ensures area { IfOk result (λ tree. tree.hash_blocks ≡ area_of content.now) }
    ensures count { IfOk result (λ tree. length tree.hash_blocks ≡ hash_blocks tree.geometry) }
    ensures paths { IfOk result (λ tree. (index : ℕ) → index < data_blocks tree.geometry
        → IsProof tree.root tree.geometry index (content_block content.now index) (path_through tree.geometry tree.hash_blocks index)) }
    ensures fits { OnOk result (length content.now ≤ most_size) }
    ensures too_large { IfErr result (λ fault. fault ≡ too_large → most_size < length content.now) }
{
    let geometry = Geometry::of(content.len() as u64)?;
    let mut leaves = HashLevel::new(alloc);
    for index in 0..geometry.data_blocks() {
        leaves.push(&digest_block(block_of(content, index)))?;
    }
    Ok(tree_over(geometry, leaves)?)
}

/// The tree of a shape over the digests of its data blocks. They came one by one, so that no content has to be in memory.
pub fn tree_over(geometry: Geometry, leaves: HashLevel) -> Result<Tree, OutOfMemory>
    ensures geometry { IfOk result (λ tree. tree.geometry ≡ geometry) }
    ensures root { (digests : List (List ℕ)) → KeepsDigests digests leaves → IfOk result (λ tree. tree.root ≡ root_over 9 digests) }
    ensures area { (digests : List (List ℕ)) → KeepsDigests digests leaves → IfOk result (λ tree. tree.hash_blocks ≡ area_over 9 digests) }
{
    let Grown { root, blocks } = grow(leaves)?;
    Ok(Tree {
        geometry,
        root,
        hash_blocks: Path::from_vec(blocks),
    })
}

// A data block's bytes of the content.
pub(crate) fn block_of(content: &[u8], index: u32) -> &[u8]
    requires { index < blocks_of (length content.now) }
    ensures value { result.now ≡ content_block content.now index }
    ensures short { length result.now ≤ 4096 }
{
    let from = index as usize * BLOCK_SIZE;
    let to = content.len().min(from + BLOCK_SIZE);
    &content[from..to]
}
