// A level of hash blocks on its way: digests come one by one, and each goes into its slot at once, so that no list of digests is kept.
ghost use Rattle.std.specs.Prelude.{◌≡◌, ◌+◌, ◌<◌, ◌≤◌, ◌^◌, ℕ, List, [], ◌∷◌, ◌++◌, length, map, replicate, vec_len, slice_index_or, IfOk, OnOk, OnErr};
ghost use Rattle.sha2.specs.Sha256.{sha256};
ghost use Rattle.inc_tree.specs.shape.Geometry.{blocks_above};

use crate::digest::digest_whole;
use crate::{Block, DIGEST_SIZE, DIGESTS_PER_BLOCK, Digest32, OutOfMemory, slot_digest};
use std::alloc::Global;

/// The hash blocks over some blocks, filled with their digests in order. `tree_over` makes a tree of them.
#[derive(Drop)]
pub struct HashLevel {
    alloc: Global,
    count: u32,
    blocks: Vec<Block>,
    ghost full: { vec_len blocks ≡ blocks_above count },
    ghost small: { count ≤ 2 ^ 22 },
}

impl HashLevel {
    ghost use Rattle.inc_tree.specs.content_tree.HashLevel.{KeepsDigests};

    /// A level without a digest. It takes no memory.
    pub fn new(alloc: Global) -> HashLevel
        ensures value { KeepsDigests [] result }
        ensures count { result.count ≡ 0 }
    {
        HashLevel {
            alloc,
            count: 0,
            blocks: Vec::new(alloc),
        }
    }

    /// The digests so far.
    pub fn count(&self) -> u32
        ensures value { result ≡ self.now.count }
    {
        self.count
    }

    /// Puts the next digest into the first free slot. A file has at most 2^22 blocks.
    pub fn push(&mut self, digest: &Digest32) -> Result<(), OutOfMemory>
        requires room { self.old.count < 2 ^ 22 }
        ensures count { OnOk result (self.new.count ≡ self.old.count + 1) }
        ensures put { OnOk result ((digests : List (List ℕ)) → KeepsDigests digests self.old → KeepsDigests (digests ++ digest.now ∷ []) self.new) }
        ensures same { OnErr result ((digests : List (List ℕ)) → KeepsDigests digests self.old → KeepsDigests digests self.new) }
    {
        let slot = self.count % DIGESTS_PER_BLOCK;
        if slot == 0 {
            self.blocks.push(Block::zeros(self.alloc)?)?;
        }
        let last = self.count / DIGESTS_PER_BLOCK;
        self.blocks[last as usize].put_digest(slot, digest);
        self.count += 1;
        Ok(())
    }

    pub(crate) fn allocator(&self) -> Global {
        self.alloc
    }

    // The one digest of a level that has no more, or zeros where it has none.
    pub(crate) fn only(&self) -> Digest32
        requires { self.now.count ≤ 1 }
        ensures value { (digests : List (List ℕ)) → KeepsDigests digests self.now → result ≡ slice_index_or digests 0 (replicate 32 0) }
    {
        match self.blocks.first() {
            Some(block) => slot_digest(block, 0),
            None => [0; DIGEST_SIZE],
        }
    }

    // The level over this one.
    pub(crate) fn above(&self) -> Result<HashLevel, OutOfMemory>
        ensures value { IfOk result (λ above. KeepsDigests (map sha256 self.now.blocks.items) above) }
        ensures count { IfOk result (λ above. above.count ≡ blocks_above self.now.count) }
    {
        let mut above = HashLevel::new(self.alloc);
        for block in &self.blocks {
            above.push(&digest_whole(block.as_slice()))?;
        }
        Ok(above)
    }

    pub(crate) fn into_blocks(self) -> Vec<Block>
        ensures value { result.items ≡ self.blocks.items }
    {
        self.blocks
    }
}
