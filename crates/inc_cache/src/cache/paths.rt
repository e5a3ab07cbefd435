// What is kept of a path, and the keeping of a whole one.
ghost use Rattle.std.specs.Prelude.{◌≡◌, ◌⊎◌, ◌<◌, ◌≤◌, ◌∷◌, ℕ, List, Some, take, nat_eq, length, IfOk, OnOk, OnErr};
ghost use Rattle.std.specs.Map.{keys_of};
ghost use Rattle.std.specs.Set.{remove_key};
ghost use Rattle.inc_tree.specs.shape.Geometry.{data_blocks, depth, path_block};
ghost use Rattle.inc_tree.specs.read_block.Path.{block_at};
ghost use Rattle.inc_cache.specs.Kept.{cache_with};
ghost use Rattle.inc_cache.specs.Known.{AddsPath, IsOnPath, kept_levels, numbers_kept, known_of, numbers_down};
ghost use Rattle.inc_cache.specs.Used.{after_uses, kept_at};
ghost use Rattle.sha2.specs.Sha256.{sha256};

use super::HashCache;
use crate::kept_block::KeptBlock;
use crate::{KnownPath, OutOfMemory};
use inc_tree::{Digest32, Verified, slot_digest};
use std::alloc::Global;

impl HashCache {
    /// What is kept of the path of a data block. Its use isn't noted.
    pub fn known_path(&self, alloc: Global, index: u32) -> Result<KnownPath, OutOfMemory>
        requires here { index < data_blocks self.now.shape }
        ensures value { IfOk result (λ known. known ≡ known_of self.now.root self.now.shape index self.now.kept) }
    {
        let numbers = self.numbers_on(alloc, index)?;
        let levels = self.levels_on(alloc, index)?;
        let room = Vec::with_capacity(alloc, levels.len())?;
        Ok(KnownPath::of(self.root, self.geometry, index, numbers, levels, room))
    }

    // The numbers of the kept blocks on a path, leaf level first.
    fn numbers_on(&self, alloc: Global, index: u32) -> Result<Vec<u32>, OutOfMemory>
        requires here { index < data_blocks self.now.shape }
        ensures value { IfOk result (λ numbers. numbers.items ≡ numbers_kept self.now.shape index self.now.kept) }
    {
        let mut numbers = Vec::new(alloc);
        for level in 0..self.geometry.depth() {
            let number = self.geometry.path_block(index, level);
            if self.is_known(number) {
                numbers.push(number)?;
            }
        }
        Ok(numbers)
    }

    // Copies of the kept blocks on a path, leaf level first.
    fn levels_on(&self, alloc: Global, index: u32) -> Result<Vec<Option<KeptBlock>>, OutOfMemory>
        requires here { index < data_blocks self.now.shape }
        ensures value { IfOk result (λ levels. levels.items ≡ kept_levels self.now.shape index self.now.kept) }
    {
        let mut levels = Vec::new(alloc);
        for level in 0..self.geometry.depth() {
            let number = self.geometry.path_block(index, level);
            levels.push(self.copy_of(alloc, number)?)?;
        }
        Ok(levels)
    }

    fn copy_of(&self, alloc: Global, hash: u32) -> Result<Option<KeptBlock>, OutOfMemory>
        ensures value { IfOk result (λ copy. copy ≡ kept_at hash self.now.kept) }
    {
        match self.blocks.peek(&hash) {
            Some(kept) => Ok(Some(kept.copy(alloc)?)),
            None => Ok(None),
        }
    }

    /// Keeps the hash blocks on the path of a checked block, the highest level as the most recently used one: so no block goes before
    /// those under it. Where a number is kept already, its block stays. After want of memory the path is kept from the leaf level upwards
    /// to some level.
    pub fn keep_path(&mut self, alloc: Global, block: &Verified) -> Result<(), OutOfMemory>
        requires root { block.now.root ≡ self.old.root }
        requires shape { block.now.geometry ≡ self.old.shape }
        ensures used { OnOk result (keys_of self.new.kept ≡ after_uses self.old.room (numbers_down self.old.shape block.now.index (depth self.old.shape)) (keys_of self.old.kept)) }
        ensures only { AddsPath self.old.shape block.now.index block.now.path self.old.kept self.new.kept }
        ensures same { self.new ≡ cache_with self.old self.new.kept }
    {
        // No more blocks are kept than there is room for.
        let _kept = self.blocks.len();
        for level in 0..self.geometry.depth() {
            self.keep_level(alloc, block, level)?;
        }
        Ok(())
    }

    // Keeps the hash block of one level.
    fn keep_level(&mut self, alloc: Global, block: &Verified, level: u32) -> Result<(), OutOfMemory>
        requires root { block.now.root ≡ self.old.root }
        requires shape { block.now.geometry ≡ self.old.shape }
        requires within { level < depth self.old.shape }
        ensures used { OnOk result (keys_of self.new.kept ≡ (let number = path_block self.old.shape block.now.index level in
            take self.old.room (number ∷ remove_key (nat_eq number) (keys_of self.old.kept)))) }
        ensures only { AddsPath self.old.shape block.now.index block.now.path self.old.kept self.new.kept }
        ensures same { self.new ≡ cache_with self.old self.new.kept }
    {
        let number = self.geometry.path_block(block.index, level);
        if self.is_known(number) {
            self.touch(number);
            return Ok(());
        }
        let digest = digest_on(block, level);
        let kept = block.path.as_slice()[level as usize].copy(alloc)?;
        self.keep(number, kept, &digest)
    }
}

// The digest of the hash block of a level: the level above names it.
fn digest_on(block: &Verified, level: u32) -> Digest32
    requires within { level < depth block.now.geometry }
    ensures value { result ≡ sha256 (block_at block.now.path level) }
{
    let depth = block.geometry.depth();
    let above = level + 1;
    if above < depth {
        slot_digest(
            &block.path.as_slice()[above as usize],
            block.geometry.path_slot(block.index, above),
        )
    } else {
        block.root
    }
}
