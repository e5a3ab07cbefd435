// The kept hash blocks of one file.
ghost use Rattle.std.specs.Prelude.{◌≡◌, ◌⊎◌, ◌<◌, ◌≤◌, false, length, take, is_some, option_copied, IfOk, OnOk, OnErr};
ghost use Rattle.inc_tree.specs.shape.Geometry.{data_blocks};
ghost use Rattle.inc_cache.specs.Kept.{WasVerified, cache_with, empty_cache};
ghost use Rattle.inc_cache.specs.Used.{kept_at, used_again, used_first};
ghost use Rattle.sha2.specs.Sha256.{sha256};

mod paths;

use crate::OutOfMemory;
use crate::kept_block::KeptBlock;
use inc_tree::{Block, Digest32, Geometry};
use lru::LruCache;
use std::alloc::Global;
use std::marker::Model;
use std::num::NonZeroUsize;

/// Hash blocks of a file, each of which was verified up to the root.
#[derive(Drop)]
pub struct HashCache {
    root: Digest32,
    geometry: Geometry,
    blocks: LruCache<u32, KeptBlock>,
}

impl Model for HashCache {
    ghost use Rattle.inc_cache.specs.Kept.{CachedHashes, KeepsHashes};

    ghost Value = { CachedHashes };

    ghost view = { λ c. record { root = c.root; shape = c.geometry; room = c.blocks.cap; kept = c.blocks.entries } };

    ghost invariant = { λ c. KeepsHashes c.root c.geometry c.blocks.entries };
}

impl HashCache {
    /// An empty cache for the file of this root and shape, with room for so many blocks.
    pub fn new(
        alloc: Global,
        root: &Digest32,
        tree: &Geometry,
        room: usize,
    ) -> Result<HashCache, OutOfMemory>
        requires signed { tree.now.flat ≡ false }
        requires some { 1 ≤ room }
        ensures value { IfOk result (λ cache. cache ≡ empty_cache root.now tree.now room) }
    {
        let room = NonZeroUsize::new(room).unwrap();
        let blocks = LruCache::new(alloc, room)?;
        Ok(HashCache {
            root: *root,
            geometry: *tree,
            blocks,
        })
    }

    /// Whether the block with this number is kept.
    pub fn is_known(&self, hash: u32) -> bool
        ensures value { result ≡ is_some (kept_at hash self.now.kept) }
    {
        self.blocks.contains(&hash)
    }

    /// The block with this number, where it is kept. Its use isn't noted.
    pub fn block(&self, hash: u32) -> Option<&Block>
        ensures value { option_copied result ≡ kept_at hash self.now.kept }
    {
        match self.blocks.peek(&hash) {
            Some(kept) => Some(kept.block()),
            None => None,
        }
    }

    /// Notes that the block with this number was used, where it is kept.
    pub fn touch(&mut self, hash: u32)
        ensures value { self.new ≡ cache_with self.old (used_again self.old.room hash (kept_at hash self.old.kept) self.old.kept) }
    {
        let _room = self.blocks.len();
        self.blocks.promote(&hash);
    }

    /// Keeps a block that was verified up to the root under this number, as the most recently used one.
    pub fn keep(&mut self, hash: u32, block: Block, digest: &Digest32) -> Result<(), OutOfMemory>
        requires vouched { WasVerified self.old.root self.old.shape hash block }
        requires hashed { digest.now ≡ sha256 block }
        ensures kept { OnOk result (self.new ≡ cache_with self.old (used_first self.old.room hash block self.old.kept)) }
        ensures same { OnErr result (self.new ≡ self.old) }
    {
        let _room = self.blocks.len();
        self.blocks.put(hash, KeptBlock::of(block, *digest))?;
        Ok(())
    }
}
