// The shape of a file's tree. All of it follows from the file's size and from whether it has a tree at all, and contracts see these two alone.
ghost use Rattle.std.specs.Prelude.{◌≡◌, ◌+◌, ◌<◌, ◌≤◌, ◌^◌, [], IfOk, OnOk, OnErr};
ghost use Rattle.inc_tree.specs.shape.Geometry.{tree_of, flat_of, blocks_of, data_blocks, hash_blocks, depth, level_counts, level_count, level_start, path_block, path_slot, block_len, IsLevels, total};
ghost use Rattle.inc_tree.specs.shape.Limits.{most_size};
ghost use Rattle.std.specs.Prelude.{drop};

use crate::{BLOCK_SIZE, DIGESTS_PER_BLOCK, MOST_SIZE};
use std::marker::Model;

/// The levels of hash blocks that a file of `MOST_SIZE` bytes has: a wider limit changes this number and `specs/Limits.antt`.
pub(crate) const MOST_LEVELS: usize = 4;

/// A file would have more than `MOST_SIZE` bytes.
#[derive(Clone, Copy, Debug, PartialEq, Eq)]
pub struct TooLarge;

/// The shape of the tree over a file of some size, or of a file of some size that has none.
#[derive(Clone, Copy)]
pub struct Geometry {
    size: u64,
    flat: bool,
    blocks: u32,
    height: u32,
    counts: [u32; MOST_LEVELS],
}

impl Model for Geometry {
    ghost use Rattle.inc_tree.specs.shape.Geometry.{Shape};

    ghost Value = { Shape };

    ghost use Rattle.inc_tree.specs.shape.Cached.{Holds, shape_with};

    ghost view = { λ tree. shape_with tree.size tree.flat };

    ghost invariant = { λ tree. Holds tree.size tree.flat tree.blocks tree.height tree.counts };

    ghost use Rattle.inc_tree.specs.shape.Inverse.{inside_of, inside_of-shape};

    ghost inverse = { inside_of };

    ghost inverse_ok = { λ tree holds. inside_of-shape tree holds };
}

impl Geometry {
    /// The shape for a file of `size` bytes with a tree over them. It takes no memory.
    #[tactic(auto, using(crate::proofs::LevelLemmas::levels_start, crate::proofs::LevelLemmas::levels_step, crate::proofs::LevelLemmas::levels_found, crate::proofs::LevelLemmas::levels_of))]
    pub fn of(size: u64) -> Result<Geometry, TooLarge>
        ensures value { IfOk result (λ tree. tree ≡ tree_of size) }
        ensures fits { OnOk result (size ≤ most_size) }
        ensures too_large { OnErr result (most_size < size) }
        ensures levels { IfOk result (λ tree. IsLevels (data_blocks tree) (level_counts tree)) }
    {
        let blocks = blocks_of(size)?;
        let mut counts = [0; MOST_LEVELS];
        let mut height: u32 = 0;
        let mut below = blocks;
        while below > 1 {
            below = below.div_ceil(DIGESTS_PER_BLOCK);
            counts[height as usize] = below;
            height += 1;
        }
        Ok(Geometry {
            size,
            flat: false,
            blocks,
            height,
            counts,
        })
    }

    /// The shape for a file of `size` bytes without a tree: nothing proves its blocks. It takes no memory.
    #[tactic(auto, using(crate::proofs::LevelLemmas::flat_levels))]
    pub fn flat_of(size: u64) -> Result<Geometry, TooLarge>
        ensures value { IfOk result (λ tree. tree ≡ flat_of size) }
        ensures fits { OnOk result (size ≤ most_size) }
        ensures too_large { OnErr result (most_size < size) }
        ensures no_level { IfOk result (λ tree. level_counts tree ≡ []) }
    {
        let blocks = blocks_of(size)?;
        Ok(Geometry {
            size,
            flat: true,
            blocks,
            height: 0,
            counts: [0; MOST_LEVELS],
        })
    }

    /// Whether the file has no tree.
    pub fn is_flat(&self) -> bool
        ensures value { result ≡ self.now.flat }
    {
        self.flat
    }

    /// The file's bytes.
    pub fn size(&self) -> u64
        ensures value { result ≡ self.now.size }
        ensures small { result ≤ most_size }
    {
        self.size
    }

    /// The blocks that the file's content fills, the last perhaps in part.
    pub fn data_blocks(&self) -> u32
        ensures value { result ≡ data_blocks self.now }
        ensures small { result ≤ 2 ^ 22 }
    {
        self.blocks
    }

    /// The blocks of the hash area.
    pub fn hash_blocks(&self) -> u32
        ensures value { result ≡ hash_blocks self.now }
        ensures small { result ≤ 33027 }
    {
        self.blocks_from(0)
    }

    /// The levels of hash blocks, none where the file has one block, is empty or has no tree.
    pub fn depth(&self) -> u32
        ensures value { result ≡ depth self.now }
        ensures low { result ≤ 4 }
    {
        self.height
    }

    /// The hash blocks of a level. Level 0 is the leaf level.
    #[tactic(auto, using(crate::proofs::LevelLemmas::count_at))]
    pub fn level_count(&self, level: u32) -> u32
        requires { level < depth self.now }
        ensures value { result ≡ level_count self.now level }
    {
        self.counts[level as usize]
    }

    /// The number of a level's first hash block in the hash area, where the top level comes first.
    #[tactic(auto, using(crate::proofs::LevelLemmas::start_within))]
    pub fn level_start(&self, level: u32) -> u32
        requires { level < depth self.now }
        ensures value { result ≡ level_start self.now level }
        ensures within { result + level_count self.now level ≤ hash_blocks self.now }
    {
        prove!(level < self.height);
        self.blocks_from(level + 1)
    }

    /// The bytes of a block. Data blocks come first, and index `data_blocks() + k` is hash block `k`.
    pub fn block_len(&self, index: u32) -> u32
        requires { index < data_blocks self.now + hash_blocks self.now }
        ensures value { result ≡ block_len self.now index }
        ensures some { 1 ≤ result }
        ensures most { result ≤ 4096 }
    {
        if index < self.blocks {
            let left = self.size - BLOCK_SIZE as u64 * index as u64;
            left.min(BLOCK_SIZE as u64) as u32
        } else {
            BLOCK_SIZE as u32
        }
    }

    /// The hash block of a level on the path of data block `index`.
    #[tactic(auto, using(crate::proofs::LevelLemmas::path_within, crate::proofs::LevelLemmas::power_small, crate::proofs::LevelLemmas::power_positive, crate::proofs::LevelLemmas::rest_small))]
    pub fn path_block(&self, index: u32, level: u32) -> u32
        requires here { index < data_blocks self.now }
        requires level { level < depth self.now }
        ensures value { result ≡ path_block self.now index level }
        ensures within { result < hash_blocks self.now }
    {
        prove!(level < self.height);
        self.level_start(level) + index / DIGESTS_PER_BLOCK.pow(level + 1)
    }

    /// Which digest of that hash block the path goes through.
    #[tactic(auto, using(crate::proofs::LevelLemmas::slot_power_small, crate::proofs::LevelLemmas::power_positive))]
    pub fn path_slot(&self, index: u32, level: u32) -> u32
        requires level { level < depth self.now }
        ensures value { result ≡ path_slot index level }
        ensures within { result < 128 }
    {
        prove!(level < self.height);
        index / DIGESTS_PER_BLOCK.pow(level) % DIGESTS_PER_BLOCK
    }

    // The hash blocks of the levels from this one upwards.
    #[tactic(auto, using(crate::proofs::LevelLemmas::rest_small, crate::proofs::LevelLemmas::rest_more, crate::proofs::LevelLemmas::total_end))]
    fn blocks_from(&self, level: u32) -> u32
        requires { level ≤ depth self.now }
        ensures value { result ≡ total (drop level (level_counts self.now)) }
        ensures small { result ≤ 33027 }
    {
        let mut blocks = 0;
        for above in level..self.height {
            blocks += self.counts[above as usize];
        }
        blocks
    }
}

// The blocks of so many bytes, if a file may have them.
fn blocks_of(size: u64) -> Result<u32, TooLarge>
    ensures value { IfOk result (λ blocks. blocks ≡ blocks_of size) }
    ensures fits { OnOk result (size ≤ most_size) }
    ensures too_large { OnErr result (most_size < size) }
{
    if size > MOST_SIZE {
        return Err(TooLarge);
    }
    Ok(size.div_ceil(BLOCK_SIZE as u64) as u32)
}
