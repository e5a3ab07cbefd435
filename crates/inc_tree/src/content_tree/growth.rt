// From a level of digests up to the root.
ghost use Rattle.std.specs.Prelude.{◌≡◌, ◌≤◌, ◌^◌, ℕ, List, length, IfOk};
ghost use Rattle.inc_tree.specs.content_tree.Grown.{GrowsFrom};
ghost use Rattle.inc_tree.specs.content_tree.HashLevel.{KeepsDigests};

use crate::{Block, Digest32, HashLevel, OutOfMemory};

// A root, and the hash blocks of all levels under it, the top level first.
#[derive(Drop)]
pub struct Grown {
    pub root: Digest32,
    pub blocks: Vec<Block>,
}

// The root over a level's digests. The level itself goes behind the levels above it.
pub(crate) fn grow(level: HashLevel) -> Result<Grown, OutOfMemory>
    ensures value { (most : ℕ) (digests : List (List ℕ)) → KeepsDigests digests level → length digests ≤ 128 ^ most
        → IfOk result (λ grown. GrowsFrom most digests grown) }
{
    if level.count() <= 1 {
        return Ok(Grown {
            root: level.only(),
            blocks: Vec::new(level.allocator()),
        });
    }
    let above = level.above()?;
    let mut grown = grow(above)?;
    let mut blocks = level.into_blocks();
    grown.blocks.append(&mut blocks)?;
    Ok(grown)
}
