// A group of blocks hashed together.
ghost use Rattle.std.specs.Prelude.{◌≡◌, ℕ, ◌≤◌, ◌<◌, [], length, map, slice_index, slice_index_or, IfOk};
ghost use Rattle.sha2.specs.Sha256.{sha256};
ghost use Rattle.inc_cell.specs.device.Digested.{HasZeros, IsCleared, digested_each};

use crate::{Digested, OutOfMemory};
use inc_tree::{BLOCK_SIZE, Block, Digest32, digest_blocks};
use std::alloc::Global;

impl Digested {
    /// Hashes a group of blocks, of each its first bytes as filled up with zeros: four of them at once.
    pub fn group(
        alloc: Global,
        blocks: Vec<Block>,
        lens: &[u32],
    ) -> Result<Vec<Digested>, OutOfMemory>
        requires each { length lens.now ≡ length blocks.items }
        requires most { (i : ℕ) → i < length lens.now → slice_index lens.now i ≤ 4096 }
        ensures value { IfOk result (λ group. group.items ≡ digested_each blocks.items lens.now) }
    {
        let mut blocks = blocks;
        clear_ends(blocks.as_mut_slice(), lens);
        let mut digests = vec![in alloc; [0u8; 32]; blocks.len()]?;
        digest_blocks(blocks.as_slice(), digests.as_mut_slice());
        join_parts(alloc, blocks, lens, digests.as_slice())
    }
}

/// Joins each block, which has its zeros, with its length and its digest.
fn join_parts(
    alloc: Global,
    blocks: Vec<Block>,
    lens: &[u32],
    digests: &[Digest32],
) -> Result<Vec<Digested>, OutOfMemory>
    requires each { length lens.now ≡ length blocks.items }
    requires most { (i : ℕ) → i < length lens.now → slice_index lens.now i ≤ 4096 }
    requires zeros { (i : ℕ) → i < length lens.now → HasZeros (slice_index_or blocks.items i []) (slice_index lens.now i) }
    requires hashed { digests.now ≡ map sha256 blocks.items }
    ensures value { IfOk result (λ group. group.items ≡ digested_each blocks.items lens.now) }
{
    let mut group = Vec::with_capacity(alloc, lens.len())?;
    for block in blocks {
        let index = group.len();
        group.push(Digested::hashed(block, lens[index], digests[index]))?;
    }
    Ok(group)
}

/// Puts zeros after the bytes that count of each block.
fn clear_ends(blocks: &mut [Block], lens: &[u32])
    requires each { length lens.now ≡ length blocks.old }
    requires most { (i : ℕ) → i < length lens.now → slice_index lens.now i ≤ 4096 }
    ensures cleared { (i : ℕ) → i < length lens.now → IsCleared (slice_index_or blocks.old i []) (slice_index lens.now i) (slice_index_or blocks.new i []) }
{
    for index in 0..lens.len() {
        clear_end(&mut blocks[index], lens[index]);
    }
}

/// Puts zeros after the bytes that count of a block.
pub(super) fn clear_end(block: &mut Block, len: u32)
    requires { len ≤ 4096 }
    ensures { IsCleared block.old len block.new }
{
    // So the zeros end where the block does.
    prove!(block.as_slice().len() == BLOCK_SIZE);
    block.clear_from(len);
}
