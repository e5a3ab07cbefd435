ghost use Rattle.std.specs.Prelude.{◌≡◌, ◌≤◌, take, length, IfOk};
ghost use Rattle.inc_tree.specs.read_block.Path.{padded};

use crate::OutOfMemory;
use inc_tree::{BLOCK_SIZE, Block};
use std::alloc::Global;

static ZEROS: [u8; BLOCK_SIZE] = [0; BLOCK_SIZE];

/// The block that is stored for a content of `len` bytes: zeros stand after them, whatever was sent there.
#[tactic(auto, using(std::proofs::lemmas::List::take_min))]
pub fn padded(alloc: Global, bytes: &[u8], len: u32) -> Result<Block, OutOfMemory>
    requires { len ≤ 4096 }
    ensures value { IfOk result (λ block. block ≡ padded (take len bytes.now)) }
{
    let kept = (len as usize).min(bytes.len());
    with_zeros(alloc, &bytes[..kept])
}

fn with_zeros(alloc: Global, bytes: &[u8]) -> Result<Block, OutOfMemory>
    requires { length bytes.now ≤ 4096 }
    ensures value { IfOk result (λ block. block ≡ padded bytes.now) }
{
    let mut block = Vec::with_capacity(alloc, BLOCK_SIZE)?;
    block.extend_from_slice(bytes)?;
    block.extend_from_slice(&ZEROS[..BLOCK_SIZE - bytes.len()])?;
    Ok(Block::from_vec(block).unwrap())
}
