// Blocks, and lists of them. Neither type says how its memory is kept: contracts see the bytes alone.
ghost use Rattle.std.specs.Prelude.{◌≡◌, ◌≢◌, ◌+◌, ◌-◌, ◌*◌, ◌<◌, ◌≤◌, ◌++◌, ℕ, List, length, take, drop, replicate, vec_len, All, IfOk, IfSome, IfNone, OnSome};
ghost use Rattle.inc_tree.specs.read_block.Path.{padded};

use crate::{BLOCK_SIZE, DIGEST_SIZE, Digest32, OutOfMemory};
use std::alloc::Global;
use std::marker::Model;

/// Exactly 4096 bytes.
#[derive(Drop)]
pub struct Block {
    bytes: Vec<u8>,
}

impl Model for Block {
    ghost use Rattle.std.specs.Prelude.{◌≡◌, ℕ, List, length};

    ghost Value = { List ℕ };

    ghost view = { λ block. block.bytes.items };

    ghost invariant = { λ block. length block.bytes.items ≡ 4096 };
}

impl Block {
    /// A copy of these bytes, if they are a block.
    pub fn of(alloc: Global, bytes: &[u8]) -> Result<Option<Block>, OutOfMemory>
        ensures same { IfOk result (λ made. IfSome made (λ block. block ≡ bytes.now)) }
        ensures whole { IfOk result (λ made. OnSome made (length bytes.now ≡ 4096)) }
        ensures none { IfOk result (λ made. IfNone made (length bytes.now ≢ 4096)) }
    {
        if bytes.len() != BLOCK_SIZE {
            return Ok(None);
        }
        let bytes = bytes.to_vec(alloc)?;
        Ok(Some(Block { bytes }))
    }

    /// These bytes themselves, if they are a block. It takes no memory.
    pub fn from_vec(bytes: Vec<u8>) -> Option<Block>
        ensures same { IfSome result (λ block. block ≡ bytes.items) }
        ensures whole { OnSome result (length bytes.items ≡ 4096) }
        ensures none { IfNone result (length bytes.items ≢ 4096) }
    {
        if bytes.len() == BLOCK_SIZE {
            Some(Block { bytes })
        } else {
            None
        }
    }

    /// A block of zeros.
    pub fn zeros(alloc: Global) -> Result<Block, OutOfMemory>
        ensures value { IfOk result (λ block. block ≡ replicate 4096 0) }
    {
        let bytes = vec![in alloc; 0; BLOCK_SIZE]?;
        Ok(Block { bytes })
    }

    // These bytes, filled up with zeros.
    pub(crate) fn padded(alloc: Global, bytes: &[u8]) -> Result<Block, OutOfMemory>
        requires { length bytes.now ≤ 4096 }
        ensures value { IfOk result (λ block. block ≡ padded bytes.now) }
    {
        let mut bytes = bytes.to_vec(alloc)?;
        bytes.resize(BLOCK_SIZE, 0)?;
        Ok(Block { bytes })
    }

    pub fn as_slice(&self) -> &[u8]
        ensures value { result.now ≡ self.now }
        ensures len { length result.now ≡ 4096 }
    {
        &self.bytes
    }

    /// The bytes themselves, 4096 of them.
    pub fn into_vec(self) -> Vec<u8>
        ensures value { result.items ≡ self }
        ensures len { vec_len result ≡ 4096 }
    {
        self.bytes
    }

    /// Another block of the same bytes.
    pub fn copy(&self, alloc: Global) -> Result<Block, OutOfMemory>
        ensures value { IfOk result (λ block. block ≡ self.now) }
    {
        let bytes = self.bytes.as_slice().to_vec(alloc)?;
        Ok(Block { bytes })
    }

    // Puts a digest into one of the block's slots.
    pub(crate) fn put_digest(&mut self, slot: u32, digest: &Digest32)
        requires { slot < 128 }
        ensures value { self.new ≡ take (32 * slot) self.old ++ (digest.now ++ drop (32 * slot + 32) self.old) }
    {
        let at = slot as usize * DIGEST_SIZE;
        self.bytes[at..at + DIGEST_SIZE].copy_from_slice(digest);
    }

    /// Puts zeros from the byte `from` on, as a block that ends there is hashed.
    pub fn clear_from(&mut self, from: u32)
        requires { from ≤ 4096 }
        ensures value { self.new ≡ take from self.old ++ replicate (4096 - from) 0 }
    {
        self.bytes[from as usize..].fill(0);
    }
}

/// Hash blocks from the leaf level upwards, or in the order of the hash area where they are a whole tree.
#[derive(Drop)]
pub struct Path {
    blocks: Vec<Block>,
}

impl Model for Path {
    ghost use Rattle.std.specs.Prelude.{◌≡◌, ℕ, List, length, All};

    ghost Value = { List (List ℕ) };

    ghost view = { λ path. path.blocks.items };

    ghost invariant = { λ path. All (λ block. length block ≡ 4096) path.blocks.items };
}

impl Path {
    /// A copy of these blocks.
    pub fn of(alloc: Global, blocks: &[Block]) -> Result<Path, OutOfMemory>
        ensures value { IfOk result (λ path. path ≡ blocks.now) }
    {
        let mut copies = Vec::with_capacity(alloc, blocks.len())?;
        for block in blocks {
            copies.push(block.copy(alloc)?)?;
        }
        Ok(Path::from_vec(copies))
    }

    /// These blocks themselves. It takes no memory.
    pub fn from_vec(blocks: Vec<Block>) -> Path
        ensures value { result ≡ blocks.items }
    {
        prove!(
            blocks
                .iter()
                .all(|block| block.as_slice().len() == BLOCK_SIZE)
        );
        Path { blocks }
    }

    pub fn as_slice(&self) -> &[Block]
        ensures value { result.now ≡ self.now }
        ensures whole { All (λ block. length block ≡ 4096) result.now }
    {
        &self.blocks
    }

    pub fn into_vec(self) -> Vec<Block>
        ensures value { result.items ≡ self }
    {
        self.blocks
    }
}
