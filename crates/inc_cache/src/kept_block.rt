// A hash block that is kept.
ghost use Rattle.std.specs.Prelude.{◌≡◌, ◌∷◌, [], length, IfOk};
ghost use Rattle.sha2.specs.Sha256.{sha256};

use crate::OutOfMemory;
use inc_tree::{Block, Digest32, digest_block};
use std::alloc::Global;
use std::marker::Model;

/// A hash block with its digest, so that it is hashed once. Contracts see the block alone.
#[derive(Drop)]
pub struct KeptBlock {
    block: Block,
    digest: Digest32,
}

impl Model for KeptBlock {
    ghost use Rattle.std.specs.Prelude.{◌≡◌, ℕ, List};
    ghost use Rattle.sha2.specs.Sha256.{sha256};

    ghost Value = { List ℕ };

    ghost view = { λ kept. kept.block };

    ghost invariant = { λ kept. kept.digest ≡ sha256 kept.block };
}

impl KeptBlock {
    /// A block whose digest is at hand.
    pub fn of(block: Block, digest: Digest32) -> KeptBlock
        requires { digest ≡ sha256 block }
        ensures value { result ≡ block }
    {
        KeptBlock { block, digest }
    }

    /// A block that wasn't hashed before.
    pub fn hashed(block: Block) -> KeptBlock
        ensures value { result ≡ block }
    {
        let digest = digest_block(block.as_slice());
        KeptBlock { block, digest }
    }

    pub fn copy(&self, alloc: Global) -> Result<KeptBlock, OutOfMemory>
        ensures value { IfOk result (λ kept. kept ≡ self.now) }
    {
        let block = self.block.copy(alloc)?;
        Ok(KeptBlock {
            block,
            digest: self.digest,
        })
    }

    pub fn block(&self) -> &Block
        ensures value { result.now ≡ self.now }
    {
        &self.block
    }

    pub fn digest(&self) -> Digest32
        ensures value { result ≡ sha256 self.now }
    {
        self.digest
    }

    pub fn into_block(self) -> Block
        ensures value { result ≡ self }
    {
        self.block
    }
}
