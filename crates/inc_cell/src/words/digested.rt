// A block with its digest, so that it is hashed once and outside any lock.
ghost use Rattle.std.specs.Prelude.{◌≡◌, ◌≤◌, take, length};
ghost use Rattle.inc_tree.specs.read_block.Path.{block_digest, padded};
ghost use Rattle.sha2.specs.Sha256.{sha256};
ghost use Rattle.inc_cell.specs.device.Digested.{digested};

mod group;
mod hint;

use inc_tree::{Block, Digest32, digest_block};
use std::marker::Model;

/// A block of which the first `len` bytes count, with zeros after them, and its digest.
#[derive(Drop)]
pub struct Digested {
    block: Block,
    len: u32,
    digest: Digest32,
}

impl Model for Digested {
    ghost use Rattle.inc_cell.specs.device.Digested.{DigestedBlock, IsDigested};

    ghost Value = { DigestedBlock };

    ghost view = { λ d. record { bytes = d.block; len = d.len; digest = d.digest } };

    ghost invariant = { λ d. IsDigested (record { bytes = d.block; len = d.len; digest = d.digest }) };
}

impl Digested {
    /// Hashes the first `len` bytes of a block as filled up with zeros, and puts those zeros there. It takes no memory.
    pub fn of(block: Block, len: u32) -> Digested
        requires { len ≤ 4096 }
        ensures value { result ≡ digested block len }
    {
        let mut block = block;
        block.clear_from(len);
        let digest = digest_block(block.as_slice());
        Digested { block, len, digest }
    }

    /// Of a block that has its zeros, and was hashed.
    fn hashed(block: Block, len: u32, digest: Digest32) -> Digested
        requires most { len ≤ 4096 }
        requires zeros { block ≡ padded (take len block) }
        requires hashed { digest ≡ sha256 block }
        ensures value { result ≡ digested block len }
    {
        Digested { block, len, digest }
    }

    /// The 4096 bytes, with zeros from `len` on.
    pub fn bytes(&self) -> &[u8]
        ensures value { result.now ≡ self.now.bytes }
        ensures whole { length result.now ≡ 4096 }
        ensures zeros { self.now.bytes ≡ padded (take self.now.len self.now.bytes) }
    {
        self.block.as_slice()
    }

    /// The block alone.
    pub fn block(&self) -> &Block
        ensures value { result.now ≡ self.now.bytes }
        ensures whole { length result.now ≡ 4096 }
    {
        &self.block
    }

    /// How many of the bytes count.
    pub fn len(&self) -> u32
        ensures value { result ≡ self.now.len }
        ensures most { result ≤ 4096 }
    {
        self.len
    }

    /// The digest of the bytes that count, filled up with zeros.
    pub fn digest(&self) -> Digest32
        ensures value { result ≡ self.now.digest }
        ensures hashed { result ≡ block_digest (take self.now.len self.now.bytes) }
    {
        self.digest
    }

    /// The block alone.
    pub fn into_block(self) -> Block
        ensures value { result ≡ self.bytes }
    {
        self.block
    }
}
