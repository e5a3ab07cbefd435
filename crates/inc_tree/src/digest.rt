// SHA-256 (FIPS 180-4) of blocks.
ghost use Rattle.std.specs.Prelude.{◌≡◌, ◌≤◌, ◌++◌, [], ◌∷◌, length, map};
ghost use Rattle.inc_tree.specs.read_block.Path.{block_digest};
ghost use Rattle.sha2.specs.Sha256.{sha256};

mod constants;
mod four;
mod lanes;
mod rounds;

use crate::{BLOCK_SIZE, Block, Digest32};
pub use four::digest_four;
use sha2::{Digest, Sha256};

static ZEROS: [u8; BLOCK_SIZE] = [0; BLOCK_SIZE];

/// The digest of a block of at most 4096 bytes, which is hashed as filled up with zeros to 4096. It takes no memory.
pub fn digest_block(bytes: &[u8]) -> Digest32
    requires { length bytes.now ≤ 4096 }
    ensures value { result ≡ block_digest bytes.now }
{
    digest_of_parts(bytes, &ZEROS[..BLOCK_SIZE - bytes.len()])
}

fn digest_of_parts(first: &[u8], second: &[u8]) -> Digest32
    ensures value { result ≡ sha256 (first.now ++ second.now) }
{
    let mut hasher = Sha256::new();
    hasher.update(first);
    hasher.update(second);
    hasher.finalize()
}

// The digest of some bytes as they are.
pub(crate) fn digest_whole(bytes: &[u8]) -> Digest32
    ensures value { result ≡ sha256 bytes.now }
{
    let mut hasher = Sha256::new();
    hasher.update(bytes);
    hasher.finalize()
}

/// Puts the digest of each block into its place in `digests`: four at once, and the last one to three by themselves. It takes no memory.
pub fn digest_blocks(blocks: &[Block], digests: &mut [Digest32])
    requires places { length digests.old ≡ length blocks.now }
    ensures value { digests.new ≡ map sha256 blocks.now }
{
    let fours = blocks.len() / 4;
    'fours: for four in 0..fours {
        let at = 4 * four;
        let digested = digest_four(
            blocks[at].as_slice(),
            blocks[at + 1].as_slice(),
            blocks[at + 2].as_slice(),
            blocks[at + 3].as_slice(),
        );
        digests[at..at + 4].copy_from_slice(&digested);
    }
    'last: for index in 4 * fours..blocks.len() {
        digests[index] = digest_whole(blocks[index].as_slice());
    }
}
