// A block that the root vouches for.
ghost use Rattle.std.specs.Prelude.{◌≡◌, ◌<◌, ◌-◌, length, drop, replicate};
ghost use Rattle.inc_tree.specs.shape.Geometry.{data_blocks, block_len};
ghost use Rattle.inc_tree.specs.read_block.Path.{IsProof};

mod check;

use crate::{Block, Digest32, Geometry, Path};
pub use check::{verify, verify_digested};

/// A data block whose path was checked. `verify` alone makes one.
#[derive(Drop)]
pub struct Verified {
    pub root: Digest32,
    pub geometry: Geometry,
    pub index: u32,
    /// The bytes that the block has of the file's content. Zeros stand after them.
    pub len: u32,
    pub bytes: Block,
    pub path: Path,
    made: Made,
    pub ghost here: { index < data_blocks geometry },
    pub ghost sized: { len ≡ block_len geometry index },
    pub ghost cleared: { drop len bytes ≡ replicate (4096 - len) 0 },
    pub ghost good: { IsProof root geometry index bytes path },
}

// No code outside this module can write one, so none can write a `Verified`.
#[derive(Drop)]
struct Made;

impl Verified {
    ghost use Rattle.inc_tree.specs.read_block.Verified.{content_of};

    /// The block's bytes of the file's content.
    pub fn content(&self) -> &[u8]
        ensures value { result.now ≡ content_of self.now }
        ensures len { length result.now ≡ self.now.len }
    {
        &self.bytes.as_slice()[..self.len as usize]
    }
}
