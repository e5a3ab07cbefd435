// A block of a file without a tree: nothing vouches for it.
ghost use Rattle.std.specs.Prelude.{◌≡◌, ◌-◌, ◌≤◌, length, drop, replicate};

use crate::{Block, Geometry};

/// A data block that no root vouches for. `Unproved::of` alone makes one.
#[derive(Drop)]
pub struct Unproved {
    pub index: u32,
    /// The bytes that the block has of the file's content. Zeros stand after them.
    pub len: u32,
    pub bytes: Block,
    made: Made,
    pub ghost sized: { len ≤ 4096 },
    pub ghost cleared: { drop len bytes ≡ replicate (4096 - len) 0 },
}

// No code outside this module can write one, so none can write an `Unproved`.
#[derive(Drop)]
struct Made;

impl Unproved {
    ghost use Rattle.std.specs.Prelude.{◌<◌};
    ghost use Rattle.inc_tree.specs.shape.Geometry.{data_blocks, block_len};
    ghost use Rattle.inc_tree.specs.read_block.Path.{padded};
    ghost use Rattle.inc_tree.specs.read_block.Verified.{content_at};
    ghost use Rattle.inc_tree.specs.read_block.Unproved.{unproved_content};

    /// Keeps a data block's content, and puts zeros in place of what stands after it in `bytes`. It takes no memory.
    pub fn of(tree: &Geometry, index: u32, mut bytes: Block) -> Unproved
        requires here { index < data_blocks tree.now }
        ensures index { result.index ≡ index }
        ensures len { result.len ≡ block_len tree.now index }
        ensures bytes { result.bytes ≡ padded (content_at tree.now index bytes) }
    {
        let len = tree.block_len(index);
        bytes.clear_from(len);
        Unproved {
            index,
            len,
            bytes,
            made: Made,
        }
    }

    /// The block's bytes of the file's content.
    pub fn content(&self) -> &[u8]
        ensures value { result.now ≡ unproved_content self.now }
        ensures len { length result.now ≡ self.now.len }
    {
        &self.bytes.as_slice()[..self.len as usize]
    }
}
