// What a reader is given: a block that the root vouches for, or one that nothing does.
ghost use Rattle.std.specs.Prelude.{◌≡◌, length};
ghost use Rattle.inc_tree.specs.read_block.Shown.{is_proved, shown_block, shown_content, shown_index, shown_len};

use crate::{Block, Unproved, Verified};

/// A data block as it is shown. It keeps apart what was proved from what wasn't.
#[derive(Drop)]
pub enum Shown {
    Proved(Verified),
    Unproved(Unproved),
}

impl Shown {
    pub fn is_proved(&self) -> bool
        ensures value { result ≡ is_proved self.now }
    {
        match self {
            Shown::Proved(_) => true,
            Shown::Unproved(_) => false,
        }
    }

    pub fn index(&self) -> u32
        ensures value { result ≡ shown_index self.now }
    {
        match self {
            Shown::Proved(block) => block.index,
            Shown::Unproved(block) => block.index,
        }
    }

    /// The bytes that the block has of the file's content.
    pub fn len(&self) -> u32
        ensures value { result ≡ shown_len self.now }
    {
        match self {
            Shown::Proved(block) => block.len,
            Shown::Unproved(block) => block.len,
        }
    }

    /// The block's bytes of the file's content.
    pub fn content(&self) -> &[u8]
        ensures value { result.now ≡ shown_content self.now }
        ensures len { length result.now ≡ shown_len self.now }
    {
        match self {
            Shown::Proved(block) => block.content(),
            Shown::Unproved(block) => block.content(),
        }
    }

    /// The whole block, with zeros after its content.
    pub fn block(&self) -> &Block
        ensures value { result.now ≡ shown_block self.now }
    {
        match self {
            Shown::Proved(block) => &block.bytes,
            Shown::Unproved(block) => &block.bytes,
        }
    }
}
