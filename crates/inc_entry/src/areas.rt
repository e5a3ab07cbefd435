ghost use Rattle.std.specs.Prelude.{◌≡◌, ◌+◌, ◌*◌, ◌<◌, ◌^◌};
ghost use Rattle.inc_tree.specs.shape.Geometry.{data_blocks, hash_blocks};
ghost use Rattle.inc_entry.specs.Entry.{area_places, entries, map_span, tree_span, entry_at, fits, has_size, hash_block_place};

use crate::is_clear;
use inc_bytes::{Span, SpanList};
use inc_tree::{BLOCK_SIZE, Geometry};

/// The bytes of an entry.
pub const ENTRY_SIZE: u64 = 10;

/// Where things lie in a backing file.
#[derive(Drop)]
pub struct Areas {
    /// The file's length in bytes.
    pub len: u64,
    /// The spans of the header, of the records in the chain's order, and of the signature blob where there is one.
    pub spans: SpanList,
    /// The place of the block map.
    pub map_at: u64,
    /// The place of the hash tree.
    pub hash_at: u64,
    pub geometry: Geometry,
}

impl Areas {
    /// The bytes of the block map.
    pub fn map_span(&self) -> Span
        ensures value { result ≡ map_span (area_places self.now) }
    {
        Span {
            at: self.map_at,
            len: ENTRY_SIZE
                * (self.geometry.data_blocks() as u64 + self.geometry.hash_blocks() as u64),
        }
    }

    /// The bytes of the hash tree.
    pub fn tree_span(&self) -> Span
        ensures value { result ≡ tree_span (area_places self.now) }
    {
        Span {
            at: self.hash_at,
            len: BLOCK_SIZE as u64 * self.geometry.hash_blocks() as u64,
        }
    }

    /// The place of a hash block: those stand in the tree, one after the other, the top level first.
    pub fn hash_block_at(&self, hash: u32) -> u64
        requires here { hash < hash_blocks self.now.geometry }
        requires end { self.now.hash_at + 4096 * hash_blocks self.now.geometry < 2 ^ 64 }
        ensures value { result ≡ hash_block_place (area_places self.now) hash }
    {
        self.hash_at + BLOCK_SIZE as u64 * hash as u64
    }
}
