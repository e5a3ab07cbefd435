// How large a file and its history may be.

use inc_tree::{BLOCK_SIZE, MOST_SIZE};

/// The most entries and claimed places of one history.
pub const MOST_ENTRIES: u64 = 1 << 26;

/// The most data blocks of a file: those of its greatest size.
pub const MOST_DATA_BLOCKS: u32 = (MOST_SIZE / BLOCK_SIZE as u64) as u32;

/// A file has at most so many blocks, hash blocks among them.
pub const MOST_BLOCKS: u32 = 2 * MOST_DATA_BLOCKS;

/// The serials of a state that one begins from are below this one, so that all later ones fit.
pub const FIRST_SERIALS: u32 = 1 << 31;
