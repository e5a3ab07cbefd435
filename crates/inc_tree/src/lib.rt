//! The Merkle tree of a file, as fs-verity has it with SHA-256 and blocks of 4096 bytes: the shape that a size gives, the digest of a
//! block, the path from a data block to the root, a block whose path was checked, and the whole tree of a content.
//!
//! A [`Verified`] is a block that the root vouches for. `verify` alone makes one, and it answers exactly where each digest on the path
//! is the one that the level above it names, up to the root itself. A file without a signature has no tree and no root: its shape is
//! flat, and its blocks are [`Unproved`]. [`Shown`] keeps the two apart for whoever prints a block.
//!
//! [`build`] makes the [`Tree`] of a content, in which each block has a path that its root vouches for. A content that isn't in memory is
//! hashed block by block into a [`HashLevel`], and `tree_over` makes the same tree. `collision` says what it would take for another block
//! to pass as the content's: two blocks of one digest.
#![tactic(auto)]

// Shapes, blocks and their digests.
mod block;
mod digest;
mod geometry;

// A block that is read, and the tree of a content that is there whole.
mod content_tree;
mod read_block;

pub use block::{Block, Path};
pub use content_tree::{HashLevel, Tree, TreeFault, build, collision, tree_over};
pub use digest::{digest_block, digest_blocks, digest_four};
pub use geometry::{Geometry, TooLarge};
pub use read_block::{
    Broken, Shown, Unproved, Verified, check_path, slot_digest, verify, verify_digested,
};

/// A SHA-256 digest (FIPS 180-4): 32 bytes.
pub type Digest32 = [u8; DIGEST_SIZE];

/// Want of memory, the one answer of this crate that may come at any time.
pub type OutOfMemory = std::alloc::AllocError;

/// The bytes of a block, of data and of the hash area alike.
pub const BLOCK_SIZE: usize = 4096;

/// The bytes of a digest.
pub const DIGEST_SIZE: usize = 32;

/// The digests that a hash block holds.
pub const DIGESTS_PER_BLOCK: u32 = 128;

/// The most bytes that a file may have.
pub const MOST_SIZE: u64 = 1 << 34;

#[cfg(test)]
mod tests;
