//! The hash blocks that a reader has verified, so that they are neither read again nor hashed again.
//!
//! A [`HashCache`] keeps hash blocks of one file by their numbers, each of which stood on a path that the file's root vouches for. Where
//! it is full, the one that was used least recently goes. [`HashCache::known_path`] copies what is kept of a block's path, and
//! [`KnownPath::check`] checks the block with it and with those blocks of the path that were read anew: these are hashed, and nothing
//! else is. What comes of it is what comes of hashing the whole path. [`HashCache::keep_path`] keeps the blocks of a path that was good.
#![tactic(auto)]

// What is kept.
mod cache;
mod kept_block;

// A path of which some blocks are kept.
mod known_path;

pub use cache::HashCache;
pub use known_path::KnownPath;

/// The one answer that no clause ties to a cause: the allocator refused.
pub type OutOfMemory = std::alloc::AllocError;

#[cfg(test)]
mod tests;
