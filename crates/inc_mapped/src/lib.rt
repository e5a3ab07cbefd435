//! Files that show a part of another file's content.
//!
//! A mapped file has a header and no blocks: it names its original by its id, an offset at a block's start and a size. Each of its
//! blocks is the front of one block of the original, and `MappedFile::translate` says of which, and how much of it is shown.
#![tactic(auto)]

mod mapped_file;

pub use mapped_file::{MapFault, MappedFile};

#[cfg(test)]
mod tests;
