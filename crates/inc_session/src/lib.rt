//! Sessions: loaders that bring the blocks of files while readers wait for them.
//!
//! [`drive`] drives one loader over its files: turn by turn it tells it the reads that wait, asks it for pieces, and fills them in. What it
//! did is told by the entries that its own seats left in the files' histories.
#![tactic(auto)]

mod driving;

pub use driving::{drive, drive_loader};

/// The one answer that no clause ties to a cause: the allocator refused.
pub type OutOfMemory = std::alloc::AllocError;
