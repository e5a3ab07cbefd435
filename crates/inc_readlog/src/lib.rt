//! The log of the reads of a file that ended last.
//!
//! It has room for a number of reads, which is taken once. A read more than that takes the place of the
//! oldest, and is counted as one lost. So the log always tells the last reads, oldest first, and how many
//! ended before them.
#![tactic(auto)]

mod entry;
mod read_log;

pub use entry::LogEntry;
pub use read_log::ReadLog;

/// The one answer that no clause ties to a cause: the allocator refused.
pub type OutOfMemory = std::alloc::AllocError;

#[cfg(test)]
mod tests;
