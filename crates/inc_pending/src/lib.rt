//! The reads of one file that wait for their blocks, and how long each user's reads wait.
//!
//! A reader asks for a block and polls until it is answered. A read whose block was there when it was
//! asked, or came since, is done: it is handed out from its floor on, also past its deadline. A read whose
//! block never came times out at its deadline, and not before. A read of another asker is a stranger's, and
//! every other answer is to wait. A read that was handed out or timed out is gone.
#![tactic(auto)]

mod pending_record;
mod reads;
mod table;
mod timeouts;

pub use pending_record::{PendingRecord, RecordList};
pub use reads::{Decision, ReadRow, asked_read, drop_read, look_at, mark_reads, pending_after};
pub use table::Table;
pub use timeouts::{DEFAULT_TIMES, MOST_ROWS, Timeouts, Times, TimesFault};

/// The one answer that no clause ties to a cause: the allocator refused.
pub type OutOfMemory = std::alloc::AllocError;

#[cfg(test)]
mod tests;
