//! Readers and fillers of one file, each with a seat of its own at the file's lock.
//!
//! A `SharedFile` is a cell behind a ticket lock: each event of a seat is one turn, and all turns leave one history. A [`Reader`] asks for
//! a block, polls until it is handed out, and checks its path outside the lock, where hash blocks that it has verified before are neither
//! read nor hashed again. A [`Filler`] stores pieces under one claim with two syncs for all of them; what is checked or hashed is so outside
//! the lock too. What a call answers, it answers by the entries that its own seat left in the history.
#![tactic(auto)]

// A file that is shared.
mod shared;

// Readers.
mod cell_turn;
mod reader;

// Fills.
mod fill;
mod pass;

pub use fill::{Filler, OutcomeList, TakenReads};
pub use pass::{FillPass, permit_fill};
pub use reader::Reader;
pub use shared::known::KnownFile;
pub use shared::{FileSeat, SharedFile, share, unshare};

/// The one answer that no clause ties to a cause: the allocator refused.
pub type OutOfMemory = std::alloc::AllocError;
