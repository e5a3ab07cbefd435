//! Which blocks of a file are filled, told as ranges.
//!
//! A run is an interval of filled indices that can't be made longer. A question names bounds and how many
//! runs there is room for; the answer has the first runs and says where the next one begins.
#![tactic(auto)]

mod presence;
mod range_list;
mod runs;

pub use presence::Presence;
pub use range_list::RangeList;
pub use runs::{RangeFault, Ranges, filled};

/// The one answer that no clause ties to a cause: the allocator refused.
pub type OutOfMemory = std::alloc::AllocError;

#[cfg(test)]
mod tests;
