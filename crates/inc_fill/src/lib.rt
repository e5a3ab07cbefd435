//! The device calls by which a block comes into a backing file, and the two counts of its status record.
//!
//! A fill is five calls: the block is written to its place, its place into its entry, the disk is synced, the gate byte of the entry is
//! written, and the disk is synced again. Each call says what it writes, and that at every moment of it each image that a crash may
//! leave is kept, whatever other fills are on their way. So after a crash a block is there whole or not at all.
#![tactic(auto)]

mod laws;
mod padding;
mod status;
mod steps;

pub use inc_tree::Block;
pub use laws::{
    a_release_keeps_the_facts, a_weaker_kind_is_kept_too, open_blocks_are_read_at_their_spots,
    settled_files_can_be_filled,
};
pub use padding::padded;
pub use status::write_status;
pub use steps::{open_gate, settle, write_data, write_place};

/// The one answer that no clause ties to a cause: the allocator refused.
pub type OutOfMemory = std::alloc::AllocError;

#[cfg(test)]
mod tests;
