//! One file's events on its disk.
//!
//! A `FileCell` joins the model's state to a disk: each event is answered with at most one write or one sync, or with the reads of one
//! block and its path, and enters the history with its reply. A crash at any moment of an event leaves a file that keeps the state
//! before it or the one after, whatever other fills are on their way. Behind a lock a cell is a `Machine` over `CellEvent`.
#![tactic(auto)]

// What goes in and comes out.
mod words;

// The parts of a cell, the cell, and the cell as a machine.
mod cell;
mod machine;
mod parts;

// What holds of every cell.
mod laws;

pub use cell::FileCell;
pub use laws::{
    images_of_a_run, kept_states_reopen, opened_files_can_be_filled, openings_are_states,
};
pub use machine::CellFooting;
pub use words::answer::{Answer, CellReply, HandedBytes};
pub use words::digested::Digested;
pub use words::entry_list::EntryList;
pub use words::event::CellEvent;
pub use words::number_list::NumberList;

/// The one answer that no clause ties to a cause: the allocator refused.
pub type OutOfMemory = std::alloc::AllocError;
