//! What one file does, event by event: its state, the events of readers and loaders, the replies that are right, and what each changes.
//!
//! The relation is written once, in `specs/`. A file's cell keeps a history that is legal by it, a ticket lock gives each seat one place in
//! that history, and the functions of `laws` say what holds of every legal history, also over crashes. No part of the relation names a disk,
//! a thread or a clock: those bring their counts of faults, their order and their numbers in as arguments of events and replies.
#![tactic(auto)]

// The words of the relation, and what holds of every history.
mod laws;
mod words;

// The executed relation, over what is known of each index.
mod file_core;
mod indices;
mod state_lists;

pub use file_core::FileCore;
pub use file_core::copies::{copy_reply, copy_state};
pub use file_core::places::window_of;
pub use inc_bytes::{Id, Rows};
pub use inc_pending::{ReadRow, RecordList, Times};
pub use inc_ranges::RangeList;
pub use inc_tree::Digest32;
pub use indices::Indices;
pub use indices::index_rows::IndexRows;
pub use indices::slots::Slots;
pub use laws::{
    cores_are_held, entries_are_owned, facts_stay, faults_are_told, fills_go_by_stages,
    histories_are_worlds, histories_join, histories_stay_small, openings_are_lists,
    others_keep_own, polls_go_by_the_map, ranges_tell_the_map, reads_stay, reads_were_asked,
    worlds_keep,
};
pub use words::event::{Event, Window};
pub use words::file_state::{FileState, FlightRow, Stage};
pub use words::limits::{FIRST_SERIALS, MOST_BLOCKS, MOST_DATA_BLOCKS, MOST_ENTRIES};
pub use words::machine::Machine;
pub use words::outcomes::{FillError, Found, Outcome, ReadError};
pub use words::reply::{Entry, Reply};

/// The one answer that no clause ties to a cause: the allocator refused.
pub type OutOfMemory = std::alloc::AllocError;
