//! Files by their ids.
//!
//! An index has an id, a name and whether the file is complete for each of its files, in the order of the ids. No id stands twice: the
//! first name of an id keeps it. The text of an id is read and written here too.
#![tactic(auto)]

mod index;
mod indexed;
mod spelling;

pub use index::{IdName, IdNameList, Index, IndexFault};
pub use indexed::Indexed;
pub use spelling::{id_text, read_id};

/// The one answer that no clause ties to a cause: the allocator refused.
pub type OutOfMemory = std::alloc::AllocError;

#[cfg(test)]
mod tests;
