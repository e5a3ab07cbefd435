//! The entries of a backing file's block map: which blocks are there, and where.
//!
//! [`class`] judges the ten bytes of an entry by the format's table. An entry is open only where its block lies inside the file and
//! apart from everything else in it, so that no write of a block can reach the header, the records, the map or the tree.
//!
//! Its definitions also say of a file's bytes what a block's stored content and digest are, and what a crash keeps of each entry while
//! the file is being filled: the crates that fill a file stand on these words alone.
#![tactic(auto)]

mod areas;
mod classes;
mod entry;
mod judging;

pub use areas::{Areas, ENTRY_SIZE};
pub use classes::Class;
pub use entry::{gate_byte, is_clear, offset_bytes};
pub use judging::{class, entry_at, is_past_end};

#[cfg(test)]
mod tests;
