//! The outside as the rest of incfs sees it: what is read, what is written, and how often that failed.
//!
//! Each trait says what a call does where the object tells what it holds, and in any case that it fails only where its count of
//! faults rose. The memory forms tell everything, so tests and proofs can speak of their bytes.
#![tactic(auto)]

// The words of the traits: bytes, names, faults.
mod bytes;
mod failed;
mod name;

// The traits of what is handed in, and their forms in memory.
mod memory;
mod outside;

// What only several threads need.
mod threads;

pub use bytes::Bytes;
pub use failed::{Failed, LendFault};
pub use memory::{MemFile, MemSink, MemSource, Schedule, copy_part};
pub use name::{Name, NameList, has_name, remove_name};
pub use outside::{Backing, ReadShelf, Sink, Source, write_all};
pub use threads::{Bell, Clock, Gate, MemBell, OpenGate, StepClock};

/// The one answer that no clause ties to a cause: the allocator refused.
pub type OutOfMemory = std::alloc::AllocError;

#[cfg(test)]
mod tests;
