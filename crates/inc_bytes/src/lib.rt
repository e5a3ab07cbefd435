//! The words that every crate of formats shares: ids, spans of a file, numbers in its bytes and in texts, and the one type of lists.
//!
//! A number is stored with its least byte first. What is got from a place is the number that its bytes
//! stand for, and what is put there is got again; no other byte changes.
#![tactic(auto)]

mod decimals;
mod fields;
mod growing;
mod rows;
mod span;

pub use decimals::{decimal_u32, decimal_u64};
pub use fields::{
    get_u16, get_u32, get_u48, get_u64, put_u16, put_u32, put_u48, put_u64, u16_at, u32_at, u64_at,
};
pub use growing::{push_u16, push_u32, push_u64};
pub use rows::Rows;
pub use span::{Span, SpanList};

/// Want of memory: the one answer that no clause ties to a cause.
pub type OutOfMemory = std::alloc::AllocError;

/// A file's id: 16 bytes, as the header stores them.
pub type Id = [u8; 16];

#[cfg(test)]
mod tests;
