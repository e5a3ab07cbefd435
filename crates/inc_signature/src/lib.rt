//! The signature blob of a backing file: the root of its hash tree, and signing info that is kept as it is.
//!
//! A blob is read exactly where it is what its root and its signing info print; else the fault is that of
//! the first test that it fails. A salt and bytes after an end are refused by name. What is printed is read again.
#![tactic(auto)]

mod parsing;
mod signature;
mod writing;

pub use parsing::{MOST_BLOB, parse};
pub use signature::{SigFault, SigInfo};
pub use writing::print;

#[cfg(test)]
mod tests;
