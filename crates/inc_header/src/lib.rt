//! The file header: the first 56 bytes of a backing file.
//!
//! A header is read exactly where its bytes are the one spelling of a header, whatever follows them;
//! else the fault is that of the first test that they fail. What is written is that spelling.
#![tactic(auto)]

mod header;
mod reading;
mod writing;

pub use header::{Header, HeaderFault, HeaderKind};
pub use reading::{HEADER_LEN, read_header};
pub use writing::write_header;

#[cfg(test)]
mod tests;
