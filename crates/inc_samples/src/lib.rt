//! Small backing files for tests, as a program outside this repository makes them, and what is said of them.
//!
//! Nothing here is made by the crates that the tests try: what a file holds and what is printed of it comes from outside.
#![tactic(auto)]

mod files;

pub use files::{
    DATA_TURNED, HASH_TURNED, ID, blob_of_one, blob_of_two, changed, content, empty, one,
    one_fresh, two, two_fresh, with_blocks,
};
