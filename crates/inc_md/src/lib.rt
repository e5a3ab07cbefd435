//! The chain of metadata records of a backing file: where its block map, its signature and its hash tree lie.
//!
//! [`walk`] follows the chain from its first record, and answers what the records say or the first test that one of them fails.
//! What it answers depends on the file's bytes alone, but for a device that fails and for want of memory.
#![tactic(auto)]

mod fault;
mod head;
mod kinds;
mod laws;
mod records;
mod walking;

pub use fault::ChainFault;
pub use kinds::{
    HEAD_SIZE, MAP_KIND, MAP_RECORD_SIZE, MOST_RECORDS, SIGNATURE_KIND, SIGNATURE_RECORD_SIZE,
    STATUS_KIND, STATUS_RECORD_SIZE,
};
pub use laws::chain_stays;
pub use records::{MapRecord, Records, SigRecord, StatusRecord};
pub use walking::walk;

#[cfg(test)]
mod tests;
