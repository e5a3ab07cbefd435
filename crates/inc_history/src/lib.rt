//! One file's history without a device: a file that answers by the relation alone, and runs that say how far a list of entries is legal.
//!
//! Whoever tests or explains the relation steps a `PureFile`: each reply is the table's, and no call fails but for want of memory. `World`
//! goes through rounds of entries from a fresh file on and ends before the first that is no step.
#![tactic(auto)]

// Which entries are steps.
mod entries;
mod history_run;

// A file without a device, and runs from a fresh one.
mod pure_file;
mod world;

pub use entries::{is_entry, is_kept};
pub use pure_file::{PureFault, PureFile};
pub use world::{FRESH_READERS, FRESH_SIZE, Round, World, WorldEnd, fresh_file};
