//! The disk, and what a crash may leave of it.
//!
//! `Disk` is a backing file that is written and synced. It tells the list of states that it has been in, each with what it reads
//! as, what the last sync left and which ranges were written since; so what a crash at any moment may leave is plain data. `MemDisk` is a disk in
//! memory, for tests: it fails where it is told to, and says of any bytes whether a crash might leave them. `Shelf` lends disks by name and
//! keeps one list of the states of all its files, and `MemShelf` is one in memory. The functions of `laws` state how the images of a run of calls
//! go together, and those of a name while its disk is lent, once for all crates above.
#![tactic(auto)]

mod book;
mod disk;
mod entry;
mod history;
mod laws;
mod memory_disk;
mod memory_shelf;
mod newest;
mod shelf;
mod shelf_log;
mod state;

pub use disk::Disk;
pub use laws::{
    a_returned_disk_joins_its_images, images_go_on, images_since, runs_join, sync_leaves_one_image,
};
pub use memory_disk::MemDisk;
pub use memory_shelf::MemShelf;
pub use shelf::Shelf;

/// The one answer that no clause ties to a cause: the allocator refused.
pub type OutOfMemory = std::alloc::AllocError;
