//! How a backing file comes to stand on a disk, how it is opened there, and what a crash meanwhile may leave.
//!
//! `make_file` writes a fresh file so that its header is good only once all of it has settled: whatever a crash leaves
//! at any moment is refused by its first bytes, or is the whole file. `mount_file` settles what a crash may have left, opens it, and
//! mends the counts of its status record: nothing else changes, so what a crash had to keep of the file is kept.
#![tactic(auto)]

mod counting;
mod fault;
mod making;
mod mounting;

pub use fault::MountFault;
pub use inc_layout::Mounted;
pub use making::make_file;
pub use mounting::mount_file;
