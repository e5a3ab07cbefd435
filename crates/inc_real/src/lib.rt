//! The real outside: the current folder, its files as disks, the standard streams, the clock and the bell.
//!
//! This is the trusted edge. Each object is a few lines around std's call, meets its trait, and tells nothing of what it holds but how
//! often it has failed; a source also whether its input has ended. What a file system or a drive does with what it is given no clause
//! here can say.
#![tactic(auto)]

mod bell;
mod clock;
mod disk;
mod file;
mod file_sink;
mod file_source;
mod folder;
mod null_sink;
mod sink;
mod source;

pub use bell::RealBell;
pub use clock::RealClock;
pub use disk::RealDisk;
pub use file::{FileCall, PlacedFile};
pub use file_sink::FileSink;
pub use file_source::FileSource;
pub use folder::FolderShelf;
pub use null_sink::NullSink;
pub use sink::StdSink;
pub use source::StdSource;

#[cfg(test)]
mod tests;
