// What is reported of a loader and of a file.

use inc_frame::FrameFault;
use inc_io::Name;
use inc_model::FillError;

/// How a loader's drive came to its end.
#[derive(Clone, Copy, Debug, PartialEq, Eq)]
pub enum DriveEnd {
    /// The loader has ended.
    Done,
    /// No file has readers left.
    Stopped,
    /// A piece names none of the files.
    UnknownFile,
    /// A fill of its pieces was refused, by one of the first five errors.
    Refused(FillError),
    /// Its stream is refused.
    Frame(FrameFault),
    /// The loader or a disk failed.
    Fault,
    /// A file takes no more fills.
    Failed,
    HistoryFull,
    OutOfMemory,
}

/// What is reported of a loader.
#[derive(Clone, Copy, Debug, PartialEq, Eq)]
pub struct LoaderLine {
    pub end: DriveEnd,
    /// How many pending reads it was told.
    pub told: u64,
    /// How many of its pieces were written,
    pub written: u64,
    /// were there already,
    pub present: u64,
    /// and were being filled by another window.
    pub busy: u64,
}

/// What is reported of a mounted plain file.
#[derive(Drop)]
pub struct FileLine {
    pub name: Name,
    /// How many entries its history has.
    pub entries: u64,
    /// How many of its blocks, data and hash, are in the map,
    pub filled: u32,
    /// of so many.
    pub total: u32,
    /// How many finished reads its log keeps, and how many it has lost.
    pub kept: u64,
    pub lost: u64,
}
