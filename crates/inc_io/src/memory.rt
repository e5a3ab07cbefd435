//! What is handed in, in memory: it tells all of its bytes, and its calls fail as planned.

mod file;
mod part;
mod schedule;
mod sink;
mod source;

pub use file::MemFile;
pub use part::copy_part;
pub use schedule::Schedule;
pub use sink::MemSink;
pub use source::MemSource;
