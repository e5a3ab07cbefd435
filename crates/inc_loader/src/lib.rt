//! Loaders: what brings the blocks of files that are read before they have fully arrived.
//!
//! A [`Loader`] is told the reads that wait and gives pieces, a piece being one block of one file. All that it promises is said of what it
//! holds: the reads that it was told, the marks of the pieces that it gave, whether it has ended, and why it is refused if it is.
#![tactic(auto)]

mod fake;
mod gen_loader;
mod held;
mod loader;
mod loader_file;
mod mark;
mod stream;
#[cfg(test)]
mod tests;
mod turn;
mod whole;

pub use fake::FakeLoader;
pub use gen_loader::{FileInWork, GenLoader};
pub use loader::Loader;
pub use loader_file::{FileList, LoaderFile};
pub use mark::PieceMark;
pub use stream::{PieceReader, ReadStop, StreamLoader};
pub use turn::{Given, LoaderTurn};

/// The one answer that no clause ties to a cause: the allocator refused.
pub type OutOfMemory = std::alloc::AllocError;
