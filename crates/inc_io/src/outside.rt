//! What is handed in: files that are read by places, the shelf that lends them, input and output.

mod backing;
mod shelf;
mod sink;
mod source;

pub use backing::Backing;
pub use shelf::ReadShelf;
pub use sink::{Sink, write_all};
pub use source::Source;
