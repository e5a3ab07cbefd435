//! A loader's stream, read in any pieces, and what is written to a loader and by one.
//!
//! A stream is a hello, frames and an end. [`FrameReader`] gives each piece once its frame is whole and names the first fault.
//! What it has given after any calls is what the joined bytes hold, however they were cut.
#![tactic(auto)]

// The words of a stream.
mod fault;
mod piece;

// Reading it, and what holds of every stream.
mod laws;
mod reader;
mod reading;
mod stage;
mod stage_steps;

// Writing it.
mod writing;

pub use fault::FrameFault;
pub use laws::streams_are_read;
pub use piece::{Piece, PieceList};
pub use reader::{Fed, FrameReader};
pub use writing::{
    request_hello, request_hello2, write_end, write_frame, write_hello, write_request,
    write_request2, write_stop,
};

/// The one answer that no clause ties to a cause: the allocator refused.
pub type OutOfMemory = std::alloc::AllocError;

#[cfg(test)]
mod tests;
