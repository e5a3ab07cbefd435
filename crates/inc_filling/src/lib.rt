//! One file's pieces go in, group by group, over its cell.
//!
//! A group is at most 64 pieces that the file takes, of different indices. It is filled under one claim: all blocks, then the places of those
//! that weren't there, a sync, their gates, a sync, and the release. Once it answers `Ok`, each piece's index is open and acknowledged, nothing
//! is in flight, and the file reads as a definition on its bytes makes it, piece by piece. After a fault of the disk what was put is a front of
//! the pieces, and for want of room or memory nothing has changed.
//!
//! A stream is filled in group by group as it is read ([`fill_from`]). Whatever ends it, a piece that the file doesn't take, its fault, its end or a
//! fault of its source, the pieces before that go in first.
//!
//! A generated content is filled in likewise ([`fill_generated`]): its hash blocks are held, and of its data blocks no more than a group.
#![tactic(auto)]

mod filling;
mod from_stream;
mod generated;
mod group;
mod laws;
mod pieces;
mod refusal;
mod stop;
mod window;

pub use filling::{Filling, join_fillings};
pub use from_stream::rounds::FillTotals;
pub use from_stream::{FillEnd, FillFailure, Filled, fill_from};
pub use generated::fill_generated;
pub use group::{MOST_BLOCKS_OF_GROUP, fill_group};
pub use laws::{new_cells_are_fillable, new_files_take_contents};
pub use pieces::fill_pieces;
pub use refusal::{PieceRefusal, piece_refusal};
pub use stop::FillStop;

/// The one answer that no clause ties to a cause: the allocator refused.
pub type OutOfMemory = std::alloc::AllocError;
