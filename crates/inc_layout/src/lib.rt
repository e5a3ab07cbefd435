//! Which bytes are a backing file, and what a read of one of its blocks answers.
//!
//! `open_shape` judges the parts that never move, then the chain and the block map, without reading a block; `open_layout` hashes the
//! stored blocks too. `read_laid` reads one block by the class of its entry and the path of its hashes. A block of a signed file is
//! handed out only as a `Verified` value, whose type keeps that its path proves it against the file's root; a block of an unsigned
//! file, which has no root, only as an `Unproved` one.
#![tactic(auto)]

// What an opening gives.
mod fault;
mod mounted;
mod opened;

// Opening a file: what never moves, then its map and its stored blocks.
mod fixed;
mod opening;
mod room;

// Reading and checking a block of it.
mod reading;

// A new file, and what stays of one.
mod fresh;
mod laws;

pub use fault::LayoutFault;
pub use fixed::{Front, read_front};
pub use fresh::{FreshFault, FreshImage, fresh_image, fresh_unsigned};
pub use laws::{fixed_part_stays, kept_images_preserve, kinds_agree, opened_files_have_parts};
pub use mounted::Mounted;
pub use opened::{ClassList, DigestList, Layout, Opened};
pub use opening::{open_digests, open_layout, open_shape};
pub use reading::{
    KeptPath, StaticError, StoredError, check_opened, read_laid, read_opened, read_stored,
    show_laid, show_opened,
};

type OutOfMemory = std::alloc::AllocError;
