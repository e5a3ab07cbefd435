//! The words that a command is named by, and the words that it answers in: lines, refusals, exit statuses.
//!
//! [`parse_words`] takes exactly the words of the grammar, and names the position of the first that doesn't fit. Each fault of a file or a
//! block has one word, and one that comes from outside the file, a device's or the allocator's, has none: it is a [`Stop`].
#![tactic(auto)]

// The words that come in.
mod words;

// How a command ends, and what stops it.
mod outcome;
mod status;
mod stop;

// The words that go out.
mod texts;

pub use outcome::{CommandOutcome, refuse, refuse_block, refuse_layout, refuse_stream};
pub use status::Status;
pub use stop::Stop;
pub use texts::lines::{
    big_line, checked_line, fill_line, made_line, part_of, refused_line, words_line, written_line,
};
pub use texts::refusals::{
    bad_range, exists, layout_word, missing, no_original, past_original, root_differs, same_id,
    signature_word, too_large, too_long, unknown_file, unsigned,
};
pub use words::{Command, FileCommand, WordsFault, parse_words};

/// Want of memory: the one answer that no clause ties to a cause.
pub type OutOfMemory = std::alloc::AllocError;
