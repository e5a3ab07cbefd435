//! A session's script, which says whose reads are made and in what order, and the report of what they were answered.
//!
//! [`parse_script`] takes exactly the texts of the grammar and names the first fault of every other text. [`report`] prints one line a
//! read, a loader and a file, and `end`.
#![tactic(auto)]

// The script, and how a text becomes one.
mod parsing;
mod script;

// The report, and the words of faults.
mod report_text;
mod words;

pub use parsing::parse_script;
pub use report_text::{DriveEnd, FileLine, LoaderLine, report};
pub use script::{
    MOST_READERS, MOST_READS, MOST_TEXT, MOST_TIMES, ReaderLine, Script, ScriptFault, TimesLine,
};
pub use words::{fill_word, frame_word, script_word};

/// The one answer that no clause ties to a cause: the allocator refused.
pub type OutOfMemory = std::alloc::AllocError;
