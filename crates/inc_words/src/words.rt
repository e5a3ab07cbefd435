ghost use Rattle.std.specs.Prelude.{◌≡◌, map};
ghost use Rattle.std.specs.String.{string_bytes};
ghost use Rattle.inc_words.specs.Parsing.{Reads};
ghost use Rattle.inc_words.specs.Words.{command_of};
ghost use Rattle.inc_words.specs.declared.words.WordsFault.TheVariants.{OutOfMemory as out_of_memory};

mod big;
mod check;
mod fill;
mod inspect;
mod listing;
mod make;
mod ranges;
mod read;
mod root;

use big::{is_big, parse_big};
use check::{is_check, parse_check};
use fill::{is_fill, parse_fill};
use inc_bytes::Id;
use inc_io::Name;
use inc_tree::Digest32;
use inspect::{is_inspect, parse_inspect};
use listing::{is_list, parse_list};
use make::{is_make, parse_make};
use ranges::{is_ranges, parse_ranges};
use read::{is_read, parse_read};
use std::alloc::{AllocError, Global};

/// A command as its words name it.
#[derive(Drop)]
pub enum Command {
    /// Make a new file for a content of so many bytes: without a signature, or from the signature blob in the input.
    Make {
        name: Name,
        size: u64,
        id: Id,
        unsigned: bool,
    },
    /// Fill the pieces of the stream in the input into the file.
    Fill {
        name: Name,
    },
    /// Make a new file for the generated content of this number and size, fill it and check it.
    Big {
        name: Name,
        number: u64,
        size: u64,
    },
    /// Read the named file, and write nothing.
    Over {
        name: Name,
        command: FileCommand,
    },
    /// Say of each name what stands under it, and write nothing.
    Listing,
}

/// A command that only reads, and one file alone.
#[derive(Clone, Copy)]
pub enum FileCommand {
    /// Print a data block, where the file has this root. Of a file without a signature a block is printed only where it is taken unproved.
    Read {
        index: u32,
        root: Option<Digest32>,
        unproved: bool,
    },
    /// Check each data block, where the file has this root.
    Check {
        root: Option<Digest32>,
    },
    /// Print what the file says of itself.
    Inspect,
    /// Print which blocks between two indices are there: the first so many ranges of them, and where the next one begins.
    Ranges {
        start: u32,
        end: u32,
        room: u32,
    },
}

/// Why words are no command.
#[derive(Clone, Copy, Debug, PartialEq, Eq)]
pub enum WordsFault {
    /// The word at this position, from 0, is the first that doesn't fit, or the first that is missing.
    Bad { at: usize },
    OutOfMemory,
}

impl From<AllocError> for WordsFault {
    ghost from_gives = { λ _ fault. fault ≡ out_of_memory };

    fn from(_: AllocError) -> Self {
        WordsFault::OutOfMemory
    }
}

/// Reads the words of a command.
pub fn parse_words(alloc: Global, words: &[String]) -> Result<Command, WordsFault>
    ensures value { Reads (command_of (map (λ word. string_bytes word) words.now)) result }
{
    match words {
        [] => Err(WordsFault::Bad { at: 0 }),
        [word, rest @ ..] => {
            if is_make(word.as_str()) {
                parse_make(alloc, rest)
            } else if is_fill(word.as_str()) {
                parse_fill(alloc, rest)
            } else if is_read(word.as_str()) {
                parse_read(alloc, rest)
            } else if is_check(word.as_str()) {
                parse_check(alloc, rest)
            } else if is_inspect(word.as_str()) {
                parse_inspect(alloc, rest)
            } else if is_ranges(word.as_str()) {
                parse_ranges(alloc, rest)
            } else if is_list(word.as_str()) {
                parse_list(rest)
            } else if is_big(word.as_str()) {
                parse_big(alloc, rest)
            } else {
                Err(WordsFault::Bad { at: 0 })
            }
        }
    }
}
