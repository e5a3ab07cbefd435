// `read NAME INDEX`
ghost use Rattle.std.specs.Prelude.{◌≡◌, map, bytes_eq};
ghost use Rattle.std.specs.String.{string_bytes};
ghost use Rattle.inc_words.specs.Parsing.{Reads};
ghost use Rattle.inc_words.specs.declared.words.Command.TheVariants.{Over};
ghost use Rattle.inc_words.specs.declared.words.FileCommand.TheVariants.{Read};
ghost use Rattle.inc_words.specs.Words.Read.{read_after, read_index, read_last, read_name, read_word, unproved_word};

use super::root::{is_root, parse_root_value};
use super::{Command, FileCommand, WordsFault};
use inc_bytes::decimal_u32;
use inc_io::Name;
use inc_tree::Digest32;
use std::alloc::Global;

#[tactic(auto, unfolding(crate::specs::Words::Read::read_word))]
pub fn is_read(word: &str) -> bool
    ensures value { result ≡ bytes_eq word.now read_word }
{
    word == "read"
}

pub fn parse_read(alloc: Global, words: &[String]) -> Result<Command, WordsFault>
    ensures value { Reads (read_name (map (λ word. string_bytes word) words.now)) result }
{
    match words {
        [] => Err(WordsFault::Bad { at: 1 }),
        [word, rest @ ..] => match Name::of(alloc, word.as_bytes())? {
            Some(name) => parse_index(name, rest),
            None => Err(WordsFault::Bad { at: 1 }),
        },
    }
}

fn parse_index(name: Name, words: &[String]) -> Result<Command, WordsFault>
    ensures value { Reads (read_index name (map (λ word. string_bytes word) words.now)) result }
{
    match words {
        [] => Err(WordsFault::Bad { at: 2 }),
        [word, rest @ ..] => match decimal_u32(word.as_bytes()) {
            Some(index) => parse_read_after(name, index, rest),
            None => Err(WordsFault::Bad { at: 2 }),
        },
    }
}

fn parse_read_after(name: Name, index: u32, words: &[String]) -> Result<Command, WordsFault>
    ensures value { Reads (read_after name index (map (λ word. string_bytes word) words.now)) result }
{
    match words {
        [] => Ok(over(name, index, None, false)),
        [word, rest @ ..] => {
            if is_root(word.as_str()) {
                let root = parse_root_value(rest, 4)?;
                Ok(over(name, index, root, false))
            } else if is_unproved(word.as_str()) {
                parse_read_end(name, index, rest)
            } else {
                Err(WordsFault::Bad { at: 3 })
            }
        }
    }
}

fn over(name: Name, index: u32, root: Option<Digest32>, unproved: bool) -> Command
    ensures value { result ≡ Over name (Read index root unproved) }
{
    let command = FileCommand::Read {
        index,
        root,
        unproved,
    };
    Command::Over { name, command }
}

fn parse_read_end(name: Name, index: u32, words: &[String]) -> Result<Command, WordsFault>
    ensures value { Reads (read_last name index (map (λ word. string_bytes word) words.now)) result }
{
    match words {
        [] => Ok(over(name, index, None, true)),
        [_, ..] => Err(WordsFault::Bad { at: 4 }),
    }
}

#[tactic(auto, unfolding(crate::specs::Words::Read::unproved_word))]
fn is_unproved(word: &str) -> bool
    ensures value { result ≡ bytes_eq word.now unproved_word }
{
    word == "--unproved"
}
