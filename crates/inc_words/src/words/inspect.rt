// `inspect NAME`
ghost use Rattle.std.specs.Prelude.{◌≡◌, map, bytes_eq};
ghost use Rattle.std.specs.String.{string_bytes};
ghost use Rattle.inc_words.specs.Parsing.{Reads};
ghost use Rattle.inc_words.specs.Words.Inspect.{inspect_end, inspect_name, inspect_word};

use super::{Command, FileCommand, WordsFault};
use inc_io::Name;
use std::alloc::Global;

#[tactic(auto, unfolding(crate::specs::Words::Inspect::inspect_word))]
pub fn is_inspect(word: &str) -> bool
    ensures value { result ≡ bytes_eq word.now inspect_word }
{
    word == "inspect"
}

pub fn parse_inspect(alloc: Global, words: &[String]) -> Result<Command, WordsFault>
    ensures value { Reads (inspect_name (map (λ word. string_bytes word) words.now)) result }
{
    match words {
        [] => Err(WordsFault::Bad { at: 1 }),
        [word, rest @ ..] => match Name::of(alloc, word.as_bytes())? {
            Some(name) => parse_inspect_end(name, rest),
            None => Err(WordsFault::Bad { at: 1 }),
        },
    }
}

fn parse_inspect_end(name: Name, words: &[String]) -> Result<Command, WordsFault>
    ensures value { Reads (inspect_end name (map (λ word. string_bytes word) words.now)) result }
{
    match words {
        [] => Ok(Command::Over {
            name,
            command: FileCommand::Inspect,
        }),
        [_, ..] => Err(WordsFault::Bad { at: 2 }),
    }
}
