// `fill NAME`
ghost use Rattle.std.specs.Prelude.{◌≡◌, map, bytes_eq};
ghost use Rattle.std.specs.String.{string_bytes};
ghost use Rattle.inc_words.specs.Parsing.{Reads};
ghost use Rattle.inc_words.specs.Words.Fill.{fill_command, fill_end, fill_name};

use super::{Command, WordsFault};
use inc_io::Name;
use std::alloc::Global;

#[tactic(auto, unfolding(crate::specs::Words::Fill::fill_command))]
pub fn is_fill(word: &str) -> bool
    ensures value { result ≡ bytes_eq word.now fill_command }
{
    word == "fill"
}

pub fn parse_fill(alloc: Global, words: &[String]) -> Result<Command, WordsFault>
    ensures value { Reads (fill_name (map (λ word. string_bytes word) words.now)) result }
{
    match words {
        [] => Err(WordsFault::Bad { at: 1 }),
        [word, rest @ ..] => match Name::of(alloc, word.as_bytes())? {
            Some(name) => parse_fill_end(name, rest),
            None => Err(WordsFault::Bad { at: 1 }),
        },
    }
}

fn parse_fill_end(name: Name, words: &[String]) -> Result<Command, WordsFault>
    ensures value { Reads (fill_end name (map (λ word. string_bytes word) words.now)) result }
{
    match words {
        [] => Ok(Command::Fill { name }),
        [_, ..] => Err(WordsFault::Bad { at: 2 }),
    }
}
