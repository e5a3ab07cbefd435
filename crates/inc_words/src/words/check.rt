// `check NAME`
ghost use Rattle.std.specs.Prelude.{◌≡◌, map, bytes_eq};
ghost use Rattle.std.specs.String.{string_bytes};
ghost use Rattle.inc_words.specs.Parsing.{Reads};
ghost use Rattle.inc_words.specs.Words.Check.{check_name, check_word};

use super::root::parse_root;
use super::{Command, FileCommand, WordsFault};
use inc_io::Name;
use std::alloc::Global;

#[tactic(auto, unfolding(crate::specs::Words::Check::check_word))]
pub fn is_check(word: &str) -> bool
    ensures value { result ≡ bytes_eq word.now check_word }
{
    word == "check"
}

pub fn parse_check(alloc: Global, words: &[String]) -> Result<Command, WordsFault>
    ensures value { Reads (check_name (map (λ word. string_bytes word) words.now)) result }
{
    match words {
        [] => Err(WordsFault::Bad { at: 1 }),
        [word, rest @ ..] => match Name::of(alloc, word.as_bytes())? {
            Some(name) => {
                let root = parse_root(rest, 2)?;
                let command = FileCommand::Check { root };
                Ok(Command::Over { name, command })
            }
            None => Err(WordsFault::Bad { at: 1 }),
        },
    }
}
