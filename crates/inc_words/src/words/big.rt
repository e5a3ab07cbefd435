// `big NAME NUMBER SIZE`
ghost use Rattle.std.specs.Prelude.{◌≡◌, map, bytes_eq};
ghost use Rattle.std.specs.String.{string_bytes};
ghost use Rattle.inc_words.specs.Parsing.{Reads};
ghost use Rattle.inc_words.specs.Words.Big.{big_last, big_name, big_number, big_size, big_word};

use super::{Command, WordsFault};
use inc_bytes::decimal_u64;
use inc_io::Name;
use std::alloc::Global;

#[tactic(auto, unfolding(crate::specs::Words::Big::big_word))]
pub fn is_big(word: &str) -> bool
    ensures value { result ≡ bytes_eq word.now big_word }
{
    word == "big"
}

pub fn parse_big(alloc: Global, words: &[String]) -> Result<Command, WordsFault>
    ensures value { Reads (big_name (map (λ word. string_bytes word) words.now)) result }
{
    match words {
        [] => Err(WordsFault::Bad { at: 1 }),
        [word, rest @ ..] => match Name::of(alloc, word.as_bytes())? {
            Some(name) => parse_number(name, rest),
            None => Err(WordsFault::Bad { at: 1 }),
        },
    }
}

fn parse_number(name: Name, words: &[String]) -> Result<Command, WordsFault>
    ensures value { Reads (big_number name (map (λ word. string_bytes word) words.now)) result }
{
    match words {
        [] => Err(WordsFault::Bad { at: 2 }),
        [word, rest @ ..] => match decimal_u64(word.as_bytes()) {
            Some(number) => parse_big_size(name, number, rest),
            None => Err(WordsFault::Bad { at: 2 }),
        },
    }
}

fn parse_big_size(name: Name, number: u64, words: &[String]) -> Result<Command, WordsFault>
    ensures value { Reads (big_size name number (map (λ word. string_bytes word) words.now)) result }
{
    match words {
        [] => Err(WordsFault::Bad { at: 3 }),
        [word, rest @ ..] => match decimal_u64(word.as_bytes()) {
            Some(size) => parse_big_end(name, number, size, rest),
            None => Err(WordsFault::Bad { at: 3 }),
        },
    }
}

fn parse_big_end(
    name: Name,
    number: u64,
    size: u64,
    words: &[String],
) -> Result<Command, WordsFault>
    ensures value { Reads (big_last name number size (map (λ word. string_bytes word) words.now)) result }
{
    match words {
        [] => Ok(Command::Big { name, number, size }),
        [_, ..] => Err(WordsFault::Bad { at: 4 }),
    }
}
