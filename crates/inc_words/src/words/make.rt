// `make NAME SIZE ID`
ghost use Rattle.std.specs.Prelude.{◌≡◌, map, bytes_eq};
ghost use Rattle.std.specs.String.{string_bytes};
ghost use Rattle.inc_words.specs.Parsing.{Reads};
ghost use Rattle.inc_words.specs.Words.Make.{id_word, make_after, make_id, make_last, make_name, make_size, make_word, unsigned_word};

use super::{Command, WordsFault};
use inc_bytes::{Id, decimal_u64};
use inc_io::Name;
use std::alloc::Global;
use uuid::Uuid;

#[tactic(auto, unfolding(crate::specs::Words::Make::make_word))]
pub fn is_make(word: &str) -> bool
    ensures value { result ≡ bytes_eq word.now make_word }
{
    word == "make"
}

pub fn parse_make(alloc: Global, words: &[String]) -> Result<Command, WordsFault>
    ensures value { Reads (make_name (map (λ word. string_bytes word) words.now)) result }
{
    match words {
        [] => Err(WordsFault::Bad { at: 1 }),
        [word, rest @ ..] => match Name::of(alloc, word.as_bytes())? {
            Some(name) => parse_size(name, rest),
            None => Err(WordsFault::Bad { at: 1 }),
        },
    }
}

fn parse_size(name: Name, words: &[String]) -> Result<Command, WordsFault>
    ensures value { Reads (make_size name (map (λ word. string_bytes word) words.now)) result }
{
    match words {
        [] => Err(WordsFault::Bad { at: 2 }),
        [word, rest @ ..] => match decimal_u64(word.as_bytes()) {
            Some(size) => parse_id(name, size, rest),
            None => Err(WordsFault::Bad { at: 2 }),
        },
    }
}

fn parse_id(name: Name, size: u64, words: &[String]) -> Result<Command, WordsFault>
    ensures value { Reads (make_id name size (map (λ word. string_bytes word) words.now)) result }
{
    match words {
        [] => Err(WordsFault::Bad { at: 3 }),
        [word, rest @ ..] => match id_of(word.as_str()) {
            Some(id) => parse_unsigned(name, size, id, rest),
            None => Err(WordsFault::Bad { at: 3 }),
        },
    }
}

fn parse_unsigned(name: Name, size: u64, id: Id, words: &[String]) -> Result<Command, WordsFault>
    ensures value { Reads (make_after name size id (map (λ word. string_bytes word) words.now)) result }
{
    match words {
        [] => Ok(Command::Make {
            name,
            size,
            id,
            unsigned: false,
        }),
        [word, rest @ ..] => {
            if is_unsigned(word.as_str()) {
                parse_make_end(name, size, id, rest)
            } else {
                Err(WordsFault::Bad { at: 4 })
            }
        }
    }
}

fn parse_make_end(name: Name, size: u64, id: Id, words: &[String]) -> Result<Command, WordsFault>
    ensures value { Reads (make_last name size id (map (λ word. string_bytes word) words.now)) result }
{
    match words {
        [] => Ok(Command::Make {
            name,
            size,
            id,
            unsigned: true,
        }),
        [_, ..] => Err(WordsFault::Bad { at: 5 }),
    }
}

#[tactic(auto, unfolding(crate::specs::Words::Make::unsigned_word))]
fn is_unsigned(word: &str) -> bool
    ensures value { result ≡ bytes_eq word.now unsigned_word }
{
    word == "--unsigned"
}

/// The id that a word spells.
#[tactic(auto, unfolding(crate::specs::Words::Make::id_word))]
pub fn id_of(word: &str) -> Option<Id>
    ensures value { result ≡ id_word word.now }
{
    match Uuid::parse_str(word) {
        Ok(id) => Some(id.into_bytes()),
        Err(_) => None,
    }
}
