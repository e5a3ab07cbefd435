// `ranges NAME START END ROOM`
ghost use Rattle.std.specs.Prelude.{◌≡◌, map, bytes_eq};
ghost use Rattle.std.specs.String.{string_bytes};
ghost use Rattle.inc_words.specs.Parsing.{Reads};
ghost use Rattle.inc_words.specs.Words.Ranges.{ranges_end, ranges_last, ranges_name, ranges_room, ranges_start, ranges_word};

use super::{Command, FileCommand, WordsFault};
use inc_bytes::decimal_u32;
use inc_io::Name;
use std::alloc::Global;

#[tactic(auto, unfolding(crate::specs::Words::Ranges::ranges_word))]
pub fn is_ranges(word: &str) -> bool
    ensures value { result ≡ bytes_eq word.now ranges_word }
{
    word == "ranges"
}

pub fn parse_ranges(alloc: Global, words: &[String]) -> Result<Command, WordsFault>
    ensures value { Reads (ranges_name (map (λ word. string_bytes word) words.now)) result }
{
    match words {
        [] => Err(WordsFault::Bad { at: 1 }),
        [word, rest @ ..] => match Name::of(alloc, word.as_bytes())? {
            Some(name) => parse_start(name, rest),
            None => Err(WordsFault::Bad { at: 1 }),
        },
    }
}

fn parse_start(name: Name, words: &[String]) -> Result<Command, WordsFault>
    ensures value { Reads (ranges_start name (map (λ word. string_bytes word) words.now)) result }
{
    match words {
        [] => Err(WordsFault::Bad { at: 2 }),
        [word, rest @ ..] => match decimal_u32(word.as_bytes()) {
            Some(start) => parse_end(name, start, rest),
            None => Err(WordsFault::Bad { at: 2 }),
        },
    }
}

fn parse_end(name: Name, start: u32, words: &[String]) -> Result<Command, WordsFault>
    ensures value { Reads (ranges_end name start (map (λ word. string_bytes word) words.now)) result }
{
    match words {
        [] => Err(WordsFault::Bad { at: 3 }),
        [word, rest @ ..] => match decimal_u32(word.as_bytes()) {
            Some(end) => parse_room(name, start, end, rest),
            None => Err(WordsFault::Bad { at: 3 }),
        },
    }
}

fn parse_room(name: Name, start: u32, end: u32, words: &[String]) -> Result<Command, WordsFault>
    ensures value { Reads (ranges_room name start end (map (λ word. string_bytes word) words.now)) result }
{
    match words {
        [] => Err(WordsFault::Bad { at: 4 }),
        [word, rest @ ..] => match decimal_u32(word.as_bytes()) {
            Some(room) => parse_ranges_end(name, start, end, room, rest),
            None => Err(WordsFault::Bad { at: 4 }),
        },
    }
}

fn parse_ranges_end(
    name: Name,
    start: u32,
    end: u32,
    room: u32,
    words: &[String],
) -> Result<Command, WordsFault>
    ensures value { Reads (ranges_last name start end room (map (λ word. string_bytes word) words.now)) result }
{
    match words {
        [] => Ok(Command::Over {
            name,
            command: FileCommand::Ranges { start, end, room },
        }),
        [_, ..] => Err(WordsFault::Bad { at: 5 }),
    }
}
