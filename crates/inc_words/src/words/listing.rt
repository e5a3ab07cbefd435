// `list`
ghost use Rattle.std.specs.Prelude.{◌≡◌, map, bytes_eq};
ghost use Rattle.std.specs.String.{string_bytes};
ghost use Rattle.inc_words.specs.Parsing.{Reads};
ghost use Rattle.inc_words.specs.Words.Listing.{list_end, list_word};

use super::{Command, WordsFault};

#[tactic(auto, unfolding(crate::specs::Words::Listing::list_word))]
pub fn is_list(word: &str) -> bool
    ensures value { result ≡ bytes_eq word.now list_word }
{
    word == "list"
}

pub fn parse_list(words: &[String]) -> Result<Command, WordsFault>
    ensures value { Reads (list_end (map (λ word. string_bytes word) words.now)) result }
{
    match words {
        [] => Ok(Command::Listing),
        [_, ..] => Err(WordsFault::Bad { at: 1 }),
    }
}
