// A root that is given from outside, as `--root HEX`.
ghost use Rattle.std.specs.Prelude.{◌≡◌, ◌<◌, map, bytes_eq};
ghost use Rattle.std.specs.String.{string_bytes};
ghost use Rattle.inc_words.specs.Parsing.{ReadsRoot};
ghost use Rattle.inc_words.specs.Words.Root.{given_root, root_value, root_word, root_words};

use super::WordsFault;
use inc_tree::Digest32;

/// The root that the words from this position on give, if any are left.
pub fn parse_root(words: &[String], position: usize) -> Result<Option<Digest32>, WordsFault>
    requires { position < 10 }
    ensures value { ReadsRoot (root_words position (map (λ word. string_bytes word) words.now)) result }
{
    match words {
        [] => Ok(None),
        [word, rest @ ..] => {
            if is_root(word.as_str()) {
                parse_root_value(rest, position + 1)
            } else {
                Err(WordsFault::Bad { at: position })
            }
        }
    }
}

pub fn parse_root_value(words: &[String], position: usize) -> Result<Option<Digest32>, WordsFault>
    requires { position < 20 }
    ensures value { ReadsRoot (root_value position (map (λ word. string_bytes word) words.now)) result }
{
    match words {
        [] => Err(WordsFault::Bad { at: position }),
        [word] => match given_root(word.as_str()) {
            Some(root) => Ok(Some(root)),
            None => Err(WordsFault::Bad { at: position }),
        },
        [word, _, ..] => match given_root(word.as_str()) {
            Some(_) => Err(WordsFault::Bad { at: position + 1 }),
            None => Err(WordsFault::Bad { at: position }),
        },
    }
}

#[tactic(auto, unfolding(crate::specs::Words::Root::root_word))]
pub fn is_root(word: &str) -> bool
    ensures value { result ≡ bytes_eq word.now root_word }
{
    word == "--root"
}

/// The root that 64 hex digits spell.
fn given_root(word: &str) -> Option<Digest32>
    ensures value { result ≡ given_root word.now }
{
    let mut root = [0; 32];
    match hex::decode_to_slice(word, &mut root) {
        Ok(()) => Some(root),
        Err(_) => None,
    }
}
