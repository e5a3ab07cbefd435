ghost use Rattle.std.specs.Prelude.{◌≡◌, ◌≤◌, ◌||◌, length, None, IfSome, IfOk};
ghost use Rattle.inc_io.specs.Causes.{HasCause};
ghost use Rattle.inc_io.specs.Outside.{is_end};

use inc_io::{Failed, Source};
use std::io::{ErrorKind, Read};

/// Standard input, or another reader, as a source. It tells whether its input has ended, and its count of faults.
#[derive(Drop)]
pub struct StdSource<I: Read + Drop> {
    input: I,
    ended: bool,
    faults: u64,
}

impl<I: Read + Drop> StdSource<I> {
    pub fn new(input: I) -> Self
        ensures fresh { result.faults ≡ 0 }
    {
        StdSource {
            input,
            ended: false,
            faults: 0,
        }
    }
}

/// Reads the next bytes. A call that a signal broke off is made again; any other failure gives none.
pub fn read_some<I: Read>(input: &mut I, room: &mut [u8]) -> Option<usize>
    ensures within { IfSome result (λ count. count ≤ length room.old) }
{
    for _ in 0..u64::MAX {
        match input.read(room) {
            Ok(count) => return Some(count),
            Err(error) if error.kind() == ErrorKind::Interrupted => {}
            Err(_) => break,
        }
    }
    None
}

impl<I: Read + Drop> Source for StdSource<I> {
    ghost left = { λ _. None };

    ghost ended = { λ source. source.ended };

    ghost faults = { λ source. source.faults };

    fn read(&mut self, room: &mut [u8]) -> Result<usize, Failed> {
        let empty = room.is_empty();
        let Some(count) = read_some(&mut self.input, room) else {
            self.faults = self.faults.saturating_add(1);
            return Err(Failed);
        };
        self.ended = self.ended | (!empty & (count == 0));
        Ok(count)
    }
}
