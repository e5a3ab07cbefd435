ghost use Rattle.std.specs.Prelude.{◌≡◌, ◌<◌, ◌≤◌, length, None, IfSome};
ghost use Rattle.inc_io.specs.Causes.{HasCause};

use inc_io::{Failed, Sink};
use std::io;
use std::io::{ErrorKind, Write};

/// Standard output as a sink. It tells nothing but its count of faults.
#[derive(Drop)]
pub struct StdSink<'a, R: Print> {
    rt: &'a R,
    faults: u64,
}

impl<'a, R: Print> StdSink<'a, R> {
    pub fn new(rt: &'a R) -> Self
        ensures fresh { result.faults ≡ 0 }
    {
        StdSink { rt, faults: 0 }
    }
}

/// Writes a front of the piece, at least one byte of a piece that isn't empty. A call that a signal broke off is made again; any other
/// failure gives none, and so does a call that took no byte.
pub fn write_some<W: Write>(out: &mut W, piece: &[u8]) -> Option<usize>
    ensures within { IfSome result (λ count. count ≤ length piece.now) }
    ensures some { IfSome result (λ count. 0 < length piece.now → 0 < count) }
{
    if piece.is_empty() {
        return Some(0);
    }
    for _ in 0..u64::MAX {
        match out.write(piece) {
            Ok(0) => break,
            Ok(count) => return Some(count),
            Err(error) if error.kind() == ErrorKind::Interrupted => {}
            Err(_) => break,
        }
    }
    None
}

impl<R: Print> Sink for StdSink<'_, R> {
    ghost written = { λ _. None };

    ghost faults = { λ out. out.faults };

    fn write(&mut self, piece: &[u8]) -> Result<usize, Failed> {
        let Some(count) = write_some(&mut io::writer(self.rt), piece) else {
            self.faults = self.faults.saturating_add(1);
            return Err(Failed);
        };
        Ok(count)
    }
}
