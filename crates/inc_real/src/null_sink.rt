ghost use Rattle.std.specs.Prelude.{◌≡◌, length, None, Ok};

use inc_io::{Failed, Sink};

/// A sink that takes every piece whole and keeps none of it. It never fails.
#[derive(Drop)]
pub struct NullSink {}

impl NullSink {
    pub fn new() -> NullSink {
        NullSink {}
    }
}

impl Sink for NullSink {
    ghost written = { λ _. None };

    ghost faults = { λ _. 0 };

    fn write(&mut self, piece: &[u8]) -> Result<usize, Failed>
        ensures whole { result ≡ Ok (length piece.now) }
    {
        Ok(piece.len())
    }
}
