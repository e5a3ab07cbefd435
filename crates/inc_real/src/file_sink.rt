ghost use Rattle.std.specs.Prelude.{◌≡◌, ◌<◌, ◌≤◌, length, None, IfOk, IsErr};
ghost use Rattle.inc_io.specs.Causes.{HasCause};
ghost use Rattle.inc_real.specs.Opening.{IsUnopened, opening_faults};

use crate::sink::write_some;
use inc_io::{Failed, Sink};
use std::fs::File;
use std::rt::Files;

/// A file or a FIFO that is written from its start. Each piece goes through to the system in its own call, and none is kept back. It
/// tells nothing but its count of faults.
#[derive(Drop)]
pub struct FileSink {
    file: Option<File>,
    faults: u64,
}

impl FileSink {
    /// Opens the path and empties a plain file that stands there, or makes one; a FIFO is opened once another process opens it to read,
    /// and until then this waits. A path that can't be opened gives a sink that has one fault and fails at each call.
    pub fn create<R: Files<File = File>>(rt: &R, path: &str) -> FileSink
        ensures count { result.faults ≡ opening_faults result.file }
    {
        match File::create(rt, path) {
            Ok(file) => FileSink {
                file: Some(file),
                faults: 0,
            },
            Err(_) => FileSink {
                file: None,
                faults: 1,
            },
        }
    }
}

impl Sink for FileSink {
    ghost written = { λ _. None };

    ghost faults = { λ out. out.faults };

    fn write(&mut self, piece: &[u8]) -> Result<usize, Failed>
        ensures within { IfOk result (λ count. count ≤ length piece.now) }
        ensures some { IfOk result (λ count. 0 < length piece.now → 0 < count) }
        ensures cause { HasCause self.old.faults self.new.faults result }
        ensures unopened { IsUnopened self.old.file → IsErr result }
        ensures stays { IsUnopened self.old.file → IsUnopened self.new.file }
    {
        let count = match &mut self.file {
            Some(file) => write_some(file, piece),
            None => None,
        };
        let Some(count) = count else {
            self.faults = self.faults.saturating_add(1);
            return Err(Failed);
        };
        Ok(count)
    }
}
