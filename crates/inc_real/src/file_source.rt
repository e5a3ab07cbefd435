ghost use Rattle.std.specs.Prelude.{◌≡◌, ◌≤◌, ◌||◌, false, length, None, IfOk, IsErr};
ghost use Rattle.inc_io.specs.Causes.{HasCause};
ghost use Rattle.inc_io.specs.Outside.{is_end};
ghost use Rattle.inc_real.specs.Opening.{IsUnopened, opening_faults};

use crate::source::read_some;
use inc_io::{Failed, Source};
use std::fs::File;
use std::rt::Files;

/// A file or a FIFO that is read from its start. It tells whether its input has ended, and its count of faults.
#[derive(Drop)]
pub struct FileSource {
    file: Option<File>,
    ended: bool,
    faults: u64,
}

impl FileSource {
    /// Opens the path; a FIFO once another process opens it to write, and until then this waits. A path that can't be opened gives a
    /// source that has one fault and fails at each call.
    pub fn open<R: Files<File = File>>(rt: &R, path: &str) -> FileSource
        ensures count { result.faults ≡ opening_faults result.file }
        ensures unread { result.ended ≡ false }
    {
        match File::open(rt, path) {
            Ok(file) => FileSource {
                file: Some(file),
                ended: false,
                faults: 0,
            },
            Err(_) => FileSource {
                file: None,
                ended: false,
                faults: 1,
            },
        }
    }
}

impl Source for FileSource {
    ghost left = { λ _. None };

    ghost ended = { λ source. source.ended };

    ghost faults = { λ source. source.faults };

    fn read(&mut self, room: &mut [u8]) -> Result<usize, Failed>
        ensures within { IfOk result (λ count. count ≤ length room.old) }
        ensures ended { self.new.ended ≡ (self.old.ended || is_end (length room.old) result) }
        ensures cause { HasCause self.old.faults self.new.faults result }
        ensures unopened { IsUnopened self.old.file → IsErr result }
        ensures stays { IsUnopened self.old.file → IsUnopened self.new.file }
    {
        let empty = room.is_empty();
        let count = match &mut self.file {
            Some(file) => read_some(file, room),
            None => None,
        };
        let Some(count) = count else {
            self.faults = self.faults.saturating_add(1);
            return Err(Failed);
        };
        self.ended = self.ended | (!empty & (count == 0));
        Ok(count)
    }
}
