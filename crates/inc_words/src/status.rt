ghost use Rattle.std.specs.Prelude.{◌≡◌, ◌≢◌};

/// How a run of the program ended: its exit status.
#[derive(Clone, Copy, Debug, PartialEq, Eq)]
pub struct Status(pub u8);

impl Status {
    /// The command is done, and every read that it made answered bytes.
    pub const DONE: Status = Status(0);
    /// The words fit no command.
    pub const BAD_WORDS: Status = Status(1);
    /// A stream is refused.
    pub const STREAM_REFUSED: Status = Status(2);
    /// The named file is missing, refused or there already, or it refuses a piece of a fill.
    pub const REFUSED: Status = Status(3);
    /// A block can't be shown, or a check found one.
    pub const NOT_SHOWN: Status = Status(4);
    /// The shelf, a file, the input or the output failed.
    pub const FAULT: Status = Status(5);
    /// An allocation was refused.
    pub const OUT_OF_MEMORY: Status = Status(6);
    /// The history of a file has no room for more of a fill.
    pub const HISTORY_FULL: Status = Status(7);

    /// The status where the output failed: bad words stand before a fault.
    pub fn or_fault(self) -> Status
        ensures bad_words { self.0 ≡ 1 → result.0 ≡ 1 }
        ensures fault { self.0 ≢ 1 → result.0 ≡ 5 }
    {
        if self.0 == 1 { self } else { Status::FAULT }
    }
}
