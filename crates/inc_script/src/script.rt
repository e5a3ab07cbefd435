use inc_io::Name;
use inc_model::Rows;
use inc_pending::Times;
use std::alloc::{AllocError, AllocFailed};

/// The most bytes that a script may have.
pub const MOST_TEXT: usize = 1 << 20;

/// The most `reader` lines.
pub const MOST_READERS: usize = 64;

/// The most `timeouts` lines.
pub const MOST_TIMES: usize = 256;

/// The most reads that all `reader` lines together may name.
pub const MOST_READS: u64 = 1 << 18;

/// What a session is to do.
#[derive(Drop)]
pub struct Script {
    /// The `timeouts` lines, in their order.
    pub times: Rows<TimesLine>,
    /// The `reader` lines, in their order.
    pub readers: Rows<ReaderLine>,
}

/// How long a user's reads of a file are held back, and how long they wait.
#[derive(Drop)]
pub struct TimesLine {
    pub name: Name,
    pub uid: u32,
    pub times: Times,
}

/// The reads of one user on one file.
#[derive(Drop)]
pub struct ReaderLine {
    pub uid: u32,
    pub name: Name,
    /// The first and the last block of each span of reads, both included.
    pub blocks: Rows<(u32, u32)>,
}

/// Why a text is no script. Lines count from 1.
#[derive(Clone, Copy, Debug, PartialEq, Eq)]
pub enum ScriptFault {
    /// It has more than `MOST_TEXT` bytes.
    TooLong,
    /// This line is of no form that may stand there.
    BadLine { line: u32 },
    /// This line has a reader, times or a read more than may be.
    TooMany { line: u32 },
    /// No line ends the script, and this is the number of its lines plus 1.
    NoEnd { line: u32 },
    /// No fault of the text.
    OutOfMemory,
}

impl From<AllocError> for ScriptFault {
    ghost use Rattle.std.specs.Prelude.{◌≡◌};
    ghost use Rattle.inc_script.specs.declared.script.ScriptFault.TheVariants.{OutOfMemory};

    ghost from_gives = { λ _ fault. fault ≡ OutOfMemory };

    fn from(_: AllocError) -> Self {
        ScriptFault::OutOfMemory
    }
}

impl<T: Drop> From<AllocFailed<T>> for ScriptFault {
    ghost use Rattle.std.specs.Prelude.{◌≡◌};
    ghost use Rattle.inc_script.specs.declared.script.ScriptFault.TheVariants.{OutOfMemory};

    ghost from_gives = { λ _ fault. fault ≡ OutOfMemory };

    fn from(_: AllocFailed<T>) -> Self {
        ScriptFault::OutOfMemory
    }
}
