use inc_bytes::Id;
use inc_layout::LayoutFault;

/// What a name of a shelf is, by all that stands there.
#[derive(Clone, Copy, Debug, PartialEq, Eq)]
pub enum Verdict {
    /// A file with blocks of its own, which keeps its id. It is complete where all of its data blocks are there.
    Plain {
        id: Id,
        complete: bool,
    },
    /// A part of the file that keeps this id.
    Mapped {
        original: Id,
        offset: u64,
        size: u64,
    },
    /// A plain file whose id a file with a lower name keeps.
    SameId {
        id: Id,
    },
    /// No plain file keeps the original's id.
    NoOriginal {
        original: Id,
    },
    /// The part would end past its original's end.
    PastOriginal {
        original: Id,
    },
    /// The file stands by no layout: it is the first test that it fails.
    Refused(LayoutFault),
}
