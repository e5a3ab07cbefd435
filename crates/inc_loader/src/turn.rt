use inc_frame::{FrameFault, PieceList};

/// What became of a call that gives nothing.
#[derive(Clone, Copy, Debug, PartialEq, Eq)]
pub enum LoaderTurn {
    Fine,
    Failed,
    OutOfMemory,
}

/// What a loader answers where it is asked for pieces.
#[derive(Drop)]
pub enum Given {
    /// The next 1 to 64 pieces.
    Pieces(PieceList),
    /// None for now: there may be some later.
    Nothing,
    /// None any more.
    Done,
    /// The stream that the loader reads is refused, after all pieces before the fault were given.
    Bad(FrameFault),
    Failed,
    OutOfMemory,
}
