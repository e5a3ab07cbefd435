// What a fill from a stream comes to.
use crate::{FillStop, PieceRefusal};
use inc_frame::FrameFault;
use std::alloc::AllocError;

/// A fill that came to an end of its stream: by its own end, by its fault, or by a piece that the file doesn't take.
#[derive(Clone, Copy, Debug, PartialEq, Eq)]
pub struct Filled {
    /// The pieces that were stored.
    pub written: u64,
    /// The pieces whose indices were open before.
    pub present: u64,
    pub end: FillEnd,
}

/// Why a fill takes nothing more of its stream. All pieces before it are in.
#[derive(Clone, Copy, Debug, PartialEq, Eq)]
pub enum FillEnd {
    Done,
    Refused(PieceRefusal),
    Stream(FrameFault),
}

/// Why a fill comes to no end of its stream.
#[derive(Clone, Copy, Debug, PartialEq, Eq)]
pub enum FillFailure {
    /// The source has failed. All pieces that were whole are in, or filling the last group has stopped.
    Source(Option<FillStop>),
    Stopped(FillStop),
}

impl From<AllocError> for FillFailure {
    ghost use Rattle.std.specs.Prelude.{◌≡◌};
    ghost use Rattle.inc_filling.specs.declared.from_stream.filled.FillFailure.TheVariants.{Stopped};
    ghost use Rattle.inc_filling.specs.declared.stop.FillStop.TheVariants.{OutOfMemory};

    ghost from_gives = { λ _ failure. failure ≡ Stopped OutOfMemory };

    fn from(_: AllocError) -> Self {
        FillFailure::Stopped(FillStop::OutOfMemory)
    }
}

impl From<FillStop> for FillFailure {
    ghost use Rattle.std.specs.Prelude.{◌≡◌};
    ghost use Rattle.inc_filling.specs.declared.from_stream.filled.FillFailure.TheVariants.{Stopped};

    ghost from_gives = { λ stop failure. failure ≡ Stopped stop };

    fn from(stop: FillStop) -> Self {
        FillFailure::Stopped(stop)
    }
}
