use std::alloc::AllocError;

/// Why a stream is refused, with the place of its first byte that is wrong. Places count from 0 over the whole stream.
#[derive(Clone, Copy, Debug, PartialEq, Eq)]
pub enum FrameFault {
    /// The hello's first byte that differs.
    BadHello { at: u64 },
    /// A frame's first byte that is neither 1 nor 2, or its byte 17 that is neither 0 nor 1.
    BadKind { at: u64 },
    /// The first byte of a length that is 0 or over 4096.
    BadLength { at: u64 },
    /// The input ended here, before the end of the stream.
    Cut { at: u64 },
    /// So many bytes have come without an end.
    TooLong { at: u64 },
    /// No fault of the stream. The reader is as before the call.
    OutOfMemory,
}

impl From<AllocError> for FrameFault {
    ghost use Rattle.std.specs.Prelude.{◌≡◌};
    ghost use Rattle.inc_frame.specs.declared.fault.FrameFault.TheVariants.{OutOfMemory};

    ghost from_gives = { λ _ fault. fault ≡ OutOfMemory };

    fn from(_: AllocError) -> Self {
        FrameFault::OutOfMemory
    }
}
