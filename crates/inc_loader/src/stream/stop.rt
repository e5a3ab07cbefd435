use inc_io::Failed;
use std::alloc::AllocError;

/// Why reading stopped.
#[derive(Clone, Copy, Debug, PartialEq, Eq)]
pub enum ReadStop {
    Failed,
    OutOfMemory,
}

impl From<Failed> for ReadStop {
    ghost use Rattle.std.specs.Prelude.{◌≡◌};
    ghost use Rattle.inc_loader.specs.declared.stream.stop.ReadStop.TheVariants as stop;

    ghost from_gives = { λ _ reason. reason ≡ stop.Failed };

    fn from(_: Failed) -> ReadStop {
        ReadStop::Failed
    }
}
