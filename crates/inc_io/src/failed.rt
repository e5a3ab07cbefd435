ghost use Rattle.std.specs.Prelude.{◌≡◌};
ghost use Rattle.inc_io.specs.declared.failed.LendFault.TheVariants.{Failed as lend_failed, OutOfMemory as lend_out_of_memory};

use std::alloc::{AllocError, AllocFailed};

/// An object of the outside could not do what it was asked.
#[derive(Clone, Copy, Debug, PartialEq, Eq)]
pub struct Failed;

/// Why a shelf lends nothing.
#[derive(Clone, Copy, Debug, PartialEq, Eq)]
pub enum LendFault {
    Failed,
    OutOfMemory,
}

impl From<Failed> for LendFault {
    ghost from_gives = { λ _ fault. fault ≡ lend_failed };

    fn from(_: Failed) -> Self {
        LendFault::Failed
    }
}

impl From<AllocError> for LendFault {
    ghost from_gives = { λ _ fault. fault ≡ lend_out_of_memory };

    fn from(_: AllocError) -> Self {
        LendFault::OutOfMemory
    }
}

impl<T: Drop> From<AllocFailed<T>> for LendFault {
    ghost from_gives = { λ _ fault. fault ≡ lend_out_of_memory };

    fn from(_: AllocFailed<T>) -> Self {
        LendFault::OutOfMemory
    }
}
