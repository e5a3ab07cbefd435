ghost use Rattle.std.specs.Prelude.{◌≡◌};
ghost use Rattle.inc_words.specs.Stops.{lend_stop};
ghost use Rattle.inc_words.specs.declared.stop.Stop.TheVariants.{Fault as stop_fault, OutOfMemory as stop_out_of_memory};

use inc_io::{Failed, LendFault};
use std::alloc::{AllocError, AllocFailed};

/// What ends a command from outside, before it has an answer.
#[derive(Clone, Copy, Debug, PartialEq, Eq)]
pub enum Stop {
    /// The shelf, a file or the input failed.
    Fault,
    OutOfMemory,
}

impl From<Failed> for Stop {
    ghost from_gives = { λ _ stop. stop ≡ stop_fault };

    fn from(_: Failed) -> Self {
        Stop::Fault
    }
}

impl From<LendFault> for Stop {
    ghost from_gives = { λ fault stop. stop ≡ lend_stop fault };

    fn from(fault: LendFault) -> Self {
        match fault {
            LendFault::Failed => Stop::Fault,
            LendFault::OutOfMemory => Stop::OutOfMemory,
        }
    }
}

impl From<AllocError> for Stop {
    ghost from_gives = { λ _ stop. stop ≡ stop_out_of_memory };

    fn from(_: AllocError) -> Self {
        Stop::OutOfMemory
    }
}

impl<T: Drop> From<AllocFailed<T>> for Stop {
    ghost from_gives = { λ _ stop. stop ≡ stop_out_of_memory };

    fn from(_: AllocFailed<T>) -> Self {
        Stop::OutOfMemory
    }
}
