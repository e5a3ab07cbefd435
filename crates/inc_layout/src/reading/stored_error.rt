ghost use Rattle.std.specs.Prelude.{◌≡◌};
ghost use Rattle.inc_layout.specs.declared.reading.stored_error.StoredError.TheVariants.{OutOfMemory as out_of_memory, ReadFault as read_fault};

use inc_io::Failed;
use std::alloc::{AllocError, AllocFailed};

/// Why a stored block couldn't be read.
#[derive(Clone, Copy, Debug, PartialEq, Eq)]
pub enum StoredError {
    ReadFault,
    OutOfMemory,
}

impl From<Failed> for StoredError {
    ghost from_gives = { λ _ error. error ≡ read_fault };

    fn from(_: Failed) -> Self {
        StoredError::ReadFault
    }
}

impl From<AllocError> for StoredError {
    ghost from_gives = { λ _ error. error ≡ out_of_memory };

    fn from(_: AllocError) -> Self {
        StoredError::OutOfMemory
    }
}

impl<T: Drop> From<AllocFailed<T>> for StoredError {
    ghost from_gives = { λ _ error. error ≡ out_of_memory };

    fn from(_: AllocFailed<T>) -> Self {
        StoredError::OutOfMemory
    }
}
