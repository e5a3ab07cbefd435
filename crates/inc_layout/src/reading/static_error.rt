ghost use Rattle.std.specs.Prelude.{◌≡◌};
ghost use Rattle.inc_layout.specs.reading.StaticRead.{static_error};
ghost use Rattle.inc_layout.specs.declared.reading.static_error.StaticError.TheVariants.{Corrupt as corrupt, OutOfMemory as out_of_memory, ReadFault as read_fault};

use crate::StoredError;
use inc_tree::{Broken, Digest32};
use std::alloc::{AllocError, AllocFailed};

/// Why a read of a block of an opened file gives no bytes, in the order in which it is tested.
#[derive(Clone, Copy, Debug, PartialEq, Eq)]
pub enum StaticError {
    /// The file has no data block of this index.
    OutOfRange,
    /// The block's entry says nothing that can be followed.
    Damaged,
    /// The block is stored compressed.
    Compressed,
    /// The block hasn't arrived.
    Absent,
    /// A hash block of the path hasn't arrived: this one, on the lowest such level.
    PathAbsent {
        hash: u32,
    },
    /// The path fails, first at this level. `wanted` stands in the path, or is the root; `got` is the digest of what is below it.
    Corrupt {
        level: u32,
        wanted: Digest32,
        got: Digest32,
    },
    ReadFault,
    OutOfMemory,
}

impl From<StoredError> for StaticError {
    ghost from_gives = { λ inner error. error ≡ static_error inner };

    fn from(inner: StoredError) -> Self {
        match inner {
            StoredError::ReadFault => StaticError::ReadFault,
            StoredError::OutOfMemory => StaticError::OutOfMemory,
        }
    }
}

impl From<AllocError> for StaticError {
    ghost from_gives = { λ _ error. error ≡ out_of_memory };

    fn from(_: AllocError) -> Self {
        StaticError::OutOfMemory
    }
}

impl<T: Drop> From<AllocFailed<T>> for StaticError {
    ghost from_gives = { λ _ error. error ≡ out_of_memory };

    fn from(_: AllocFailed<T>) -> Self {
        StaticError::OutOfMemory
    }
}

impl From<Broken> for StaticError {
    ghost from_gives = { λ broken error. error ≡ corrupt broken.level broken.wanted broken.got };

    fn from(broken: Broken) -> Self {
        let Broken { level, wanted, got } = broken;
        StaticError::Corrupt { level, wanted, got }
    }
}
