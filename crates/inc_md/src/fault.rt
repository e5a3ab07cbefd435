ghost use Rattle.std.specs.Prelude.{◌≡◌};
ghost use Rattle.inc_md.specs.declared.fault.ChainFault.TheVariants.{ReadFault as read_fault, OutOfMemory as out_of_memory};

use inc_io::Failed;
use std::alloc::{AllocError, AllocFailed};

/// Why a chain is refused. A place `at` is that of the record that failed a test.
#[derive(Clone, Copy, Debug, PartialEq, Eq)]
pub enum ChainFault {
    /// The record isn't wholly inside the file.
    Outside { at: u64 },
    /// The next record isn't after this one.
    NotRising { at: u64, next: u64 },
    /// The size isn't the one of the record's type, or is below that of what every record begins with.
    BadSize { at: u64 },
    /// It is the chain's second block map.
    TwoMaps { at: u64 },
    /// A block map is needed, and the chain has none.
    NoMap,
    /// It is the chain's second signature.
    TwoSignatures { at: u64 },
    /// The chain has over 1024 records.
    TooMany,
    /// The device failed.
    ReadFault,
    OutOfMemory,
}

impl From<Failed> for ChainFault {
    ghost from_gives = { λ _ fault. fault ≡ read_fault };

    fn from(_: Failed) -> Self {
        ChainFault::ReadFault
    }
}

impl From<AllocError> for ChainFault {
    ghost from_gives = { λ _ fault. fault ≡ out_of_memory };

    fn from(_: AllocError) -> Self {
        ChainFault::OutOfMemory
    }
}
