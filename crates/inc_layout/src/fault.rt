ghost use Rattle.std.specs.Prelude.{◌≡◌};
ghost use Rattle.inc_layout.specs.opening.Faults.{chain_fault, signature_fault};
ghost use Rattle.inc_layout.specs.declared.fault.LayoutFault.TheVariants.{Header as header_fault, OutOfMemory as out_of_memory, ReadFault as read_fault};

use inc_header::HeaderFault;
use inc_io::Failed;
use inc_md::ChainFault;
use inc_signature::SigFault;
use std::alloc::{AllocError, AllocFailed};

/// Why a file is no backing file, in the order in which it is tested.
#[derive(Clone, Copy, Debug, PartialEq, Eq)]
pub enum LayoutFault {
    /// The file has over 2^47 bytes.
    TooLong,
    Header(HeaderFault),
    /// The file has no blocks of its own: it shows a part of another one.
    Mapped,
    /// The content would have over 2^34 bytes.
    TooLarge,
    Chain(ChainFault),
    /// The signature blob isn't inside the file.
    SignatureOutside,
    Signature(SigFault),
    /// The block map has another number of entries than there are blocks.
    MapCount { wanted: u64, got: u32 },
    MapOutside,
    /// The hash tree has another number of bytes than its blocks.
    TreeSize { wanted: u64, got: u32 },
    TreeOutside,
    /// Header, records, blob, map and tree aren't apart from each other.
    Overlap,
    /// A block would be there in a longer file. The index is the least one of such an entry.
    PlacePastEnd { index: u32 },
    ReadFault,
    OutOfMemory,
}

impl From<Failed> for LayoutFault {
    ghost from_gives = { λ _ fault. fault ≡ read_fault };

    fn from(_: Failed) -> Self {
        LayoutFault::ReadFault
    }
}

impl From<AllocError> for LayoutFault {
    ghost from_gives = { λ _ fault. fault ≡ out_of_memory };

    fn from(_: AllocError) -> Self {
        LayoutFault::OutOfMemory
    }
}

impl<T: Drop> From<AllocFailed<T>> for LayoutFault {
    ghost from_gives = { λ _ fault. fault ≡ out_of_memory };

    fn from(_: AllocFailed<T>) -> Self {
        LayoutFault::OutOfMemory
    }
}

impl From<HeaderFault> for LayoutFault {
    ghost from_gives = { λ inner fault. fault ≡ header_fault inner };

    fn from(inner: HeaderFault) -> Self {
        LayoutFault::Header(inner)
    }
}

/// What failed outside of the chain is no fault of the chain.
impl From<ChainFault> for LayoutFault {
    ghost from_gives = { λ inner fault. fault ≡ chain_fault inner };

    fn from(inner: ChainFault) -> Self {
        match inner {
            ChainFault::ReadFault => LayoutFault::ReadFault,
            ChainFault::OutOfMemory => LayoutFault::OutOfMemory,
            _ => LayoutFault::Chain(inner),
        }
    }
}

impl From<SigFault> for LayoutFault {
    ghost from_gives = { λ inner fault. fault ≡ signature_fault inner };

    fn from(inner: SigFault) -> Self {
        match inner {
            SigFault::OutOfMemory => LayoutFault::OutOfMemory,
            _ => LayoutFault::Signature(inner),
        }
    }
}
