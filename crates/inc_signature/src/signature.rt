ghost use Rattle.std.specs.Prelude.{◌≡◌};
ghost use Rattle.inc_signature.specs.declared.signature.SigFault.TheVariants.{OutOfMemory};

use inc_io::Bytes;
use inc_tree::Digest32;
use std::alloc::AllocError;

/// What a signature blob says: SHA-256 over blocks of 4096 bytes, without salt, with this root.
#[derive(Drop)]
pub struct SigInfo {
    pub root: Digest32,
    /// The signing info section, byte for byte. Nothing here looks into it.
    pub signing: Bytes,
}

/// The first test that the blob fails, in the order of the tests, or want of memory.
#[derive(Clone, Copy, Debug, PartialEq, Eq)]
pub enum SigFault {
    /// A field or a section ends after the blob, or after the section that it is in.
    Short,
    BadVersion,
    /// The hash algorithm is not SHA-256.
    BadAlgorithm,
    /// The block size is not 2^12.
    BadBlockSize,
    /// The salt is not empty.
    Salted,
    BadRootSize,
    /// Bytes stand after the signing info, or in the hash info section after the root.
    Trailing,
    /// The blob is longer than `MOST_BLOB`.
    TooLong,
    OutOfMemory,
}

impl From<AllocError> for SigFault {
    ghost from_gives = { λ _ e. e ≡ OutOfMemory };

    fn from(_e: AllocError) -> SigFault {
        SigFault::OutOfMemory
    }
}
