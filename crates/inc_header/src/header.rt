use inc_bytes::Id;

/// What the first bytes of a backing file say of it.
#[derive(Clone, Copy, Debug, PartialEq, Eq)]
pub struct Header {
    pub kind: HeaderKind,
    /// The file's size in bytes; of a mapped file the mapped size.
    pub size: u64,
    /// The file's id; of a mapped file its original's.
    pub id: Id,
}

#[derive(Clone, Copy, Debug, PartialEq, Eq)]
pub enum HeaderKind {
    /// A file with blocks of its own, whose first metadata record is at this place; 0 for none.
    Plain { first: u64 },
    /// A part of another file's content, from this offset on.
    Mapped { offset: u64 },
}

/// The first test that the bytes fail, in the order of the tests.
#[derive(Clone, Copy, Debug, PartialEq, Eq)]
pub enum HeaderFault {
    /// There are fewer than 56 bytes.
    Short,
    BadMagic,
    BadVersion,
    BadHeaderSize,
    BadBlockSize,
    /// The flags are neither 0 nor 2.
    BadFlags,
    /// A mapped file's offset is not at a block's start, or its end is not below 2^64.
    BadMapping,
}
