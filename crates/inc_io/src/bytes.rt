use inc_bytes::Rows;

/// A list of bytes that owns its memory.
pub type Bytes = Rows<u8>;
