use inc_bytes::Rows;

/// Ranges of indices, each the pair of its start and its end, half-open.
pub type RangeList = Rows<(u32, u32)>;
