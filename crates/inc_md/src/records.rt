use inc_bytes::SpanList;

/// A block map record: where the entries of the blocks lie.
#[derive(Clone, Copy, Debug, PartialEq, Eq)]
pub struct MapRecord {
    /// The place of the first entry.
    pub base: u64,
    /// The number of entries.
    pub count: u32,
}

/// A signature record: where the signature blob and the hash tree lie. Sizes are in bytes.
#[derive(Clone, Copy, Debug, PartialEq, Eq)]
pub struct SigRecord {
    pub sig_size: u32,
    pub sig_at: u64,
    pub tree_size: u32,
    pub tree_at: u64,
}

/// A status record: how many blocks are said to be written. Nothing rests on these numbers.
#[derive(Clone, Copy, Debug, PartialEq, Eq)]
pub struct StatusRecord {
    /// The place of the two numbers, 23 bytes after the record's start.
    pub at: u64,
    pub data_written: u32,
    pub hash_written: u32,
}

/// What a chain's records say. Of each type the first record counts.
#[derive(Drop)]
pub struct Records {
    pub map: Option<MapRecord>,
    pub signature: Option<SigRecord>,
    pub status: Option<StatusRecord>,
    /// The bytes that the records take, in the chain's order.
    pub spans: SpanList,
    /// The place of the chain's last record, 0 where there is none.
    pub last: u64,
}
