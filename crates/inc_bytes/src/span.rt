use crate::Rows;

/// A range of a backing file: its first byte and its number of bytes.
#[derive(Clone, Copy, Debug, PartialEq, Eq)]
pub struct Span {
    pub at: u64,
    pub len: u64,
}

/// A list of spans.
pub type SpanList = Rows<Span>;
