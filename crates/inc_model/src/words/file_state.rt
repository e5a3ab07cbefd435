// What is known of one file between two events.

use crate::{Digest32, Id, ReadRow, Rows, Times, Window};

/// How far the fill of one index has come.
#[derive(Clone, Copy, Debug, PartialEq, Eq)]
pub enum Stage {
    /// The block's bytes are written.
    Written,
    /// Its place is written into the block map.
    Placed,
    /// A sync came after both.
    Settled,
    /// Its entry is opened, and no sync has come since.
    Gated,
}

/// An index that a window is filling.
#[derive(Clone, Copy, Debug, PartialEq, Eq)]
pub struct FlightRow {
    pub window: Window,
    pub index: u32,
    pub digest: Digest32,
    pub stage: Stage,
}

/// The state of one file. Index `i` below `n` is a data block, and index `n + k` is hash block `k`, the top level first.
///
/// In each list the keys rise: the serial in `reads`, the uid in `times`, the window in `claimed`, by `who` and then by `count`, and the
/// index in every other one.
#[derive(Drop)]
pub struct FileState {
    pub id: Id,
    /// The file's data blocks.
    pub n: u32,
    /// The file's hash blocks: none where it has no tree.
    pub m: u32,
    /// Of a file with a signature.
    pub root: Option<Digest32>,
    /// The open indices, each with the digest of its block.
    pub map: Rows<(u32, Digest32)>,
    pub damaged: Rows<u32>,
    pub compressed: Rows<u32>,
    pub reads: Rows<ReadRow>,
    /// The serial of the next read.
    pub next: u32,
    pub times: Rows<(u32, Times)>,
    pub flight: Rows<FlightRow>,
    /// The places of the history that each window has left.
    pub claimed: Rows<(Window, u32)>,
    /// The indices whose gate write began, with their digests. A crash may leave such a block or not.
    pub begun: Rows<(u32, Digest32)>,
    /// The indices that no crash takes away.
    pub acknowledged: Rows<u32>,
    /// The device's count of faults, as the last fault told it.
    pub faults: u64,
    /// The position of the first entry whose write or sync failed. There are no fills after it.
    pub failed: Option<u64>,
    pub readers: u32,
}
