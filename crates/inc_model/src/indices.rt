// What is known of each index of a file, as the executed core asks and changes it.
ghost use Rattle.std.specs.Prelude.{◌≡◌, ℕ, ◌+◌, ◌^◌, ◌<◌, ◌≤◌, List, nat_lt, nat_le, count_by, length, OnOk, OnErr};
ghost use Rattle.inc_pending.specs.Keyed.{lookup};
ghost use Rattle.inc_model.specs.relation.State.{Digests, has};
ghost use Rattle.inc_model.specs.executed.IndexLists.{IndexLists, begun_in, opened_in, acknowledged_in};

use crate::{Digest32, OutOfMemory};

pub mod index_rows;
pub mod slots;

/// The indices of one file: which are open, which a gate write began to open, each with its digest, and which are acknowledged.
///
/// Rows by rising index serve where a state is handed in without memory, and slots by index where no question may cost more in a larger
/// file. Contracts see the rising lists of the relation in both.
pub trait Indices: Drop {
    ghost lists: { Self → IndexLists };

    /// So many of the changes below take no memory.
    ghost room: { Self → ℕ };

    /// Whether a gate write may begin beside this map: one that keeps a digest for an index can't keep two.
    ghost can_begin: { Digests → ℕ → List ℕ → Type 0 };

    fn data_blocks(&self) -> u32
        ensures value { result ≡ (lists self.now).n };

    fn hash_blocks(&self) -> u32
        ensures value { result ≡ (lists self.now).m };

    /// The digest of an open index.
    fn digest_of(&self, index: u32) -> Option<Digest32>
        ensures value { result ≡ lookup index (lists self.now).map };

    /// The digest with which an index's gate write began.
    fn begun_digest(&self, index: u32) -> Option<Digest32>
        ensures value { result ≡ lookup index (lists self.now).begun };

    fn is_acknowledged(&self, index: u32) -> bool
        ensures value { result ≡ has index (lists self.now).acknowledged };

    /// The open data blocks, and the open hash blocks.
    fn counts(&self) -> (u32, u32)
        requires few { length (lists self.now).map < 2 ^ 32 }
        ensures data_blocks { result.0 ≡ count_by (λ row. nat_lt row.0 (lists self.now).n) (lists self.now).map }
        ensures hash_blocks { result.1 ≡ count_by (λ row. nat_le (lists self.now).n row.0) (lists self.now).map };

    /// Takes room for so many changes.
    fn reserve(&mut self, changes: usize) -> Result<(), OutOfMemory>
        ensures lists { lists self.new ≡ lists self.old }
        ensures room { room self.old ≤ room self.new }
        ensures ok { OnOk result (changes ≤ room self.new) }
        ensures full { OnErr result (room self.old < changes) };

    /// A gate write of an index began.
    fn begin(&mut self, index: u32, digest: Digest32)
        requires room { 0 < room self.old }
        requires within { index < (lists self.old).n + (lists self.old).m }
        requires alone { can_begin (lists self.old).map index digest }
        ensures lists { lists self.new ≡ begun_in index digest (lists self.old) }
        ensures room { room self.old ≤ room self.new + 1 };

    /// A gate write of an index opened its entry.
    fn open(&mut self, index: u32, digest: Digest32)
        requires room { 0 < room self.old }
        requires within { index < (lists self.old).n + (lists self.old).m }
        ensures lists { lists self.new ≡ opened_in index digest (lists self.old) }
        ensures room { room self.old ≤ room self.new + 1 };

    /// A sync came after the gate of an index.
    fn acknowledge(&mut self, index: u32)
        requires room { 0 < room self.old }
        requires within { index < (lists self.old).n + (lists self.old).m }
        ensures lists { lists self.new ≡ acknowledged_in index (lists self.old) }
        ensures room { room self.old ≤ room self.new + 1 };
}
