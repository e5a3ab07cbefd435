// The indices of a file as rows by rising index.
ghost use Rattle.std.specs.Prelude.{◌≡◌, ◌+◌, ◌^◌, ◌<◌, ◌≤◌, nat_lt, nat_le, count_by, length, vec_len, vec_capacity};

use crate::indices::Indices;
use crate::state_lists::index_sets::{add_in_room, lists_index};
use crate::state_lists::keyed::{kept_digest, put_in_room};
use crate::{Digest32, OutOfMemory};

/// What is known of a file's indices, as the lists of its state. It takes memory as these grow.
#[derive(Drop)]
pub struct IndexRows {
    pub(crate) n: u32,
    pub(crate) m: u32,
    pub(crate) map: Vec<(u32, Digest32)>,
    pub(crate) begun: Vec<(u32, Digest32)>,
    pub(crate) acknowledged: Vec<u32>,
}

/// The open data blocks, and the open hash blocks.
fn count_open(map: &[(u32, Digest32)], n: u32) -> (u32, u32)
    requires few { length map.now < 2 ^ 32 }
    ensures data_blocks { result.0 ≡ count_by (λ row. nat_lt row.0 n) map.now }
    ensures hash_blocks { result.1 ≡ count_by (λ row. nat_le n row.0) map.now }
{
    let mut data_count = 0;
    let mut hash_count = 0;
    for row in map {
        if row.0 < n {
            data_count += 1;
        } else {
            hash_count += 1;
        }
    }
    (data_count, hash_count)
}

impl Indices for IndexRows {
    ghost use Rattle.std.specs.Prelude.{◌-◌, min, vec_len, vec_capacity};

    ghost lists = { λ r. record { n = r.n; m = r.m; map = r.map.items; begun = r.begun.items; acknowledged = r.acknowledged.items } };

    ghost room = { λ r. min (vec_capacity r.map - vec_len r.map) (min (vec_capacity r.begun - vec_len r.begun) (vec_capacity r.acknowledged - vec_len r.acknowledged)) };

    ghost can_begin = { λ digests index digest. Unit {0} };

    fn data_blocks(&self) -> u32 {
        self.n
    }

    fn hash_blocks(&self) -> u32 {
        self.m
    }

    fn digest_of(&self, index: u32) -> Option<Digest32> {
        kept_digest(self.map.as_slice(), index)
    }

    fn begun_digest(&self, index: u32) -> Option<Digest32> {
        kept_digest(self.begun.as_slice(), index)
    }

    fn is_acknowledged(&self, index: u32) -> bool {
        lists_index(self.acknowledged.as_slice(), index)
    }

    fn counts(&self) -> (u32, u32) {
        count_open(self.map.as_slice(), self.n)
    }

    fn reserve(&mut self, changes: usize) -> Result<(), OutOfMemory> {
        self.map.reserve(changes)?;
        self.begun.reserve(changes)?;
        self.acknowledged.reserve(changes)?;
        Ok(())
    }

    fn begin(&mut self, index: u32, digest: Digest32) {
        put_in_room(&mut self.begun, index, digest);
    }

    fn open(&mut self, index: u32, digest: Digest32) {
        put_in_room(&mut self.map, index, digest);
        put_in_room(&mut self.begun, index, digest);
    }

    fn acknowledge(&mut self, index: u32) {
        add_in_room(&mut self.acknowledged, index);
    }
}
