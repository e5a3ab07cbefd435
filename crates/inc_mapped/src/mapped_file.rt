ghost use Rattle.std.specs.Prelude.{◌≡◌, ℕ, ◌+◌, ◌*◌, ◌%◌, ◌^◌, ◌<◌, ◌≤◌, ◌↔◌, IfOk, IfSome, OnOk, OnErr, IsNone};
ghost use Rattle.inc_header.specs.Header.{MayMap, place_of};
ghost use Rattle.inc_tree.specs.shape.Geometry.{Shape, block_len, blocks_of, data_blocks};
ghost use Rattle.inc_mapped.specs.Mapping.{IsMappedKind, ShowsPart, mapping_of, part_shown};

use inc_header::{Header, HeaderKind};
use inc_tree::{BLOCK_SIZE, Geometry};
use std::marker::Model;

/// The part that a mapped file shows would end past its original's end.
#[derive(Clone, Copy, Debug, PartialEq, Eq)]
pub enum MapFault {
    PastOriginal,
}

/// What a mapped file shows of its original.
#[derive(Clone, Copy)]
pub struct MappedFile {
    offset: u64,
    size: u64,
}

impl Model for MappedFile {
    ghost use Rattle.std.specs.Prelude.{◌≡◌, ◌+◌, ◌%◌, ◌≤◌};
    ghost use Rattle.inc_tree.specs.shape.Limits.{most_size};
    ghost use Rattle.inc_mapped.specs.Mapping.{Mapping};

    ghost Value = { Mapping };

    ghost view = { λ mapped. record { offset = mapped.offset; size = mapped.size } };

    ghost invariant = { λ mapped. (mapped.offset % 4096 ≡ 0) × (mapped.offset + mapped.size ≤ most_size) };

    ghost inverse = { λ mapping. record { offset = mapping.offset; size = mapping.size } };
}

impl MappedFile {
    /// What a mapped file's header says, for an original of this shape.
    pub fn of(h: &Header, original: &Geometry) -> Result<MappedFile, MapFault>
        requires mapped { IsMappedKind h.now.kind }
        requires mapping { MayMap h.now.kind h.now.size }
        ensures value { IfOk result (λ mapped. mapped ≡ mapping_of h.now) }
        // It is refused exactly where the part would end past the original's end.
        ensures fits { OnOk result (place_of h.now.kind + h.now.size ≤ original.now.size) }
        ensures past { OnErr result (original.now.size < place_of h.now.kind + h.now.size) }
    {
        let HeaderKind::Mapped { offset } = h.kind else {
            unreachable!()
        };
        if offset + h.size > original.size() {
            return Err(MapFault::PastOriginal);
        }
        Ok(MappedFile {
            offset,
            size: h.size,
        })
    }

    /// How many blocks the mapped file has, the last perhaps in part.
    pub fn block_count(&self) -> u32
        ensures value { result ≡ blocks_of self.now.size }
        // In words there is a block at each index below it, and at no other.
        ensures each { (index : ℕ) → (index < result) ↔ (4096 * index < self.now.size) }
    {
        self.size.div_ceil(BLOCK_SIZE as u64) as u32
    }

    /// The block of the original that this block shows, and how many bytes of it.
    pub fn translate(&self, index: u32) -> Option<(u32, u32)>
        ensures value { result ≡ part_shown self.now index }
        // In words it is the block that begins at the same byte, and of it what the mapped file has.
        ensures shows { IfSome result (ShowsPart self.now index) }
        // There is none exactly where the index is past the mapped size.
        ensures none { IsNone result ↔ (self.now.size ≤ 4096 * index) }
        // In an original in which the part ends, the block is there with all that is shown of it.
        ensures inside { (original : Shape) → self.now.offset + self.now.size ≤ original.size → IfSome result (λ shown.
            (shown.0 < data_blocks original) × (shown.1 ≤ block_len original shown.0)) }
    {
        let begin = BLOCK_SIZE as u64 * u64::from(index);
        if begin >= self.size {
            return None;
        }
        let block = self.offset / BLOCK_SIZE as u64 + u64::from(index);
        let len = (self.size - begin).min(BLOCK_SIZE as u64);
        Some((block as u32, len as u32))
    }
}
