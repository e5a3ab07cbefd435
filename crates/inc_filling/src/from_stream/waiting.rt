// The pieces that wait for their group.
ghost use Rattle.std.specs.Prelude.{◌≤◌, vec_capacity, vec_len};

use crate::{MOST_BLOCKS_OF_GROUP, OutOfMemory};
use inc_frame::Piece;
use std::alloc::Global;

/// Fewer than a group has at most, or as many. Both lists are used again for each group.
#[derive(Drop)]
pub struct Waiting {
    pub pieces: Vec<Piece>,
    /// Scratch for the indices that a group stores.
    pub stored: Vec<u32>,
    ghost most: { vec_len pieces ≤ 64 },
    ghost room: { 64 ≤ vec_capacity pieces },
    ghost stored_room: { 64 ≤ vec_capacity stored },
}

impl Waiting {
    ghost use Rattle.std.specs.Prelude.{◌≡◌, [], IfOk};

    pub(crate) fn new(alloc: Global) -> Result<Waiting, OutOfMemory>
        ensures none { IfOk result (λ waiting. waiting.pieces.items ≡ []) }
    {
        Ok(Waiting {
            pieces: Vec::with_capacity(alloc, MOST_BLOCKS_OF_GROUP as usize)?,
            stored: Vec::with_capacity(alloc, MOST_BLOCKS_OF_GROUP as usize)?,
        })
    }
}
