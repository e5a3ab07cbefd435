ghost use Rattle.std.specs.Prelude.{◌≡◌};

use inc_bytes::{Id, Rows};
use inc_io::Bytes;
use std::alloc::AllocError;

/// One block of one file, as a loader gives it.
#[derive(Drop)]
pub struct Piece {
    /// The file's id.
    pub id: Id,
    /// Whether it is a hash block.
    pub hash: bool,
    /// The block's number, from 0 in its kind.
    pub number: u32,
    /// How the bytes are compressed, 0 for not.
    pub compression: u8,
    pub bytes: Bytes,
}

impl Clone for Piece {
    ghost is_clone = { λ piece copy. copy ≡ piece };

    fn clone(&self) -> Result<Piece, AllocError> {
        let id = self.id;
        let bytes = self.bytes.clone()?;
        Ok(Piece {
            id,
            hash: self.hash,
            number: self.number,
            compression: self.compression,
            bytes,
        })
    }
}

/// A list of pieces.
pub type PieceList = Rows<Piece>;
