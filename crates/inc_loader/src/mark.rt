// How a given piece is known afterwards, without its bytes.
ghost use Rattle.std.specs.Prelude.{◌≡◌, ◌≤◌, length};
ghost use Rattle.inc_tree.specs.shape.Geometry.{block_len, tree_of};
ghost use Rattle.inc_loader.specs.Marks.{mark_of, length_in, mark_length};

use crate::LoaderFile;
use inc_bytes::Id;
use inc_frame::Piece;
use inc_tree::{BLOCK_SIZE, Digest32, digest_block};

/// A piece without its bytes, with the digest that its block has in the file.
#[derive(Clone, Copy, Debug, PartialEq, Eq)]
pub struct PieceMark {
    pub id: Id,
    pub hash: bool,
    pub number: u32,
    pub compression: u8,
    /// The piece's bytes in number.
    pub len: u64,
    /// That of the bytes as they are stored: those after the block's length are zeros.
    pub digest: Digest32,
}

impl PieceMark {
    /// The mark of a piece for these prepared files. It takes no memory.
    pub fn of(p: &Piece, files: &[LoaderFile]) -> PieceMark
        ensures value { result ≡ mark_of files.now p.now }
    {
        let bytes = p.bytes.as_slice();
        let kept = bytes.len().min(mark_length(p, files));
        PieceMark {
            id: p.id,
            hash: p.hash,
            number: p.number,
            compression: p.compression,
            len: bytes.len() as u64,
            digest: digest_block(&bytes[..kept]),
        }
    }
}

// The length of the block that a piece is, or 4096 where no file has such a block.
fn mark_length(p: &Piece, files: &[LoaderFile]) -> usize
    ensures value { result ≡ mark_length files.now p.now }
    ensures most { result ≤ 4096 }
{
    if p.hash {
        return BLOCK_SIZE;
    }
    length_in(files, &p.id, p.number)
}

fn length_in(files: &[LoaderFile], id: &Id, number: u32) -> usize
    ensures value { result ≡ length_in files.now id.now number }
    ensures most { result ≤ 4096 }
{
    match files {
        [] => BLOCK_SIZE,
        [file, rest @ ..] => {
            if file.id == *id {
                data_length(file.size, number)
            } else {
                length_in(rest, id, number)
            }
        }
    }
}

// The length of a data block of a file of so many bytes.
fn data_length(size: u64, number: u32) -> usize
    ensures value { result ≡ block_len (tree_of size) number }
    ensures most { result ≤ 4096 }
{
    if number as u64 >= size.div_ceil(BLOCK_SIZE as u64) {
        return BLOCK_SIZE;
    }
    let left = size - BLOCK_SIZE as u64 * number as u64;
    left.min(BLOCK_SIZE as u64) as usize
}
