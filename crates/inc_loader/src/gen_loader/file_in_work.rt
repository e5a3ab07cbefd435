// The pieces of one file of a generated content, one after another.
ghost use Rattle.std.specs.Prelude.{◌≡◌, ◌≤◌};
ghost use Rattle.inc_loader.specs.Content.{generated_content};
ghost use Rattle.inc_tree.specs.shape.Geometry.{tree_of};
ghost use Rattle.inc_tree.specs.shape.Limits.{most_size};
ghost use Rattle.inc_tree.specs.content_tree.Root.{area_of, root_of};

use super::content::{block_bytes, generated_tree};
use crate::{LoaderFile, OutOfMemory};
use inc_bytes::Id;
use inc_frame::Piece;
use inc_io::Bytes;
use inc_tree::{Digest32, Geometry, Path, Tree};
use std::alloc::Global;

/// A file's pieces that are still to be given: its hash blocks, which are held, and then its data blocks, each of which is made when it is
/// asked for.
#[derive(Drop)]
pub struct FileInWork {
    number: u64,
    file: LoaderFile,
    geometry: Geometry,
    hash_blocks: Path,
    // How many of its pieces were given.
    next: u32,
    ghost small: { file.size ≤ most_size },
    ghost shape: { geometry ≡ tree_of file.size },
    ghost area: { hash_blocks ≡ area_of (generated_content number file.size) },
}

impl FileInWork {
    ghost use Rattle.std.specs.Prelude.{◌==◌, ◌+◌, ◌^◌, ◌∷◌, drop, length, false, IfOk};
    ghost use Rattle.inc_loader.specs.ContentPieces.{pieces_of, plain_piece};
    ghost use Rattle.inc_loader.specs.PiecesLeft.{left_of};
    ghost use Rattle.inc_tree.specs.shape.Geometry.{data_blocks, hash_blocks};

    // Hashes the file's content.
    pub(crate) fn begin(
        alloc: Global,
        number: u64,
        file: LoaderFile,
    ) -> Result<FileInWork, OutOfMemory>
        requires { file.size ≤ most_size }
        ensures value { IfOk result (λ work. left_of work ≡ pieces_of file (generated_content number file.size)) }
    {
        let geometry = Geometry::of(file.size).unwrap();
        let Tree { hash_blocks, .. } = generated_tree(alloc, number, geometry)?;
        Ok(FileInWork {
            number,
            file,
            geometry,
            hash_blocks,
            next: 0,
        })
    }

    /// All pieces of a new file with the content of this number. The content is hashed once, for its root and its hash blocks.
    pub fn generated(
        alloc: Global,
        number: u64,
        id: Id,
        size: u64,
    ) -> Result<FileInWork, OutOfMemory>
        requires { size ≤ most_size }
        ensures file { IfOk result (λ work. work.file ≡ record { id = id; size = size; root = root_of (generated_content number size) }) }
        ensures value { IfOk result (λ work. left_of work ≡ pieces_of work.file (generated_content number size)) }
    {
        let geometry = Geometry::of(size).unwrap();
        let Tree {
            root,
            hash_blocks,
            ..
        } = generated_tree(alloc, number, geometry)?;
        Ok(FileInWork {
            number,
            file: LoaderFile { id, size, root },
            geometry,
            hash_blocks,
            next: 0,
        })
    }

    /// The root that the file has been given.
    pub fn root(&self) -> Digest32
        ensures value { result ≡ self.now.file.root }
    {
        self.file.root
    }

    fn piece_count(&self) -> u32
        ensures value { result ≡ hash_blocks self.now.geometry + data_blocks self.now.geometry }
        ensures small { result ≤ 2 ^ 23 }
    {
        self.geometry.hash_blocks() + self.geometry.data_blocks()
    }

    /// Whether nothing is left.
    pub fn is_given(&self) -> bool
        ensures value { result ≡ (length (left_of self.now) == 0) }
    {
        self.next >= self.piece_count()
    }

    /// The next piece.
    pub fn piece(&self, alloc: Global) -> Result<Piece, OutOfMemory>
        requires { (length (left_of self.now) == 0) ≡ false }
        ensures first { IfOk result (λ piece. left_of self.now ≡ piece ∷ drop 1 (left_of self.now)) }
    {
        let hash_count = self.geometry.hash_blocks();
        if self.next < hash_count {
            let block = self.hash_blocks.as_slice()[self.next as usize].copy(alloc)?;
            return Ok(self.piece_of(true, self.next, block.into_vec()));
        }
        let index = self.next - hash_count;
        let bytes = block_bytes(alloc, self.number, &self.geometry, index)?;
        Ok(self.piece_of(false, index, bytes))
    }

    /// The next piece was given.
    pub fn pass(&mut self)
        requires { (length (left_of self.old) == 0) ≡ false }
        ensures left { left_of self.new ≡ drop 1 (left_of self.old) }
    {
        self.next += 1;
    }

    fn piece_of(&self, hash: bool, number: u32, bytes: Vec<u8>) -> Piece
        ensures value { result ≡ plain_piece self.now.file hash number bytes.items }
    {
        Piece {
            id: self.file.id,
            hash,
            number,
            compression: 0,
            bytes: Bytes::from_vec(bytes),
        }
    }
}
