// Whether a piece of a fill is taken.
ghost use Rattle.std.specs.Prelude.{◌≡◌, nat_lt, is_some, IfSome};
ghost use Rattle.inc_bytes.specs.Tests.{first_failing, judge};
ghost use Rattle.inc_layout.specs.opening.Opening.{IsSoundOpened};
ghost use Rattle.inc_cell.specs.events.Pieces.{kind_count, piece_index, piece_tests, stored_tests};

use crate::FileCell;
use inc_disk::Disk;
use inc_entry::Class;
use inc_layout::Opened;
use inc_model::FillError;
use inc_tree::{BLOCK_SIZE, Geometry};

impl<D: Disk> FileCell<D> {
    /// Whether a piece may be filled, by its words alone: which block it says it is, how it is compressed, and how many bytes it has.
    /// The first refusal is told, of the piece with the number 0. It takes no memory.
    pub fn piece_check(
        &self,
        hash: bool,
        number: u32,
        compression: u8,
        len: u32,
    ) -> Result<(), FillError>
        ensures value { result ≡ judge (first_failing (piece_tests self.now.opened hash number compression len)) tt }
    {
        judge_piece(self.opened(), hash, number, compression, len)
    }
}

#[tactic(auto, unfolding(crate::specs::events::Pieces::piece_tests))]
fn judge_piece(
    opened: &Opened,
    hash: bool,
    number: u32,
    compression: u8,
    len: u32,
) -> Result<(), FillError>
    requires sound { IsSoundOpened opened.now }
    ensures value { result ≡ judge (first_failing (piece_tests opened.now hash number compression len)) tt }
{
    let tree = &opened.areas.geometry;
    let Some(index) = index_of(tree, hash, number) else {
        return Err(FillError::OutOfRange { piece: 0 });
    };
    let class = opened.classes.as_slice()[index as usize];
    judge_stored(class, tree.block_len(index), compression, len)
}

/// The index of a block, where the file has it.
fn index_of(tree: &Geometry, hash: bool, number: u32) -> Option<u32>
    ensures there { is_some result ≡ nat_lt number (kind_count tree.now hash) }
    ensures value { IfSome result (λ index. index ≡ piece_index tree.now hash number) }
{
    let content = tree.data_blocks();
    if hash {
        if number >= tree.hash_blocks() {
            return None;
        }
        return Some(content + number);
    }
    if number >= content {
        return None;
    }
    Some(number)
}

/// Judges a piece of a block with this class, whose own bytes are `own_len`.
#[tactic(auto, unfolding(crate::specs::events::Pieces::stored_tests))]
fn judge_stored(class: Class, own_len: u32, compression: u8, len: u32) -> Result<(), FillError>
    ensures value { result ≡ judge (first_failing (stored_tests class own_len compression len)) tt }
{
    if compression != 0 {
        return Err(FillError::Compressed { piece: 0 });
    }
    if matches!(class, Class::Compressed) {
        return Err(FillError::Compressed { piece: 0 });
    }
    if len != own_len {
        if len != BLOCK_SIZE as u32 {
            return Err(FillError::BadLength { piece: 0 });
        }
    }
    if matches!(class, Class::Damaged) {
        return Err(FillError::Damaged { piece: 0 });
    }
    Ok(())
}
