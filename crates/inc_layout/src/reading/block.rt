ghost use Rattle.std.specs.Prelude.{◌≡◌, ◌+◌, ◌≤◌, length, IfOk, IfSome};
ghost use Rattle.inc_io.specs.Causes.{HasCauseAt};
ghost use Rattle.inc_tree.specs.read_block.Path.{padded};
ghost use Rattle.inc_entry.specs.Stored.{part};
ghost use Rattle.inc_layout.specs.declared.reading.stored_error.StoredError.TheVariants.{ReadFault as read_fault};

use crate::StoredError;
use crate::room::{fill_front, room_of, whole_block};
use inc_io::Backing;
use inc_tree::{BLOCK_SIZE, Block};
use std::alloc::Global;

/// Reads a block that is stored at a place, in one call. It has so many bytes of its own, and zeros stand after them.
pub fn read_stored<B: Backing>(
    alloc: Global,
    file: &mut B,
    place: u64,
    len: u32,
) -> Result<Block, StoredError>
    requires { len ≤ 4096 }
    // It is hashed as it is: its digest is that of the stored bytes.
    ensures value { IfSome (B.reads (B.kept file.old)) (λ bytes. place + len ≤ length bytes → IfOk result (λ block. block ≡ padded (part len place bytes))) }
    ensures whole { IfOk result (λ block. length block ≡ 4096) }
    ensures kept { B.kept file.new ≡ B.kept file.old }
    ensures cause { HasCauseAt read_fault (B.faults file.old) (B.faults file.new) result }
{
    let mut room = room_of(alloc, BLOCK_SIZE)?;
    fill_front(file, place, len as usize, room.as_mut_slice())?;
    Ok(whole_block(room))
}
