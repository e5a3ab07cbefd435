ghost use Rattle.std.specs.Prelude.{◌≡◌, ◌+◌, ◌≤◌, ◌++◌, length, drop, replicate, IfOk, IfSome, OnOk};
ghost use Rattle.inc_io.specs.Causes.{HasCause};
ghost use Rattle.inc_entry.specs.Stored.{part};

use crate::OutOfMemory;
use inc_io::{Backing, Failed};
use inc_tree::Block;
use std::alloc::Global;

/// A room of so many zeros.
pub fn room_of(alloc: Global, count: usize) -> Result<Vec<u8>, OutOfMemory>
    ensures sized { IfOk result (λ room. length room.items ≡ count) }
    ensures zeros { IfOk result (λ room. room.items ≡ replicate count 0) }
{
    Ok(vec![in alloc; 0u8; count]?)
}

/// The bytes of a room that takes a block.
pub fn whole_block(room: Vec<u8>) -> Block
    requires { length room.items ≡ 4096 }
    ensures value { result ≡ room.items }
{
    Block::from_vec(room).unwrap()
}

/// Reads the bytes from a place on into a room. Where the file has fewer, zeros stand in their place: no bytes that the room had before.
pub fn fill<B: Backing>(file: &mut B, at: u64, room: &mut [u8]) -> Result<(), Failed>
    ensures filled { IfSome (B.reads (B.kept file.old)) (λ bytes. OnOk result (at + length room.old ≤ length bytes →
        room.new ≡ part (length room.old) at bytes)) }
    ensures kept { B.kept file.new ≡ B.kept file.old }
    ensures cause { HasCause (B.faults file.old) (B.faults file.new) result }
{
    let count = file.read_at(at, room)?;
    room[count..].fill(0);
    Ok(())
}

/// Reads so many bytes from a place on into the front of a room. What is behind them stays.
pub fn fill_front<B: Backing>(
    file: &mut B,
    at: u64,
    count: usize,
    room: &mut [u8],
) -> Result<(), Failed>
    requires fits { count ≤ length room.old }
    ensures filled { IfSome (B.reads (B.kept file.old)) (λ bytes. OnOk result (at + count ≤ length bytes →
        room.new ≡ part count at bytes ++ drop count room.old)) }
    ensures kept { B.kept file.new ≡ B.kept file.old }
    ensures cause { HasCause (B.faults file.old) (B.faults file.new) result }
{
    fill(file, at, &mut room[..count])
}
