// Generated contents. They are made block by block: none is ever whole in memory.
ghost use Rattle.std.specs.Prelude.{◌≡◌, ◌*◌, ◌<◌, ◌≤◌, false, length, map, IfOk};
ghost use Rattle.std.specs.List.{range_with_len};
ghost use Rattle.inc_loader.specs.Content.{generated_byte, generated_content};
ghost use Rattle.inc_tree.specs.shape.Geometry.{data_blocks};
ghost use Rattle.inc_tree.specs.read_block.Path.{block_digest};
ghost use Rattle.inc_tree.specs.content_tree.Root.{area_of, content_block, root_of};

use crate::OutOfMemory;
use inc_tree::{BLOCK_SIZE, Digest32, Geometry, HashLevel, Tree, digest_block, tree_over};
use std::alloc::Global;

// Fills the room with the bytes from the start of a block on.
fn fill_block(number: u64, index: u32, room: &mut [u8])
    requires { length room.old ≤ 4096 }
    ensures value { room.new ≡ map (generated_byte number) (range_with_len (4096 * index) (length room.old)) }
{
    // A place divided by 4096 is the index all over the block, so that each byte is one more than the one before it.
    let start = BLOCK_SIZE as u64 * index as u64;
    let first = ((number % 251 + start + index as u64) % 251) as u32;
    for place in 0..room.len() {
        room[place] = ((first + place as u32) % 251) as u8;
    }
}

// A data block of the content of this shape's size.
pub(crate) fn block_bytes(
    alloc: Global,
    number: u64,
    geometry: &Geometry,
    index: u32,
) -> Result<Vec<u8>, OutOfMemory>
    requires { index < data_blocks geometry.now }
    ensures value { IfOk result (λ bytes. bytes.items ≡ content_block (generated_content number geometry.now.size) index) }
{
    let mut bytes = vec![in alloc; 0; geometry.block_len(index) as usize]?;
    fill_block(number, index, &mut bytes);
    Ok(bytes)
}

// The digest of a data block, which is made in this room.
fn leaf_digest(number: u64, geometry: &Geometry, index: u32, room: &mut [u8]) -> Digest32
    requires here { index < data_blocks geometry.now }
    requires room { length room.old ≡ 4096 }
    ensures value { result ≡ block_digest (content_block (generated_content number geometry.now.size) index) }
{
    let len = geometry.block_len(index) as usize;
    let block = &mut room[..len];
    fill_block(number, index, block);
    digest_block(block)
}

// The tree of the content of this shape's size. Each of its blocks is made and hashed once.
pub(crate) fn generated_tree(
    alloc: Global,
    number: u64,
    geometry: Geometry,
) -> Result<Tree, OutOfMemory>
    ensures root { IfOk result (λ tree. tree.root ≡ root_of (generated_content number geometry.size)) }
    ensures area { IfOk result (λ tree. tree.hash_blocks ≡ area_of (generated_content number geometry.size)) }
{
    let mut leaves = HashLevel::new(alloc);
    let mut room = vec![in alloc; 0; BLOCK_SIZE]?;
    for index in 0..geometry.data_blocks() {
        leaves.push(&leaf_digest(number, &geometry, index, &mut room))?;
    }
    let tree = tree_over(geometry, leaves)?;
    Ok(tree)
}
