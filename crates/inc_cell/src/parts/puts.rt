// Where the block of a put goes, and what of it counts.
ghost use Rattle.std.specs.Prelude.{◌≡◌, ℕ, ◌+◌, ◌*◌, ◌^◌, ◌<◌, ◌≤◌, nat_lt, if◌then◌else◌, slice_index, length};
ghost use Rattle.inc_entry.specs.Entry.{area_places, block_bytes, entries};
ghost use Rattle.inc_tree.specs.shape.Geometry.{data_blocks, hash_blocks};
ghost use Rattle.inc_fill.specs.Steps.{IsFreePlace};
ghost use Rattle.inc_cell.specs.device.Moves.{end_with};
ghost use Rattle.inc_cell.specs.device.Puts.{digest_for, len_for};
ghost use Rattle.inc_cell.specs.seen.Spots.{put_spot};
ghost use Rattle.inc_cell.specs.events.Wanted.{IfPut};

use inc_entry::Areas;
use inc_layout::Opened;
use inc_model::Reply;
use inc_tree::{BLOCK_SIZE, Block, Digest32, digest_block};

/// How many of the bytes of an index's block count: of an index past the file's all.
pub fn len_for(opened: &Opened, index: u32) -> u32
    ensures value { result ≡ len_for opened.now index }
    ensures most { result ≤ 4096 }
{
    let tree = &opened.areas.geometry;
    if index < tree.data_blocks() + tree.hash_blocks() {
        tree.block_len(index)
    } else {
        BLOCK_SIZE as u32
    }
}

/// The digest of those bytes, filled up with zeros.
pub fn digest_for(opened: &Opened, index: u32, block: &Block) -> Digest32
    ensures value { result ≡ digest_for opened.now index block.now }
    ensures whole { length block.now ≡ 4096 }
{
    let len = len_for(opened, index) as usize;
    digest_block(&block.as_slice()[..len])
}

/// The place of an index's block: a data block goes to the file's end, a hash block to its place in the tree.
pub fn place_for(areas: &Areas, end: u64, index: u32) -> u64
    requires tree_end { areas.now.hash_at + block_bytes * hash_blocks areas.now.geometry < 2 ^ 64 }
    ensures free { index < entries (area_places areas.now) → IsFreePlace (area_places areas.now) end index result }
{
    let content = areas.geometry.data_blocks();
    let tree = areas.geometry.hash_blocks();
    if index < content {
        return end;
    }
    if index < content + tree {
        areas.hash_block_at(index - content)
    } else {
        end
    }
}

/// Where the next data block goes after a put.
pub fn end_after(areas: &Areas, end: u64, index: u32) -> u64
    requires small { end + 4096 < 2 ^ 64 }
    ensures value { result ≡ (if nat_lt index (data_blocks areas.now.geometry) then end + 4096 else end) }
{
    if index < areas.geometry.data_blocks() {
        end + BLOCK_SIZE as u64
    } else {
        end
    }
}

/// The place of an index's block, or none that matters past the file's indices.
pub fn spot_at(spots: &[u64], index: u32) -> u64
    ensures value { result ≡ slice_index spots.now index }
{
    match spots.get(index as usize) {
        Some(spot) => *spot,
        None => 0,
    }
}

/// Keeps the place of a block that was put, and says where the next data block goes then.
pub fn keep_place(spots: &mut Vec<u64>, areas: &Areas, end: u64, index: u32, reply: &Reply) -> u64
    requires here { IfPut reply.now (index < length spots.old.items) }
    requires small { end + 4096 < 2 ^ 64 }
    ensures next { result ≡ end_with (area_places areas.now) end index reply.now }
    ensures len { length spots.new.items ≡ length spots.old.items }
    ensures shown { (i : ℕ) → i < length spots.old.items → slice_index spots.new.items i ≡ put_spot index reply.now (λ k. slice_index spots.old.items k) i }
{
    match reply {
        Reply::Put { place, .. } => {
            spots[index as usize] = *place;
            end_after(areas, end, index)
        }
        _ => end,
    }
}
