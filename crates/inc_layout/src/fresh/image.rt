ghost use Rattle.std.specs.Prelude.{◌≡◌, ◌^◌, ◌≤◌, ◌+◌, ◌*◌, ◌++◌, length, IfOk, OnOk};
ghost use Rattle.inc_header.specs.Header.{IsHeader, header_bytes};
ghost use Rattle.inc_tree.specs.shape.Limits.{most_size};
ghost use Rattle.inc_tree.specs.shape.Geometry.{data_blocks, blocks_of};
ghost use Rattle.inc_layout.specs.Fresh.{block_start, entry_count, fresh_header, fresh_length, fresh_of, image_of, map_place, map_record, signature_record, status_record, tree_bytes, tree_place, unsigned_length, unsigned_map_place, unsigned_of};

use super::FreshImage;
use super::record::{BLOB, FIRST_RECORD, UNSIGNED_MAP, push_map, push_signature, push_status};
use crate::OutOfMemory;
use inc_bytes::Id;
use inc_entry::ENTRY_SIZE;
use inc_header::{Header, HeaderKind, write_header};
use inc_io::Bytes;
use inc_tree::{BLOCK_SIZE, Geometry};
use std::alloc::Global;

/// Where things lie in a fresh signed file.
#[derive(Clone, Copy)]
struct Plan {
    map_at: u64,
    entries: u32,
    tree_at: u64,
    tree_size: u32,
    len: u64,
}

/// The first place of a block at or behind this one.
fn block_start(at: u64) -> u64
    requires { at ≤ 2 ^ 32 }
    ensures value { result ≡ block_start at }
{
    at.div_ceil(BLOCK_SIZE as u64) * BLOCK_SIZE as u64
}

#[tactic(auto, unfolding(crate::specs::Fresh::tree_place, crate::specs::Fresh::fresh_length))]
fn plan_of(tree: &Geometry, blob_size: u32) -> Plan
    requires { blob_size ≤ 8096 }
    ensures map_at { result.map_at ≡ map_place blob_size }
    ensures entries { result.entries ≡ entry_count tree.now }
    ensures tree_at { result.tree_at ≡ tree_place tree.now blob_size }
    ensures tree_size { result.tree_size ≡ tree_bytes tree.now }
    ensures len { result.len ≡ fresh_length tree.now blob_size }
{
    let blocks = tree.hash_blocks();
    let entries = tree.data_blocks() + blocks;
    let map_at = BLOB + blob_size as u64;
    let map_end = map_at + ENTRY_SIZE * entries as u64;
    let tree_size = BLOCK_SIZE as u32 * blocks;
    if blocks == 0 {
        return Plan {
            map_at,
            entries,
            tree_at: 0,
            tree_size,
            len: map_end,
        };
    }
    let tree_at = block_start(map_end);
    Plan {
        map_at,
        entries,
        tree_at,
        tree_size,
        len: tree_at + tree_size as u64,
    }
}

/// The header of a fresh file.
fn header_of(size: u64, id: Id) -> Header
    ensures value { result ≡ fresh_header size id }
    ensures header { IsHeader (fresh_header size id) }
{
    Header {
        kind: HeaderKind::Plain {
            first: FIRST_RECORD,
        },
        size,
        id,
    }
}

/// The header, the records and the blob of a signed file.
fn signed_front(
    alloc: Global,
    plan: &Plan,
    header: &Header,
    blob: &[u8],
) -> Result<Vec<u8>, OutOfMemory>
    requires header { IsHeader header.now }
    requires blob { length blob.now ≤ 8096 }
    ensures value { IfOk result (λ front. front.items ≡ header_bytes header.now ++ map_record plan.now.map_at plan.now.entries ++ signature_record (length blob.now) plan.now.tree_size plan.now.tree_at ++ status_record ++ blob.now) }
{
    let mut front = Vec::with_capacity(alloc, plan.map_at as usize)?;
    front.extend_from_slice(&write_header(header))?;
    push_map(&mut front, plan.map_at, plan.entries)?;
    push_signature(&mut front, blob.len() as u32, plan.tree_size, plan.tree_at)?;
    push_status(&mut front)?;
    front.extend_from_slice(blob)?;
    Ok(front)
}

/// A fresh signed file, for a good blob.
pub fn signed_image(
    alloc: Global,
    tree: &Geometry,
    id: Id,
    blob: &[u8],
) -> Result<FreshImage, OutOfMemory>
    requires { length blob.now ≤ 8096 }
    ensures value { IfOk result (λ image. image_of image ≡ fresh_of tree.now id blob.now) }
    ensures len { IfOk result (λ image. image.len ≡ fresh_length tree.now (length blob.now)) }
    ensures fits { IfOk result (λ image. length image.front ≤ image.len) }
    ensures header { OnOk result (IsHeader (fresh_header tree.now.size id)) }
{
    let plan = plan_of(tree, blob.len() as u32);
    let header = header_of(tree.size(), id);
    let front = signed_front(alloc, &plan, &header, blob)?;
    Ok(FreshImage {
        front: Bytes::from_vec(front),
        len: plan.len,
    })
}

/// The header and the records of an unsigned file.
fn unsigned_front(alloc: Global, header: &Header, blocks: u32) -> Result<Vec<u8>, OutOfMemory>
    requires { IsHeader header.now }
    ensures value { IfOk result (λ front. front.items ≡ header_bytes header.now ++ map_record unsigned_map_place blocks ++ status_record) }
{
    let mut front = Vec::with_capacity(alloc, UNSIGNED_MAP as usize)?;
    front.extend_from_slice(&write_header(header))?;
    push_map(&mut front, UNSIGNED_MAP, blocks)?;
    push_status(&mut front)?;
    Ok(front)
}

/// A fresh unsigned file.
pub fn unsigned_image(alloc: Global, flat: &Geometry, id: Id) -> Result<FreshImage, OutOfMemory>
    ensures value { IfOk result (λ image. image_of image ≡ unsigned_of flat.now.size id) }
    ensures len { IfOk result (λ image. image.len ≡ unsigned_length flat.now.size) }
    ensures fits { IfOk result (λ image. length image.front ≤ image.len) }
    ensures header { OnOk result (IsHeader (fresh_header flat.now.size id)) }
{
    let blocks = flat.data_blocks();
    let header = header_of(flat.size(), id);
    let front = unsigned_front(alloc, &header, blocks)?;
    Ok(FreshImage {
        front: Bytes::from_vec(front),
        len: UNSIGNED_MAP + ENTRY_SIZE * blocks as u64,
    })
}
