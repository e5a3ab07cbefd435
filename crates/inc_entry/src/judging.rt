ghost use Rattle.std.specs.Prelude.{◌≡◌, ◌+◌, ◌-◌, ◌*◌, ◌<◌, ◌≤◌, ◌^◌, ◌==◌, nat_le, length};
ghost use Rattle.inc_tree.specs.shape.Geometry.{data_blocks, hash_blocks};
ghost use Rattle.inc_entry.specs.Entry.{area_places, entries, hash_place, fits, has_size, asks, is_open, past_end, is_compressed, is_closed, class_of, entry_from, entry_size, entry_at};
ghost use Rattle.inc_entry.specs.Table.{IsClass};

use crate::areas::ENTRY_SIZE;
use crate::entry::{Entry, entry_in, is_clear, misses};
use crate::{Areas, Class};
use inc_tree::BLOCK_SIZE;

/// The low three bits of the flags name the compression.
const COMPRESSION_BITS: u16 = 7;

/// The place of an entry in the file.
pub fn entry_at(areas: &Areas, index: u32) -> u64
    requires here { index < entries (area_places areas.now) }
    requires end { areas.now.map_at + 10 * entries (area_places areas.now) < 2 ^ 64 }
    ensures value { result ≡ entry_at (area_places areas.now) index }
{
    areas.map_at + ENTRY_SIZE * index as u64
}

/// The class of the entry of this index. It takes no memory.
pub fn class(entry: &[u8; 10], areas: &Areas, index: u32) -> Class
    requires { index < entries (area_places areas.now) }
    // The answer is computed so.
    ensures value { result ≡ class_of (area_places areas.now) areas.now.len index (entry_from entry.now 0) }
    // In words it is the row of the table that the entry is in.
    ensures row { IsClass (area_places areas.now) areas.now.len index (entry_from entry.now 0) result }
{
    judged(&entry_in(entry), areas, index)
}

#[tactic(auto, unfolding(crate::specs::Entry::class_of))]
fn judged(entry: &Entry, areas: &Areas, index: u32) -> Class
    requires here { index < entries (area_places areas.now) }
    requires low { entry.now.offset < 2 ^ 48 }
    ensures value { result ≡ class_of (area_places areas.now) areas.now.len index entry.now }
{
    if is_open(entry, areas, index) {
        return Class::OpenAt {
            place: entry.offset,
            len: entry.size(),
        };
    }
    if is_compressed(entry) {
        return Class::Compressed;
    }
    if is_closed(entry, areas, index) {
        return Class::Closed;
    }
    Class::Damaged
}

/// Whether an entry names a block that isn't inside the file. A file with such an entry is refused: the block would be there in a
/// longer file.
#[tactic(auto, unfolding(crate::specs::Entry::past_end))]
pub fn is_past_end(entry: &[u8; 10], areas: &Areas, index: u32) -> bool
    requires { index < entries (area_places areas.now) }
    ensures value { result ≡ past_end (area_places areas.now) areas.now.len index (entry_from entry.now 0) }
{
    let entry = entry_in(entry);
    let asks = asks(&entry, areas, index);
    let over = entry.offset + entry.size() as u64 > areas.len;
    asks & over
}

#[tactic(auto, unfolding(crate::specs::Entry::is_open))]
fn is_open(entry: &Entry, areas: &Areas, index: u32) -> bool
    requires here { index < entries (area_places areas.now) }
    requires low { entry.now.offset < 2 ^ 48 }
    ensures value { result ≡ is_open (area_places areas.now) areas.now.len index entry.now }
{
    let asks = asks(entry, areas, index);
    let size = entry.size() as u64;
    let inside = entry.offset + size <= areas.len;
    let fits = fits(areas, index, entry.offset, size);
    asks & (inside & fits)
}

#[tactic(auto, unfolding(crate::specs::Entry::asks))]
fn asks(entry: &Entry, areas: &Areas, index: u32) -> bool
    requires here { index < entries (area_places areas.now) }
    ensures value { result ≡ asks (area_places areas.now) index entry.now }
{
    let plain = entry.flags == 0;
    let sized = has_size(areas, index, entry.size());
    let placed = entry.offset != 0;
    (plain & sized) & placed
}

#[tactic(auto, unfolding(crate::specs::Entry::is_compressed))]
fn is_compressed(entry: &Entry) -> bool
    ensures value { result ≡ is_compressed entry.now }
{
    let compressed = entry.flags & COMPRESSION_BITS != 0;
    let placed = entry.offset != 0;
    let sized = entry.size() != 0;
    compressed & (placed & sized)
}

#[tactic(auto, unfolding(crate::specs::Entry::is_closed))]
fn is_closed(entry: &Entry, areas: &Areas, index: u32) -> bool
    requires here { index < entries (area_places areas.now) }
    ensures value { result ≡ is_closed (area_places areas.now) index entry.now }
{
    let plain = entry.flags == 0;
    let low = entry.low == 0;
    let sized = has_size(areas, index, entry.size());
    (plain & low) & !sized
}

/// Whether a size is that of a whole block or of this one.
#[tactic(auto, unfolding(crate::specs::Entry::has_size))]
fn has_size(areas: &Areas, index: u32, size: u32) -> bool
    requires here { index < entries (area_places areas.now) }
    ensures value { result ≡ has_size (area_places areas.now) index size }
{
    let whole = size == BLOCK_SIZE as u32;
    let own = size == areas.geometry.block_len(index);
    whole | own
}

/// Whether a block of this index may lie in this range: a data block apart from everything else, a hash block at its own place in the
/// tree.
#[tactic(auto, unfolding(crate::specs::Entry::fits), using(crate::proofs::AreaLists::clear_of_areas))]
fn fits(areas: &Areas, index: u32, at: u64, len: u64) -> bool
    requires here { index < entries (area_places areas.now) }
    ensures value { result ≡ fits (area_places areas.now) index at len }
{
    if index >= areas.geometry.data_blocks() {
        return is_hash_place(areas, index, at);
    }
    let spans = is_clear(areas.spans.as_slice(), at, len);
    let map = misses(areas.map_span(), at, len);
    let tree = misses(areas.tree_span(), at, len);
    spans & (map & tree)
}

/// Whether the hash block of this index has its place here.
fn is_hash_place(areas: &Areas, index: u32, at: u64) -> bool
    requires { data_blocks areas.now.geometry ≤ index }
    ensures value { result ≡ (at == hash_place (area_places areas.now) index) }
{
    let before = BLOCK_SIZE as u64 * (index - areas.geometry.data_blocks()) as u64;
    at >= areas.hash_at && at - areas.hash_at == before
}
