// The reads of a block that is handed out, and of those hash blocks of its path that the asker doesn't know.
ghost use Rattle.std.specs.Prelude.{◌≡◌, ◌+◌, ◌*◌, ◌^◌, ◌<◌, ◌≤◌, length, IfOk, IfSome, OnErr};
ghost use Rattle.inc_io.specs.Causes.{HasCauseAt};
ghost use Rattle.inc_tree.specs.shape.Geometry.{block_len, data_blocks, hash_blocks};
ghost use Rattle.inc_entry.specs.Entry.{area_places, block_bytes, tree_span};
ghost use Rattle.inc_entry.specs.Spans.{IsInside};
ghost use Rattle.inc_layout.specs.declared.reading.stored_error.StoredError.TheVariants.{ReadFault as read_fault};
ghost use Rattle.inc_cell.specs.device.Handed.{HandsOf, HandsRead, IfHanded, IsReadFrom, block_from, block_of, is_waiting, unknown_hashes, unknown_path};
ghost use Rattle.inc_cell.specs.device.Early.{is_asked_reply};
ghost use Rattle.inc_cell.specs.events.Steps.{HasCounted};
ghost use Rattle.inc_cell.specs.events.Wanted.{IsNoFault};

use crate::{CellReply, Digested, HandedBytes, OutOfMemory};
use inc_disk::Disk;
use inc_entry::Areas;
use inc_io::Backing;
use inc_layout::{StoredError, read_stored};
use inc_model::{ReadRow, Reply};
use inc_tree::{BLOCK_SIZE, Path};
use std::alloc::{AllocError, Global};

/// Whether a read has to wait, so that nothing is entered.
pub fn is_waiting(reply: &Reply) -> bool
    ensures value { result ≡ is_waiting reply.now }
{
    matches!(reply, Reply::NotYet)
}

/// Whether an ask was taken.
pub fn is_asked(reply: &CellReply) -> bool
    ensures value { result ≡ is_asked_reply reply.now }
{
    matches!(reply, CellReply::Done(Reply::Asked { .. }))
}

/// The block of a read, or none that matters where there is no such read.
pub fn block_of(read: Option<ReadRow>) -> u32
    ensures value { result ≡ block_of read }
{
    match read {
        Some(row) => row.block,
        None => 0,
    }
}

/// Reads a data block at its place, and the blocks of its path that aren't known, leaf level first, each in one call. The block is hashed
/// unless it has the bytes of the hint.
pub fn read_handed<B: Backing>(
    alloc: Global,
    file: &mut B,
    areas: &Areas,
    place: u64,
    block: u32,
    known: &[u32],
    hint: Option<&Digested>,
) -> Result<HandedBytes, StoredError>
    requires here { block < data_blocks areas.now.geometry }
    requires end { areas.now.hash_at + block_bytes * hash_blocks areas.now.geometry < 2 ^ 64 }
    ensures block { IfSome (B.reads (B.kept file.old)) (λ bytes. place + block_len areas.now.geometry block ≤ length bytes →
        IfOk result (λ handed. handed.block.bytes ≡ block_from bytes areas.now block place)) }
    ensures len { IfOk result (λ handed. handed.block.len ≡ block_len areas.now.geometry block) }
    ensures path { IfSome (B.reads (B.kept file.old)) (λ bytes. IsInside (length bytes) (tree_span (area_places areas.now)) →
        IfOk result (λ handed. handed.path ≡ unknown_path bytes areas.now block known.now)) }
    ensures count { IfOk result (λ handed. length handed.path ≡ length (unknown_hashes areas.now.geometry block known.now)) }
    ensures kept { B.kept file.new ≡ B.kept file.old }
    ensures cause { HasCauseAt read_fault (B.faults file.old) (B.faults file.new) result }
{
    let len = areas.geometry.block_len(block);
    let bytes = read_stored(alloc, file, place, len)?;
    let path = read_unknown(alloc, file, areas, block, known)?;
    Ok(HandedBytes {
        block: Digested::hinted(bytes, len, hint),
        path,
    })
}

/// Reads the hash blocks on the path of a data block that aren't known, leaf level first.
fn read_unknown<B: Backing>(
    alloc: Global,
    file: &mut B,
    areas: &Areas,
    block: u32,
    known: &[u32],
) -> Result<Path, StoredError>
    requires here { block < data_blocks areas.now.geometry }
    requires end { areas.now.hash_at + block_bytes * hash_blocks areas.now.geometry < 2 ^ 64 }
    ensures value { IfSome (B.reads (B.kept file.old)) (λ bytes. IsInside (length bytes) (tree_span (area_places areas.now)) →
        IfOk result (λ path. path ≡ unknown_path bytes areas.now block known.now)) }
    ensures count { IfOk result (λ path. length path ≡ length (unknown_hashes areas.now.geometry block known.now)) }
    ensures kept { B.kept file.new ≡ B.kept file.old }
    ensures cause { HasCauseAt read_fault (B.faults file.old) (B.faults file.new) result }
{
    let mut blocks = Vec::new(alloc);
    for level in 0..areas.geometry.depth() {
        let hash = areas.geometry.path_block(block, level);
        if !known.contains(&hash) {
            blocks.push(read_stored(alloc, file, areas.hash_block_at(hash), BLOCK_SIZE as u32)?)?;
        }
    }
    Ok(Path::from_vec(blocks))
}

/// What comes of a poll, before it is entered.
#[derive(Drop)]
pub struct Handing {
    pub reply: Reply,
    pub handed: Option<HandedBytes>,
}

/// Reads what is handed out, where the table's reply hands out.
pub fn hand_out<D: Disk>(
    alloc: Global,
    disk: &mut D,
    areas: &Areas,
    block: u32,
    place: u64,
    known: &[u32],
    hint: Option<&Digested>,
    wanted: Reply,
) -> Result<Handing, OutOfMemory>
    requires plain { IsNoFault wanted }
    requires here { IfHanded wanted (block < data_blocks areas.now.geometry) }
    requires end { areas.now.hash_at + block_bytes * hash_blocks areas.now.geometry < 2 ^ 64 }
    ensures hands { IfOk result (λ handing. HandsOf (IsReadFrom (D.states (D.kept disk.old)) areas.now block place known.now) wanted handing.reply handing.handed) }
    ensures kept { D.kept disk.new ≡ D.kept disk.old }
    ensures cause { IfOk result (λ handing. HasCounted (D.faults disk.old) (D.faults disk.new) handing.reply) }
    ensures quiet { OnErr result (D.faults disk.new ≡ D.faults disk.old) }
{
    match wanted {
        Reply::Handed { .. } => hand_read(alloc, disk, areas, block, place, known, hint),
        other => Ok(Handing {
            reply: other,
            handed: None,
        }),
    }
}

/// The block with its digest, or a fault of the disk.
fn hand_read<D: Disk>(
    alloc: Global,
    disk: &mut D,
    areas: &Areas,
    block: u32,
    place: u64,
    known: &[u32],
    hint: Option<&Digested>,
) -> Result<Handing, OutOfMemory>
    requires here { block < data_blocks areas.now.geometry }
    requires end { areas.now.hash_at + block_bytes * hash_blocks areas.now.geometry < 2 ^ 64 }
    ensures hands { IfOk result (λ handing. HandsRead (IsReadFrom (D.states (D.kept disk.old)) areas.now block place known.now) handing.reply handing.handed) }
    ensures kept { D.kept disk.new ≡ D.kept disk.old }
    ensures cause { IfOk result (λ handing. HasCounted (D.faults disk.old) (D.faults disk.new) handing.reply) }
    ensures quiet { OnErr result (D.faults disk.new ≡ D.faults disk.old) }
{
    match read_handed(alloc, disk, areas, place, block, known, hint) {
        Ok(handed) => Ok(Handing {
            reply: Reply::Handed {
                digest: handed.block.digest(),
            },
            handed: Some(handed),
        }),
        Err(StoredError::ReadFault) => Ok(Handing {
            reply: Reply::Fault {
                count: disk.fault_count(),
            },
            handed: None,
        }),
        Err(StoredError::OutOfMemory) => Err(AllocError),
    }
}
