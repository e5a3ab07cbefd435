// The check of what was handed out, outside the lock.
ghost use Rattle.std.specs.Prelude.{◌≡◌, ◌<◌, ◌≤◌, ◌++◌, length, take, IfOk, IfErr, IfSome};
ghost use Rattle.inc_tree.specs.shape.Geometry.{block_len, data_blocks};
ghost use Rattle.inc_cell.specs.events.CellEvents.{footing_of};
ghost use Rattle.inc_model.specs.declared.words.outcomes.ReadError.TheVariants.{Corrupt};
ghost use Rattle.inc_handle.specs.Reads.{IsHandedFor, KnowsPathOf, ShowTold, numbers_known};

use crate::SharedFile;
use inc_cache::KnownPath;
use inc_cell::{HandedBytes, NumberList};
use inc_disk::Disk;
use inc_model::{Found, ReadError};
use inc_tree::{Broken, Shown, Unproved};

/// The numbers of the hash blocks that needn't be read.
pub fn numbers_of(known: &Option<KnownPath>) -> NumberList
    requires few { length (numbers_known known.now) ≤ 4 }
    ensures value { result ≡ numbers_known known.now }
{
    match known {
        Some(known) => list_of(known.numbers()),
        None => list_of(&[]),
    }
}

fn list_of(numbers: &[u32]) -> NumberList
    requires few { length numbers.now ≤ 4 }
    ensures value { result ≡ numbers.now }
{
    match NumberList::of(numbers) {
        Some(list) => list,
        None => unreachable!(),
    }
}

/// Shows a block that was handed out: with its path where the file has a root, and else marked as one that nothing proves. What is known
/// of the path stands in its places and isn't hashed again. It takes no memory.
pub fn show<D: Disk>(
    file: &SharedFile<D>,
    index: u32,
    known: Option<KnownPath>,
    handed: HandedBytes,
    at: u64,
) -> Result<Found, ReadError>
    requires here { index < data_blocks file.now.begun.value.opened.areas.geometry }
    requires known { KnowsPathOf (footing_of file.now.begun.value) index known }
    requires handed { IsHandedFor (footing_of file.now.begun.value) index (numbers_known known) handed }
    ensures told { ShowTold (footing_of file.now.begun.value) index handed.block.digest at result }
{
    let HandedBytes { block, path } = handed;
    let digest = block.digest();
    let bytes = block.into_block();
    match known {
        Some(known) => match known.check(bytes, digest, path) {
            Ok(block) => Ok(Found {
                shown: Shown::Proved(block),
                at,
            }),
            Err(broken) => Err(corrupt(broken, at)),
        },
        None => Ok(Found {
            shown: Shown::Unproved(Unproved::of(file.geometry(), index, bytes)),
            at,
        }),
    }
}

// What a reader is told of a path that breaks.
fn corrupt(broken: Broken, at: u64) -> ReadError
    ensures value { result ≡ Corrupt broken.level broken.wanted broken.got at }
{
    let Broken { level, wanted, got } = broken;
    ReadError::Corrupt {
        level,
        wanted,
        got,
        at,
    }
}
