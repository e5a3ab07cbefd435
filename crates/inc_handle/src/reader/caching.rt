// A read through the reader's cache.
ghost use Rattle.std.specs.Prelude.{◌≡◌, ◌<◌, ◌≤◌, Some, None, IfOk, OnOk, OnErr};
ghost use Rattle.inc_tree.specs.shape.Geometry.{data_blocks};
ghost use Rattle.inc_cell.specs.declared.machine.CellFooting.{CellFooting};
ghost use Rattle.inc_cell.specs.events.CellEvents.{footing_of};
ghost use Rattle.inc_handle.specs.Answered.{HasSeenLegal, ReadAnswers};
ghost use Rattle.inc_handle.specs.Caches.{CacheFits, IsCacheOf};
ghost use Rattle.inc_handle.specs.Reads.{IsOfCache, IsOfRead, KnowsPathOf, ReadRefused};
ghost use Rattle.inc_turn.specs.Locks.{IsSameSeat, lock_of, seat_view, table_of};

use crate::reader::asking::ask;
use crate::reader::reading::read_with;
use crate::{FileSeat, OutOfMemory, SharedFile};
use inc_cache::{HashCache, KnownPath};
use inc_disk::Disk;
use inc_io::{Bell, Clock};
use inc_model::{Found, ReadError};
use inc_tree::Shown;
use std::alloc::Global;
use std::sync::Wait;

/// How many verified hash blocks a reader keeps.
const CACHED_HASH_BLOCKS: usize = 64;

/// An empty cache, where the file is signed.
fn cache_for<D: Disk>(alloc: Global, file: &SharedFile<D>) -> Result<Option<HashCache>, OutOfMemory>
    ensures fits { IfOk result (λ cache. CacheFits (footing_of file.now.begun.value) cache) }
{
    match file.root() {
        Some(root) => {
            let cache = HashCache::new(alloc, &root, file.geometry(), CACHED_HASH_BLOCKS)?;
            Ok(Some(cache))
        }
        None => Ok(None),
    }
}

/// Makes the cache of a signed file, where the reader has none yet.
fn ready_cache<D: Disk>(
    alloc: Global,
    file: &SharedFile<D>,
    cache: &mut Option<HashCache>,
) -> Result<(), OutOfMemory>
    requires of_file { IsCacheOf (footing_of file.now.begun.value) cache.old }
    ensures fits { OnOk result (CacheFits (footing_of file.now.begun.value) cache.new) }
    ensures same { OnErr result (cache.new ≡ cache.old) }
{
    if cache.is_none() {
        *cache = cache_for(alloc, file)?;
    }
    Ok(())
}

/// What is kept of a block's path.
fn known_in<D: Disk>(
    alloc: Global,
    file: &SharedFile<D>,
    cache: &Option<HashCache>,
    index: u32,
) -> Result<Option<KnownPath>, OutOfMemory>
    requires here { index < data_blocks file.now.begun.value.opened.areas.geometry }
    requires fits { CacheFits (footing_of file.now.begun.value) cache.now }
    ensures known { IfOk result (λ known. KnowsPathOf (footing_of file.now.begun.value) index known) }
{
    // A path has at most four levels.
    let _depth = file.geometry().depth();
    match cache {
        Some(cache) => {
            let known = cache.known_path(alloc, index)?;
            Ok(Some(known))
        }
        None => Ok(None),
    }
}

/// Keeps the hash blocks of a checked block's path. Without memory some of them aren't kept.
fn keep_shown(alloc: Global, cache: &mut HashCache, shown: &Shown)
    requires own { IsOfCache cache.old shown.now }
    ensures root { cache.new.root ≡ cache.old.root }
    ensures shape { cache.new.shape ≡ cache.old.shape }
{
    if let Shown::Proved(block) = shown {
        let _kept = cache.keep_path(alloc, block);
    }
}

fn keep_read(alloc: Global, cache: &mut Option<HashCache>, answer: &Result<Found, ReadError>)
    requires own { IsOfRead cache.old answer.now }
    ensures fits { (footing : CellFooting) → CacheFits footing cache.old → CacheFits footing cache.new }
{
    if let Some(cache) = cache {
        if let Ok(found) = answer {
            keep_shown(alloc, cache, &found.shown);
        }
    }
}

/// The refusal of a block past the file's end: there is none, and nothing is known of its path.
fn refused_past<D: Disk, R: Wait, C: Clock>(
    rt: &R,
    file: &SharedFile<D>,
    seat: &mut FileSeat,
    uid: u32,
    index: u32,
    clock: &C,
) -> ReadError
    requires own { lock_of seat.old ≡ table_of file.now.lock }
    requires footing { (seat_view seat.old).footing ≡ Some (footing_of file.now.begun.value) }
    requires past { data_blocks file.now.begun.value.opened.areas.geometry ≤ index }
    ensures own { IsSameSeat seat.old seat.new }
    ensures legal { HasSeenLegal (footing_of file.now.begun.value) (seat_view seat.new) }
    ensures told { ReadRefused (C.may_answer clock.now) (footing_of file.now.begun.value) (seat_view seat.old) (seat_view seat.new) index uid result }
{
    let now = clock.now();
    match ask(rt, file, seat, index, uid, now, false) {
        Ok(_) => unreachable!(),
        Err(error) => error,
    }
}

/// Reads a block by what is kept of its path, and keeps the path once it was good.
pub fn read_cached<D: Disk, R: Wait, C: Clock, B: Bell>(
    rt: &R,
    alloc: Global,
    file: &SharedFile<D>,
    seat: &mut FileSeat,
    uid: u32,
    cache: &mut Option<HashCache>,
    early: bool,
    index: u32,
    clock: &C,
    bell: &B,
) -> Result<Found, ReadError>
    requires own { lock_of seat.old ≡ table_of file.now.lock }
    requires footing { (seat_view seat.old).footing ≡ Some (footing_of file.now.begun.value) }
    requires of_file { IsCacheOf (footing_of file.now.begun.value) cache.old }
    ensures own { IsSameSeat seat.old seat.new }
    ensures footing { (seat_view seat.new).footing ≡ Some (footing_of file.now.begun.value) }
    ensures of_file { IsCacheOf (footing_of file.now.begun.value) cache.new }
    ensures answers { ReadAnswers (C.may_answer clock.now) (footing_of file.now.begun.value) (seat_view seat.old) (seat_view seat.new) index uid result }
{
    if index >= file.geometry().data_blocks() {
        return Err(refused_past(rt, file, seat, uid, index, clock));
    }
    if let Err(_) = ready_cache(alloc, file, cache) {
        return Err(ReadError::OutOfMemory);
    }
    let known = match known_in(alloc, file, cache, index) {
        Ok(known) => known,
        Err(_) => return Err(ReadError::OutOfMemory),
    };
    let result = read_with(rt, file, seat, index, uid, known, early, clock, bell);
    keep_read(alloc, cache, &result);
    result
}
