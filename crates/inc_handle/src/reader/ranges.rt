// Several blocks, one after the other.
ghost use Rattle.std.specs.Prelude.{◌≡◌, ◌+◌, ◌^◌, ◌≤◌, Some, IfOk, OnErr, length};
ghost use Rattle.inc_cell.specs.events.CellEvents.{footing_of};
ghost use Rattle.inc_handle.specs.Answered.{ReadsEach};
ghost use Rattle.inc_handle.specs.Caches.{IsCacheOf};
ghost use Rattle.inc_turn.specs.Locks.{IsSameSeat, lock_of, seat_view, table_of};

use crate::reader::caching::read_cached;
use crate::{FileSeat, OutOfMemory, SharedFile};
use inc_cache::HashCache;
use inc_disk::Disk;
use inc_io::{Bell, Clock};
use inc_model::{Found, ReadError};
use std::alloc::Global;
use std::sync::Wait;

/// One answer for each index from `start` on.
pub fn read_each<D: Disk, R: Wait, C: Clock, B: Bell>(
    rt: &R,
    alloc: Global,
    file: &SharedFile<D>,
    seat: &mut FileSeat,
    uid: u32,
    cache: &mut Option<HashCache>,
    early: bool,
    start: u32,
    count: u32,
    clock: &C,
    bell: &B,
) -> Result<Vec<Result<Found, ReadError>>, OutOfMemory>
    requires own { lock_of seat.old ≡ table_of file.now.lock }
    requires footing { (seat_view seat.old).footing ≡ Some (footing_of file.now.begun.value) }
    requires of_file { IsCacheOf (footing_of file.now.begun.value) cache.old }
    requires range { start + count ≤ 2 ^ 32 }
    ensures own { IsSameSeat seat.old seat.new }
    ensures footing { (seat_view seat.new).footing ≡ Some (footing_of file.now.begun.value) }
    ensures of_file { IsCacheOf (footing_of file.now.begun.value) cache.new }
    ensures count { IfOk result (λ answers. length answers.items ≡ count) }
    ensures told { IfOk result (λ answers. ReadsEach (C.may_answer clock.now) (footing_of file.now.begun.value) (seat_view seat.old) (seat_view seat.new) start uid answers.items) }
    ensures none { OnErr result (seat_view seat.new ≡ seat_view seat.old) }
{
    let mut answers = Vec::with_capacity(alloc, count as usize)?;
    for offset in 0..count {
        let index = start + offset;
        answers.push_reserved(read_cached(
            rt, alloc, file, seat, uid, cache, early, index, clock, bell,
        ));
    }
    Ok(answers)
}
