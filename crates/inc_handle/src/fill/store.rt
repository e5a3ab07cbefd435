// A whole group: its claim, its blocks, its release.
ghost use Rattle.std.specs.Prelude.{◌≡◌, ℕ, ◌+◌, ◌<◌, ◌≤◌, List, [], length, None, Some, vec_capacity};
ghost use Rattle.inc_cell.specs.declared.machine.CellFooting.{CellFooting};
ghost use Rattle.inc_filling.specs.Grouped.{AreDistinct, group_indices};
ghost use Rattle.inc_handle.specs.UnderWay.{FillRuns, finish_places};
ghost use Rattle.inc_handle.specs.Fills.{FillsOwn, StoresOwnGroup};
ghost use Rattle.inc_handle.specs.Shared.{HasGoneOn};
ghost use Rattle.inc_handle.specs.Standing.{AllMayFill};
ghost use Rattle.inc_model.specs.declared.words.event.Event.{Event};
ghost use Rattle.inc_turn.specs.Locks.{lock_of, seat_view, table_of};
ghost use Rattle.inc_turn.specs.declared.view.View.{View};

use super::group::{finish_blocks, write_blocks};
use super::window::{PutEnd, claim, release};
use crate::{FileSeat, SharedFile};
use inc_disk::Disk;
use inc_filling::{FillStop, Filling};
use inc_io::Bell;
use inc_model::Window;
use std::sync::Wait;

/// Stores a group that was claimed, and answers the position of the sync that acknowledges it, if anything was stored.
fn store_group<D: Disk, R: Wait, B: Bell>(
    rt: &R,
    file: &SharedFile<D>,
    seat: &mut FileSeat,
    bell: &B,
    window: Window,
    group: Vec<Filling>,
    stored: &mut Vec<u32>,
    ends: &mut Vec<PutEnd>,
) -> Result<u64, FillStop>
    requires own { lock_of seat.old ≡ table_of file.now.lock }
    requires who { window.who ≡ seat.old.number }
    requires empty { (stored.old.items ≡ []) × (ends.old.items ≡ []) }
    requires room { (length group.items ≤ vec_capacity stored.old) × (length group.items ≤ vec_capacity ends.old) }
    ensures own { HasGoneOn seat.old seat.new }
    ensures few { length ends.new.items ≤ length group.items }
    ensures stores { (known : CellFooting) (start : View CellFooting) (left : ℕ) (events : List Event) → FillRuns known start window (length group.items + finish_places (length group.items) left) (λ i. None) events (seat_view seat.old)
        → AllMayFill known.opened (group_indices group.items) → AreDistinct (group_indices group.items)
        → StoresOwnGroup known start window left events group.items result ends.new.items stored.new.items (seat_view seat.new) }
{
    write_blocks(rt, file, seat, window, group, stored, ends)?;
    let indices = stored.as_slice();
    if indices.is_empty() {
        return Ok(0);
    }
    finish_blocks(rt, file, seat, bell, window, indices)
}

/// Fills a group of blocks, one event after another, beside whatever other seats do.
pub(super) fn fill_blocks<D: Disk, R: Wait, B: Bell>(
    rt: &R,
    file: &SharedFile<D>,
    seat: &mut FileSeat,
    bell: &B,
    window: Window,
    group: Vec<Filling>,
    stored: &mut Vec<u32>,
    ends: &mut Vec<PutEnd>,
) -> Result<u64, FillStop>
    requires own { lock_of seat.old ≡ table_of file.now.lock }
    requires who { window.who ≡ seat.old.number }
    requires empty { (stored.old.items ≡ []) × (ends.old.items ≡ []) }
    requires room { (length group.items ≤ vec_capacity stored.old) × (length group.items ≤ vec_capacity ends.old) }
    requires some { 0 < length group.items }
    requires most { length group.items ≤ 64 }
    ensures own { HasGoneOn seat.old seat.new }
    ensures few { length ends.new.items ≤ length group.items }
    ensures fills { (known : CellFooting) → (seat_view seat.old).footing ≡ Some known → AllMayFill known.opened (group_indices group.items) → AreDistinct (group_indices group.items)
        → FillsOwn known (seat_view seat.old) window group.items result ends.new.items stored.new.items (seat_view seat.new) }
{
    let places = 5 * group.len() as u32 + 1;
    claim(rt, file, seat, window, places)?;
    let settled_at = store_group(rt, file, seat, bell, window, group, stored, ends);
    release(rt, file, seat, window);
    settled_at
}
