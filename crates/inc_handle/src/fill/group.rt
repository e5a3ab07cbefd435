// A group of blocks under one claim, with two syncs for all of them.
ghost use Rattle.std.specs.Prelude.{◌≡◌, ℕ, ◌+◌, ◌<◌, ◌≤◌, List, [], ◌∷◌, ◌++◌, if◌then◌else◌, length, None, vec_capacity, vec_len};
ghost use Rattle.inc_cell.specs.declared.machine.CellFooting.{CellFooting};
ghost use Rattle.inc_filling.specs.Grouped.{AreDistinct, gates_of_each, group_indices, places_of_each};
ghost use Rattle.inc_filling.specs.Stands.{stage_among};
ghost use Rattle.inc_handle.specs.UnderWay.{FillMoves, FillRuns, FinishSteps, PutsOwnGroup, finish_events, finish_places, is_stored};
ghost use Rattle.inc_handle.specs.Standing.{AllMayFill};
ghost use Rattle.inc_model.specs.declared.words.event.Event.{Event};
ghost use Rattle.inc_model.specs.declared.words.file_state.Stage.TheVariants as stage;
ghost use Rattle.inc_handle.specs.Shared.{HasGoneOn};
ghost use Rattle.inc_turn.specs.Locks.{lock_of, seat_view, table_of};
ghost use Rattle.inc_turn.specs.declared.view.View.{View};

use super::window::{PutEnd, open_entry, sync, write_block, write_place};
use crate::{FileSeat, SharedFile};
use inc_disk::Disk;
use inc_filling::{FillStop, Filling};
use inc_io::Bell;
use inc_model::{Reply, Window};
use std::sync::Wait;

/// Keeps the index of a block that was stored.
fn keep_stored(stored: &mut Vec<u32>, index: u32, end: PutEnd)
    requires room { vec_len stored.old < vec_capacity stored.old }
    ensures items { stored.new.items ≡ (if is_stored end then stored.old.items ++ index ∷ [] else stored.old.items) }
    ensures len { vec_len stored.new ≤ vec_len stored.old + 1 }
    ensures room { vec_capacity stored.new ≡ vec_capacity stored.old }
{
    if end.is_stored() {
        stored.push_reserved(index);
    }
}

/// Puts the blocks of a group, and keeps the indices of those that were stored.
pub(super) fn write_blocks<D: Disk, R: Wait>(
    rt: &R,
    file: &SharedFile<D>,
    seat: &mut FileSeat,
    window: Window,
    group: Vec<Filling>,
    stored: &mut Vec<u32>,
    ends: &mut Vec<PutEnd>,
) -> Result<(), FillStop>
    requires own { lock_of seat.old ≡ table_of file.now.lock }
    requires who { window.who ≡ seat.old.number }
    requires empty { (stored.old.items ≡ []) × (ends.old.items ≡ []) }
    requires room { (length group.items ≤ vec_capacity stored.old) × (length group.items ≤ vec_capacity ends.old) }
    ensures own { HasGoneOn seat.old seat.new }
    ensures few { length ends.new.items ≤ length group.items }
    ensures puts { (known : CellFooting) (start : View CellFooting) (left : ℕ) (events : List Event) → FillRuns known start window (length group.items + left) (λ i. None) events (seat_view seat.old) → AllMayFill known.opened (group_indices group.items)
        → AreDistinct (group_indices group.items) → PutsOwnGroup known start window left events group.items result ends.new.items stored.new.items (seat_view seat.new) }
{
    for filling in group {
        let index = filling.index;
        let end = write_block(rt, file, seat, window, filling)?;
        ends.push_reserved(end);
        keep_stored(stored, index, end);
    }
    Ok(())
}

/// Writes the places of the blocks that were stored.
fn write_places<D: Disk, R: Wait>(
    rt: &R,
    file: &SharedFile<D>,
    seat: &mut FileSeat,
    window: Window,
    stored: &[u32],
) -> Result<(), FillStop>
    requires own { lock_of seat.old ≡ table_of file.now.lock }
    requires who { window.who ≡ seat.old.number }
    ensures own { HasGoneOn seat.old seat.new }
    ensures moves { (known : CellFooting) (start : View CellFooting) (left : ℕ) (events : List Event) → FillRuns known start window (length stored.now + left) (stage_among stored.now stage.Written) events (seat_view seat.old) → AreDistinct stored.now
        → FillMoves known start window left (stage_among stored.now stage.Placed) (events ++ places_of_each window stored.now) result (seat_view seat.new) }
{
    for at in 0..stored.len() {
        write_place(rt, file, seat, window, stored[at])?;
    }
    Ok(())
}

/// Opens the entries of the blocks that were stored, and rings at each for which a read has waited.
fn open_entries<D: Disk, R: Wait, B: Bell>(
    rt: &R,
    file: &SharedFile<D>,
    seat: &mut FileSeat,
    bell: &B,
    window: Window,
    stored: &[u32],
) -> Result<(), FillStop>
    requires own { lock_of seat.old ≡ table_of file.now.lock }
    requires who { window.who ≡ seat.old.number }
    ensures own { HasGoneOn seat.old seat.new }
    ensures moves { (known : CellFooting) (start : View CellFooting) (left : ℕ) (events : List Event) → FillRuns known start window (length stored.now + left) (stage_among stored.now stage.Settled) events (seat_view seat.old) → AreDistinct stored.now
        → FillMoves known start window left (stage_among stored.now stage.Gated) (events ++ gates_of_each window stored.now) result (seat_view seat.new) }
{
    for at in 0..stored.len() {
        let reply = open_entry(rt, file, seat, window, stored[at])?;
        ring_for(bell, &reply);
    }
    Ok(())
}

/// Wakes who rests, where a gate has marked a read.
fn ring_for<B: Bell>(bell: &B, reply: &Reply) {
    if let Reply::Gated { marked } = reply {
        if *marked > 0 {
            bell.ring();
        }
    }
}

/// Brings the blocks that were put to their end, and answers the position of the sync that acknowledges them.
pub(super) fn finish_blocks<D: Disk, R: Wait, B: Bell>(
    rt: &R,
    file: &SharedFile<D>,
    seat: &mut FileSeat,
    bell: &B,
    window: Window,
    stored: &[u32],
) -> Result<u64, FillStop>
    requires own { lock_of seat.old ≡ table_of file.now.lock }
    requires who { window.who ≡ seat.old.number }
    ensures own { HasGoneOn seat.old seat.new }
    ensures finishes { (known : CellFooting) (start : View CellFooting) (left : ℕ) (events : List Event) → FillRuns known start window (finish_places (length stored.now) left) (stage_among stored.now stage.Written) events (seat_view seat.old) → AreDistinct stored.now
        → FinishSteps known start window left (events ++ finish_events window stored.now) result (seat_view seat.new) }
{
    write_places(rt, file, seat, window, stored)?;
    sync(rt, file, seat, window)?;
    open_entries(rt, file, seat, bell, window, stored)?;
    sync(rt, file, seat, window)
}
