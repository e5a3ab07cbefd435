// A group of blocks goes in under one claim, with two syncs for all of them.
ghost use Rattle.std.specs.Prelude.{◌≡◌, ℕ, ◌+◌, ◌<◌, ◌≤◌, List, [], ◌++◌, length, None, vec_capacity, vec_len, OnOk};
ghost use Rattle.inc_model.specs.declared.words.event.Event.{Event};
ghost use Rattle.inc_model.specs.declared.words.file_state.Stage.TheVariants as stage;
ghost use Rattle.inc_cell.specs.seen.Seen.{Seen, state_now};
ghost use Rattle.inc_filling.specs.Grouped.{AllMayBeFilled, AreDistinct, FillsGroup, MovesEach, PutsGroup, StoresGroup, gates_of_each, group_indices, needed, places_of_each};
ghost use Rattle.inc_filling.specs.Shown.{ShowsFile, SpottedBytes, with_blocks, with_gates, with_group, with_places};
ghost use Rattle.inc_filling.specs.Stands.{IsAtRest, StandsAt, stage_among};

use crate::window::{claim, open_entry, release, sync, write_block, write_place};
use crate::{FillStop, Filling};
use inc_cell::FileCell;
use inc_disk::Disk;
use inc_model::Window;

/// The most blocks of a group.
pub const MOST_BLOCKS_OF_GROUP: u32 = 64;

/// Fills a group of blocks. Once it answers `Ok`, nothing is in flight and whatever is open is acknowledged, and `stored` has the indices
/// that weren't open before. `stored` is scratch that is used again for each group, with room for one.
///
/// The events are one claim, all puts, the places of what was stored, a sync, its gates, a sync, and a release.
pub fn fill_group<D: Disk>(
    cell: &mut FileCell<D>,
    window: Window,
    group: &[Filling],
    stored: &mut Vec<u32>,
) -> Result<(), FillStop>
    requires idle { IsAtRest cell.old }
    requires may { AllMayBeFilled (state_now cell.old) (group_indices group.now) }
    requires distinct { AreDistinct (group_indices group.now) }
    requires some { 0 < length group.now }
    requires most { length group.now ≤ 64 }
    requires room { length group.now ≤ vec_capacity stored.old }
    ensures fills { FillsGroup cell.old window group.now result stored.new.items cell.new }
    ensures shows { (file : SpottedBytes) → ShowsFile cell.old file → OnOk result (ShowsFile cell.new (with_group cell.old.opened (state_now cell.old).map file group.now)) }
    ensures room { vec_capacity stored.new ≡ vec_capacity stored.old }
{
    stored.clear();
    claim(cell, window, 5 * group.len() as u32 + 1)?;
    let end = store_group(cell, window, group, stored);
    release(cell, window);
    end
}

/// Stores a group that was claimed, from its puts to the sync after its gates.
fn store_group<D: Disk>(
    cell: &mut FileCell<D>,
    window: Window,
    group: &[Filling],
    stored: &mut Vec<u32>,
) -> Result<(), FillStop>
    requires empty { stored.old.items ≡ [] }
    requires room { length group.now ≤ vec_capacity stored.old }
    ensures stores { (start : Seen) (left : ℕ) (events : List Event) → StandsAt start window (needed (length group.now) left) (λ i. None) events cell.old → AllMayBeFilled (state_now start) (group_indices group.now)
        → AreDistinct (group_indices group.now) → StoresGroup start window left events group.now (state_now cell.old).map result stored.new.items cell.new }
    ensures shows { (start : Seen) (left : ℕ) (events : List Event) → StandsAt start window (needed (length group.now) left) (λ i. None) events cell.old → AllMayBeFilled (state_now start) (group_indices group.now)
        → AreDistinct (group_indices group.now) → (file : SpottedBytes) → ShowsFile cell.old file → OnOk result (ShowsFile cell.new (with_group cell.old.opened (state_now cell.old).map file group.now)) }
    ensures room { vec_capacity stored.new ≡ vec_capacity stored.old }
{
    write_blocks(cell, window, group, stored)?;
    let indices = stored.as_slice();
    if indices.is_empty() {
        return Ok(());
    }
    write_places(cell, window, indices)?;
    sync(cell, window)?;
    open_entries(cell, window, indices)?;
    sync(cell, window)?;
    Ok(())
}

/// Writes the blocks whose indices aren't open, and keeps these indices.
fn write_blocks<D: Disk>(
    cell: &mut FileCell<D>,
    window: Window,
    group: &[Filling],
    stored: &mut Vec<u32>,
) -> Result<(), FillStop>
    requires empty { stored.old.items ≡ [] }
    requires room { length group.now ≤ vec_capacity stored.old }
    ensures puts { (start : Seen) (left : ℕ) (events : List Event) → StandsAt start window (length group.now + left) (λ i. None) events cell.old → AllMayBeFilled (state_now start) (group_indices group.now) → AreDistinct (group_indices group.now)
        → PutsGroup start window left events group.now (state_now cell.old).map result stored.new.items cell.new }
    ensures shows { (start : Seen) (left : ℕ) (events : List Event) → StandsAt start window (length group.now + left) (λ i. None) events cell.old → AllMayBeFilled (state_now start) (group_indices group.now) → AreDistinct (group_indices group.now)
        → (file : SpottedBytes) → ShowsFile cell.old file → OnOk result (ShowsFile cell.new (with_blocks cell.old.opened (state_now cell.old).map file group.now)) }
    ensures fewer { length stored.new.items ≤ length group.now }
    ensures room { vec_capacity stored.new ≡ vec_capacity stored.old }
{
    for at in 0..group.len() {
        let filling = &group[at];
        if write_block(cell, window, filling)? {
            stored.push_reserved(filling.index);
        }
    }
    Ok(())
}

/// Writes the places of the blocks that were stored.
fn write_places<D: Disk>(
    cell: &mut FileCell<D>,
    window: Window,
    stored: &[u32],
) -> Result<(), FillStop>
    ensures moves { (start : Seen) (left : ℕ) (events : List Event) → StandsAt start window (length stored.now + left) (stage_among stored.now stage.Written) events cell.old → AreDistinct stored.now
        → MovesEach start window left stored.now stage.Placed events (places_of_each window stored.now) result cell.new }
    ensures shows { (start : Seen) (left : ℕ) (events : List Event) → StandsAt start window (length stored.now + left) (stage_among stored.now stage.Written) events cell.old → AreDistinct stored.now
        → (file : SpottedBytes) → ShowsFile cell.old file → OnOk result (ShowsFile cell.new (with_places cell.old.opened file stored.now)) }
{
    for at in 0..stored.len() {
        write_place(cell, window, stored[at])?;
    }
    Ok(())
}

/// Opens the entries of the blocks that were stored.
fn open_entries<D: Disk>(
    cell: &mut FileCell<D>,
    window: Window,
    stored: &[u32],
) -> Result<(), FillStop>
    ensures moves { (start : Seen) (left : ℕ) (events : List Event) → StandsAt start window (length stored.now + left) (stage_among stored.now stage.Settled) events cell.old → AreDistinct stored.now
        → MovesEach start window left stored.now stage.Gated events (gates_of_each window stored.now) result cell.new }
    ensures shows { (start : Seen) (left : ℕ) (events : List Event) → StandsAt start window (length stored.now + left) (stage_among stored.now stage.Settled) events cell.old → AreDistinct stored.now
        → (file : SpottedBytes) → ShowsFile cell.old file → OnOk result (ShowsFile cell.new (with_gates cell.old.opened file stored.now)) }
{
    for at in 0..stored.len() {
        open_entry(cell, window, stored[at])?;
    }
    Ok(())
}
