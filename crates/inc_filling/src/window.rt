// The events of one window, from its claim to its release.
ghost use Rattle.std.specs.Prelude.{◌≡◌, ℕ, ◌+◌, ◌-◌, ◌<◌, List, [], ◌∷◌, ◌++◌, Option, None, Some, IfOk, OnOk};
ghost use Rattle.inc_model.specs.declared.words.event.Event.{Event};
ghost use Rattle.inc_model.specs.declared.words.event.Event.TheVariants.{Gate, PutPlace, Release, Settle};
ghost use Rattle.inc_model.specs.declared.words.file_state.Stage.{Stage};
ghost use Rattle.inc_model.specs.declared.words.file_state.Stage.TheVariants as stage;
ghost use Rattle.inc_cell.specs.seen.Seen.{Seen, state_now};
ghost use Rattle.inc_filling.specs.Grouped.{put_of};
ghost use Rattle.inc_filling.specs.Shown.{ShowsFile, SpottedBytes, with_gate, with_place_of, with_stored};
ghost use Rattle.inc_filling.specs.Stands.{ClaimsTo, HasLeft, HasTaken, KeepsOpen, IsAtRest, IsReleased, MayBeFilled, PutsTo, StandsAt, StepsTo, staged_then, synced_stage};

use crate::stop::{go_on, go_on_from_put};
use crate::{FillStop, Filling};
use inc_cell::FileCell;
use inc_disk::Disk;
use inc_model::{Reply, Window};

/// Takes so many places of the history.
pub(crate) fn claim<D: Disk>(
    cell: &mut FileCell<D>,
    window: Window,
    places: u32,
) -> Result<Reply, FillStop>
    requires idle { IsAtRest cell.old }
    ensures claimed { ClaimsTo cell.old window places result cell.new }
    ensures shows { (file : SpottedBytes) → ShowsFile cell.old file → ShowsFile cell.new file }
{
    go_on(cell.claim(window.who, window, places))
}

/// Writes a block, if its index isn't open, and says whether it did.
pub(crate) fn write_block<D: Disk>(
    cell: &mut FileCell<D>,
    window: Window,
    filling: &Filling,
) -> Result<bool, FillStop>
    ensures steps { (start : Seen) (left : ℕ) (stages : ℕ → Option Stage) (events : List Event) → StandsAt start window left stages events cell.old → 0 < left → stages filling.now.index ≡ None
        → MayBeFilled (state_now cell.old) filling.now.index → PutsTo start window (left - 1) filling.now.index stages (events ++ put_of cell.old.opened window filling.now ∷ []) cell.old result cell.new }
    ensures shows { (file : SpottedBytes) → ShowsFile cell.old file → IfOk result (λ put. ShowsFile cell.new (with_stored cell.old.opened file filling.now put)) }
{
    go_on_from_put(cell.put_digested(window.who, window, filling.index, &filling.block))
}

/// Writes the place of a block that was put.
pub(crate) fn write_place<D: Disk>(
    cell: &mut FileCell<D>,
    window: Window,
    index: u32,
) -> Result<Reply, FillStop>
    ensures steps { (start : Seen) (left : ℕ) (stages : ℕ → Option Stage) (events : List Event) → StandsAt start window left stages events cell.old → 0 < left → stages index ≡ Some stage.Written
        → StepsTo start window (left - 1) (staged_then index stage.Placed stages) (events ++ PutPlace window index ∷ []) result cell.new }
    ensures shows { (start : Seen) (left : ℕ) (stages : ℕ → Option Stage) (events : List Event) → StandsAt start window left stages events cell.old → 0 < left → stages index ≡ Some stage.Written
        → (file : SpottedBytes) → ShowsFile cell.old file → OnOk result (ShowsFile cell.new (with_place_of cell.old.opened file index)) }
{
    go_on(cell.put_place(window.who, window, index))
}

/// Makes durable what was written before.
pub(crate) fn sync<D: Disk>(cell: &mut FileCell<D>, window: Window) -> Result<Reply, FillStop>
    ensures steps { (start : Seen) (left : ℕ) (stages : ℕ → Option Stage) (events : List Event) → StandsAt start window left stages events cell.old → 0 < left
        → StepsTo start window (left - 1) (λ i. synced_stage (stages i)) (events ++ Settle window ∷ []) result cell.new }
    ensures shows { (file : SpottedBytes) → ShowsFile cell.old file → OnOk result (ShowsFile cell.new file) }
{
    go_on(cell.settle(window.who, window))
}

/// Opens the entry of a block whose bytes and place are durable.
pub(crate) fn open_entry<D: Disk>(
    cell: &mut FileCell<D>,
    window: Window,
    index: u32,
) -> Result<Reply, FillStop>
    ensures steps { (start : Seen) (left : ℕ) (stages : ℕ → Option Stage) (events : List Event) → StandsAt start window left stages events cell.old → 0 < left → stages index ≡ Some stage.Settled
        → StepsTo start window (left - 1) (staged_then index stage.Gated stages) (events ++ Gate window index ∷ []) result cell.new }
    ensures shows { (start : Seen) (left : ℕ) (stages : ℕ → Option Stage) (events : List Event) → StandsAt start window left stages events cell.old → 0 < left → stages index ≡ Some stage.Settled
        → (file : SpottedBytes) → ShowsFile cell.old file → OnOk result (ShowsFile cell.new (with_gate cell.old.opened file index)) }
{
    go_on(cell.gate(window.who, window, index))
}

/// Gives the window up.
pub(crate) fn release<D: Disk>(cell: &mut FileCell<D>, window: Window)
    ensures ends { (start : Seen) (left : ℕ) (stages : ℕ → Option Stage) (events : List Event) → StandsAt start window left stages events cell.old → 0 < left → ((i : ℕ) → stages i ≡ None)
        → IsReleased start (events ++ Release window ∷ []) cell.new }
    ensures taken { (start : Seen) (left : ℕ) (events : List Event) → HasTaken start events cell.old → HasLeft window left cell.old → 0 < left
        → HasTaken start (events ++ Release window ∷ []) cell.new × (cell.new.count ≡ cell.old.count) }
    ensures shows { (file : SpottedBytes) → ShowsFile cell.old file → ShowsFile cell.new file }
{
    cell.release(window.who, window);
}
