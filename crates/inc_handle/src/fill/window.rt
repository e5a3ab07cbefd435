// The events of one window, from its claim to its release, each one turn of its seat.
ghost use Rattle.std.specs.Prelude.{◌≡◌, ℕ, ◌-◌, ◌<◌, List, [], ◌∷◌, ◌++◌, Option, Some};
ghost use Rattle.inc_cell.specs.declared.machine.CellFooting.{CellFooting};
ghost use Rattle.inc_filling.specs.Grouped.{put_of};
ghost use Rattle.inc_filling.specs.Stands.{staged_then, synced_stage};
ghost use Rattle.inc_filling.specs.Stops.{goes_on};
ghost use Rattle.inc_handle.specs.UnderWay.{ClaimSteps, FillRuns, FillSteps, MayRelease, PutSteps, Releases, SyncSteps, is_stored, put_end, settled_at};
ghost use Rattle.inc_handle.specs.Standing.{MayFill};
ghost use Rattle.inc_model.specs.declared.words.event.Event.{Event};
ghost use Rattle.inc_model.specs.declared.words.event.Event.TheVariants.{Gate, PutPlace, Settle};
ghost use Rattle.inc_model.specs.declared.words.file_state.Stage.{Stage};
ghost use Rattle.inc_model.specs.declared.words.file_state.Stage.TheVariants as stage;
ghost use Rattle.inc_handle.specs.Shared.{HasGoneOn};
ghost use Rattle.inc_turn.specs.Locks.{lock_of, seat_view, table_of};
ghost use Rattle.inc_turn.specs.declared.view.View.{View};

use crate::{FileSeat, SharedFile};
use inc_cell::{Answer, CellEvent, CellReply};
use inc_disk::Disk;
use inc_filling::{FillStop, Filling};
use inc_model::{Event, Reply, Window};
use std::sync::Wait;

/// What became of a block that was put.
#[derive(Clone, Copy)]
pub enum PutEnd {
    Stored,
    /// Its index was open at this position.
    Present { at: u64 },
    /// Its index was in flight at this position.
    Busy { window: Window, at: u64 },
}

impl PutEnd {
    /// Whether the block was put.
    pub fn is_stored(&self) -> bool
        ensures value { result ≡ is_stored self.now }
    {
        matches!(self, PutEnd::Stored)
    }
}

/// The reply with which a fill goes on.
fn go_on(reply: CellReply) -> Result<Reply, FillStop>
    ensures value { result ≡ goes_on reply }
{
    match reply {
        CellReply::Done(Reply::Fault { .. }) => Err(FillStop::DiskFault),
        CellReply::Done(Reply::Failed { at }) => Err(FillStop::Failed { at }),
        CellReply::Done(reply) => Ok(reply),
        CellReply::HistoryFull { entries, claimed } => {
            Err(FillStop::HistoryFull { entries, claimed })
        }
        CellReply::OutOfMemory => Err(FillStop::OutOfMemory),
    }
}

/// What became of a block whose put was answered.
fn go_on_from_put(answer: Answer) -> Result<PutEnd, FillStop>
    ensures value { result ≡ put_end answer.at (goes_on answer.reply) }
{
    let Answer { reply, at, .. } = answer;
    match go_on(reply) {
        Ok(Reply::Put { .. }) => Ok(PutEnd::Stored),
        Ok(Reply::Busy { window }) => Ok(PutEnd::Busy { window, at }),
        Ok(_) => Ok(PutEnd::Present { at }),
        Err(stop) => Err(stop),
    }
}

/// The position at which a fill goes on.
fn go_on_at(answer: Answer) -> Result<u64, FillStop>
    ensures value { result ≡ settled_at answer.at (goes_on answer.reply) }
{
    let Answer { reply, at, .. } = answer;
    match go_on(reply) {
        Ok(_) => Ok(at),
        Err(stop) => Err(stop),
    }
}

/// Takes so many places of the history.
pub(super) fn claim<D: Disk, R: Wait>(
    rt: &R,
    file: &SharedFile<D>,
    seat: &mut FileSeat,
    window: Window,
    places: u32,
) -> Result<Reply, FillStop>
    requires own { lock_of seat.old ≡ table_of file.now.lock }
    requires who { window.who ≡ seat.old.number }
    ensures own { HasGoneOn seat.old seat.new }
    ensures claims { (known : CellFooting) → (seat_view seat.old).number ≡ window.who → (seat_view seat.old).footing ≡ Some known → ClaimSteps known (seat_view seat.old) window places result (seat_view seat.new) }
{
    let answer = file.turn(rt, seat, CellEvent::Plain(Event::Claim { window, places }));
    go_on(answer.reply)
}

/// Writes a block, if its index is neither open nor in flight.
pub(super) fn write_block<D: Disk, R: Wait>(
    rt: &R,
    file: &SharedFile<D>,
    seat: &mut FileSeat,
    window: Window,
    filling: Filling,
) -> Result<PutEnd, FillStop>
    requires own { lock_of seat.old ≡ table_of file.now.lock }
    requires who { window.who ≡ seat.old.number }
    ensures own { HasGoneOn seat.old seat.new }
    ensures steps { (known : CellFooting) (start : View CellFooting) (left : ℕ) (stages : ℕ → Option Stage) (events : List Event) → FillRuns known start window left stages events (seat_view seat.old) → 0 < left
        → MayFill known.opened filling.index → PutSteps known start window (left - 1) stages events (put_of known.opened window filling) filling.index result (seat_view seat.new) }
{
    let Filling { index, block } = filling;
    go_on_from_put(file.turn(
        rt,
        seat,
        CellEvent::Put {
            window,
            index,
            block,
        },
    ))
}

/// Writes the place of a block that was put.
pub(super) fn write_place<D: Disk, R: Wait>(
    rt: &R,
    file: &SharedFile<D>,
    seat: &mut FileSeat,
    window: Window,
    index: u32,
) -> Result<Reply, FillStop>
    requires own { lock_of seat.old ≡ table_of file.now.lock }
    requires who { window.who ≡ seat.old.number }
    ensures own { HasGoneOn seat.old seat.new }
    ensures steps { (known : CellFooting) (start : View CellFooting) (left : ℕ) (stages : ℕ → Option Stage) (events : List Event) → FillRuns known start window left stages events (seat_view seat.old) → 0 < left → stages index ≡ Some stage.Written
        → FillSteps known start window (left - 1) (staged_then index stage.Placed stages) (events ++ PutPlace window index ∷ []) result (seat_view seat.new) }
{
    let answer = file.turn(
        rt,
        seat,
        CellEvent::Plain(Event::PutPlace { window, index }),
    );
    go_on(answer.reply)
}

/// Makes durable what was written before, and says at which entry.
pub(super) fn sync<D: Disk, R: Wait>(
    rt: &R,
    file: &SharedFile<D>,
    seat: &mut FileSeat,
    window: Window,
) -> Result<u64, FillStop>
    requires own { lock_of seat.old ≡ table_of file.now.lock }
    requires who { window.who ≡ seat.old.number }
    ensures own { HasGoneOn seat.old seat.new }
    ensures steps { (known : CellFooting) (start : View CellFooting) (left : ℕ) (stages : ℕ → Option Stage) (events : List Event) → FillRuns known start window left stages events (seat_view seat.old) → 0 < left
        → SyncSteps known start window (left - 1) (λ i. synced_stage (stages i)) (events ++ Settle window ∷ []) result (seat_view seat.new) }
{
    let answer = file.turn(rt, seat, CellEvent::Plain(Event::Settle { window }));
    go_on_at(answer)
}

/// Opens the entry of a block whose bytes and place are durable.
pub(super) fn open_entry<D: Disk, R: Wait>(
    rt: &R,
    file: &SharedFile<D>,
    seat: &mut FileSeat,
    window: Window,
    index: u32,
) -> Result<Reply, FillStop>
    requires own { lock_of seat.old ≡ table_of file.now.lock }
    requires who { window.who ≡ seat.old.number }
    ensures own { HasGoneOn seat.old seat.new }
    ensures steps { (known : CellFooting) (start : View CellFooting) (left : ℕ) (stages : ℕ → Option Stage) (events : List Event) → FillRuns known start window left stages events (seat_view seat.old) → 0 < left → stages index ≡ Some stage.Settled
        → FillSteps known start window (left - 1) (staged_then index stage.Gated stages) (events ++ Gate window index ∷ []) result (seat_view seat.new) }
{
    let answer = file.turn(rt, seat, CellEvent::Plain(Event::Gate { window, index }));
    go_on(answer.reply)
}

/// Gives the window up.
pub(super) fn release<D: Disk, R: Wait>(
    rt: &R,
    file: &SharedFile<D>,
    seat: &mut FileSeat,
    window: Window,
)
    requires own { lock_of seat.old ≡ table_of file.now.lock }
    requires who { window.who ≡ seat.old.number }
    ensures own { HasGoneOn seat.old seat.new }
    ensures releases { (known : CellFooting) → MayRelease known window (seat_view seat.old) → Releases known window (seat_view seat.old) (seat_view seat.new) }
{
    file.turn(rt, seat, CellEvent::Plain(Event::Release { window }));
}
