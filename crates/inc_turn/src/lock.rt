ghost use Rattle.std.specs.Prelude.{◌≡◌, ◌+◌, ◌<◌, false, [], ◌∷◌, Some};
ghost use Rattle.inc_turn.specs.Locks.{IsSameSeat, lock_of, seat_view, table_of};
ghost use Rattle.inc_turn.specs.Rules.{EntersTurn};
ghost use Rattle.inc_turn.specs.Turns.{HasTurn};
ghost use Rattle.inc_turn.specs.Views.{IsIdle, holding};

use crate::rules::{Advance, Draw, InTurn, Look};
use crate::seat::Seat;
use crate::table::TurnLock;
use crate::view::View;
use atomic_table::{Badge, Shared};
use inc_model::Machine;
use std::mem;
use std::snapshot::Snapshot;
use std::sync::Wait;
use std::thread::yield_now;

pub(crate) type Place<M> = atomic_table::Seat<M, View<<M as Machine>::Footing>>;

pub(crate) type Board<M> = Shared<M, View<<M as Machine>::Footing>, Snapshot<M>, InTurn>;

/// Takes the next ticket.
fn draw<M: Machine, R: Wait>(rt: &R, board: &Board<M>, place: &mut Place<M>) -> u64
    requires sized { board.now.table_id.words ≡ 2 }
    requires own { place.old.table_id ≡ board.now.table_id }
    requires idle { IsIdle place.old.me.0 }
    requires empty { place.old.me.1 ≡ [] }
    ensures own { (place.new.table_id ≡ place.old.table_id) × (place.new.id ≡ place.old.id) }
    ensures ticket { place.new.me ≡ (holding place.old.me.0 result, []) }
{
    for _ in rt.forever() {
        let next = board.peek(1);
        if next < u64::MAX {
            let found = board.compare_exchange::<Draw>(place, 1, next, next + 1);
            if found == next {
                return next;
            }
        }
        yield_now();
    }
    unreachable!()
}

/// Waits until this ticket is served, and then has the machine.
fn await_turn<M: Machine, R: Wait>(rt: &R, board: &Board<M>, place: &mut Place<M>, ticket: u64)
    requires sized { board.now.table_id.words ≡ 2 }
    requires own { place.old.table_id ≡ board.now.table_id }
    requires unspent { place.old.me.0.spent ≡ false }
    requires no_turn { place.old.me.0.in_turn ≡ false }
    requires ticket { place.old.me.0.ticket ≡ Some ticket }
    requires empty { place.old.me.1 ≡ [] }
    ensures own { (place.new.table_id ≡ place.old.table_id) × (place.new.id ≡ place.old.id) }
    ensures entered { EntersTurn M.history M.footing place.old.me.0 place.new.me }
{
    for _ in rt.forever() {
        let served = board.load::<Look>(place, 0);
        if served == ticket {
            return;
        }
        yield_now();
    }
    unreachable!()
}

/// Steps the machine that the seat holds.
fn step_held<M: Machine>(
    board: &Board<M>,
    place: &mut Place<M>,
    number: u32,
    event: M::Event,
) -> M::Answer
    requires own { place.old.table_id ≡ board.now.table_id }
    requires has { (machine : M) × (place.old.me.1 ≡ (0, machine) ∷ []) }
    requires takes { M.takes number event }
    ensures own { (place.new.table_id ≡ place.old.table_id) × (place.new.id ≡ place.old.id) }
    ensures stepped { (before : M) × (after : M) × (place.old.me.1 ≡ (0, before) ∷ []) × (place.new.me ≡ (place.old.me.0, (0, after) ∷ [])) × M.steps before number event result after }
{
    let machine = place.slot_mut(board, 0);
    machine.step(number, event)
}

/// One turn of a seat whose view is its own.
fn take_turn<M: Machine, R: Wait>(
    rt: &R,
    board: &Board<M>,
    place: &mut Place<M>,
    number: u32,
    event: M::Event,
) -> M::Answer
    requires sized { board.now.table_id.words ≡ 2 }
    requires own { place.old.table_id ≡ board.now.table_id }
    requires idle { IsIdle place.old.me.0 }
    requires empty { place.old.me.1 ≡ [] }
    requires number { place.old.me.0.number ≡ number }
    requires takes { M.takes number event }
    ensures own { (place.new.table_id ≡ place.old.table_id) × (place.new.id ≡ place.old.id) }
    ensures turn { HasTurn M.history M.footing M.steps place.old.me.0 event result place.new.me.0 }
    ensures empty { place.new.me.1 ≡ [] }
{
    let ticket = draw(rt, board, place);
    await_turn(rt, board, place, ticket);
    let answer = step_held(board, place, number, event);
    board.fetch_add::<Advance>(place, 0, 1);
    answer
}

impl<M: Machine> TurnLock<M> {
    /// Takes one step of the machine for this seat, once its ticket is served.
    pub fn turn<R: Wait>(&self, rt: &R, seat: &mut Seat<M::Footing>, event: M::Event) -> M::Answer
        requires own { lock_of seat.old ≡ table_of self.now }
        requires takes { M.takes seat.old.number event }
        ensures own { IsSameSeat seat.old seat.new }
        ensures turn { HasTurn M.history M.footing M.steps (seat_view seat.old) event result (seat_view seat.new) }
    {
        let mut place = mem::replace(&mut seat.badge, Badge::blank()).into_seat();
        let answer = take_turn(rt, &self.table.shared, &mut place, seat.number, event);
        seat.badge = place.into_badge();
        answer
    }
}
