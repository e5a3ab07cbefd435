ghost use Rattle.std.specs.Prelude.{◌≡◌, ◌<◌, ◌≤◌, [], IfOk, IfErr, Some, vec_len, vec_capacity};
ghost use Rattle.inc_turn.specs.Locks.{table_of};
ghost use Rattle.inc_turn.specs.Opening.{AreNewSeats, HasSplit};
ghost use Rattle.inc_turn.specs.Views.{IsIdle, newcomer};

use crate::lock::{Board, Place};
use crate::rules::Another;
use crate::seat::Seat;
use crate::table::TurnLock;
use atomic_table::{Refused, Table};
use inc_model::Machine;
use std::alloc::{AllocError, Global};
use std::snapshot::Snapshot;

/// The one answer that no clause ties to a cause: the allocator refused.
pub type OutOfMemory = AllocError;

/// A lock round the machine, with the place of its first seat. The machine comes back where there is no memory.
fn lock_round<M: Machine>(alloc: Global, machine: M) -> Result<(TurnLock<M>, Place<M>), M>
    ensures ok { IfOk result (λ made. (made.1.table_id ≡ table_of made.0) × (made.1.me ≡ (newcomer (M.history machine) (M.footing machine), []))) }
    ensures err { IfErr result (λ back. back ≡ machine) }
{
    let Ok(mut slots) = Vec::with_capacity(alloc, 1) else {
        return Err(machine);
    };
    let key = Snapshot::of(&machine);
    slots.push_reserved(machine);
    match Table::new(alloc, &[0, 0], slots, &key) {
        Ok((table, first)) => Ok((TurnLock { table }, first)),
        Err(Refused { mut slots }) => {
            let Some(machine) = slots.pop() else {
                unreachable!()
            };
            slots.destroy_empty();
            Err(machine)
        }
    }
}

/// Cuts the other seats off the first one, and adds them in the order of their numbers.
fn split_seats<M: Machine>(
    board: &Board<M>,
    first: &mut Place<M>,
    seats: u32,
    list: &mut Vec<Seat<M::Footing>>,
)
    requires sized { board.now.table_id.words ≡ 2 }
    requires own { first.old.table_id ≡ board.now.table_id }
    requires first { (first.old.me.0.number ≡ 0) × IsIdle first.old.me.0 × (first.old.me.0.made ≡ 1) }
    requires some { 1 ≤ seats }
    requires empty { list.old.items ≡ [] }
    requires room { seats ≤ vec_capacity list.old }
    ensures own { (first.new.table_id ≡ first.old.table_id) × (first.new.id ≡ first.old.id) }
    ensures made { first.new.me ≡ (record first.old.me.0 { made = seats }, first.old.me.1) }
    ensures room { vec_len list.new < vec_capacity list.new }
    ensures seats { HasSplit board.now.table_id first.old.me.0 seats list.new.items }
{
    for number in 1..seats {
        let place = board.split_seat::<Another>(first);
        list.push_reserved(Seat {
            number,
            badge: place.into_badge(),
        });
    }
}

impl<M: Machine> TurnLock<M> {
    /// Puts the machine behind a lock, with so many seats in the order of their numbers. Without memory the machine comes back.
    pub fn new(
        alloc: Global,
        machine: M,
        seats: u32,
    ) -> Result<(TurnLock<M>, Vec<Seat<M::Footing>>), (OutOfMemory, M)>
        requires some { 1 ≤ seats }
        ensures seats { IfOk result (λ made. AreNewSeats (table_of made.0) (M.history machine) (M.footing machine) seats made.1.items) }
        ensures err { IfErr result (λ refused. refused.1 ≡ machine) }
    {
        let Ok(mut list) = Vec::with_capacity(alloc, seats as usize) else {
            return Err((AllocError, machine));
        };
        match lock_round(alloc, machine) {
            Ok((lock, mut first)) => {
                split_seats(&lock.table.shared, &mut first, seats, &mut list);
                let seat = Seat {
                    number: 0,
                    badge: first.into_badge(),
                };
                let Ok(()) = list.insert(0, seat) else {
                    unreachable!()
                };
                Ok((lock, list))
            }
            Err(machine) => Err((AllocError, machine)),
        }
    }
}
