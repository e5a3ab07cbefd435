ghost use Rattle.std.specs.Prelude.{◌≡◌, ℕ, ◌<◌, length, slice_index_or};
ghost use Rattle.inc_turn.specs.Closing.{AreBehind, IsClosed};
ghost use Rattle.inc_turn.specs.Locks.{lock_of, table_of};
ghost use Rattle.inc_turn.specs.Opening.{AreAllSeats};
ghost use Rattle.inc_turn.specs.Views.{IsIdle};

use crate::lock::{Board, Place};
use crate::rules::GivenBack;
use crate::seat::Seat;
use crate::table::TurnLock;
use inc_model::Machine;

/// Gives the other seats back to the first one.
fn join_seats<M: Machine>(board: &Board<M>, first: &mut Place<M>, mut others: Vec<Seat<M::Footing>>)
    requires sized { board.now.table_id.words ≡ 2 }
    requires own { first.old.table_id ≡ board.now.table_id }
    requires idle { IsIdle first.old.me.0 }
    requires others { (k : ℕ) (d : _) → k < length others.items → lock_of (slice_index_or others.items k d) ≡ board.now.table_id }
    ensures own { (first.new.table_id ≡ first.old.table_id) × (first.new.id ≡ first.old.id) }
    ensures joined { AreBehind first.old.me.0 others.items first.new.me.0 }
    ensures held { first.new.me.1 ≡ first.old.me.1 }
{
    while let Some(other) = others.pop() {
        let place = other.into_badge().into_seat();
        board.join_seat::<GivenBack>(first, place);
    }
}

impl<M: Machine> TurnLock<M> {
    /// Gives the machine back. Its history is what one of the seats had seen, and begins with what each had seen.
    pub fn close(self, mut seats: Vec<Seat<M::Footing>>) -> M
        requires seats { AreAllSeats (table_of self) seats.items }
        ensures closed { IsClosed M.history M.footing seats.items result }
    {
        let badge = seats.remove(0).into_badge();
        let mut first = badge.into_seat();
        join_seats(&self.table.shared, &mut first, seats);
        let TurnLock { table } = self;
        let mut closed = table.close_with(first);
        let machine = closed.take(0);
        closed.free();
        machine
    }
}
