// What holds of several turns of one seat and of all seats of a lock, as contracts of functions that do nothing.
ghost use Rattle.inc_turn.specs.SeatLaws.{AllSeatsStay, BothAddOwn, ClosedHasOwn, ClosedKeepsOwn, NoTurnAddsOwn, OwnKeepsSeat, SameSeatsJoin, TurnAddsOwn};

use inc_model::Machine;

/// What a seat's turns add to its own entries.
pub fn turns_add_own<M: Machine>()
    ensures turn { TurnAddsOwn M.history M.footing M.steps }
    ensures none { NoTurnAddsOwn M.Footing }
    ensures both { BothAddOwn M.Footing }
    ensures kept { OwnKeepsSeat M.Footing }
{}

/// Seats stay what they are through their turns, so that a list of all of them can be closed afterwards.
pub fn seats_stay<M: Machine>()
    ensures joined { SameSeatsJoin M.Footing }
    ensures all { AllSeatsStay M.Footing }
{}

/// A closed lock has no entry of a seat beside those that the seat had seen, and these are what its calls added.
pub fn closed_locks_keep_own<M: Machine>()
    ensures seen { ClosedKeepsOwn M.history M.footing }
    ensures added { ClosedHasOwn M.history M.footing }
{}
