//! The rule of a lock's table, and what each step on it tells.
use crate::view::View;
use atomic_table::{Join, Play, Split, TableRule};
use inc_model::Machine;
use std::snapshot::Snapshot;

pub struct InTurn;

impl<M: Machine> TableRule<M, View<M::Footing>, Snapshot<M>> for InTurn {
    ghost use Rattle.inc_turn.specs.Rules.{KeepsTurns};
    ghost use Rattle.inc_turn.specs.Views.{newcomer};

    ghost holds = { λ _. KeepsTurns M.history M.footing };

    ghost first = { λ key. newcomer (M.history key.value) (M.footing key.value) };
}

/// Takes a ticket.
pub struct Draw;

impl<M: Machine> Play<M, View<M::Footing>> for Draw {
    ghost use Rattle.inc_turn.specs.Rules.{TakesTicket};

    ghost then = { TakesTicket };
}

/// Looks whether a ticket is served.
pub struct Look;

impl<M: Machine> Play<M, View<M::Footing>> for Look {
    ghost use Rattle.inc_turn.specs.Rules.{SeesTurn};

    ghost then = { SeesTurn M.history M.footing };
}

/// Gives the machine back, and serves the next ticket.
pub struct Advance;

impl<M: Machine> Play<M, View<M::Footing>> for Advance {
    ghost use Rattle.inc_turn.specs.Rules.{GivesBack};

    ghost then = { GivesBack M.history };
}

/// A new seat with the next number.
pub struct Another;

impl<F> Split<View<F>> for Another {
    ghost use Rattle.inc_turn.specs.Views.{counting, next_seat};

    ghost left = { counting };

    ghost right = { next_seat };
}

/// A seat is given back to the first one.
pub struct GivenBack;

impl<F> Join<View<F>> for GivenBack {
    ghost use Rattle.inc_turn.specs.Views.{keeping, spent_view};

    ghost both = { keeping };

    ghost spent = { spent_view };
}
