ghost use Rattle.std.specs.Prelude.{◌≡◌};

use crate::rules::InTurn;
use crate::view::View;
use atomic_table::Table;
use inc_model::Machine;
use std::alloc::Global;
use std::snapshot::Snapshot;

/// A machine behind a ticket lock: one seat after another takes its turn, in the order of their tickets.
///
/// It has no `Drop`: close it to have the machine again.
pub struct TurnLock<M: Machine> {
    pub(crate) table: Table<M, View<M::Footing>, Snapshot<M>, InTurn, Global>,
    pub ghost sized: { (table.shared.table_id.words ≡ 2) × (table.shared.table_id.slots ≡ 1) },
}
