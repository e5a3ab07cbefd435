// A run over a list of entries.
ghost use Rattle.std.specs.Prelude.{◌+◌, IfOk};
ghost use Rattle.inc_model.specs.executed.CoreFacts.{IsHeld};
ghost use Rattle.inc_history.specs.Runs.{RunsTo, TakesEntry};

use crate::entries::is_entry;
use inc_model::{Entry, FileCore, IndexRows, OutOfMemory};
use std::alloc::Global;

/// Takes the entry if it is a step from this state, before which so many entries stand, and says whether it is.
#[tactic(auto, using(inc_model::proofs::facts_kept::Core::workable, inc_model::proofs::facts_kept::Core::serials_fit))]
fn take_entry(
    core: &mut FileCore<IndexRows>,
    alloc: Global,
    at: u64,
    entry: &Entry,
) -> Result<bool, OutOfMemory>
    requires held { IsHeld at core.old.state }
    ensures step { IfOk result (λ yes. TakesEntry at core.old.state entry.now yes core.new.state) }
{
    if !is_entry(core, alloc, at, entry)? {
        return Ok(false);
    }
    core.apply(at, entry.who, entry.event, &entry.reply)?;
    Ok(true)
}

/// Takes entries up to the first that is no step, and gives their number.
pub fn run_entries(
    core: &mut FileCore<IndexRows>,
    alloc: Global,
    at: u64,
    entries: &[Entry],
) -> Result<usize, OutOfMemory>
    requires held { IsHeld at core.old.state }
    ensures runs { IfOk result (λ done. RunsTo at core.old.state entries.now done core.new.state) }
    ensures held { IfOk result (λ done. IsHeld (at + done) core.new.state) }
{
    for (done, entry) in entries.iter().enumerate() {
        if !take_entry(core, alloc, at + done as u64, entry)? {
            return Ok(done);
        }
    }
    Ok(entries.len())
}
