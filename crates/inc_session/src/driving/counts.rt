// What is counted of a drive.
ghost use Rattle.std.specs.Prelude.{◌≡◌, ◌+◌, ◌-◌, ◌^◌, ◌≤◌, true, length};
ghost use Rattle.inc_session.specs.Outcomes.{outcome_count, is_written_outcome, is_present_outcome, is_busy_outcome};

use inc_model::Outcome;

/// The reads that a loader was told, and what became of its pieces.
#[derive(Clone, Copy)]
pub struct DriveCounts {
    pub told: u64,
    pub written: u64,
    pub present: u64,
    pub busy: u64,
}

/// Each count stays below its type's end by the pieces of one group.
const MOST_COUNTED: u64 = u64::MAX - 64;

impl DriveCounts {
    pub(super) fn new() -> DriveCounts
        ensures told { result.told ≡ 0 }
        ensures written { result.written ≡ 0 }
        ensures present { result.present ≡ 0 }
        ensures busy { result.busy ≡ 0 }
    {
        DriveCounts {
            told: 0,
            written: 0,
            present: 0,
            busy: 0,
        }
    }

    /// Whether the pieces of one more group can be counted.
    pub(super) fn has_room(&self) -> bool
        ensures written { result ≡ true → self.now.written + 64 ≤ 2 ^ 64 - 1 }
        ensures present { result ≡ true → self.now.present + 64 ≤ 2 ^ 64 - 1 }
        ensures busy { result ≡ true → self.now.busy + 64 ≤ 2 ^ 64 - 1 }
    {
        self.written <= MOST_COUNTED && self.present <= MOST_COUNTED && self.busy <= MOST_COUNTED
    }

    /// Counts what became of the pieces of a group.
    pub(super) fn count(&mut self, outcomes: &[Outcome])
        requires few { length outcomes.now ≤ 64 }
        requires written { self.old.written + 64 ≤ 2 ^ 64 - 1 }
        requires present { self.old.present + 64 ≤ 2 ^ 64 - 1 }
        requires busy { self.old.busy + 64 ≤ 2 ^ 64 - 1 }
        ensures told { self.new.told ≡ self.old.told }
        ensures written { self.new.written ≡ self.old.written + outcome_count is_written_outcome outcomes.now }
        ensures present { self.new.present ≡ self.old.present + outcome_count is_present_outcome outcomes.now }
        ensures busy { self.new.busy ≡ self.old.busy + outcome_count is_busy_outcome outcomes.now }
    {
        for outcome in outcomes {
            match outcome {
                Outcome::Written { .. } => self.written += 1,
                Outcome::Present { .. } => self.present += 1,
                Outcome::Busy { .. } => self.busy += 1,
            }
        }
    }
}
