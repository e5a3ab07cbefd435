ghost use Rattle.std.specs.Prelude.{◌≡◌, ◌==◌, ◌+◌, ◌-◌, ◌^◌, ◌≤◌, min, is_err};
ghost use Rattle.std.specs.List.{list_any};
ghost use Rattle.inc_io.specs.Causes.{HasCause, Rose};

use crate::Failed;

/// Which calls of a memory form fail, and how often one has. Calls count from 0.
#[derive(Drop)]
pub struct Schedule {
    pub failing: Vec<u64>,
    pub made: u64,
    pub faults: u64,
}

impl Schedule {
    pub fn new(failing: Vec<u64>) -> Schedule
        ensures failing { result.failing.items ≡ failing.items }
        ensures made { result.made ≡ 0 }
        ensures faults { result.faults ≡ 0 }
    {
        Schedule {
            failing,
            made: 0,
            faults: 0,
        }
    }

    /// Counts a call, and says whether it is one of those that are to fail. What fails then is a fault to be counted.
    pub fn count_call(&mut self) -> bool
        ensures value { result ≡ list_any (λ number. number == self.old.made) self.old.failing.items }
        ensures counted { self.new.made ≡ min (self.old.made + 1) (2 ^ 64 - 1) }
        ensures same { self.new.failing.items ≡ self.old.failing.items }
        ensures faults { self.new.faults ≡ self.old.faults }
    {
        let listed = self.failing.contains(&self.made);
        self.made = self.made.saturating_add(1);
        listed
    }

    /// Counts a call, and fails where it is to fail.
    pub fn call(&mut self) -> Result<(), Failed>
        ensures fails { is_err result ≡ list_any (λ number. number == self.old.made) self.old.failing.items }
        ensures counted { self.new.made ≡ min (self.old.made + 1) (2 ^ 64 - 1) }
        ensures same { self.new.failing.items ≡ self.old.failing.items }
        ensures cause { HasCause self.old.faults self.new.faults result }
    {
        if self.count_call() {
            return Err(self.fault());
        }
        Ok(())
    }

    /// Counts a fault.
    pub fn fault(&mut self) -> Failed
        ensures later { self.old.faults ≤ self.new.faults }
        ensures rose { Rose self.old.faults self.new.faults }
        ensures same { self.new.failing.items ≡ self.old.failing.items }
        ensures made { self.new.made ≡ self.old.made }
    {
        self.faults = self.faults.saturating_add(1);
        Failed
    }
}
