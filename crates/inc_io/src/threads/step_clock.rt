ghost use Rattle.std.specs.Prelude.{◌≡◌, ◌+◌, ◌*◌, ◌-◌, ◌^◌, ℕ, min};
ghost use Rattle.inc_io.specs.Outside.{IsStep};

use crate::Clock;
use std::sync::atomic::{AtomicU64, Ordering};

/// A clock that goes on by a step at each call, for tests.
#[derive(Drop)]
pub struct StepClock {
    start: u64,
    step: u64,
    calls: AtomicU64,
}

impl StepClock {
    pub fn new(start: u64, step: u64) -> StepClock
        ensures start { result.start ≡ start }
        ensures step { result.step ≡ step }
    {
        StepClock {
            start,
            step,
            calls: AtomicU64::new(0),
        }
    }
}

impl Clock for StepClock {
    ghost may_answer = { λ clock. IsStep clock.start clock.step };

    fn now(&self) -> u64 {
        let calls = self.calls.fetch_add(1, Ordering::SeqCst);
        after_steps(self.start, self.step, calls)
    }
}

fn after_steps(start: u64, step: u64, steps: u64) -> u64
    ensures value { result ≡ min (start + steps * step) (2 ^ 64 - 1) }
{
    start.saturating_add(steps.saturating_mul(step))
}
