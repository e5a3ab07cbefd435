use inc_io::Clock;
use std::time::{SystemTime, UNIX_EPOCH};

/// The machine's clock, in microseconds since 1970. It may answer any number, and answers 0 where the machine has no clock.
#[derive(Drop)]
pub struct RealClock<'a, R: std::rt::Clock> {
    rt: &'a R,
}

impl<'a, R: std::rt::Clock> RealClock<'a, R> {
    pub fn new(rt: &'a R) -> Self {
        RealClock { rt }
    }
}

impl<R: std::rt::Clock> Clock for RealClock<'_, R> {
    ghost may_answer = { λ _ _. Unit {0} };

    fn now(&self) -> u64 {
        let Ok(time) = SystemTime::now(self.rt) else {
            return 0;
        };
        match time.duration_since(UNIX_EPOCH) {
            Ok(since) => u64::try_from(since.as_micros()).unwrap_or(u64::MAX),
            Err(_) => 0,
        }
    }
}
