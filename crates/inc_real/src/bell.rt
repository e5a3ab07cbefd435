use crate::RealClock;
use inc_io::{Bell, Clock};
use std::sync::Wait;
use std::sync::atomic::{AtomicU64, Ordering};
use std::time::Duration;

/// A bell at which threads sleep. A rest may end early, so who rests looks again; its `until` counts as the machine's clock does, in
/// microseconds since 1970.
#[derive(Drop)]
pub struct RealBell<'a, R: Wait + std::rt::Clock> {
    rt: &'a R,
    rings: AtomicU64,
}

impl<'a, R: Wait + std::rt::Clock> RealBell<'a, R> {
    pub fn new(rt: &'a R) -> Self {
        RealBell {
            rt,
            rings: AtomicU64::new(0),
        }
    }
}

impl<R: Wait + std::rt::Clock> Bell for RealBell<'_, R> {
    fn seen(&self) -> u64 {
        self.rings.load(Ordering::SeqCst)
    }

    fn ring(&self) {
        self.rings.fetch_add(1, Ordering::SeqCst);
        self.rings.wake_all();
    }

    fn rest(&self, seen: u64, until: u64) {
        let now = RealClock::new(self.rt).now();
        if self.seen() != seen || until <= now {
            return;
        }
        // It sleeps only where the count is still this one, so a ring after the look isn't missed.
        self.rings.park_timeout(
            self.rt,
            (seen & 0xffff_ffff) as u32,
            Duration::from_micros(until - now),
        );
    }
}
