use crate::Bell;
use std::sync::atomic::{AtomicU64, Ordering};
use std::thread;

/// A bell that counts its rings, for tests. A rest only lets other threads go first.
#[derive(Drop)]
pub struct MemBell {
    rings: AtomicU64,
}

impl MemBell {
    pub fn new() -> MemBell {
        MemBell {
            rings: AtomicU64::new(0),
        }
    }
}

impl Bell for MemBell {
    fn seen(&self) -> u64 {
        self.rings.load(Ordering::SeqCst)
    }

    fn ring(&self) {
        self.rings.fetch_add(1, Ordering::SeqCst);
    }

    fn rest(&self, seen: u64, _until: u64) {
        if self.seen() == seen {
            thread::yield_now();
        }
    }
}
