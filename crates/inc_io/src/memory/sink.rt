ghost use Rattle.std.specs.Prelude.{◌≡◌, ◌==◌, ◌+◌, ◌-◌, ◌^◌, ◌<◌, ◌≤◌, ◌&&◌, ◌||◌, nat_lt, nat_le, min, length, is_err, IfOk, [], Some};
ghost use Rattle.std.specs.List.{list_any};
ghost use Rattle.std.specs.Vec.{vec_capacity, vec_len};
ghost use Rattle.inc_io.specs.Causes.{HasCause};
ghost use Rattle.inc_io.specs.Outside.{Takes};

use crate::{Failed, OutOfMemory, Schedule, Sink};
use std::alloc::Global;

/// A sink in memory, for tests.
#[derive(Drop)]
pub struct MemSink {
    bytes: Vec<u8>,
    room: usize,
    cut: usize,
    schedule: Schedule,
    ghost positive: { 0 < cut },
    ghost reserved: { room ≤ vec_capacity bytes },
    ghost within: { vec_len bytes ≤ room },
}

impl MemSink {
    /// Takes `room` bytes in all, at most `cut` in a call; the calls with these numbers, from 0, fail.
    pub fn new(
        alloc: Global,
        room: usize,
        cut: usize,
        fail: Vec<u64>,
    ) -> Result<MemSink, OutOfMemory>
        requires { 0 < cut }
        ensures empty { IfOk result (λ sink. sink.bytes.items ≡ []) }
        ensures limits { IfOk result (λ sink. (sink.room ≡ room) × (sink.cut ≡ cut)) }
        ensures schedule { IfOk result (λ sink. sink.schedule.failing.items ≡ fail.items) }
        ensures begun { IfOk result (λ sink. (sink.schedule.made ≡ 0) × (sink.schedule.faults ≡ 0)) }
    {
        Ok(MemSink {
            bytes: Vec::with_capacity(alloc, room)?,
            room,
            cut,
            schedule: Schedule::new(fail),
        })
    }

    /// All that it has taken.
    pub fn bytes(&self) -> &[u8]
        ensures value { result.now ≡ self.now.bytes.items }
    {
        self.bytes.as_slice()
    }
}

impl Sink for MemSink {
    ghost written = { λ sink. Some sink.bytes.items };

    ghost faults = { λ sink. sink.schedule.faults };

    fn write(&mut self, piece: &[u8]) -> Result<usize, Failed>
        ensures told { Takes (Some self.old.bytes.items) (Some self.new.bytes.items) piece.now result }
        ensures within { IfOk result (λ count. count ≤ length piece.now) }
        ensures some { IfOk result (λ count. 0 < length piece.now → 0 < count) }
        ensures cause { HasCause self.old.schedule.faults self.new.schedule.faults result }

        // It fails only where the call is one of those that are to fail, or the room is full.
        ensures fails { is_err result ≡ (list_any (λ number. number == self.old.schedule.made) self.old.schedule.failing.items
            || (nat_lt 0 (length piece.now) && nat_le self.old.room (length self.old.bytes.items))) }
        ensures count { IfOk result (λ count. count ≡ min (min (length piece.now) self.old.cut) (self.old.room - length self.old.bytes.items)) }
        ensures counted { self.new.schedule.made ≡ min (self.old.schedule.made + 1) (2 ^ 64 - 1) }
        ensures same_failing { self.new.schedule.failing.items ≡ self.old.schedule.failing.items }
        ensures same_limits { (self.new.room ≡ self.old.room) × (self.new.cut ≡ self.old.cut) }
    {
        self.schedule.call()?;
        let left = self.room - self.bytes.len();
        if left == 0 && !piece.is_empty() {
            return Err(self.schedule.fault());
        }
        let count = piece.len().min(self.cut).min(left);
        self.bytes.extend_from_slice(&piece[..count]).unwrap();
        Ok(count)
    }
}
