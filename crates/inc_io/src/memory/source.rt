ghost use Rattle.std.specs.Prelude.{◌≡◌, ◌==◌, ◌+◌, ◌-◌, ◌^◌, ◌<◌, ◌≤◌, ◌||◌, ◌++◌, min, length, take, drop, is_err, IfOk, Some, false};
ghost use Rattle.std.specs.List.{list_any};
ghost use Rattle.inc_io.specs.Causes.{HasCause};
ghost use Rattle.inc_io.specs.Outside.{Gives, is_end};

use crate::{Bytes, Failed, Schedule, Source};

/// A source in memory, for tests.
#[derive(Drop)]
pub struct MemSource {
    bytes: Bytes,
    /// How many of the bytes it has given.
    given: usize,
    cut: usize,
    ended: bool,
    schedule: Schedule,
    ghost positive: { 0 < cut },
    ghost within: { given ≤ length bytes },
}

impl MemSource {
    /// Gives these bytes, at most `cut` in a call; the calls with these numbers, from 0, fail.
    pub fn new(bytes: Bytes, cut: usize, fail: Vec<u64>) -> MemSource
        requires { 0 < cut }
        ensures bytes { result.bytes ≡ bytes }
        ensures given { result.given ≡ 0 }
        ensures cut { result.cut ≡ cut }
        ensures ended { result.ended ≡ false }
        ensures failing { result.schedule.failing.items ≡ fail.items }
        ensures made { result.schedule.made ≡ 0 }
        ensures faults { result.schedule.faults ≡ 0 }
    {
        MemSource {
            bytes,
            given: 0,
            cut,
            ended: false,
            schedule: Schedule::new(fail),
        }
    }
}

impl Source for MemSource {
    ghost left = { λ source. Some (drop source.given source.bytes) };

    ghost ended = { λ source. source.ended };

    ghost faults = { λ source. source.schedule.faults };

    fn read(&mut self, room: &mut [u8]) -> Result<usize, Failed>
        ensures within { IfOk result (λ count. count ≤ length room.old) }
        ensures left { Gives (Some (drop self.old.given self.old.bytes)) (Some (drop self.new.given self.new.bytes)) result }
        ensures enough { IfOk result (λ count. count ≤ length (drop self.old.given self.old.bytes)) }
        ensures some { IfOk result (λ count. 0 < length room.old → 0 < length (drop self.old.given self.old.bytes) → 0 < count) }
        ensures bytes { IfOk result (λ count. room.new ≡ take count (drop self.old.given self.old.bytes) ++ drop count room.old) }
        ensures ended { self.new.ended ≡ (self.old.ended || is_end (length room.old) result) }
        ensures cause { HasCause self.old.schedule.faults self.new.schedule.faults result }

        // It fails exactly at the calls that are to fail, and else gives all that the room, the cut and the end allow.
        ensures fails { is_err result ≡ list_any (λ number. number == self.old.schedule.made) self.old.schedule.failing.items }
        ensures count { IfOk result (λ count. count ≡ min (min (length room.old) self.old.cut) (length self.old.bytes - self.old.given)) }
        ensures given { IfOk result (λ count. self.new.given ≡ self.old.given + count) }
        ensures counted { self.new.schedule.made ≡ min (self.old.schedule.made + 1) (2 ^ 64 - 1) }
        ensures same_bytes { self.new.bytes ≡ self.old.bytes }
        ensures same_cut { self.new.cut ≡ self.old.cut }
        ensures same_failing { self.new.schedule.failing.items ≡ self.old.schedule.failing.items }
    {
        self.schedule.call()?;
        let count = copy_front(self.bytes.as_slice(), self.given, self.cut, room);
        self.given += count;
        self.ended = self.ended | (!room.is_empty() & (count == 0));
        Ok(count)
    }
}

/// Fills the front of the room with at most `cut` of the bytes from a place on, and says how many these are.
fn copy_front(bytes: &[u8], from: usize, cut: usize, room: &mut [u8]) -> usize
    requires { from ≤ length bytes.now }
    ensures count { result ≡ min (min (length room.old) cut) (length bytes.now - from) }
    ensures filled { room.new ≡ take result (drop from bytes.now) ++ drop result room.old }
    ensures within { result ≤ length room.old }
    ensures length { length room.new ≡ length room.old }
{
    let rest = &bytes[from..];
    let count = room.len().min(cut).min(rest.len());
    room[..count].copy_from_slice(&rest[..count]);
    count
}
