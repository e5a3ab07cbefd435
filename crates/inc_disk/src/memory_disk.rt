ghost use Rattle.std.specs.Prelude.{◌≡◌, ◌⊎◌, ◌+◌, ◌-◌, ◌/◌, ◌^◌, ◌++◌, ◌<◌, ◌≤◌, [], ◌∷◌, length, take, drop, min, is_err, IsTrue, IsOk, IfSome, IfOk, IfErr, OnOk, OnErr, Some, None, false, true, refl};
ghost use Rattle.inc_io.specs.Causes.{HasCause};
ghost use Rattle.inc_disk.specs.Disk.{Now, SoundNow, IsImage, Writes, Syncs, is_dirty, reads_of, settled};
ghost use Rattle.inc_disk.specs.Memory.{after, is_past_limit, is_to_fail};

use crate::history::{Call, History};
use crate::state::State;
use crate::{Disk, OutOfMemory};
use inc_io::{Backing, Bytes, Failed, Schedule, copy_part};
use std::alloc::Global;

/// A disk in memory, for tests. It keeps a record of all its writes and syncs, so the images of every moment are known.
#[derive(Drop)]
pub struct MemDisk {
    alloc: Global,
    history: History,
    room: u64,
    /// The calls from this one on fail.
    limit: Option<u64>,
    schedule: Schedule,
    ghost is_sound: { SoundNow history },
}

impl MemDisk {
    /// A disk with these bytes, all of them synced. It fails past `room` bytes, past so many calls, and at the calls with these numbers:
    /// `len`, `read_at`, `write_at` and `sync` count together, from 0. It takes no memory before the first write.
    pub fn new(
        alloc: Global,
        bytes: Bytes,
        room: u64,
        calls: u32,
        fail: Vec<u64>,
    ) -> Result<MemDisk, OutOfMemory>
        ensures made { IsOk result }
        ensures states { IfOk result (λ disk. disk.history ≡ settled bytes ∷ []) }
        ensures room { IfOk result (λ disk. disk.room ≡ room) }
        ensures limit { IfOk result (λ disk. disk.limit ≡ Some calls) }
        ensures failing { IfOk result (λ disk. disk.schedule.failing.items ≡ fail.items) }
        ensures begun { IfOk result (λ disk. (disk.schedule.made ≡ 0) × (disk.schedule.faults ≡ 0)) }
    {
        let state = State::settled(alloc, bytes);
        let limit = Some(u64::from(calls));
        Ok(MemDisk::of(alloc, state, room, limit, Schedule::new(fail)))
    }

    /// A disk that begins in this state, synced or not.
    pub fn of(
        alloc: Global,
        state: State,
        room: u64,
        limit: Option<u64>,
        schedule: Schedule,
    ) -> MemDisk
        ensures states { result.history ≡ state ∷ [] }
        ensures room { result.room ≡ room }
        ensures limit { result.limit ≡ limit }
        ensures schedule { result.schedule ≡ schedule }
    {
        MemDisk {
            alloc,
            history: History::of(alloc, state),
            room,
            limit,
            schedule,
        }
    }

    /// All the states that the disk has been in.
    pub fn into_history(self) -> History
        ensures value { result ≡ self.history }
    {
        self.history
    }

    /// What the disk reads as.
    pub fn bytes(&self) -> &[u8]
        ensures value { reads_of self.now.history ≡ Some result.now }
    {
        self.history.state().reads()
    }

    /// What the last sync left.
    pub fn synced(&self) -> &[u8]
        ensures value { Now self.now.history (λ state. result.now ≡ state.synced) }
    {
        self.history.state().synced()
    }

    /// Whether the byte at this place lies in a range written since the last sync.
    pub fn dirty(&self, at: u64) -> bool
        ensures value { Now self.now.history (λ state. result ≡ is_dirty state.dirty at) }
    {
        self.history.state().is_dirty(at)
    }

    /// Whether a crash at this moment may leave these bytes.
    pub fn is_image(&self, bytes: &[u8]) -> bool
        ensures yes { Now self.now.history (λ state. IsTrue result → IsImage state bytes.now) }
        ensures no { Now self.now.history (λ state. IsImage state bytes.now → IsTrue result) }
    {
        self.history.state().is_image(bytes)
    }

    /// The disk after a crash that left this image, or the disk as it is where no crash may leave it. The crashed disk has no
    /// limit of calls and no planned fault.
    pub fn crash(self, image: Bytes) -> Result<MemDisk, MemDisk>
        ensures image { OnOk result (Now self.history (λ state. IsImage state image)) }
        ensures states { IfOk result (λ disk. disk.history ≡ settled image ∷ []) }
        ensures room { IfOk result (λ disk. disk.room ≡ self.room) }
        ensures limit { IfOk result (λ disk. disk.limit ≡ None) }
        ensures failing { IfOk result (λ disk. disk.schedule.failing.items ≡ []) }
        ensures begun { IfOk result (λ disk. (disk.schedule.made ≡ 0) × (disk.schedule.faults ≡ 0)) }
        ensures refused { OnErr result (Now self.history (λ state. ¬ (IsImage state image))) }
        ensures same { IfErr result (λ disk. disk ≡ self) }
    {
        if !self.is_image(image.as_slice()) {
            return Err(self);
        }
        let alloc = self.alloc;
        let state = State::settled(alloc, image);
        let schedule = Schedule::new(Vec::new(alloc));
        Ok(MemDisk::of(alloc, state, self.room, None, schedule))
    }

    /// How many calls have been made.
    pub fn made(&self) -> u32
        ensures value { result ≡ min self.now.schedule.made (2 ^ 32 - 1) }
    {
        u32::try_from(self.schedule.made).unwrap_or(u32::MAX)
    }

    /// Makes the disk fail past so many further calls.
    pub fn allow(&mut self, further: u32)
        ensures limit { self.new.limit ≡ Some (min (self.old.schedule.made + further) (2 ^ 64 - 1)) }
        ensures failing { self.new.schedule.failing.items ≡ self.old.schedule.failing.items }
        ensures made { self.new.schedule.made ≡ self.old.schedule.made }
        ensures faults { self.new.schedule.faults ≡ self.old.schedule.faults }
        ensures states { self.new.history ≡ self.old.history }
        ensures room { self.new.room ≡ self.old.room }
    {
        self.limit = Some(self.schedule.made.saturating_add(u64::from(further)));
    }
}

impl Backing for MemDisk {
    type Kept = History;

    ghost kept = { λ disk. disk.history };

    ghost reads = { reads_of };

    ghost faults = { λ disk. disk.schedule.faults };

    fn fault_count(&self) -> u64 {
        self.schedule.faults
    }

    fn len(&mut self) -> Result<u64, Failed>
        ensures told { IfSome (reads_of self.old.history) (λ bytes. IfOk result (λ len. len ≡ length bytes)) }
        ensures kept { self.new.history ≡ self.old.history }
        ensures cause { HasCause self.old.schedule.faults self.new.schedule.faults result }

        // It fails exactly at the calls that are to fail.
        ensures fails { is_err result ≡ is_to_fail self.old.schedule self.old.limit }
        ensures counted { self.new.schedule.made ≡ min (self.old.schedule.made + 1) (2 ^ 64 - 1) }
        ensures same_failing { self.new.schedule.failing.items ≡ self.old.schedule.failing.items }
        ensures same_limits { (self.new.limit ≡ self.old.limit) × (self.new.room ≡ self.old.room) }
    {
        if next_fails(&mut self.schedule, self.limit) {
            return Err(self.schedule.fault());
        }
        Ok(self.bytes().len() as u64)
    }

    fn read_at(&mut self, at: u64, room: &mut [u8]) -> Result<usize, Failed>
        ensures count { IfSome (reads_of self.old.history) (λ bytes. IfOk result (λ count. count ≡ min (length room.old) (length bytes - at))) }
        ensures bytes { IfSome (reads_of self.old.history) (λ bytes. IfOk result (λ count.
            room.new ≡ take count (drop at bytes) ++ drop count room.old)) }
        ensures within { IfOk result (λ count. count ≤ length room.old) }
        ensures kept { self.new.history ≡ self.old.history }
        ensures cause { HasCause self.old.schedule.faults self.new.schedule.faults result }
        ensures fails { is_err result ≡ is_to_fail self.old.schedule self.old.limit }
        ensures counted { self.new.schedule.made ≡ min (self.old.schedule.made + 1) (2 ^ 64 - 1) }
        ensures same_failing { self.new.schedule.failing.items ≡ self.old.schedule.failing.items }
        ensures same_limits { (self.new.limit ≡ self.old.limit) × (self.new.room ≡ self.old.room) }
    {
        if next_fails(&mut self.schedule, self.limit) {
            return Err(self.schedule.fault());
        }
        Ok(copy_part(self.bytes(), at, room))
    }
}

impl Disk for MemDisk {
    ghost states = { λ history. history };

    ghost reads_now = { λ history. refl };

    ghost sound = { λ disk. disk.is_sound };

    /// A write that is to fail, or that goes past the room, lets the front half of the piece through.
    fn write_at(&mut self, at: u64, piece: &[u8]) -> Result<(), Failed>
        requires place { IfSome (reads_of self.old.history) (λ bytes. at ≤ length bytes) }
        requires end { at + length piece.now < 2 ^ 48 }
        ensures written { Writes at piece.now self.old.history self.new.history result }
        ensures cause { HasCause self.old.schedule.faults self.new.schedule.faults result }
        ensures planned { IsTrue (is_to_fail self.old.schedule self.old.limit) → is_err result ≡ true }
        ensures full { self.old.room < at + length piece.now → is_err result ≡ true }

        // Else it fails only where its record finds no memory, and then writes nothing.
        ensures untouched { is_to_fail self.old.schedule self.old.limit ≡ false → at + length piece.now ≤ self.old.room → OnErr result (self.new.history ≡ self.old.history) }
        ensures counted { self.new.schedule.made ≡ min (self.old.schedule.made + 1) (2 ^ 64 - 1) }
        ensures same_failing { self.new.schedule.failing.items ≡ self.old.schedule.failing.items }
        ensures same_limits { (self.new.limit ≡ self.old.limit) × (self.new.room ≡ self.old.room) }
    {
        let planned = next_fails(&mut self.schedule, self.limit);
        let full = self.room < at + piece.len() as u64;
        if planned | full {
            tear(&mut self.history, self.room, at, piece);
            return Err(self.schedule.fault());
        }
        if self.history.write(at, piece.len(), piece).is_err() {
            return Err(self.schedule.fault());
        }
        Ok(())
    }

    fn sync(&mut self) -> Result<(), Failed>
        ensures synced { Syncs self.old.history self.new.history result }
        ensures cause { HasCause self.old.schedule.faults self.new.schedule.faults result }
        ensures planned { IsTrue (is_to_fail self.old.schedule self.old.limit) → is_err result ≡ true }
        ensures untouched { is_to_fail self.old.schedule self.old.limit ≡ false → OnErr result (self.new.history ≡ self.old.history) }
        ensures counted { self.new.schedule.made ≡ min (self.old.schedule.made + 1) (2 ^ 64 - 1) }
        ensures same_failing { self.new.schedule.failing.items ≡ self.old.schedule.failing.items }
        ensures same_limits { (self.new.limit ≡ self.old.limit) × (self.new.room ≡ self.old.room) }
    {
        if next_fails(&mut self.schedule, self.limit) {
            let _ = self.history.fail_sync();
            return Err(self.schedule.fault());
        }
        if self.history.sync().is_err() {
            return Err(self.schedule.fault());
        }
        Ok(())
    }
}

/// Counts a call, and says whether it is to fail.
fn next_fails(schedule: &mut Schedule, limit: Option<u64>) -> bool
    ensures value { result ≡ is_to_fail schedule.old limit }
    ensures counted { schedule.new.made ≡ min (schedule.old.made + 1) (2 ^ 64 - 1) }
    ensures failing { schedule.new.failing.items ≡ schedule.old.failing.items }
    ensures faults { schedule.new.faults ≡ schedule.old.faults }
{
    let past = is_past_limit(limit, schedule.made);
    let listed = schedule.count_call();
    listed | past
}

fn is_past_limit(limit: Option<u64>, made: u64) -> bool
    ensures value { result ≡ is_past_limit limit made }
{
    match limit {
        Some(limit) => limit <= made,
        None => false,
    }
}

/// A write of which the front half gets through, as far as there is room.
fn tear(history: &mut History, room: u64, at: u64, piece: &[u8])
    requires place { Now history.old (λ disk. at ≤ length disk.reads) }
    requires end { at + length piece.now < 2 ^ 48 }
    ensures torn { let half = min (length piece.now / 2) (room - at) in
        (history.new ≡ history.old) ⊎ (history.new ≡ after (Call.Wrote at (length piece.now) (take half piece.now)) history.old) }
    ensures sound { SoundNow history.old → SoundNow history.new }
{
    let left = room.saturating_sub(at);
    let half = ((piece.len() / 2) as u64).min(left) as usize;
    let _ = history.write(at, piece.len(), &piece[..half]);
}
