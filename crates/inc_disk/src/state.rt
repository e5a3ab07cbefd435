ghost use Rattle.std.specs.Prelude.{◌≡◌, ◌↔◌, ◌+◌, ◌^◌, ◌≤◌, ◌<◌, slice_index, length, IfOk, OnOk, OnErr, IsTrue};
ghost use Rattle.inc_disk.specs.Disk.{IsImage, IsSound, is_dirty, overwritten, touched, settled};

use crate::OutOfMemory;
use inc_io::Bytes;
use std::alloc::Global;
use std::marker::Model;

/// A state of a disk in memory.
#[derive(Drop)]
pub struct State {
    reads: Vec<u8>,
    /// None where the last sync left what a read gives.
    synced: Option<Vec<u8>>,
    /// The ranges written since that sync, newest first: the first place, and the place after the last.
    dirty: Vec<(u64, u64)>,
    longest: u64,
}

impl Model for State {
    ghost use Rattle.inc_disk.specs.Disk.{DiskState, IsSound};

    ghost Value = { DiskState };

    ghost use Rattle.inc_disk.specs.Memory.{state_of};

    ghost view = { state_of };

    ghost invariant = { λ state. IsSound (state_of state) };
}

impl State {
    /// These bytes, all of them synced. It takes no memory.
    #[tactic(auto, using(crate::proofs::States::sound_settled))]
    pub fn settled(alloc: Global, bytes: Bytes) -> State
        ensures value { result ≡ settled bytes }
    {
        let longest = bytes.len() as u64;
        State {
            reads: bytes.into_vec(),
            synced: None,
            dirty: Vec::new(alloc),
            longest,
        }
    }

    /// A second state with the same bytes.
    pub fn copy(&self, alloc: Global) -> Result<State, OutOfMemory>
        ensures value { IfOk result (λ copy. copy ≡ self.now) }
    {
        let synced = match &self.synced {
            Some(synced) => Some(synced.to_vec(alloc)?),
            None => None,
        };
        Ok(State {
            reads: self.reads.to_vec(alloc)?,
            synced,
            dirty: self.dirty.to_vec(alloc)?,
            longest: self.longest,
        })
    }

    pub fn reads(&self) -> &[u8]
        ensures value { result.now ≡ self.now.reads }
        ensures sound { IsSound self.now }
    {
        self.reads.as_slice()
    }

    pub fn synced(&self) -> &[u8]
        ensures value { result.now ≡ self.now.synced }
    {
        match &self.synced {
            Some(synced) => synced.as_slice(),
            None => self.reads.as_slice(),
        }
    }

    /// Whether the byte at this place lies in a range written since the last sync.
    pub fn is_dirty(&self, at: u64) -> bool
        ensures value { result ≡ is_dirty self.now.dirty at }
    {
        self.dirty.iter().any(|range| range.0 <= at && at < range.1)
    }

    /// Whether a crash may leave these bytes.
    pub fn is_image(&self, image: &[u8]) -> bool
        ensures yes { IsTrue result → IsImage self.now image.now }
        ensures no { IsImage self.now image.now → IsTrue result }
    {
        if image.len() < self.synced().len() || image.len() as u64 > self.longest {
            return false;
        }
        for at in 0..image.len() {
            if !self.is_dirty(at as u64) && !is_kept(self.synced(), image, at) {
                return false;
            }
        }
        true
    }

    /// A write of `count` bytes of which this front gets through.
    #[tactic(auto, using(crate::proofs::States::sound_written))]
    pub fn write(
        &mut self,
        alloc: Global,
        at: u64,
        count: usize,
        front: &[u8],
    ) -> Result<(), OutOfMemory>
        requires place { at ≤ length self.old.reads }
        requires front { length front.now ≤ count }
        requires end { at + count < 2 ^ 48 }
        ensures ok { OnOk result (self.new ≡ touched at count (overwritten at front.now self.old.reads) self.old) }
        ensures err { OnErr result (self.new ≡ self.old) }
        ensures sound { IsSound self.new }
    {
        if self.synced.is_none() {
            self.synced = Some(self.reads.to_vec(alloc)?);
        }
        self.dirty.reserve(1)?;
        overwrite(&mut self.reads, at as usize, front)?;
        let end = at + count as u64;
        self.dirty.insert(0, (at, end)).unwrap();
        self.longest = self.longest.max(end);
        Ok(())
    }

    /// All that was written is settled.
    #[tactic(auto, using(crate::proofs::States::sound_settled))]
    pub fn settle(&mut self)
        ensures value { self.new ≡ settled self.old.reads }
        ensures sound { IsSound self.new }
    {
        self.synced = None;
        self.dirty.clear();
        self.longest = self.reads.len() as u64;
    }
}

/// Whether the image has this byte as the last sync left it.
fn is_kept(synced: &[u8], image: &[u8], at: usize) -> bool
    requires { at < length image.now }
    ensures value { IsTrue result ↔ (at < length synced.now) × (slice_index image.now at ≡ slice_index synced.now at) }
{
    at < synced.len() && image[at] == synced[at]
}

/// Writes a piece over what is there, from a place within it on, and past the end.
fn overwrite(bytes: &mut Vec<u8>, at: usize, piece: &[u8]) -> Result<(), OutOfMemory>
    requires { at ≤ length bytes.old.items }
    ensures ok { OnOk result (bytes.new.items ≡ overwritten at piece.now bytes.old.items) }
    ensures err { OnErr result (bytes.new.items ≡ bytes.old.items) }
{
    let inside = piece.len().min(bytes.len() - at);
    bytes.extend_from_slice(&piece[inside..])?;
    bytes[at..at + inside].copy_from_slice(&piece[..inside]);
    Ok(())
}
