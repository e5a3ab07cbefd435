ghost use Rattle.std.specs.Prelude.{◌≡◌, ◌+◌, ◌^◌, ◌≤◌, ◌<◌, [], ◌∷◌, length, OnOk, OnErr};
ghost use Rattle.std.specs.Option.{unwrap_or, IsSome};
ghost use Rattle.std.specs.Vec.{vec_len, vec_capacity};
ghost use Rattle.inc_disk.specs.Disk.{Now, SoundNow};
ghost use Rattle.inc_disk.specs.Memory.{after};

use crate::OutOfMemory;
use crate::state::State;
use inc_io::Bytes;
use std::alloc::Global;
use std::marker::Model;

/// What changed a disk.
#[derive(Drop)]
pub enum Call {
    /// A write of `count` bytes at a place, of which this front got through.
    Wrote { at: u64, count: usize, front: Bytes },
    Synced,
    NotSynced,
}

/// The states that a disk in memory has been in.
#[derive(Drop)]
pub struct History {
    alloc: Global,
    /// The state before the first of the calls. None before there is a call: a disk that is only read needs no second copy.
    first: Option<State>,
    /// Oldest first.
    calls: Vec<Call>,
    state: State,
}

impl Model for History {
    ghost use Rattle.std.specs.Prelude.{List};
    ghost use Rattle.inc_disk.specs.Disk.{DiskState};

    ghost Value = { List DiskState };

    ghost use Rattle.inc_disk.specs.Memory.{history_of, IsRecorded};

    ghost view = { λ history. history_of history.first history.state history.calls.items };

    ghost invariant = { IsRecorded };
}

impl History {
    /// A disk that begins in this state. It takes no memory.
    pub fn of(alloc: Global, state: State) -> History
        ensures value { result ≡ state ∷ [] }
        ensures sound { SoundNow result }
    {
        let _ = state.reads();
        History {
            alloc,
            first: None,
            calls: Vec::new(alloc),
            state,
        }
    }

    /// The present state.
    pub fn state(&self) -> &State
        ensures value { (past : _) × (self.now ≡ result.now ∷ past) }
        ensures sound { SoundNow self.now }
    {
        let _ = self.state.reads();
        &self.state
    }

    /// A write of `count` bytes of which this front gets through.
    #[tactic(auto, using(crate::proofs::States::replay_push))]
    pub fn write(&mut self, at: u64, count: usize, front: &[u8]) -> Result<(), OutOfMemory>
        requires place { Now self.old (λ disk. at ≤ length disk.reads) }
        requires front { length front.now ≤ count }
        requires end { at + count < 2 ^ 48 }
        ensures ok { OnOk result (self.new ≡ after (Call.Wrote at count front.now) self.old) }
        ensures err { OnErr result (self.new ≡ self.old) }
        ensures sound { OnOk result (SoundNow self.new) }
    {
        begin(self.alloc, &mut self.first, &mut self.calls, &self.state)?;
        let copy = Bytes::of(self.alloc, front)?;
        self.state.write(self.alloc, at, count, front)?;
        let call = Call::Wrote {
            at,
            count,
            front: copy,
        };
        self.calls.push(call).unwrap();
        Ok(())
    }

    /// A sync that settles all that was written.
    #[tactic(auto, using(crate::proofs::States::replay_push))]
    pub fn sync(&mut self) -> Result<(), OutOfMemory>
        ensures ok { OnOk result (self.new ≡ after Call.Synced self.old) }
        ensures err { OnErr result (self.new ≡ self.old) }
        ensures sound { OnOk result (SoundNow self.new) }
    {
        begin(self.alloc, &mut self.first, &mut self.calls, &self.state)?;
        self.state.settle();
        self.calls.push(Call::Synced).unwrap();
        Ok(())
    }

    /// A sync that settles nothing.
    #[tactic(auto, using(crate::proofs::States::replay_push))]
    pub fn fail_sync(&mut self) -> Result<(), OutOfMemory>
        ensures ok { OnOk result (self.new ≡ after Call.NotSynced self.old) }
        ensures err { OnErr result (self.new ≡ self.old) }
        ensures sound { OnOk result (SoundNow self.new) }
    {
        begin(self.alloc, &mut self.first, &mut self.calls, &self.state)?;
        let _ = self.state.reads();
        self.calls.push(Call::NotSynced).unwrap();
        Ok(())
    }
}

/// Keeps the first state, and takes the room for one call more.
fn begin(
    alloc: Global,
    first: &mut Option<State>,
    calls: &mut Vec<Call>,
    state: &State,
) -> Result<(), OutOfMemory>
    ensures first { unwrap_or first.new state.now ≡ unwrap_or first.old state.now }
    ensures calls { calls.new.items ≡ calls.old.items }
    ensures kept { OnOk result (IsSome first.new) }
    ensures room { OnOk result (vec_len calls.new < vec_capacity calls.new) }
{
    calls.reserve(1)?;
    if first.is_none() {
        *first = Some(state.copy(alloc)?);
    }
    Ok(())
}
