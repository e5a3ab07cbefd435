// A file without a device: the executed relation as a machine.
ghost use Rattle.std.specs.Prelude.{◌≡◌, ◌+◌, ◌-◌, ◌<◌, ◌≤◌, ◌↔◌, ◌||◌, true, Some, is_none, IsTrue, IfOk, OnOk, OnErr, vec_len, vec_capacity};
ghost use Rattle.inc_model.specs.relation.State.{all_places};
ghost use Rattle.inc_model.specs.relation.Facts.{IsStart};
ghost use Rattle.inc_model.specs.relation.Step.{needs};
ghost use Rattle.inc_history.specs.PureState.{made_with, first_of};
ghost use Rattle.inc_history.specs.declared.pure_file.PureFault.TheVariants.{OutOfMemory as out_of_memory};

use crate::entries::is_kept;
use inc_model::{
    Entry, Event, FileCore, FileState, IndexRows, MOST_ENTRIES, Machine, OutOfMemory, Reply,
    copy_reply, copy_state,
};
use std::alloc::Global;
use std::marker::Model;

#[derive(Clone, Copy, Debug, PartialEq, Eq)]
pub enum PureFault {
    /// The history has no room for the event beside so many entries and claimed places.
    HistoryFull { entries: u64, claimed: u64 },
    OutOfMemory,
}

impl From<OutOfMemory> for PureFault {
    ghost from_gives = { λ _ fault. fault ≡ out_of_memory };

    fn from(_: OutOfMemory) -> PureFault {
        PureFault::OutOfMemory
    }
}

/// One file's state and history, for whoever needs no device: each reply is the table's, and no call fails but for want of memory.
#[derive(Drop)]
pub struct PureFile {
    alloc: Global,
    /// The state that it was made with, kept from the first entry on.
    first: Option<FileState>,
    core: FileCore<IndexRows>,
    entries: Vec<Entry>,
    /// Whether there is room for each claimed place. There is none for those that it was made with before an event made it.
    ready: bool,
}

impl Model for PureFile {
    ghost use Rattle.std.specs.Prelude.{◌-◌, vec_len, vec_capacity};
    ghost use Rattle.inc_history.specs.PureState.{Pure, KeepsPure, first_of};

    ghost Value = { Pure };

    ghost view = { λ p. record { first = first_of p.first p.core.state; now = p.core.state; history = p.entries.items; ready = p.ready } };

    ghost invariant = { λ p. KeepsPure p.first p.core p.entries.items (vec_capacity p.entries - vec_len p.entries) p.ready };
}

impl PureFile {
    /// Takes no memory: the state is copied at the first entry.
    pub fn new(alloc: Global, state: FileState) -> PureFile
        requires start { IsStart state }
        ensures value { result ≡ made_with state }
    {
        let ready = state.claimed.as_slice().is_empty();
        PureFile {
            alloc,
            first: None,
            core: FileCore::new(state),
            entries: Vec::new(alloc),
            ready,
        }
    }
}

/// Keeps a copy of the state before the first entry changes it.
fn keep_first(
    first: &mut Option<FileState>,
    core: &FileCore<IndexRows>,
    alloc: Global,
) -> Result<(), OutOfMemory>
    ensures ok { OnOk result (first.new ≡ Some (first_of first.old core.now.state)) }
    ensures err { OnErr result (first.new ≡ first.old) }
    ensures memory { OnErr result (is_none first.old ≡ true) }
{
    if first.is_none() {
        *first = Some(copy_state(alloc, core)?);
    }
    Ok(())
}

fn is_either(a: bool, b: bool) -> bool
    ensures value { result ≡ (a || b) }
{
    a || b
}

/// Takes room for an entry, and says whether there is room for all places that are claimed then. An event that takes no place of its
/// window's claim makes that room, so that each event that does take one finds it.
fn take_room(
    core: &mut FileCore<IndexRows>,
    entries: &mut Vec<Entry>,
    event: Event,
) -> Result<bool, OutOfMemory>
    requires places { all_places core.old.state.claimed ≤ MOST_ENTRIES }
    ensures core { core.new.state ≡ core.old.state }
    ensures entries { entries.new.items ≡ entries.old.items }
    ensures count { vec_len entries.new ≡ vec_len entries.old }
    ensures grown { core.old.room ≤ core.new.room }
    ensures capacity { vec_capacity entries.old ≤ vec_capacity entries.new }
    ensures room { OnOk result (vec_len entries.new < vec_capacity entries.new) }
    ensures made { IfOk result (λ made. IsTrue made ↔ (0 < needs core.old.state.claimed event)) }
    ensures core_room { IfOk result (λ made. IsTrue made → all_places core.old.state.claimed + needs core.old.state.claimed event ≤ core.new.room) }
    ensures entry_room { IfOk result (λ made. IsTrue made → all_places core.old.state.claimed + needs core.old.state.claimed event ≤ vec_capacity entries.new - vec_len entries.new) }
    ensures memory { OnErr result (needs core.old.state.claimed event ≡ 0 → vec_capacity entries.old ≤ vec_len entries.old) }
{
    let needs = core.needs(event);
    if needs == 0 {
        entries.reserve(1)?;
        return Ok(false);
    }
    let places = (core.claimed_places() + needs) as usize;
    core.make_room(places)?;
    entries.reserve(places)?;
    Ok(true)
}

impl Machine for PureFile {
    type Event = Event;

    type Answer = Result<Reply, PureFault>;

    type Footing = FileState;

    ghost use Rattle.inc_model.specs.relation.Changes.{window_of};
    ghost use Rattle.inc_model.specs.relation.Step.{IsOwn};
    ghost use Rattle.inc_history.specs.PureStep.{PureSteps};
    ghost use Rattle.inc_history.specs.PureLaws.{pure_grows, pure_stays};

    ghost history = { λ p. p.history };

    ghost footing = { λ p. p.first };

    ghost takes = { λ who event. IsOwn who (window_of event) };

    ghost steps = { PureSteps };

    fn step(&mut self, who: u32, event: Event) -> Result<Reply, PureFault> {
        let entries = self.entries.len() as u64;
        if !self.core.has_room(entries, event) {
            let claimed = self.core.claimed_places();
            return Err(PureFault::HistoryFull { entries, claimed });
        }
        let reply = self.core.reply_to(self.alloc, who, event)?;
        if !is_kept(&reply) {
            return Ok(reply);
        }
        keep_first(&mut self.first, &self.core, self.alloc)?;
        let copy = copy_reply(self.alloc, &reply)?;
        let made = take_room(&mut self.core, &mut self.entries, event)?;
        self.core.apply(entries, who, event, &reply)?;
        let entry = Entry {
            who,
            event,
            reply: copy,
        };
        self.entries.push(entry).unwrap();
        let ready = is_either(self.ready, made);
        self.ready = ready;
        Ok(reply)
    }

    ghost grows = { pure_grows };

    ghost stays = { pure_stays };
}
