// A file's state with its history, for whoever makes the device's calls between the reply and the entry.
ghost use Rattle.std.specs.Prelude.{◌≡◌, ◌⊎◌, ◌+◌, ◌^◌, ◌<◌, ◌≤◌, [], false, true, length, IfOk, IfSome, IfNone, OnOk, OnErr};
ghost use Rattle.inc_pending.specs.Keyed.{lookup};
ghost use Rattle.inc_pending.specs.Polling.{read_of};
ghost use Rattle.inc_entry.specs.Stored.{is_compressed_class, is_damaged_class};
ghost use Rattle.inc_layout.specs.opening.Opening.{IsSoundOpened};
ghost use Rattle.inc_layout.specs.state.Reopening.{indices_passing};
ghost use Rattle.inc_model.specs.relation.Changes.{window_of};
ghost use Rattle.inc_model.specs.executed.CoreState.{MayBegin, MayWantMemory};
ghost use Rattle.inc_model.specs.executed.IndexLists.{HasNoOther};
ghost use Rattle.inc_model.specs.relation.State.{all_places};
ghost use Rattle.inc_model.specs.relation.Step.{HasRoom, IsAllowed, IsOwn, needs};
ghost use Rattle.inc_model.specs.relation.Table.{has_list, lists_rows, reply_of};
ghost use Rattle.inc_cell.specs.seen.Books.{HasEntered, IsFullFor, IsReady, IsSameBook};
ghost use Rattle.inc_cell.specs.seen.Parts.{opening_of};
ghost use Rattle.inc_cell.specs.events.Quiet.{IsQuietEvent};

use crate::{EntryList, OutOfMemory};
use inc_entry::Class;
use inc_layout::Opened;
use inc_model::{Digest32, Entry, Event, FileCore, ReadRow, Reply, Slots, copy_reply};
use std::alloc::Global;
use std::marker::Model;

#[derive(Drop)]
pub struct Book {
    alloc: Global,
    core: FileCore<Slots>,
    entries: Vec<Entry>,
}

impl Model for Book {
    ghost use Rattle.std.specs.Prelude.{◌-◌, min, vec_len, vec_capacity};
    ghost use Rattle.inc_cell.specs.seen.Books.{BookView, KeepsBook};

    ghost Value = { BookView };

    ghost view = { λ b. record { state = b.core.state; history = b.entries.items; room = min b.core.room (vec_capacity b.entries - vec_len b.entries) } };

    ghost invariant = { λ b. KeepsBook b.core.state b.entries.items (min b.core.room (vec_capacity b.entries - vec_len b.entries)) };
}

fn is_damaged(class: Class) -> bool
    ensures value { result ≡ is_damaged_class class }
{
    matches!(class, Class::Damaged)
}

fn is_compressed(class: Class) -> bool
    ensures value { result ≡ is_compressed_class class }
{
    matches!(class, Class::Compressed)
}

/// The indices of the classes that are damaged.
#[tactic(auto, using(crate::proofs::steps::BookLemmas::passing_there, crate::proofs::steps::BookLemmas::passing_not))]
fn damaged_in(alloc: Global, classes: &[Class]) -> Result<Vec<u32>, OutOfMemory>
    requires few { length classes.now < 2 ^ 32 }
    ensures value { IfOk result (λ indices. indices.items ≡ indices_passing is_damaged_class 0 classes.now) }
{
    let mut indices = Vec::new(alloc);
    for (index, class) in classes.iter().enumerate() {
        if is_damaged(*class) {
            indices.push(index as u32)?;
        }
    }
    Ok(indices)
}

/// The indices of the classes that are compressed.
#[tactic(auto, using(crate::proofs::steps::BookLemmas::passing_there, crate::proofs::steps::BookLemmas::passing_not))]
fn compressed_in(alloc: Global, classes: &[Class]) -> Result<Vec<u32>, OutOfMemory>
    requires few { length classes.now < 2 ^ 32 }
    ensures value { IfOk result (λ indices. indices.items ≡ indices_passing is_compressed_class 0 classes.now) }
{
    let mut indices = Vec::new(alloc);
    for (index, class) in classes.iter().enumerate() {
        if is_compressed(*class) {
            indices.push(index as u32)?;
        }
    }
    Ok(indices)
}

impl Book {
    /// The state in which a mounted file begins, over a disk with this count of faults.
    pub fn open(
        alloc: Global,
        opened: &Opened,
        faults: u64,
        readers: u32,
    ) -> Result<Book, OutOfMemory>
        requires sound { IsSoundOpened opened.now }
        ensures state { IfOk result (λ book. book.state ≡ opening_of opened.now faults readers) }
        ensures history { IfOk result (λ book. book.history ≡ []) }
    {
        let tree = &opened.areas.geometry;
        let slots = Slots::of(
            alloc,
            tree.data_blocks(),
            tree.hash_blocks(),
            opened.digests.as_slice(),
        )?;
        let damaged = damaged_in(alloc, opened.classes.as_slice())?;
        let compressed = compressed_in(alloc, opened.classes.as_slice())?;
        let core = FileCore::over(
            alloc,
            opened.header.id,
            opened.root(),
            slots,
            damaged,
            compressed,
            faults,
            readers,
        );
        Ok(Book {
            alloc,
            core,
            entries: Vec::new(alloc),
        })
    }

    pub fn alloc(&self) -> Global {
        self.alloc
    }

    pub fn len(&self) -> u64
        ensures value { result ≡ length self.now.history }
    {
        self.entries.len() as u64
    }

    pub fn entries(&self) -> &[Entry]
        ensures value { result.now ≡ self.now.history }
    {
        self.entries.as_slice()
    }

    pub fn into_entries(self) -> EntryList
        ensures value { result ≡ self.history }
    {
        EntryList::from_vec(self.entries)
    }

    /// The digest of an open index.
    pub fn digest_of(&self, index: u32) -> Option<Digest32>
        ensures value { result ≡ lookup index self.now.state.map }
    {
        self.core.digest_of(index)
    }

    /// This asker's read with this serial.
    pub fn read_of(&self, who: u32, serial: u32) -> Option<ReadRow>
        ensures value { result ≡ read_of who serial self.now.state.reads }
    {
        self.core.read_of(who, serial)
    }

    /// The numbers of entries and of claimed places, where the history has no room for an event beside them.
    pub fn full_for(&self, event: Event) -> Option<(u64, u64)>
        ensures full { IfSome result (λ numbers. IsFullFor self.now event numbers) }
        ensures room { IfNone result (HasRoom (length self.now.history) self.now.state event) }
    {
        let entries = self.entries.len() as u64;
        if self.core.has_room(entries, event) {
            return None;
        }
        Some((entries, self.core.claimed_places()))
    }

    /// Takes room for an entry, and for each place that will be claimed then.
    pub fn make_room(&mut self, event: Event) -> Result<(), OutOfMemory>
        requires room { HasRoom (length self.old.history) self.old.state event }
        ensures same { IsSameBook self.old self.new }
        ensures ready { OnOk result (IsReady self.new event) }
        ensures memory { OnErr result (0 < needs self.old.state.claimed event) }
    {
        let needs = self.core.needs(event);
        if needs == 0 {
            return Ok(());
        }
        let places = (self.core.claimed_places() + needs) as usize;
        self.core.make_room(places)?;
        self.entries.reserve(places)?;
        Ok(())
    }

    /// What the file answers, where no device call fails.
    pub fn reply_to(&self, who: u32, event: Event) -> Result<Reply, OutOfMemory>
        ensures value { IfOk result (λ reply. reply ≡ reply_of self.now.state who event) }
        ensures memory { OnErr result (has_list event ≡ true) }
    {
        self.core.reply_to(self.alloc, who, event)
    }

    /// Enters a reply, with what it changes.
    pub fn enter(&mut self, who: u32, event: Event, reply: &Reply) -> Result<(), OutOfMemory>
        requires ready { IsReady self.old event }
        requires allowed { IsAllowed (length self.old.history) false self.old.state who event reply.now }
        requires alone { MayBegin (λ map index digest. HasNoOther digest (lookup index map)) self.old.state event reply.now }
        ensures ok { OnOk result (HasEntered self.old who event reply.now self.new) }
        ensures err { OnErr result (IsSameBook self.old self.new) }
        ensures memory { OnErr result ((lists_rows reply.now ≡ true) ⊎ MayWantMemory event self.old.room) }
    {
        let at = self.entries.len() as u64;
        let copy = copy_reply(self.alloc, reply)?;
        self.core.apply(at, who, event, reply)?;
        let entry = Entry {
            who,
            event,
            reply: copy,
        };
        self.entries.push(entry).unwrap();
        Ok(())
    }

    /// Answers an event for which no device is called, and enters the reply.
    pub fn take_down(&mut self, who: u32, event: Event) -> Result<Reply, OutOfMemory>
        requires own { IsOwn who (window_of event) }
        requires quiet { IsQuietEvent event }
        requires room { HasRoom (length self.old.history) self.old.state event }
        ensures reply { IfOk result (λ reply. reply ≡ reply_of self.old.state who event) }
        ensures ok { IfOk result (λ reply. HasEntered self.old who event reply self.new) }
        ensures err { OnErr result (IsSameBook self.old self.new) }
        ensures memory { OnErr result (0 < needs self.old.state.claimed event) }
    {
        let reply = self.reply_to(who, event)?;
        self.make_room(event)?;
        self.enter(who, event, &reply)?;
        Ok(reply)
    }
}
