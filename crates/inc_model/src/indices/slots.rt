// The indices of a file as slots by index. No question about an index and no change of one costs more in a larger file, and no change
// takes memory.
ghost use Rattle.std.specs.Prelude.{◌≡◌, ◌+◌, ◌^◌, ◌<◌, ◌≤◌, false, not, map, length, set, slice_index_or, nat_lt, nat_le, count_by, IfOk};
ghost use Rattle.inc_pending.specs.Keyed.{lookup, insert};
ghost use Rattle.inc_model.specs.relation.State.{has, with_index};
ghost use Rattle.inc_model.specs.executed.IndexLists.{HasNoOther};
ghost use Rattle.inc_model.specs.executed.SlotRows.{open_digest, begun_digest_in, open_rows, begun_rows, acknowledged_in_slots, digest_rows, opened_lists, slot_of_opened, counted_open, begun_slot, opened_slot, acknowledged_slot, more_open};

use crate::indices::Indices;
use crate::{Digest32, OutOfMemory};
use std::alloc::Global;
use std::marker::Model;

/// What is known of one index, in 35 bytes. Where it is neither open nor begun, its digest says nothing.
#[derive(Clone, Copy, Debug, PartialEq, Eq)]
pub struct Slot {
    digest: Digest32,
    is_open: bool,
    is_begun: bool,
    is_acknowledged: bool,
}

/// One slot for each index of a file. It takes no memory after it is made.
#[derive(Drop)]
pub struct Slots {
    n: u32,
    m: u32,
    data_count: u32,
    hash_count: u32,
    slots: Vec<Slot>,
}

impl Model for Slots {
    ghost use Rattle.inc_model.specs.executed.IndexLists.{IndexLists};
    ghost use Rattle.inc_model.specs.executed.SlotRows.{slot_lists, HoldsSlots};

    ghost Value = { IndexLists };

    ghost view = { λ s. slot_lists s.n s.m s.slots.items };

    ghost invariant = { λ s. HoldsSlots s.n s.m s.slots.items s.data_count s.hash_count };
}

/// The slot of an index as a file is opened.
fn slot_of_opened(digest: Option<Digest32>) -> Slot
    ensures value { result ≡ slot_of_opened digest }
{
    match digest {
        Some(digest) => Slot {
            digest,
            is_open: true,
            is_begun: false,
            is_acknowledged: true,
        },
        None => Slot {
            digest: [0; 32],
            is_open: false,
            is_begun: false,
            is_acknowledged: false,
        },
    }
}

fn begun_slot(slot: Slot, digest: Digest32) -> Slot
    ensures value { result ≡ begun_slot digest slot }
{
    Slot {
        digest,
        is_open: slot.is_open,
        is_begun: true,
        is_acknowledged: slot.is_acknowledged,
    }
}

fn opened_slot(slot: Slot, digest: Digest32) -> Slot
    ensures value { result ≡ opened_slot digest slot }
{
    Slot {
        digest,
        is_open: true,
        is_begun: true,
        is_acknowledged: slot.is_acknowledged,
    }
}

fn acknowledged_slot(slot: Slot) -> Slot
    ensures value { result ≡ acknowledged_slot slot }
{
    let mut slot = slot;
    slot.is_acknowledged = true;
    slot
}

fn open_digest(slot: Slot) -> Option<Digest32>
    ensures value { result ≡ open_digest slot }
{
    let digest = slot.digest;
    if slot.is_open { Some(digest) } else { None }
}

fn begun_digest(slot: Slot) -> Option<Digest32>
    ensures value { result ≡ begun_digest_in slot }
{
    let digest = slot.digest;
    if slot.is_begun { Some(digest) } else { None }
}

// ---- the slot of an index

fn find_open(slots: &[Slot], index: u32) -> Option<Digest32>
    ensures value { result ≡ lookup index (open_rows slots.now) }
{
    let at = index as usize;
    if at >= slots.len() {
        return None;
    }
    open_digest(slots[at])
}

fn find_begun(slots: &[Slot], index: u32) -> Option<Digest32>
    ensures value { result ≡ lookup index (begun_rows slots.now) }
{
    let at = index as usize;
    if at >= slots.len() {
        return None;
    }
    begun_digest(slots[at])
}

fn is_marked(slots: &[Slot], index: u32) -> bool
    ensures value { result ≡ has index (acknowledged_in_slots slots.now) }
{
    let at = index as usize;
    if at >= slots.len() {
        return false;
    }
    slots[at].is_acknowledged
}

fn set_begun(slots: &mut Vec<Slot>, index: u32, digest: Digest32)
    requires within { index < length slots.old.items }
    requires alone { HasNoOther digest (lookup index (open_rows slots.old.items)) }
    ensures open_slots { open_rows slots.new.items ≡ open_rows slots.old.items }
    ensures begun { begun_rows slots.new.items ≡ insert index digest (begun_rows slots.old.items) }
    ensures acknowledged { acknowledged_in_slots slots.new.items ≡ acknowledged_in_slots slots.old.items }
    ensures count { length slots.new.items ≡ length slots.old.items }
{
    let at = index as usize;
    let slot = begun_slot(slots[at], digest);
    slots[at] = slot;
}

/// Gives the slot that the index had.
fn set_open(slots: &mut Vec<Slot>, index: u32, digest: Digest32) -> Slot
    requires within { index < length slots.old.items }
    ensures before { slice_index_or slots.old.items index result ≡ result }
    ensures after { slots.new.items ≡ set slots.old.items index (opened_slot digest result) }
{
    let at = index as usize;
    let before = slots[at];
    slots[at] = opened_slot(before, digest);
    before
}

fn set_acknowledged(slots: &mut Vec<Slot>, index: u32)
    requires within { index < length slots.old.items }
    ensures open_slots { open_rows slots.new.items ≡ open_rows slots.old.items }
    ensures begun { begun_rows slots.new.items ≡ begun_rows slots.old.items }
    ensures acknowledged { acknowledged_in_slots slots.new.items ≡ with_index index (acknowledged_in_slots slots.old.items) }
    ensures count { length slots.new.items ≡ length slots.old.items }
{
    let at = index as usize;
    let slot = acknowledged_slot(slots[at]);
    slots[at] = slot;
}

fn slots_of_opened(alloc: Global, digests: &[Option<Digest32>]) -> Result<Vec<Slot>, OutOfMemory>
    ensures value { IfOk result (λ slots. slots.items ≡ map slot_of_opened digests.now) }
{
    digests
        .iter()
        .map(|digest| slot_of_opened(*digest))
        .collect(alloc)
}

/// One where the slot is open, and counted.
fn counted_open(slot: Slot, counted: bool) -> u32
    ensures value { result ≡ counted_open slot counted }
    ensures small { result ≤ 1 }
{
    if slot.is_open && counted { 1 } else { 0 }
}

/// The open data blocks, and the open hash blocks.
fn count_slots(slots: &[Slot], n: u32) -> (u32, u32)
    requires few { length slots.now < 2 ^ 32 }
    ensures data_blocks { result.0 ≡ count_by (λ row. nat_lt row.0 n) (open_rows slots.now) }
    ensures hash_blocks { result.1 ≡ count_by (λ row. nat_le n row.0) (open_rows slots.now) }
{
    let mut data_count = 0;
    let mut hash_count = 0;
    for (i, slot) in slots.iter().enumerate() {
        data_count += counted_open(*slot, i < n as usize);
        hash_count += counted_open(*slot, n as usize <= i);
    }
    (data_count, hash_count)
}

/// The counts after the index of this slot is opened, among the data blocks or not.
fn counts_after(slot: Slot, is_data: bool, data_count: u32, hash_count: u32) -> (u32, u32)
    requires few { slot.is_open ≡ false → (data_count + 1 < 2 ^ 32) × (hash_count + 1 < 2 ^ 32) }
    ensures data_blocks { result.0 ≡ data_count + more_open slot is_data }
    ensures hash_blocks { result.1 ≡ hash_count + more_open slot (not is_data) }
{
    if slot.is_open {
        (data_count, hash_count)
    } else if is_data {
        (data_count + 1, hash_count)
    } else {
        (data_count, hash_count + 1)
    }
}

impl Slots {
    /// The indices of a file as it is opened, by the digests of its open blocks.
    pub fn of(
        alloc: Global,
        n: u32,
        m: u32,
        digests: &[Option<Digest32>],
    ) -> Result<Slots, OutOfMemory>
        requires each { length digests.now ≡ n + m }
        requires few { n + m < 2 ^ 32 }
        ensures value { IfOk result (λ slots. slots ≡ opened_lists n m (digest_rows digests.now)) }
    {
        let slots = slots_of_opened(alloc, digests)?;
        let (data_count, hash_count) = count_slots(slots.as_slice(), n);
        Ok(Slots {
            n,
            m,
            data_count,
            hash_count,
            slots,
        })
    }
}

impl Indices for Slots {
    ghost use Rattle.std.specs.Prelude.{◌^◌};
    ghost use Rattle.inc_pending.specs.Keyed.{lookup};
    ghost use Rattle.inc_model.specs.executed.IndexLists.{HasNoOther};

    ghost lists = { λ s. s };

    ghost room = { λ s. 2 ^ 64 };

    ghost can_begin = { λ digests index digest. HasNoOther digest (lookup index digests) };

    fn data_blocks(&self) -> u32 {
        self.n
    }

    fn hash_blocks(&self) -> u32 {
        self.m
    }

    fn digest_of(&self, index: u32) -> Option<Digest32> {
        find_open(self.slots.as_slice(), index)
    }

    fn begun_digest(&self, index: u32) -> Option<Digest32> {
        find_begun(self.slots.as_slice(), index)
    }

    fn is_acknowledged(&self, index: u32) -> bool {
        is_marked(self.slots.as_slice(), index)
    }

    fn counts(&self) -> (u32, u32) {
        (self.data_count, self.hash_count)
    }

    fn reserve(&mut self, _changes: usize) -> Result<(), OutOfMemory> {
        Ok(())
    }

    fn begin(&mut self, index: u32, digest: Digest32) {
        set_begun(&mut self.slots, index, digest);
    }

    fn open(&mut self, index: u32, digest: Digest32) {
        let before = set_open(&mut self.slots, index, digest);
        let is_data = index < self.n;
        let (data_count, hash_count) = counts_after(
            before,
            is_data,
            self.data_count,
            self.hash_count,
        );
        self.data_count = data_count;
        self.hash_count = hash_count;
    }

    fn acknowledge(&mut self, index: u32) {
        set_acknowledged(&mut self.slots, index);
    }
}
