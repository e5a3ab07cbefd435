// Whether an entry is a step from a state.
ghost use Rattle.std.specs.Prelude.{◌≡◌, ◌⊎◌, ◌↔◌, ◌-◌, ◌^◌, ◌<◌, ◌≤◌, true, IsTrue, IfOk};
ghost use Rattle.inc_model.specs.relation.Changes.{window_of};
ghost use Rattle.inc_model.specs.relation.Step.{IsOwn, IsPut, IsHanded, may_fail, Fits, IsKept, IsEntry};
ghost use Rattle.inc_model.specs.executed.CoreFacts.{IsWorkable};

use inc_model::{
    Digest32, Entry, Event, FileCore, Indices, MOST_ENTRIES, OutOfMemory, RangeList, RecordList,
    Reply, Window, window_of,
};
use std::alloc::Global;

/// Whether an event of a window comes from the window's own seat.
fn is_own(who: u32, event: Event) -> bool
    ensures exact { IsTrue result ↔ IsOwn who (window_of event) }
{
    match window_of(event) {
        Some(window) => window.who == who,
        None => true,
    }
}

/// Whether the reply leaves an entry.
pub fn is_kept(reply: &Reply) -> bool
    ensures exact { IsTrue result ↔ IsKept reply.now }
{
    !matches!(reply, Reply::NotYet)
}

// ---- the reply that was given, beside the one that the state gives

fn is_put(wanted: &Reply, digest: &Digest32) -> bool
    ensures exact { IsTrue result ↔ IsPut digest.now wanted.now }
{
    match wanted {
        Reply::Put { digest: stored, .. } => *digest == *stored,
        _ => false,
    }
}

fn is_handed(wanted: &Reply, digest: &Digest32) -> bool
    ensures exact { IsTrue result ↔ IsHanded true digest.now wanted.now }
{
    match wanted {
        Reply::Handed { digest: stored } => *digest == *stored,
        _ => false,
    }
}

fn is_asked(wanted: &Reply, serial: u32) -> bool
    ensures exact { IsTrue result ↔ (wanted.now ≡ Reply.Asked serial) }
{
    match wanted {
        Reply::Asked { serial: next } => *next == serial,
        _ => false,
    }
}

fn is_no_path(wanted: &Reply, hash: u32) -> bool
    ensures exact { IsTrue result ↔ (wanted.now ≡ Reply.NoPath hash) }
{
    match wanted {
        Reply::NoPath { hash: absent } => *absent == hash,
        _ => false,
    }
}

fn is_timed_out(wanted: &Reply, deadline: u64) -> bool
    ensures exact { IsTrue result ↔ (wanted.now ≡ Reply.TimedOut deadline) }
{
    match wanted {
        Reply::TimedOut { deadline: end } => *end == deadline,
        _ => false,
    }
}

fn is_failed(wanted: &Reply, at: u64) -> bool
    ensures exact { IsTrue result ↔ (wanted.now ≡ Reply.Failed at) }
{
    match wanted {
        Reply::Failed { at: first } => *first == at,
        _ => false,
    }
}

fn is_busy(wanted: &Reply, window: Window) -> bool
    ensures exact { IsTrue result ↔ (wanted.now ≡ Reply.Busy window) }
{
    match wanted {
        Reply::Busy { window: other } => *other == window,
        _ => false,
    }
}

fn is_gated(wanted: &Reply, marked: u32) -> bool
    ensures exact { IsTrue result ↔ (wanted.now ≡ Reply.Gated marked) }
{
    match wanted {
        Reply::Gated { marked: waiting } => *waiting == marked,
        _ => false,
    }
}

fn are_same_records(a: &RecordList, b: &RecordList) -> bool
    ensures exact { IsTrue result ↔ (a.now ≡ b.now) }
{
    a.as_slice() == b.as_slice()
}

fn are_same_ranges(a: &RangeList, b: &RangeList) -> bool
    ensures exact { IsTrue result ↔ (a.now ≡ b.now) }
{
    a.as_slice() == b.as_slice()
}

fn is_taken(wanted: &Reply, records: &RecordList, readers: u32) -> bool
    ensures exact { IsTrue result ↔ (wanted.now ≡ Reply.Taken records.now readers) }
{
    match wanted {
        Reply::Taken {
            records: pending,
            readers: left,
        } => are_same_records(pending, records) && *left == readers,
        _ => false,
    }
}

fn is_filled(wanted: &Reply, list: &RangeList, next: u32, more: bool) -> bool
    ensures exact { IsTrue result ↔ (wanted.now ≡ Reply.Filled list.now next more) }
{
    match wanted {
        Reply::Filled {
            list: runs,
            next: place,
            more: others,
        } => are_same_ranges(runs, list) && *place == next && *others == more,
        _ => false,
    }
}

fn is_counted(wanted: &Reply, data_count: u32, hash_count: u32) -> bool
    ensures exact { IsTrue result ↔ (wanted.now ≡ Reply.Counted data_count hash_count) }
{
    match wanted {
        Reply::Counted {
            data_count: data_blocks,
            hash_count: hash_blocks,
        } => *data_blocks == data_count && *hash_blocks == hash_count,
        _ => false,
    }
}

fn is_left(wanted: &Reply, readers: u32) -> bool
    ensures exact { IsTrue result ↔ (wanted.now ≡ Reply.Left readers) }
{
    match wanted {
        Reply::Left { readers: left } => *left == readers,
        _ => false,
    }
}

/// Whether the device has a call to make for a reply, which may fail.
fn may_fail(wanted: &Reply) -> bool
    ensures value { result ≡ may_fail wanted.now }
{
    matches!(
        wanted,
        Reply::Put { .. }
            | Reply::Placed
            | Reply::Settled
            | Reply::Gated { .. }
            | Reply::Handed { .. }
    )
}

/// Whether a call that failed raised the count of faults, which stops at the greatest number.
fn is_fault(faults: u64, wanted: &Reply, count: u64) -> bool
    ensures exact { IsTrue result ↔ ((may_fail wanted.now ≡ true) × ((faults < count) ⊎ (count ≡ 2 ^ 64 - 1))) }
{
    may_fail(wanted) && (faults < count || count == u64::MAX)
}

/// Whether a reply fits the one that the state gives.
fn fits(faults: u64, wanted: &Reply, given: &Reply) -> bool
    ensures exact { IsTrue result ↔ Fits true faults wanted.now given.now }
{
    match given {
        Reply::Fault { count } => is_fault(faults, wanted, *count),
        Reply::Put { digest, .. } => is_put(wanted, digest),
        Reply::Handed { digest } => is_handed(wanted, digest),
        Reply::OutOfRange => matches!(wanted, Reply::OutOfRange),
        Reply::Damaged => matches!(wanted, Reply::Damaged),
        Reply::Compressed => matches!(wanted, Reply::Compressed),
        Reply::Asked { serial } => is_asked(wanted, *serial),
        Reply::Stranger => matches!(wanted, Reply::Stranger),
        Reply::NoPath { hash } => is_no_path(wanted, *hash),
        Reply::TimedOut { deadline } => is_timed_out(wanted, *deadline),
        Reply::NotYet => matches!(wanted, Reply::NotYet),
        Reply::Cancelled => matches!(wanted, Reply::Cancelled),
        Reply::Failed { at } => is_failed(wanted, *at),
        Reply::Claimed => matches!(wanted, Reply::Claimed),
        Reply::Busy { window } => is_busy(wanted, *window),
        Reply::Present => matches!(wanted, Reply::Present),
        Reply::Placed => matches!(wanted, Reply::Placed),
        Reply::Settled => matches!(wanted, Reply::Settled),
        Reply::Gated { marked } => is_gated(wanted, *marked),
        Reply::Released => matches!(wanted, Reply::Released),
        Reply::Taken { records, readers } => is_taken(wanted, records, *readers),
        Reply::TimesFull => matches!(wanted, Reply::TimesFull),
        Reply::TimesSet => matches!(wanted, Reply::TimesSet),
        Reply::BadRange => matches!(wanted, Reply::BadRange),
        Reply::Filled { list, next, more } => is_filled(wanted, list, *next, *more),
        Reply::Counted {
            data_count,
            hash_count,
        } => is_counted(wanted, *data_count, *hash_count),
        Reply::Left { readers } => is_left(wanted, *readers),
    }
}

/// Whether an entry is a step from this state, over a device that tells what it holds.
pub fn is_entry<I: Indices>(
    core: &FileCore<I>,
    alloc: Global,
    at: u64,
    entry: &Entry,
) -> Result<bool, OutOfMemory>
    requires early { at ≤ MOST_ENTRIES }
    requires works { IsWorkable core.now.state }
    ensures exact { IfOk result (λ yes. IsTrue yes ↔ IsEntry at true core.now.state entry.now) }
{
    if !is_own(entry.who, entry.event) {
        return Ok(false);
    }
    if !core.has_room(at, entry.event) {
        return Ok(false);
    }
    if !is_kept(&entry.reply) {
        return Ok(false);
    }
    let wanted = core.reply_to(alloc, entry.who, entry.event)?;
    Ok(fits(core.fault_count(), &wanted, &entry.reply))
}
