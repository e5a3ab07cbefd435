// Copies of a reply and of a state, which take memory.
ghost use Rattle.std.specs.Prelude.{◌≡◌, true, IfOk, OnErr};
ghost use Rattle.inc_model.specs.relation.Table.{lists_rows};

use crate::file_core::FileCore;
use crate::{
    Digest32, FileState, FlightRow, IndexRows, OutOfMemory, RangeList, ReadRow, RecordList, Reply,
    Rows, Times, Window,
};
use std::alloc::Global;

fn copy_digests(
    alloc: Global,
    rows: &[(u32, Digest32)],
) -> Result<Rows<(u32, Digest32)>, OutOfMemory>
    ensures value { IfOk result (λ copy. copy ≡ rows.now) }
{
    Ok(Rows::from_vec(rows.to_vec(alloc)?))
}

fn copy_indices(alloc: Global, rows: &[u32]) -> Result<Rows<u32>, OutOfMemory>
    ensures value { IfOk result (λ copy. copy ≡ rows.now) }
{
    Ok(Rows::from_vec(rows.to_vec(alloc)?))
}

fn copy_reads(alloc: Global, rows: &[ReadRow]) -> Result<Rows<ReadRow>, OutOfMemory>
    ensures value { IfOk result (λ copy. copy ≡ rows.now) }
{
    Ok(Rows::from_vec(rows.to_vec(alloc)?))
}

fn copy_times(alloc: Global, rows: &[(u32, Times)]) -> Result<Rows<(u32, Times)>, OutOfMemory>
    ensures value { IfOk result (λ copy. copy ≡ rows.now) }
{
    Ok(Rows::from_vec(rows.to_vec(alloc)?))
}

fn copy_flight(alloc: Global, rows: &[FlightRow]) -> Result<Rows<FlightRow>, OutOfMemory>
    ensures value { IfOk result (λ copy. copy ≡ rows.now) }
{
    Ok(Rows::from_vec(rows.to_vec(alloc)?))
}

fn copy_claims(alloc: Global, rows: &[(Window, u32)]) -> Result<Rows<(Window, u32)>, OutOfMemory>
    ensures value { IfOk result (λ copy. copy ≡ rows.now) }
{
    Ok(Rows::from_vec(rows.to_vec(alloc)?))
}

/// The state that a core is in, as a value of its own.
pub fn copy_state(alloc: Global, core: &FileCore<IndexRows>) -> Result<FileState, OutOfMemory>
    ensures value { IfOk result (λ copy. copy ≡ core.now.state) }
{
    Ok(FileState {
        id: core.id,
        n: core.indices.n,
        m: core.indices.m,
        root: core.root,
        map: copy_digests(alloc, core.indices.map.as_slice())?,
        damaged: copy_indices(alloc, core.damaged.as_slice())?,
        compressed: copy_indices(alloc, core.compressed.as_slice())?,
        reads: copy_reads(alloc, core.reads.as_slice())?,
        next: core.next,
        times: copy_times(alloc, core.times.as_slice())?,
        flight: copy_flight(alloc, core.flight.as_slice())?,
        claimed: copy_claims(alloc, core.claimed.as_slice())?,
        begun: copy_digests(alloc, core.indices.begun.as_slice())?,
        acknowledged: copy_indices(alloc, core.indices.acknowledged.as_slice())?,
        faults: core.faults,
        failed: core.failed,
        readers: core.readers,
    })
}

pub fn copy_reply(alloc: Global, reply: &Reply) -> Result<Reply, OutOfMemory>
    ensures value { IfOk result (λ copy. copy ≡ reply.now) }
    ensures memory { OnErr result (lists_rows reply.now ≡ true) }
{
    Ok(match reply {
        Reply::OutOfRange => Reply::OutOfRange,
        Reply::Damaged => Reply::Damaged,
        Reply::Compressed => Reply::Compressed,
        Reply::Asked { serial } => Reply::Asked { serial: *serial },
        Reply::Stranger => Reply::Stranger,
        Reply::NoPath { hash } => Reply::NoPath { hash: *hash },
        Reply::Handed { digest } => Reply::Handed { digest: *digest },
        Reply::TimedOut { deadline } => Reply::TimedOut {
            deadline: *deadline,
        },
        Reply::NotYet => Reply::NotYet,
        Reply::Fault { count } => Reply::Fault { count: *count },
        Reply::Cancelled => Reply::Cancelled,
        Reply::Failed { at } => Reply::Failed { at: *at },
        Reply::Claimed => Reply::Claimed,
        Reply::Busy { window } => Reply::Busy { window: *window },
        Reply::Present => Reply::Present,
        Reply::Put { place, digest } => Reply::Put {
            place: *place,
            digest: *digest,
        },
        Reply::Placed => Reply::Placed,
        Reply::Settled => Reply::Settled,
        Reply::Gated { marked } => Reply::Gated { marked: *marked },
        Reply::Released => Reply::Released,
        Reply::Taken { records, readers } => Reply::Taken {
            records: RecordList::of(alloc, records.as_slice())?,
            readers: *readers,
        },
        Reply::TimesFull => Reply::TimesFull,
        Reply::TimesSet => Reply::TimesSet,
        Reply::BadRange => Reply::BadRange,
        Reply::Filled { list, next, more } => Reply::Filled {
            list: RangeList::of(alloc, list.as_slice())?,
            next: *next,
            more: *more,
        },
        Reply::Counted {
            data_count,
            hash_count,
        } => Reply::Counted {
            data_count: *data_count,
            hash_count: *hash_count,
        },
        Reply::Left { readers } => Reply::Left { readers: *readers },
    })
}
