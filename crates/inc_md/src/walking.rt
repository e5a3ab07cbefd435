ghost use Rattle.std.specs.Prelude.{◌≡◌, ◌≢◌, ◌+◌, ◌<◌, ◌≤◌, ◌^◌, ℕ, Bool, not, ◌&&◌, is_some, length, take, drop, if◌then◌else◌, IfSome, IfOk, OnOk, IfErr, None, suc};
ghost use Rattle.inc_bytes.specs.Tests.{first_failing};
ghost use Rattle.inc_io.specs.Causes.{HasCause, HasCauseAt};
ghost use Rattle.inc_md.specs.Record.{head_of, map_fields, sig_fields, status_fields};
ghost use Rattle.inc_md.specs.Chain.{chain_of};
ghost use Rattle.inc_md.specs.Inside.{AreRecordsInside, HasStatusInside};
ghost use Rattle.inc_md.specs.Outcome.{GivesChain, IsChain, HasFault};
ghost use Rattle.inc_md.specs.Step.{least_size, tests_after, with_fields, with_record, FailsBy};
ghost use Rattle.inc_md.specs.declared.fault.ChainFault.TheVariants.{ReadFault as read_fault};

use crate::head::{self, Head};
use crate::kinds::{
    COUNTS_SIZE, HEAD_SIZE, MAP_FIELDS, MAP_KIND, MOST_RECORDS, SIGNATURE_FIELDS, SIGNATURE_KIND,
    STATUS_KIND,
};
use crate::{ChainFault, MapRecord, Records, SigRecord, StatusRecord};
use inc_bytes::{Span, SpanList};
use inc_io::{Backing, Failed};
use std::alloc::Global;

/// Follows the chain whose first record stands at `first` (0 for an empty chain) in a file of `len` bytes.
///
/// Each record costs one read of its 23 first bytes, and a block map, a signature and the first status record one more, of their
/// fields.
pub fn walk<B: Backing>(
    alloc: Global,
    file: &mut B,
    len: u64,
    first: u64,
    need_map: bool,
) -> Result<Records, ChainFault>
    requires { IfSome (B.reads (B.kept file.old)) (λ bytes. len ≡ length bytes) }
    // The answer is a function of the file's bytes.
    ensures answer { IfSome (B.reads (B.kept file.old)) (λ bytes. GivesChain result (chain_of bytes len first need_map)) }
    ensures chain { IfSome (B.reads (B.kept file.old)) (λ bytes. IfOk result (λ records. IsChain bytes len first need_map records)) }
    ensures fault { IfSome (B.reads (B.kept file.old)) (λ bytes. IfErr result (λ fault. HasFault bytes len first need_map fault)) }
    // Whether the file tells its bytes or not, what is named lies inside it.
    ensures inside { IfOk result (λ records. AreRecordsInside len records) }
    ensures kept { B.kept file.new ≡ B.kept file.old }
    ensures cause { HasCauseAt read_fault (B.faults file.old) (B.faults file.new) result }
{
    let mut records = Records {
        map: None,
        signature: None,
        status: None,
        spans: SpanList::new(alloc),
        last: 0,
    };
    let mut at = first;
    while at != 0 {
        at = read_record(file, len, at, &mut records)?;
    }
    check_map(records, need_map)
}

/// Refuses a chain without a block map where one is needed.
fn check_map(records: Records, need_map: bool) -> Result<Records, ChainFault>
    ensures value { result ≡ (if need_map && not (is_some records.map) then Err ChainFault.NoMap else Ok records) }
    ensures same { IfOk result (λ kept. kept ≡ records) }
    ensures judged { result ≢ Err ChainFault.ReadFault }
{
    let missing = need_map & records.map.is_none();
    if missing {
        return Err(ChainFault::NoMap);
    }
    Ok(records)
}

/// Judges the record at a place, notes what it says, and answers the place of the next one.
fn read_record<B: Backing>(
    file: &mut B,
    len: u64,
    at: u64,
    records: &mut Records,
) -> Result<u64, ChainFault>
    requires { IfSome (B.reads (B.kept file.old)) (λ bytes. len ≡ length bytes) }
    ensures passed { IfSome (B.reads (B.kept file.old)) (λ bytes. OnOk result (first_failing (tests_after records.old bytes len at) ≡ None)) }
    ensures next { IfSome (B.reads (B.kept file.old)) (λ bytes. IfOk result (λ next. next ≡ (head_of bytes at).next)) }
    ensures said { IfSome (B.reads (B.kept file.old)) (λ bytes. OnOk result (records.new ≡ with_record bytes at records.old)) }
    ensures failed { IfSome (B.reads (B.kept file.old)) (λ bytes. IfErr result (λ fault.
        FailsBy (first_failing (tests_after records.old bytes len at)) fault)) }
    ensures more { OnOk result (length records.new.spans ≡ suc (length records.old.spans)) }
    ensures few { OnOk result (length records.old.spans < MOST_RECORDS) }
    ensures inside { OnOk result (AreRecordsInside len records.old → AreRecordsInside len records.new) }
    ensures kept { B.kept file.new ≡ B.kept file.old }
    ensures cause { HasCauseAt read_fault (B.faults file.old) (B.faults file.new) result }
{
    head::check_place(records.spans.len(), len, at)?;
    let head = read_head(file, at)?;
    head::check_head(
        &head,
        records.map.is_some(),
        records.signature.is_some(),
        len,
        at,
    )?;
    read_fields(file, at, head.kind, records)?;
    records.spans.push(Span {
        at,
        len: head.size as u64,
    })?;
    records.last = at;
    Ok(head.next)
}

fn read_head<B: Backing>(file: &mut B, at: u64) -> Result<Head, Failed>
    ensures value { IfSome (B.reads (B.kept file.old)) (λ bytes. IfOk result (λ head. at + HEAD_SIZE ≤ length bytes → head ≡ head_of bytes at)) }
    ensures kept { B.kept file.new ≡ B.kept file.old }
    ensures cause { HasCause (B.faults file.old) (B.faults file.new) result }
{
    let mut room = [0; HEAD_SIZE];
    fill(file, at, &mut room)?;
    Ok(head::head_in(&room))
}

/// Notes the fields of a record whose type is looked at.
fn read_fields<B: Backing>(
    file: &mut B,
    at: u64,
    kind: u8,
    records: &mut Records,
) -> Result<(), Failed>
    requires { at + HEAD_SIZE < 2 ^ 64 }
    ensures value { IfSome (B.reads (B.kept file.old)) (λ bytes. OnOk result (at + least_size kind ≤ length bytes →
        records.new ≡ with_fields bytes at kind records.old)) }
    ensures same { records.new.spans ≡ records.old.spans }
    ensures status { OnOk result ((len : ℕ) → at + least_size kind ≤ len → HasStatusInside len records.old.status → HasStatusInside len records.new.status) }
    ensures kept { B.kept file.new ≡ B.kept file.old }
    ensures cause { HasCause (B.faults file.old) (B.faults file.new) result }
{
    let at = at + HEAD_SIZE as u64;
    match kind {
        MAP_KIND => {
            records.map = Some(read_map(file, at)?);
            Ok(())
        }
        SIGNATURE_KIND => {
            records.signature = Some(read_signature(file, at)?);
            Ok(())
        }
        STATUS_KIND if records.status.is_none() => {
            records.status = Some(read_status(file, at)?);
            Ok(())
        }
        _ => Ok(()),
    }
}

fn read_map<B: Backing>(file: &mut B, at: u64) -> Result<MapRecord, Failed>
    ensures value { IfSome (B.reads (B.kept file.old)) (λ bytes. IfOk result (λ map. at + MAP_FIELDS ≤ length bytes → map ≡ map_fields bytes at)) }
    ensures kept { B.kept file.new ≡ B.kept file.old }
    ensures cause { HasCause (B.faults file.old) (B.faults file.new) result }
{
    let mut room = [0; MAP_FIELDS];
    fill(file, at, &mut room)?;
    Ok(head::map_in(&room))
}

fn read_signature<B: Backing>(file: &mut B, at: u64) -> Result<SigRecord, Failed>
    ensures value { IfSome (B.reads (B.kept file.old)) (λ bytes. IfOk result (λ signature. at + SIGNATURE_FIELDS ≤ length bytes → signature ≡ sig_fields bytes at)) }
    ensures kept { B.kept file.new ≡ B.kept file.old }
    ensures cause { HasCause (B.faults file.old) (B.faults file.new) result }
{
    let mut room = [0; SIGNATURE_FIELDS];
    fill(file, at, &mut room)?;
    Ok(head::signature_in(&room))
}

fn read_status<B: Backing>(file: &mut B, at: u64) -> Result<StatusRecord, Failed>
    ensures value { IfSome (B.reads (B.kept file.old)) (λ bytes. IfOk result (λ status. at + COUNTS_SIZE ≤ length bytes → status ≡ status_fields bytes at)) }
    ensures place { IfOk result (λ status. status.at ≡ at) }
    ensures kept { B.kept file.new ≡ B.kept file.old }
    ensures cause { HasCause (B.faults file.old) (B.faults file.new) result }
{
    let mut room = [0; COUNTS_SIZE];
    fill(file, at, &mut room)?;
    Ok(head::status_in(&room, at))
}

/// Reads the bytes from a place on into a room. What the file doesn't have stays as it was.
fn fill<B: Backing>(file: &mut B, at: u64, room: &mut [u8]) -> Result<(), Failed>
    ensures filled { IfSome (B.reads (B.kept file.old)) (λ bytes. OnOk result (at + length room.old ≤ length bytes →
        room.new ≡ take (length room.old) (drop at bytes))) }
    ensures kept { B.kept file.new ≡ B.kept file.old }
    ensures cause { HasCause (B.faults file.old) (B.faults file.new) result }
{
    let _ = file.read_at(at, room)?;
    Ok(())
}
