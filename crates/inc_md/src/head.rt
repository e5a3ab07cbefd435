ghost use Rattle.std.specs.Prelude.{◌≡◌, ◌≢◌, ◌+◌, ◌<◌, ◌≤◌, ◌^◌, ◌||◌, ◌==◌, length, nat_le, OnOk};
ghost use Rattle.inc_bytes.specs.Fields.{field};
ghost use Rattle.inc_bytes.specs.Tests.{first_failing, judge};
ghost use Rattle.inc_md.specs.Step.{least_size};
ghost use Rattle.inc_md.specs.Record.{head_of, is_size, place_tests, head_tests, map_fields, sig_fields, status_fields};

use crate::kinds::{
    COUNTS_SIZE, HEAD_SIZE, MAP_FIELDS, MAP_KIND, MAP_RECORD_SIZE, MOST_RECORDS, SIGNATURE_FIELDS,
    SIGNATURE_KIND, SIGNATURE_RECORD_SIZE, STATUS_KIND, STATUS_RECORD_SIZE,
};
use crate::{ChainFault, MapRecord, SigRecord, StatusRecord};
use inc_bytes::{u16_at, u32_at, u64_at};

/// What the first bytes of a record say.
#[derive(Clone, Copy)]
pub struct Head {
    pub kind: u8,
    pub size: u16,
    pub next: u64,
}

#[tactic(auto, unfolding(crate::specs::Record::head_of))]
pub fn head_in(b: &[u8]) -> Head
    requires { HEAD_SIZE ≤ length b.now }
    ensures value { result ≡ head_of b.now 0 }
{
    Head {
        kind: b[0],
        size: u16_at(b, 1),
        next: u64_at(b, 7),
    }
}

pub fn map_in(b: &[u8]) -> MapRecord
    requires { MAP_FIELDS ≤ length b.now }
    ensures value { result ≡ map_fields b.now 0 }
{
    MapRecord {
        base: u64_at(b, 0),
        count: u32_at(b, 8),
    }
}

pub fn signature_in(b: &[u8]) -> SigRecord
    requires { SIGNATURE_FIELDS ≤ length b.now }
    ensures value { result ≡ sig_fields b.now 0 }
{
    SigRecord {
        sig_size: u32_at(b, 0),
        sig_at: u64_at(b, 4),
        tree_size: u32_at(b, 12),
        tree_at: u64_at(b, 16),
    }
}

/// The numbers of a status record whose place is `at`.
pub fn status_in(b: &[u8], at: u64) -> StatusRecord
    requires { COUNTS_SIZE ≤ length b.now }
    ensures value { result ≡ record (status_fields b.now 0) { at = at } }
{
    StatusRecord {
        at,
        data_written: u32_at(b, 0),
        hash_written: u32_at(b, 4),
    }
}

/// Whether another record may stand here.
pub fn check_place(before: usize, len: u64, at: u64) -> Result<(), ChainFault>
    ensures value { result ≡ judge (first_failing (place_tests before len at)) tt }
    ensures few { OnOk result (before < MOST_RECORDS) }
    ensures inside { OnOk result (at + HEAD_SIZE ≤ len) }
    ensures judged { result ≢ Err ChainFault.ReadFault }
{
    if before >= MOST_RECORDS {
        return Err(ChainFault::TooMany);
    }
    if !fits_in(at, HEAD_SIZE as u64, len) {
        return Err(ChainFault::Outside { at });
    }
    Ok(())
}

/// Whether a range ends inside the file.
fn fits_in(at: u64, size: u64, len: u64) -> bool
    ensures { result ≡ nat_le (at + size) len }
{
    size <= len && at <= len - size
}

fn has_good_size(head: &Head) -> bool
    ensures { result ≡ is_size head.now.kind head.now.size }
{
    match head.kind {
        MAP_KIND => head.size == MAP_RECORD_SIZE,
        SIGNATURE_KIND => head.size == SIGNATURE_RECORD_SIZE,
        STATUS_KIND => head.size == STATUS_RECORD_SIZE,
        _ => head.size as usize >= HEAD_SIZE,
    }
}

/// Whether the next record, if there is one, stands behind this one. The record ends inside a file.
fn rises(head: &Head, at: u64) -> bool
    requires { at + head.now.size < 2 ^ 64 }
    ensures { result ≡ ((head.now.next == 0) || nat_le (at + head.now.size) head.now.next) }
{
    head.next == 0 || head.next >= at + head.size as u64
}

/// Judges what a record's first bytes say, after records with a map, or a signature, or not.
#[tactic(auto, unfolding(crate::specs::Record::head_tests))]
pub fn check_head(
    head: &Head,
    mapped: bool,
    signed: bool,
    len: u64,
    at: u64,
) -> Result<(), ChainFault>
    ensures value { result ≡ judge (first_failing (head_tests mapped signed len at head.now)) tt }
    ensures inside { OnOk result (at + least_size head.now.kind ≤ len) }
    ensures judged { result ≢ Err ChainFault.ReadFault }
{
    if !has_good_size(head) {
        return Err(ChainFault::BadSize { at });
    }
    if !fits_in(at, head.size as u64, len) {
        return Err(ChainFault::Outside { at });
    }
    let second_map = mapped & (head.kind == MAP_KIND);
    if second_map {
        return Err(ChainFault::TwoMaps { at });
    }
    let second_signature = signed & (head.kind == SIGNATURE_KIND);
    if second_signature {
        return Err(ChainFault::TwoSignatures { at });
    }
    if !rises(head, at) {
        return Err(ChainFault::NotRising {
            at,
            next: head.next,
        });
    }
    Ok(())
}
