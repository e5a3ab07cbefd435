ghost use Rattle.std.specs.Prelude.{◌≡◌, ◌++◌, OnOk};
ghost use Rattle.inc_bytes.specs.Fields.{le_bytes};
ghost use Rattle.inc_layout.specs.Fresh.{map_record, record_head, signature_record, status_record};

use crate::OutOfMemory;
use inc_header::HEADER_LEN;
use inc_md::{
    MAP_KIND, MAP_RECORD_SIZE, SIGNATURE_KIND, SIGNATURE_RECORD_SIZE, STATUS_KIND,
    STATUS_RECORD_SIZE,
};

/// The places of a fresh file's records, each behind the one before it, and of what comes behind them.
pub const FIRST_RECORD: u64 = HEADER_LEN as u64;

const SECOND_RECORD: u64 = FIRST_RECORD + MAP_RECORD_SIZE as u64;

const THIRD_RECORD: u64 = SECOND_RECORD + SIGNATURE_RECORD_SIZE as u64;

pub const BLOB: u64 = THIRD_RECORD + STATUS_RECORD_SIZE as u64;

/// The place of an unsigned file's map, behind its two records.
pub const UNSIGNED_MAP: u64 = SECOND_RECORD + STATUS_RECORD_SIZE as u64;

/// Appends a number of two bytes.
#[tactic(auto, using(inc_bytes::proofs::Numbers::le_bytes_2))]
fn push_u16(image: &mut Vec<u8>, n: u16) -> Result<(), OutOfMemory>
    ensures value { OnOk result (image.new.items ≡ image.old.items ++ le_bytes 2 n) }
{
    Ok(image.extend_from_slice(&n.to_le_bytes())?)
}

/// Appends a number of four bytes.
#[tactic(auto, using(inc_bytes::proofs::Numbers::le_bytes_4))]
fn push_u32(image: &mut Vec<u8>, n: u32) -> Result<(), OutOfMemory>
    ensures value { OnOk result (image.new.items ≡ image.old.items ++ le_bytes 4 n) }
{
    Ok(image.extend_from_slice(&n.to_le_bytes())?)
}

/// Appends a number of eight bytes.
#[tactic(auto, using(inc_bytes::proofs::Numbers::le_bytes_8))]
fn push_u64(image: &mut Vec<u8>, n: u64) -> Result<(), OutOfMemory>
    ensures value { OnOk result (image.new.items ≡ image.old.items ++ le_bytes 8 n) }
{
    Ok(image.extend_from_slice(&n.to_le_bytes())?)
}

/// What every record begins with. The fields that aren't looked at are zeros.
fn push_head(image: &mut Vec<u8>, kind: u8, size: u16, next: u64) -> Result<(), OutOfMemory>
    ensures value { OnOk result (image.new.items ≡ image.old.items ++ record_head kind size next) }
{
    image.push(kind)?;
    push_u16(image, size)?;
    push_u32(image, 0)?;
    push_u64(image, next)?;
    Ok(push_u64(image, 0)?)
}

/// Appends the block map record.
pub fn push_map(image: &mut Vec<u8>, base: u64, count: u32) -> Result<(), OutOfMemory>
    ensures value { OnOk result (image.new.items ≡ image.old.items ++ map_record base count) }
{
    push_head(image, MAP_KIND, MAP_RECORD_SIZE, SECOND_RECORD)?;
    push_u64(image, base)?;
    Ok(push_u32(image, count)?)
}

/// Appends the signature record.
pub fn push_signature(
    image: &mut Vec<u8>,
    blob_size: u32,
    tree_size: u32,
    tree_at: u64,
) -> Result<(), OutOfMemory>
    ensures value { OnOk result (image.new.items ≡ image.old.items ++ signature_record blob_size tree_size tree_at) }
{
    push_head(image, SIGNATURE_KIND, SIGNATURE_RECORD_SIZE, THIRD_RECORD)?;
    push_u32(image, blob_size)?;
    push_u64(image, BLOB)?;
    push_u32(image, tree_size)?;
    Ok(push_u64(image, tree_at)?)
}

/// Appends the status record, the chain's last.
pub fn push_status(image: &mut Vec<u8>) -> Result<(), OutOfMemory>
    ensures value { OnOk result (image.new.items ≡ image.old.items ++ status_record) }
{
    push_head(image, STATUS_KIND, STATUS_RECORD_SIZE, 0)?;
    Ok(image.extend_from_slice(&[0; 32])?)
}
