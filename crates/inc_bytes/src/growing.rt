//! Numbers that are appended to bytes, the least byte first.

ghost use Rattle.std.specs.Prelude.{◌≡◌, ◌++◌, OnOk, OnErr};
ghost use Rattle.inc_bytes.specs.Fields.{le_bytes};

use crate::OutOfMemory;

/// Appends a number of two bytes.
#[tactic(auto, using(crate::proofs::Numbers::le_bytes_2))]
pub fn push_u16(bytes: &mut Vec<u8>, v: u16) -> Result<(), OutOfMemory>
    ensures ok { OnOk result (bytes.new.items ≡ bytes.old.items ++ le_bytes 2 v) }
    ensures err { OnErr result (bytes.new.items ≡ bytes.old.items) }
{
    Ok(bytes.extend_from_slice(&v.to_le_bytes())?)
}

/// Appends a number of four bytes.
#[tactic(auto, using(crate::proofs::Numbers::le_bytes_4))]
pub fn push_u32(bytes: &mut Vec<u8>, v: u32) -> Result<(), OutOfMemory>
    ensures ok { OnOk result (bytes.new.items ≡ bytes.old.items ++ le_bytes 4 v) }
    ensures err { OnErr result (bytes.new.items ≡ bytes.old.items) }
{
    Ok(bytes.extend_from_slice(&v.to_le_bytes())?)
}

/// Appends a number of eight bytes.
#[tactic(auto, using(crate::proofs::Numbers::le_bytes_8))]
pub fn push_u64(bytes: &mut Vec<u8>, v: u64) -> Result<(), OutOfMemory>
    ensures ok { OnOk result (bytes.new.items ≡ bytes.old.items ++ le_bytes 8 v) }
    ensures err { OnErr result (bytes.new.items ≡ bytes.old.items) }
{
    Ok(bytes.extend_from_slice(&v.to_le_bytes())?)
}
