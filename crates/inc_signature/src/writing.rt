ghost use Rattle.std.specs.Prelude.{◌≡◌, ℕ, ◌≤◌, ◌++◌, List, length, IfOk, OnOk, Ok};
ghost use Rattle.inc_bytes.specs.Fields.{AreBytes, le_bytes};
ghost use Rattle.inc_signature.specs.Signature.{hash_info, printed, signature_of};

use crate::parsing::{LOG_BLOCK, ROOT_SIZE, SHA256, VERSION};
use crate::signature::SigInfo;
use inc_bytes::{OutOfMemory, push_u32};
use inc_io::Bytes;
use inc_tree::Digest32;
use std::alloc::Global;

/// The bytes of a hash info section: its fields and the root.
const INFO_SIZE: u32 = 45;

const NO_SALT: u32 = 0;

/// Appends the hash info section with this root.
fn push_info(blob: &mut Vec<u8>, root: &Digest32) -> Result<(), OutOfMemory>
    ensures value { OnOk result (blob.new.items ≡ blob.old.items ++ hash_info root.now) }
    ensures sized { length root.now ≡ 32 }
{
    push_u32(blob, SHA256)?;
    blob.push(LOG_BLOCK)?;
    push_u32(blob, NO_SALT)?;
    push_u32(blob, ROOT_SIZE)?;
    Ok(blob.extend_from_slice(root)?)
}

/// The blob of this root and this signing info. The signing info has at most 8039 bytes.
pub fn print(alloc: Global, s: &SigInfo) -> Result<Bytes, OutOfMemory>
    requires short { length s.now.signing ≤ 8039 }
    ensures value { IfOk result (λ blob. blob ≡ printed s.now.root s.now.signing) }
    // What is printed is read.
    ensures read_back { IfOk result (λ blob. signature_of blob ≡ Ok s.now) }
    // What is read is printed as it was.
    ensures again { IfOk result (λ blob. (bytes : List ℕ) → AreBytes bytes → signature_of bytes ≡ Ok s.now → blob ≡ bytes) }
{
    let signing = s.signing.as_slice();
    let mut blob = Vec::new(alloc);
    push_u32(&mut blob, VERSION)?;
    push_u32(&mut blob, INFO_SIZE)?;
    push_info(&mut blob, &s.root)?;
    push_u32(&mut blob, signing.len() as u32)?;
    blob.extend_from_slice(signing)?;
    Ok(Bytes::from_vec(blob))
}
