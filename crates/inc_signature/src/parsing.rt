ghost use Rattle.std.specs.Prelude.{◌≡◌, ◌≢◌, ℕ, ◌+◌, ◌≤◌, List, length, take, drop, IfOk, IfErr, OnOk, Ok, Err, Some};
ghost use Rattle.inc_bytes.specs.Fields.{field};
ghost use Rattle.inc_bytes.specs.Tests.{first_failing, judge};
ghost use Rattle.inc_signature.specs.Signature.{printed, section_tests, info_tests, signature_tests, info_end, info_root, signature_of, GivesSigInfo};

use crate::signature::{SigFault, SigInfo};
use inc_bytes::u32_at;
use inc_io::Bytes;
use inc_tree::Digest32;
use std::alloc::Global;

/// The most bytes that a signature blob may have.
pub const MOST_BLOB: usize = 8096;

pub const VERSION: u32 = 2;

pub const SHA256: u32 = 1;

/// The logarithm to base 2 of the block size.
pub const LOG_BLOCK: u8 = 12;

pub const ROOT_SIZE: u32 = 32;

/// Where the hash info section ends, in a blob whose sections are all there.
#[tactic(auto, unfolding(crate::specs::Signature::section_tests, crate::specs::Signature::info_end))]
fn end_of_info(b: &[u8]) -> Result<usize, SigFault>
    ensures value { result ≡ judge (first_failing (section_tests b.now)) (info_end b.now) }
    ensures low { IfOk result (λ end. 8 ≤ end) }
    ensures high { IfOk result (λ end. end + 4 ≤ length b.now) }
    ensures told { result ≢ Err SigFault.OutOfMemory }
{
    if b.len() > MOST_BLOB {
        return Err(SigFault::TooLong);
    }
    if b.len() < 4 {
        return Err(SigFault::Short);
    }
    if u32_at(b, 0) != VERSION {
        return Err(SigFault::BadVersion);
    }
    if b.len() < 8 {
        return Err(SigFault::Short);
    }
    let end = 8 + u32_at(b, 4) as usize;
    if b.len() < end + 4 {
        return Err(SigFault::Short);
    }
    let signing_end = end + 4 + u32_at(b, end) as usize;
    if b.len() < signing_end {
        return Err(SigFault::Short);
    }
    if b.len() > signing_end {
        return Err(SigFault::Trailing);
    }
    Ok(end)
}

/// The root in a hash info section.
#[tactic(auto, unfolding(crate::specs::Signature::info_tests))]
fn root_of(info: &[u8]) -> Result<Digest32, SigFault>
    ensures value { result ≡ judge (first_failing (info_tests info.now)) (info_root info.now) }
    ensures told { result ≢ Err SigFault.OutOfMemory }
{
    if info.len() < 4 {
        return Err(SigFault::Short);
    }
    if u32_at(info, 0) != SHA256 {
        return Err(SigFault::BadAlgorithm);
    }
    if info.len() < 5 {
        return Err(SigFault::Short);
    }
    if info[4] != LOG_BLOCK {
        return Err(SigFault::BadBlockSize);
    }
    if info.len() < 9 {
        return Err(SigFault::Short);
    }
    if u32_at(info, 5) != 0 {
        return Err(SigFault::Salted);
    }
    if info.len() < 13 {
        return Err(SigFault::Short);
    }
    if u32_at(info, 9) != ROOT_SIZE {
        return Err(SigFault::BadRootSize);
    }
    if info.len() < 45 {
        return Err(SigFault::Short);
    }
    if info.len() > 45 {
        return Err(SigFault::Trailing);
    }
    let mut root = [0; 32];
    root.copy_from_slice(&info[13..45]);
    Ok(root)
}

fn parsed(alloc: Global, b: &[u8]) -> Result<SigInfo, SigFault>
    ensures value { GivesSigInfo result (signature_of b.now) }
{
    let end = end_of_info(b)?;
    let root = root_of(&b[8..end])?;
    let signing = Bytes::of(alloc, &b[end + 4..])?;
    Ok(SigInfo { root, signing })
}

/// Reads a signature blob, all of its bytes.
pub fn parse(alloc: Global, b: &[u8]) -> Result<SigInfo, SigFault>
    ensures value { GivesSigInfo result (signature_of b.now) }
    // What is read prints the blob, each byte of it.
    ensures printed { IfOk result (λ s. printed s.root s.signing ≡ b.now) }
    // What is read has at most 8096 bytes.
    ensures short { OnOk result (length b.now ≤ 8096) }
    // What prints the blob is read, unless memory runs out.
    ensures accepted { (root signing : List ℕ) → length root ≡ 32 → printed root signing ≡ b.now → length b.now ≤ 8096 → GivesSigInfo result (Ok (record { root = root; signing = signing })) }
    // Else the first test that fails gives the fault.
    ensures fault { IfErr result (λ e. e ≢ SigFault.OutOfMemory → first_failing (signature_tests b.now) ≡ Some e) }
{
    parsed(alloc, b)
}
