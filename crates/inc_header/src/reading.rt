ghost use Rattle.std.specs.Prelude.{◌≡◌, ◌+◌, ◌≤◌, length, take, drop, IfOk, IfErr, Ok, Some};
ghost use Rattle.inc_bytes.specs.Fields.{field};
ghost use Rattle.inc_bytes.specs.Tests.{first_failing};
ghost use Rattle.inc_header.specs.Header.{IsHeader, header_bytes, header_tests, header_of, is_mapping};
ghost use Rattle.inc_header.specs.declared.header.Header.{Header};

use crate::header::{Header, HeaderFault, HeaderKind};
use inc_bytes::{u16_at, u32_at, u64_at};

/// The number of a header's bytes.
pub const HEADER_LEN: usize = 56;

/// The letters INCFS and three zeros.
pub const MAGIC: u64 = 0x53_4643_4e49;

pub const VERSION: u64 = 1;

pub const HEADER_SIZE: u16 = 56;

pub const BLOCK_SIZE: u16 = 4096;

/// The flags of a file with blocks of its own, and of a part of another file's content.
pub const PLAIN: u32 = 0;

pub const MAPPED: u32 = 2;

/// Whether a mapped file may begin at this offset and have this size.
fn can_map(offset: u64, size: u64) -> bool
    ensures value { result ≡ is_mapping offset size }
{
    offset % u64::from(BLOCK_SIZE) == 0 && size <= u64::MAX - offset
}

/// The header of this kind whose size and id stand in the bytes.
fn with_kind(b: &[u8], kind: HeaderKind) -> Header
    requires long { 56 ≤ length b.now }
    ensures value { result ≡ record { kind = kind; size = field 8 32 b.now; id = take 16 (drop 40 b.now) } }
{
    let size = u64_at(b, 32);
    let mut id = [0; 16];
    id.copy_from_slice(&b[40..56]);
    Header { kind, size, id }
}

#[tactic(auto, unfolding(crate::specs::Header::header_of, crate::specs::Header::header_tests, crate::specs::Header::header_in))]
fn judged(b: &[u8]) -> Result<Header, HeaderFault>
    ensures value { result ≡ header_of b.now }
{
    if b.len() < HEADER_LEN {
        return Err(HeaderFault::Short);
    }
    if u64_at(b, 0) != MAGIC {
        return Err(HeaderFault::BadMagic);
    }
    if u64_at(b, 8) != VERSION {
        return Err(HeaderFault::BadVersion);
    }
    if u16_at(b, 16) != HEADER_SIZE {
        return Err(HeaderFault::BadHeaderSize);
    }
    if u16_at(b, 18) != BLOCK_SIZE {
        return Err(HeaderFault::BadBlockSize);
    }
    let place = u64_at(b, 24);
    match u32_at(b, 20) {
        PLAIN => Ok(with_kind(b, HeaderKind::Plain { first: place })),
        MAPPED if can_map(place, u64_at(b, 32)) => {
            Ok(with_kind(b, HeaderKind::Mapped { offset: place }))
        }
        MAPPED => Err(HeaderFault::BadMapping),
        _ => Err(HeaderFault::BadFlags),
    }
}

/// Reads a header from the first bytes of a file. What follows them is not looked at.
pub fn read_header(b: &[u8]) -> Result<Header, HeaderFault>
    ensures value { result ≡ header_of b.now }
    // What is read is spelled so.
    ensures spelled { IfOk result (λ h. IsHeader h × (header_bytes h ≡ take 56 b.now)) }
    // What is spelled so is read, whatever follows.
    ensures accepted { (h : Header) → IsHeader h → take 56 b.now ≡ header_bytes h → result ≡ Ok h }
    // Else the first test that fails gives the fault.
    ensures fault { IfErr result (λ e. first_failing (header_tests b.now) ≡ Some e) }
{
    judged(b)
}
