ghost use Rattle.std.specs.Prelude.{◌≡◌, ℕ, ◌++◌, List, length, take, Ok};
ghost use Rattle.inc_bytes.specs.Fields.{AreBytes};
ghost use Rattle.inc_header.specs.Header.{IsHeader, MayMap, flags_of, header_bytes, header_of, place_of};

use crate::header::{Header, HeaderKind};
use crate::reading::{BLOCK_SIZE, HEADER_LEN, HEADER_SIZE, MAGIC, MAPPED, PLAIN, VERSION};
use inc_bytes::{put_u16, put_u32, put_u64};

/// The flags of a kind.
fn flags(kind: HeaderKind) -> u32
    ensures value { result ≡ flags_of kind }
{
    match kind {
        HeaderKind::Plain { .. } => PLAIN,
        HeaderKind::Mapped { .. } => MAPPED,
    }
}

/// The place that a kind names.
fn place(kind: HeaderKind) -> u64
    ensures value { result ≡ place_of kind }
{
    match kind {
        HeaderKind::Plain { first } => first,
        HeaderKind::Mapped { offset } => offset,
    }
}

/// The size, a number of eight bytes.
fn size(h: &Header) -> u64
    ensures value { result ≡ h.now.size }
{
    h.size
}

/// Writes an id over the last bytes of a header.
fn put_id(b: &mut [u8], id: &[u8])
    requires whole { length b.old ≡ 56 }
    requires sized { length id.now ≡ 16 }
    ensures written { b.new ≡ take 40 b.old ++ id.now }
    ensures sized { length id.now ≡ 16 }
    ensures bytes { AreBytes id.now }
{
    b[40..].copy_from_slice(id);
}

/// The header's bytes. A mapped file's offset is at a block's start, and its end below 2^64.
pub fn write_header(h: &Header) -> [u8; HEADER_LEN]
    requires mapping { MayMap h.now.kind h.now.size }
    ensures value { result ≡ header_bytes h.now }
    ensures spelled { IsHeader h.now }
    // What is written is read, whatever follows.
    ensures read_back { (more : List ℕ) → header_of (result ++ more) ≡ Ok h.now }
    // What is read is written as it was.
    ensures again { (bytes : List ℕ) → AreBytes bytes → header_of bytes ≡ Ok h.now → result ≡ take 56 bytes }
{
    let mut bytes = [0; HEADER_LEN];
    put_u64(&mut bytes, 0, MAGIC);
    put_u64(&mut bytes, 8, VERSION);
    put_u16(&mut bytes, 16, HEADER_SIZE);
    put_u16(&mut bytes, 18, BLOCK_SIZE);
    put_u32(&mut bytes, 20, flags(h.kind));
    put_u64(&mut bytes, 24, place(h.kind));
    put_u64(&mut bytes, 32, size(h));
    put_id(&mut bytes, &h.id);
    bytes
}
