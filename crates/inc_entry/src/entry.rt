ghost use Rattle.std.specs.Prelude.{◌≡◌, ◌+◌, ◌<◌, ◌≤◌, ◌^◌, ◌*◌, nat_le};
ghost use Rattle.inc_bytes.specs.Fields.{le_bytes};
ghost use Rattle.inc_entry.specs.Spans.{is_clear, misses};
ghost use Rattle.inc_entry.specs.Entry.{entry_from, entry_size};

use inc_bytes::{Span, put_u48};

/// The fields of a block map entry. The two bytes of its size stand apart: the high one is the gate, which is written last.
#[derive(Clone, Copy)]
pub struct Entry {
    pub offset: u64,
    pub low: u8,
    pub high: u8,
    pub flags: u16,
}

impl Entry {
    pub fn size(&self) -> u32
        ensures value { result ≡ entry_size self.now }
    {
        self.low as u32 + 256 * self.high as u32
    }
}

#[tactic(auto, unfolding(crate::specs::Entry::entry_from))]
pub fn entry_in(b: &[u8; 10]) -> Entry
    ensures value { result ≡ entry_from b.now 0 }
    ensures low { result.offset < 2 ^ 48 }
{
    Entry {
        offset: u64::from_le_bytes([b[0], b[1], b[2], b[3], b[4], b[5], 0, 0]),
        low: b[6],
        high: b[7],
        flags: u16::from_le_bytes([b[8], b[9]]),
    }
}

/// The six bytes that name a block's place in an entry.
pub fn offset_bytes(place: u64) -> [u8; 6]
    requires { place < 2 ^ 48 }
    ensures value { result ≡ le_bytes 6 place }
{
    let mut bytes = [0; 6];
    put_u48(&mut bytes, 0, place);
    bytes
}

/// The byte that opens an entry, written alone over the high byte of its size: 4096 is 0x1000.
pub fn gate_byte() -> u8
    ensures value { result ≡ 16 }
{
    0x10
}

/// Whether a range has no byte of any of these spans.
pub fn is_clear(spans: &[Span], at: u64, len: u64) -> bool
    ensures value { result ≡ is_clear spans.now at len }
{
    spans.iter().all(|span| misses(*span, at, len))
}

/// Whether a range has no byte of a span.
#[tactic(auto, unfolding(crate::specs::Spans::misses))]
pub fn misses(span: Span, at: u64, len: u64) -> bool
    ensures value { result ≡ misses span at len }
{
    let empty = (span.len == 0) | (len == 0);
    let before = ends_by(at, len, span.at);
    let behind = ends_by(span.at, span.len, at);
    empty | (before | behind)
}

/// Whether a range ends at this place or before it.
fn ends_by(at: u64, len: u64, place: u64) -> bool
    ensures value { result ≡ nat_le (at + len) place }
{
    len <= place && at <= place - len
}
