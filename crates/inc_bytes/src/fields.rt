//! Numbers of two, four, six and eight bytes at a place of a slice, the least byte first.

ghost use Rattle.std.specs.Prelude.{◌≡◌, ◌+◌, ◌<◌, ◌≤◌, ◌^◌, ◌++◌, length, take, drop, nat_le, IfSome};
ghost use Rattle.inc_bytes.specs.Fields.{le_bytes, field, field_at};

/// Whether the slice has `count` bytes from a place on.
fn has_place(b: &[u8], at: usize, count: usize) -> bool
    ensures value { result ≡ nat_le (at + count) (length b.now) }
{
    count <= b.len() && at <= b.len() - count
}

/// The number of two bytes, or nothing where the slice ends before them.
pub fn get_u16(b: &[u8], at: usize) -> Option<u16>
    ensures value { result ≡ field_at 2 b.now at }
{
    if !has_place(b, at, 2) {
        return None;
    }
    Some(u16::from_le_bytes([b[at], b[at + 1]]))
}

/// The number of four bytes, or nothing where the slice ends before them.
pub fn get_u32(b: &[u8], at: usize) -> Option<u32>
    ensures value { result ≡ field_at 4 b.now at }
{
    if !has_place(b, at, 4) {
        return None;
    }
    Some(u32::from_le_bytes([b[at], b[at + 1], b[at + 2], b[at + 3]]))
}

/// The number of six bytes, as a block map entry stores a place in a file, or nothing where the slice
/// ends before them.
pub fn get_u48(b: &[u8], at: usize) -> Option<u64>
    ensures value { result ≡ field_at 6 b.now at }
    ensures low { IfSome result (λ v. v < 2 ^ 48) }
{
    if !has_place(b, at, 6) {
        return None;
    }
    Some(u64::from_le_bytes([
        b[at],
        b[at + 1],
        b[at + 2],
        b[at + 3],
        b[at + 4],
        b[at + 5],
        0,
        0,
    ]))
}

/// The number of eight bytes, or nothing where the slice ends before them.
pub fn get_u64(b: &[u8], at: usize) -> Option<u64>
    ensures value { result ≡ field_at 8 b.now at }
{
    if !has_place(b, at, 8) {
        return None;
    }
    Some(u64::from_le_bytes([
        b[at],
        b[at + 1],
        b[at + 2],
        b[at + 3],
        b[at + 4],
        b[at + 5],
        b[at + 6],
        b[at + 7],
    ]))
}

/// The number of two bytes at a place that has them.
pub fn u16_at(b: &[u8], at: usize) -> u16
    requires place { at + 2 ≤ length b.now }
    ensures value { result ≡ field 2 at b.now }
{
    get_u16(b, at).unwrap()
}

/// The number of four bytes at a place that has them.
pub fn u32_at(b: &[u8], at: usize) -> u32
    requires place { at + 4 ≤ length b.now }
    ensures value { result ≡ field 4 at b.now }
{
    get_u32(b, at).unwrap()
}

/// The number of eight bytes at a place that has them.
pub fn u64_at(b: &[u8], at: usize) -> u64
    requires place { at + 8 ≤ length b.now }
    ensures value { result ≡ field 8 at b.now }
{
    get_u64(b, at).unwrap()
}

/// Writes bytes over those from a place on.
fn put(b: &mut [u8], at: usize, bytes: &[u8])
    requires place { at + length bytes.now ≤ length b.old }
    ensures written { b.new ≡ take at b.old ++ bytes.now ++ drop (at + length bytes.now) b.old }
{
    b[at..at + bytes.len()].copy_from_slice(bytes);
}

/// Writes a number over two bytes.
#[tactic(auto, using(crate::proofs::Numbers::le_bytes_2))]
pub fn put_u16(b: &mut [u8], at: usize, v: u16)
    requires place { at + 2 ≤ length b.old }
    ensures written { b.new ≡ take at b.old ++ le_bytes 2 v ++ drop (at + 2) b.old }
    ensures got { field_at 2 b.new at ≡ Some v }
{
    put(b, at, &v.to_le_bytes());
}

/// Writes a number over four bytes.
#[tactic(auto, using(crate::proofs::Numbers::le_bytes_4))]
pub fn put_u32(b: &mut [u8], at: usize, v: u32)
    requires place { at + 4 ≤ length b.old }
    ensures written { b.new ≡ take at b.old ++ le_bytes 4 v ++ drop (at + 4) b.old }
    ensures got { field_at 4 b.new at ≡ Some v }
{
    put(b, at, &v.to_le_bytes());
}

/// Writes a number over six bytes, as a block map entry stores a place in a file.
#[tactic(auto, using(crate::proofs::Numbers::le_bytes_6))]
pub fn put_u48(b: &mut [u8], at: usize, v: u64)
    requires place { at + 6 ≤ length b.old }
    requires fits { v < 2 ^ 48 }
    ensures written { b.new ≡ take at b.old ++ le_bytes 6 v ++ drop (at + 6) b.old }
    ensures got { field_at 6 b.new at ≡ Some v }
{
    let bytes = v.to_le_bytes();
    put(b, at, &bytes[..6]);
}

/// Writes a number over eight bytes.
#[tactic(auto, using(crate::proofs::Numbers::le_bytes_8))]
pub fn put_u64(b: &mut [u8], at: usize, v: u64)
    requires place { at + 8 ≤ length b.old }
    ensures written { b.new ≡ take at b.old ++ le_bytes 8 v ++ drop (at + 8) b.old }
    ensures got { field_at 8 b.new at ≡ Some v }
{
    put(b, at, &v.to_le_bytes());
}
