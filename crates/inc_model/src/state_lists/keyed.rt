// Lists of a number and a value, by rising number.
ghost use Rattle.std.specs.Prelude.{◌≡◌, ◌+◌, ◌<◌, ◌≤◌, IfOk, IfErr, vec_len, vec_capacity};
ghost use Rattle.inc_pending.specs.Keyed.{lookup, insert};
ghost use Rattle.inc_model.specs.executed.Places.{IsKeyAt, IsKeySlot};

use crate::Digest32;
use inc_pending::Times;

/// The digest of an index.
pub fn kept_digest(rows: &[(u32, Digest32)], index: u32) -> Option<Digest32>
    ensures value { result ≡ lookup index rows.now }
{
    for row in rows {
        if index == row.0 {
            return Some(row.1);
        }
    }
    None
}

/// The times of a user who has a row.
pub fn times_at(rows: &[(u32, Times)], uid: u32) -> Option<Times>
    ensures value { result ≡ lookup uid rows.now }
{
    for row in rows {
        if uid == row.0 {
            return Some(row.1);
        }
    }
    None
}

/// The place of a key's row, or the place that it would have.
fn place_of<T>(rows: &[(u32, T)], key: u32) -> Result<usize, usize>
    ensures there { IfOk result (λ at. IsKeyAt rows.now key at) }
    ensures missing { IfErr result (λ at. IsKeySlot rows.now key at) }
{
    for (i, row) in rows.iter().enumerate() {
        if row.0 == key {
            return Ok(i);
        }
        if key < row.0 {
            return Err(i);
        }
    }
    Err(rows.len())
}

/// Sets the value of a key. There is room for one more, so it takes no memory.
pub fn put_in_room<T: Drop>(rows: &mut Vec<(u32, T)>, key: u32, value: T)
    requires room { vec_len rows.old < vec_capacity rows.old }
    ensures rows { rows.new.items ≡ insert key value rows.old.items }
    ensures bound { vec_len rows.new ≤ vec_len rows.old + 1 }
    ensures capacity { vec_capacity rows.old ≤ vec_capacity rows.new }
{
    match place_of(rows.as_slice(), key) {
        Ok(at) => rows[at] = (key, value),
        Err(at) => rows.insert(at, (key, value)).unwrap(),
    }
}
