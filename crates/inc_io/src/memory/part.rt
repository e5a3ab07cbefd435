ghost use Rattle.std.specs.Prelude.{◌≡◌, ◌≤◌, ◌-◌, ◌++◌, length, take, drop, min};

/// Fills the front of the room with the bytes from a place on, and says how many these are.
pub fn copy_part(bytes: &[u8], at: u64, room: &mut [u8]) -> usize
    ensures count { result ≡ min (length room.old) (length bytes.now - at) }
    ensures filled { room.new ≡ take result (drop at bytes.now) ++ drop result room.old }
    ensures within { result ≤ length room.old }
{
    let from = at.min(bytes.len() as u64) as usize;
    let rest = &bytes[from..];
    let count = rest.len().min(room.len());
    room[..count].copy_from_slice(&rest[..count]);
    count
}
