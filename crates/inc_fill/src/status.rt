ghost use Rattle.std.specs.Prelude.{◌≡◌, ◌+◌, ◌^◌, ◌<◌, ◌≤◌, length, IfSome};
ghost use Rattle.inc_io.specs.Causes.{HasCause};
ghost use Rattle.inc_disk.specs.Disk.{Writes};
ghost use Rattle.inc_fill.specs.Steps.{StatusGoes, count_bytes};

use inc_bytes::put_u32;
use inc_disk::Disk;
use inc_io::Failed;

/// Writes the two counts of a status record at their place, in one device call. Nothing rests on them, and a crash may tear them.
pub fn write_status<D: Disk>(
    disk: &mut D,
    at: u64,
    data_count: u32,
    hash_count: u32,
) -> Result<(), Failed>
    requires place { IfSome (D.reads (D.kept disk.old)) (λ bytes. at ≤ length bytes) }
    requires end { at + 8 < 2 ^ 48 }
    ensures written { Writes at (count_bytes data_count hash_count) (D.states (D.kept disk.old)) (D.states (D.kept disk.new)) result }
    ensures images { StatusGoes at (D.states (D.kept disk.old)) (D.states (D.kept disk.new)) result }
    ensures cause { HasCause (D.faults disk.old) (D.faults disk.new) result }
{
    disk.write_at(at, &count_bytes(data_count, hash_count))
}

fn count_bytes(data_count: u32, hash_count: u32) -> [u8; 8]
    ensures value { result ≡ count_bytes data_count hash_count }
{
    let mut bytes = [0; 8];
    put_u32(&mut bytes, 0, data_count);
    put_u32(&mut bytes, 4, hash_count);
    bytes
}
