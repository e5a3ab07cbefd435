ghost use Rattle.std.specs.Prelude.{◌≡◌, ◌+◌, ◌^◌, ◌<◌, ◌≤◌, [], ◌∷◌, length, IfSome};
ghost use Rattle.inc_bytes.specs.Fields.{le_bytes};
ghost use Rattle.inc_io.specs.Causes.{HasCause};
ghost use Rattle.inc_disk.specs.Disk.{Writes, Syncs};
ghost use Rattle.inc_fill.specs.Steps.{BlockGoes, PlaceGoes, SettleGoes, GateGoes};

use inc_disk::Disk;
use inc_entry::{gate_byte, offset_bytes};
use inc_io::Failed;
use inc_tree::Block;

/// The gate is the high byte of the entry's size.
const GATE: u64 = 7;

/// Writes a block to its place. No entry names the place yet, so a crash loses nothing.
pub fn write_data<D: Disk>(disk: &mut D, place: u64, block: &Block) -> Result<(), Failed>
    requires place { IfSome (D.reads (D.kept disk.old)) (λ bytes. place ≤ length bytes) }
    requires end { place + 4096 < 2 ^ 48 }
    ensures written { Writes place block.now (D.states (D.kept disk.old)) (D.states (D.kept disk.new)) result }
    ensures images { BlockGoes place block.now (D.states (D.kept disk.old)) (D.states (D.kept disk.new)) result }
    ensures cause { HasCause (D.faults disk.old) (D.faults disk.new) result }
{
    disk.write_at(place, block.as_slice())
}

/// Writes a block's place into its entry. The gate stays closed, so a crash may leave any bytes there.
pub fn write_place<D: Disk>(disk: &mut D, entry_at: u64, place: u64) -> Result<(), Failed>
    requires place { IfSome (D.reads (D.kept disk.old)) (λ bytes. entry_at ≤ length bytes) }
    requires end { entry_at + 6 < 2 ^ 48 }
    requires low { place < 2 ^ 48 }
    ensures written { Writes entry_at (le_bytes 6 place) (D.states (D.kept disk.old)) (D.states (D.kept disk.new)) result }
    ensures images { PlaceGoes entry_at place (D.states (D.kept disk.old)) (D.states (D.kept disk.new)) result }
    ensures cause { HasCause (D.faults disk.old) (D.faults disk.new) result }
{
    disk.write_at(entry_at, &offset_bytes(place))
}

/// Syncs. Every block and place that was written is on the disk then, and every gate.
pub fn settle<D: Disk>(disk: &mut D) -> Result<(), Failed>
    ensures synced { Syncs (D.states (D.kept disk.old)) (D.states (D.kept disk.new)) result }
    ensures images { SettleGoes (D.states (D.kept disk.old)) (D.states (D.kept disk.new)) result }
    ensures cause { HasCause (D.faults disk.old) (D.faults disk.new) result }
{
    disk.sync()
}

/// Opens an entry by its gate byte alone. The block and its place have to be synced before: behind a gate that is torn open, what was
/// there would count.
pub fn open_gate<D: Disk>(disk: &mut D, entry_at: u64) -> Result<(), Failed>
    requires place { IfSome (D.reads (D.kept disk.old)) (λ bytes. entry_at + 7 ≤ length bytes) }
    requires end { entry_at + 8 < 2 ^ 48 }
    ensures written { Writes (entry_at + 7) (16 ∷ []) (D.states (D.kept disk.old)) (D.states (D.kept disk.new)) result }
    ensures images { GateGoes entry_at (D.states (D.kept disk.old)) (D.states (D.kept disk.new)) result }
    ensures cause { HasCause (D.faults disk.old) (D.faults disk.new) result }
{
    disk.write_at(entry_at + GATE, &[gate_byte()])
}
