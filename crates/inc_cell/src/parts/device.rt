// The one call of the disk that an event of a fill makes, where the table of replies wants it.
ghost use Rattle.std.specs.Prelude.{◌+◌, ◌*◌, ◌^◌, ◌<◌, ◌≤◌, length};
ghost use Rattle.inc_entry.specs.Entry.{area_places, entries, entry_at};
ghost use Rattle.inc_disk.specs.Disk.{Now};
ghost use Rattle.inc_cell.specs.device.Device.{GateDoes, IsPlaceOf, PlaceDoes, PutDoes, SettleDoes};
ghost use Rattle.inc_cell.specs.events.Steps.{HasCounted};
ghost use Rattle.inc_cell.specs.events.Wanted.{ComesOf, IfGated, IfPlaced, IfPut, IsNoFault};

use inc_disk::Disk;
use inc_entry::{Areas, entry_at};
use inc_fill::{open_gate, settle, write_data, write_place};
use inc_model::Reply;
use inc_tree::Block;

/// Writes a block to its place.
pub fn put_block<D: Disk>(
    disk: &mut D,
    areas: &Areas,
    index: u32,
    place: u64,
    block: &Block,
    wanted: Reply,
) -> Reply
    requires plain { IsNoFault wanted }
    requires is_place { IfPut wanted (IsPlaceOf (area_places areas.now) (D.states (D.kept disk.old)) index place) }
    requires inside { IfPut wanted (Now (D.states (D.kept disk.old)) (λ state. place ≤ length state.reads)) }
    ensures comes { ComesOf wanted result }
    ensures does { PutDoes (area_places areas.now) index block.now result (D.states (D.kept disk.old)) (D.states (D.kept disk.new)) }
    ensures cause { HasCounted (D.faults disk.old) (D.faults disk.new) result }
{
    match wanted {
        Reply::Put { digest, .. } => match write_data(disk, place, block) {
            Ok(()) => Reply::Put { place, digest },
            Err(_) => Reply::Fault {
                count: disk.fault_count(),
            },
        },
        other => other,
    }
}

/// Writes the place of a block into its entry.
pub fn put_place<D: Disk>(
    disk: &mut D,
    areas: &Areas,
    index: u32,
    place: u64,
    wanted: Reply,
) -> Reply
    requires plain { IsNoFault wanted }
    requires here { IfPlaced wanted (index < entries (area_places areas.now)) }
    requires low { IfPlaced wanted (place < 2 ^ 48) }
    requires inside { IfPlaced wanted (Now (D.states (D.kept disk.old)) (λ state. entry_at (area_places areas.now) index + 10 ≤ length state.reads)) }
    requires end { IfPlaced wanted (entry_at (area_places areas.now) index + 10 < 2 ^ 48) }
    requires map_end { areas.now.map_at + 10 * entries (area_places areas.now) < 2 ^ 64 }
    ensures comes { ComesOf wanted result }
    ensures does { PlaceDoes (area_places areas.now) index place result (D.states (D.kept disk.old)) (D.states (D.kept disk.new)) }
    ensures cause { HasCounted (D.faults disk.old) (D.faults disk.new) result }
{
    match wanted {
        Reply::Placed => match write_place(disk, entry_at(areas, index), place) {
            Ok(()) => Reply::Placed,
            Err(_) => Reply::Fault {
                count: disk.fault_count(),
            },
        },
        other => other,
    }
}

/// Syncs.
pub fn sync<D: Disk>(disk: &mut D, wanted: Reply) -> Reply
    requires plain { IsNoFault wanted }
    ensures comes { ComesOf wanted result }
    ensures does { SettleDoes result (D.states (D.kept disk.old)) (D.states (D.kept disk.new)) }
    ensures cause { HasCounted (D.faults disk.old) (D.faults disk.new) result }
{
    match wanted {
        Reply::Settled => match settle(disk) {
            Ok(()) => Reply::Settled,
            Err(_) => Reply::Fault {
                count: disk.fault_count(),
            },
        },
        other => other,
    }
}

/// Writes the gate of an entry.
pub fn put_gate<D: Disk>(disk: &mut D, areas: &Areas, index: u32, wanted: Reply) -> Reply
    requires plain { IsNoFault wanted }
    requires here { IfGated wanted (index < entries (area_places areas.now)) }
    requires inside { IfGated wanted (Now (D.states (D.kept disk.old)) (λ state. entry_at (area_places areas.now) index + 10 ≤ length state.reads)) }
    requires end { IfGated wanted (entry_at (area_places areas.now) index + 10 < 2 ^ 48) }
    requires map_end { areas.now.map_at + 10 * entries (area_places areas.now) < 2 ^ 64 }
    ensures comes { ComesOf wanted result }
    ensures does { GateDoes (area_places areas.now) index result (D.states (D.kept disk.old)) (D.states (D.kept disk.new)) }
    ensures cause { HasCounted (D.faults disk.old) (D.faults disk.new) result }
{
    match wanted {
        Reply::Gated { marked } => match open_gate(disk, entry_at(areas, index)) {
            Ok(()) => Reply::Gated { marked },
            Err(_) => Reply::Fault {
                count: disk.fault_count(),
            },
        },
        other => other,
    }
}
