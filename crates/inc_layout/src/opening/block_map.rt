ghost use Rattle.std.specs.Prelude.{◌≡◌, ◌≢◌, ◌+◌, ◌-◌, ◌*◌, ◌<◌, ◌≤◌, ◌^◌, ◌⊎◌, ◌∷◌, ◌++◌, ℕ, List, [], length, take, drop, true, false, IfOk, IfErr, IfSome, OnOk};
ghost use Rattle.inc_io.specs.Causes.{HasCauseAt};
ghost use Rattle.inc_entry.specs.Entry.{area_places, class_of, entries, entry_at, entry_from, map_span, past_end};
ghost use Rattle.inc_entry.specs.Spans.{IsInside};
ghost use Rattle.inc_entry.specs.Stored.{part};
ghost use Rattle.inc_layout.specs.opening.Faults.{IsOwnFault};
ghost use Rattle.inc_layout.specs.opening.Opening.{HasClasses, IsPastFault};
ghost use Rattle.inc_layout.specs.declared.fault.LayoutFault.TheVariants.{OutOfMemory as out_of_memory, PlacePastEnd as place_past_end, ReadFault as read_fault};

use crate::LayoutFault;
use crate::room::{fill, room_of};
use inc_entry::{Areas, Class, ENTRY_SIZE, class, entry_at, is_past_end};
use inc_io::Backing;
use std::alloc::Global;

/// The bytes of an entry, as a number of bytes in memory.
const ENTRY_BYTES: usize = ENTRY_SIZE as usize;

/// The most entries that are read at once: just under 64 KiB.
const PIECE: u32 = 6550;

/// Reads the block map in pieces and judges its entries in their order.
pub fn read_classes<B: Backing>(
    alloc: Global,
    file: &mut B,
    areas: &Areas,
) -> Result<Vec<Class>, LayoutFault>
    requires end { areas.now.map_at + 10 * entries (area_places areas.now) < 2 ^ 64 }
    ensures classes { IfSome (B.reads (B.kept file.old)) (λ bytes. IsInside (length bytes) (map_span (area_places areas.now)) → areas.now.len ≡ length bytes →
        IfOk result (λ classes. HasClasses (area_places areas.now) bytes (entries (area_places areas.now)) classes.items)) }
    ensures fault { IfSome (B.reads (B.kept file.old)) (λ bytes. IsInside (length bytes) (map_span (area_places areas.now)) → areas.now.len ≡ length bytes →
        IfErr result (λ fault. IsPastFault (area_places areas.now) bytes fault)) }
    ensures count { IfOk result (λ classes. length classes.items ≡ entries (area_places areas.now)) }
    ensures kept { B.kept file.new ≡ B.kept file.old }
    ensures cause { HasCauseAt read_fault (B.faults file.old) (B.faults file.new) result }
    ensures own { IfErr result (λ fault. IsOwnFault fault) }
{
    let count = areas.geometry.data_blocks() + areas.geometry.hash_blocks();
    let mut classes = Vec::with_capacity(alloc, count as usize)?;
    let mut room = room_of(alloc, ENTRY_BYTES * count.min(PIECE) as usize)?;
    let mut index = 0;
    while index < count {
        let more = (count - index).min(PIECE);
        let piece = &mut room.as_mut_slice()[..ENTRY_BYTES * more as usize];
        read_piece(file, areas, index, index + more, piece, &mut classes)?;
        index += more;
    }
    Ok(classes)
}

/// Reads and judges the entries from one index up to another into a room that is as large as they are.
fn read_piece<B: Backing>(
    file: &mut B,
    areas: &Areas,
    first: u32,
    end: u32,
    room: &mut [u8],
    classes: &mut Vec<Class>,
) -> Result<(), LayoutFault>
    requires end { areas.now.map_at + 10 * entries (area_places areas.now) < 2 ^ 64 }
    requires some { first < end }
    requires within { end ≤ entries (area_places areas.now) }
    requires sized { length room.old ≡ 10 * (end - first) }
    ensures classes { IfSome (B.reads (B.kept file.old)) (λ bytes. IsInside (length bytes) (map_span (area_places areas.now)) → areas.now.len ≡ length bytes →
        HasClasses (area_places areas.now) bytes first classes.old.items →
        OnOk result (HasClasses (area_places areas.now) bytes end classes.new.items)) }
    ensures fault { IfSome (B.reads (B.kept file.old)) (λ bytes. IsInside (length bytes) (map_span (area_places areas.now)) → areas.now.len ≡ length bytes →
        HasClasses (area_places areas.now) bytes first classes.old.items →
        IfErr result (λ fault. IsPastFault (area_places areas.now) bytes fault)) }
    ensures count { OnOk result (length classes.new.items ≡ length classes.old.items + (end - first)) }
    ensures kept { B.kept file.new ≡ B.kept file.old }
    ensures cause { HasCauseAt read_fault (B.faults file.old) (B.faults file.new) result }
    ensures own { IfErr result (λ fault. IsOwnFault fault) }
{
    fill(file, entry_at(areas, first), room)?;
    add_classes(room, areas, first, end, classes)
}

/// Judges the entries from one index up to another, which are the bytes of a piece of the map.
fn add_classes(
    piece: &[u8],
    areas: &Areas,
    first: u32,
    end: u32,
    classes: &mut Vec<Class>,
) -> Result<(), LayoutFault>
    requires some { first < end }
    requires within { end ≤ entries (area_places areas.now) }
    requires sized { length piece.now ≡ 10 * (end - first) }
    // Of each content that has these bytes there:
    ensures classes { (bytes : List ℕ) → piece.now ≡ part (length piece.now) (entry_at (area_places areas.now) first) bytes → areas.now.len ≡ length bytes →
        HasClasses (area_places areas.now) bytes first classes.old.items →
        OnOk result (HasClasses (area_places areas.now) bytes end classes.new.items) }
    ensures fault { (bytes : List ℕ) → piece.now ≡ part (length piece.now) (entry_at (area_places areas.now) first) bytes → areas.now.len ≡ length bytes →
        HasClasses (area_places areas.now) bytes first classes.old.items →
        IfErr result (λ fault. IsPastFault (area_places areas.now) bytes fault) }
    ensures count { OnOk result (length classes.new.items ≡ length classes.old.items + (end - first)) }
    ensures judged { IfErr result (λ fault. fault ≢ read_fault) }
    ensures own { IfErr result (λ fault. IsOwnFault fault) }
{
    for index in first..end {
        let entry = entry_in(piece, (index - first) as usize);
        add_class(&entry, areas, index, classes)?;
    }
    Ok(())
}

/// The bytes of an entry in a piece of the map.
fn entry_in(piece: &[u8], k: usize) -> [u8; ENTRY_BYTES]
    requires { 10 * k + 10 ≤ length piece.now }
    ensures value { result ≡ take 10 (drop (10 * k) piece.now) }
{
    let at = ENTRY_BYTES * k;
    let mut entry = [0; ENTRY_BYTES];
    entry.copy_from_slice(&piece[at..at + ENTRY_BYTES]);
    entry
}

/// Judges an entry and notes its class.
fn add_class(
    entry: &[u8; ENTRY_BYTES],
    areas: &Areas,
    index: u32,
    classes: &mut Vec<Class>,
) -> Result<(), LayoutFault>
    requires { index < entries (area_places areas.now) }
    ensures inside { OnOk result (past_end (area_places areas.now) areas.now.len index (entry_from entry.now 0) ≡ false) }
    ensures added { OnOk result (classes.new.items ≡ classes.old.items ++ class_of (area_places areas.now) areas.now.len index (entry_from entry.now 0) ∷ []) }
    ensures failed { IfErr result (λ fault. (fault ≡ out_of_memory) ⊎ ((fault ≡ place_past_end index) ×
        (past_end (area_places areas.now) areas.now.len index (entry_from entry.now 0) ≡ true))) }
{
    if is_past_end(entry, areas, index) {
        return Err(LayoutFault::PlacePastEnd { index });
    }
    classes.push(class(entry, areas, index))?;
    Ok(())
}
