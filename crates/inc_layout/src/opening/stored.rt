ghost use Rattle.std.specs.Prelude.{◌≡◌, ◌+◌, ◌-◌, ◌^◌, ◌<◌, ◌≤◌, ℕ, List, Option, false, [], ◌∷◌, ◌++◌, length, replicate, take, slice_index_or, IfOk, IfErr, IfSome, OnOk, ◌⊎◌};
ghost use Rattle.inc_io.specs.Causes.{HasCause, HasCauseAt};
ghost use Rattle.inc_entry.specs.Entry.{entries, area_places};
ghost use Rattle.inc_entry.specs.declared.classes.Class.{Class};
ghost use Rattle.inc_entry.specs.Stored.{class_at, digest_of, is_open_class, stored_digest};
ghost use Rattle.inc_layout.specs.opening.Found.{HasFound, digest_if};
ghost use Rattle.inc_layout.specs.opening.Listed.{listed};
ghost use Rattle.inc_layout.specs.opening.Opening.{HaveDigests};
ghost use Rattle.inc_layout.specs.declared.fault.LayoutFault.TheVariants.{OutOfMemory as out_of_memory, ReadFault as read_fault};

use crate::LayoutFault;
use crate::room::{fill_front, room_of};
use inc_entry::{Areas, Class};
use inc_io::{Backing, Failed};
use inc_tree::{BLOCK_SIZE, Digest32, digest_block, digest_four};
use std::alloc::Global;

/// Reads each open block once, and hashes it.
pub fn read_digests<B: Backing>(
    alloc: Global,
    file: &mut B,
    areas: &Areas,
    classes: &[Class],
) -> Result<Vec<Option<Digest32>>, LayoutFault>
    requires count { length classes.now ≡ entries (area_places areas.now) }
    ensures digests { IfSome (B.reads (B.kept file.old)) (λ bytes. classes.now ≡ listed (class_at (area_places areas.now) bytes) (entries (area_places areas.now)) →
        IfOk result (λ digests. digests.items ≡ listed (stored_digest (area_places areas.now) bytes) (entries (area_places areas.now)))) }
    ensures there { IfOk result (λ digests. HaveDigests classes.now digests.items) }
    ensures failed { IfErr result (λ fault. (fault ≡ read_fault) ⊎ (fault ≡ out_of_memory)) }
    ensures kept { B.kept file.new ≡ B.kept file.old }
    ensures cause { HasCauseAt read_fault (B.faults file.old) (B.faults file.new) result }
{
    let count = areas.geometry.data_blocks() + areas.geometry.hash_blocks();
    let mut digests = Vec::with_capacity(alloc, count as usize)?;
    let mut rooms = room_of(alloc, 4 * BLOCK_SIZE)?;
    let fours = count / 4;
    'fours: for four in 0..fours {
        add_four(
            file,
            areas,
            classes,
            4 * four,
            rooms.as_mut_slice(),
            &mut digests,
        )?;
    }
    'last: for index in 4 * fours..count {
        add_one(
            file,
            areas,
            classes,
            index,
            rooms.as_mut_slice(),
            &mut digests,
        )?;
    }
    Ok(digests)
}

// The digests of the next four entries.
fn add_four<B: Backing>(
    file: &mut B,
    areas: &Areas,
    classes: &[Class],
    index: u32,
    rooms: &mut [u8],
    digests: &mut Vec<Option<Digest32>>,
) -> Result<(), LayoutFault>
    requires here { index + 4 ≤ entries (area_places areas.now) }
    requires small { index + 4 < 2 ^ 32 }
    requires count { length classes.now ≡ entries (area_places areas.now) }
    requires rooms { length rooms.old ≡ 16384 }
    requires found { HasFound (B.reads (B.kept file.old)) (area_places areas.now) classes.now digests.old.items index }
    ensures found { OnOk result (HasFound (B.reads (B.kept file.old)) (area_places areas.now) classes.now digests.new.items (index + 4)) }
    ensures failed { IfErr result (λ fault. (fault ≡ read_fault) ⊎ (fault ≡ out_of_memory)) }
    ensures kept { B.kept file.new ≡ B.kept file.old }
    ensures cause { HasCauseAt read_fault (B.faults file.old) (B.faults file.new) result }
{
    let four = read_four(file, areas, classes, index, rooms)?;
    digests.extend_from_slice(&four)?;
    Ok(())
}

// The blocks of four entries are read in turn, and hashed side by side where all are open.
fn read_four<B: Backing>(
    file: &mut B,
    areas: &Areas,
    classes: &[Class],
    index: u32,
    rooms: &mut [u8],
) -> Result<[Option<Digest32>; 4], Failed>
    requires here { index + 4 ≤ entries (area_places areas.now) }
    requires small { index + 4 < 2 ^ 32 }
    requires count { length classes.now ≡ entries (area_places areas.now) }
    requires rooms { length rooms.old ≡ 16384 }
    ensures more { IfOk result (λ four. (digests : List (Option (List ℕ))) → HasFound (B.reads (B.kept file.old)) (area_places areas.now) classes.now digests index →
        HasFound (B.reads (B.kept file.old)) (area_places areas.now) classes.now (digests ++ four) (index + 4)) }
    ensures kept { B.kept file.new ≡ B.kept file.old }
    ensures cause { HasCause (B.faults file.old) (B.faults file.new) result }
{
    let (first, rest) = rooms.split_at_mut(BLOCK_SIZE);
    let (second, rest) = rest.split_at_mut(BLOCK_SIZE);
    let (third, fourth) = rest.split_at_mut(BLOCK_SIZE);
    let a = read_open(file, areas, index, class_at(classes, index), first)?;
    let b = read_open(file, areas, index + 1, class_at(classes, index + 1), second)?;
    let c = read_open(file, areas, index + 2, class_at(classes, index + 2), third)?;
    let d = read_open(file, areas, index + 3, class_at(classes, index + 3), fourth)?;
    Ok(digests_of([a, b, c, d], first, second, third, fourth))
}

fn add_one<B: Backing>(
    file: &mut B,
    areas: &Areas,
    classes: &[Class],
    index: u32,
    rooms: &mut [u8],
    digests: &mut Vec<Option<Digest32>>,
) -> Result<(), LayoutFault>
    requires here { index < entries (area_places areas.now) }
    requires count { length classes.now ≡ entries (area_places areas.now) }
    requires rooms { length rooms.old ≡ 16384 }
    requires found { HasFound (B.reads (B.kept file.old)) (area_places areas.now) classes.now digests.old.items index }
    ensures found { OnOk result (HasFound (B.reads (B.kept file.old)) (area_places areas.now) classes.now digests.new.items (index + 1)) }
    ensures failed { IfErr result (λ fault. (fault ≡ read_fault) ⊎ (fault ≡ out_of_memory)) }
    ensures kept { B.kept file.new ≡ B.kept file.old }
    ensures cause { HasCauseAt read_fault (B.faults file.old) (B.faults file.new) result }
{
    let (room, _) = rooms.split_at_mut(BLOCK_SIZE);
    let is_open = read_open(file, areas, index, class_at(classes, index), room)?;
    digests.push(digest_if(is_open, room))?;
    Ok(())
}

fn class_at(classes: &[Class], index: u32) -> Class
    requires { index < length classes.now }
    ensures value { (d : Class) → result ≡ slice_index_or classes.now index d }
{
    classes[index as usize]
}

// Reads a block into its room, with zeros after its own bytes, where its entry is open.
fn read_open<B: Backing>(
    file: &mut B,
    areas: &Areas,
    index: u32,
    class: Class,
    room: &mut [u8],
) -> Result<bool, Failed>
    requires here { index < entries (area_places areas.now) }
    requires whole { length room.old ≡ 4096 }
    ensures tells { IfOk result (λ is_open. is_open ≡ is_open_class class) }
    ensures digest { IfSome (B.reads (B.kept file.old)) (λ bytes. class ≡ class_at (area_places areas.now) bytes index →
        IfOk result (λ is_open. digest_if is_open room.new ≡ digest_of (area_places areas.now) bytes index class)) }
    ensures kept { B.kept file.new ≡ B.kept file.old }
    ensures cause { HasCause (B.faults file.old) (B.faults file.new) result }
{
    let Class::OpenAt { place, .. } = class else {
        return Ok(false);
    };
    let len = areas.geometry.block_len(index) as usize;
    fill_front(file, place, len, room)?;
    clear_behind(room, len);
    Ok(true)
}

fn clear_behind(room: &mut [u8], len: usize)
    requires whole { length room.old ≡ 4096 }
    requires within { len ≤ 4096 }
    ensures value { room.new ≡ take len room.old ++ replicate (4096 - len) 0 }
{
    room[len..].fill(0);
}

fn digests_of(
    are_open: [bool; 4],
    first: &[u8],
    second: &[u8],
    third: &[u8],
    fourth: &[u8],
) -> [Option<Digest32>; 4]
    requires first { length first.now ≡ 4096 }
    requires second { length second.now ≡ 4096 }
    requires third { length third.now ≡ 4096 }
    requires fourth { length fourth.now ≡ 4096 }
    ensures value { result ≡ digest_if (slice_index_or are_open 0 false) first.now ∷ digest_if (slice_index_or are_open 1 false) second.now
        ∷ digest_if (slice_index_or are_open 2 false) third.now ∷ digest_if (slice_index_or are_open 3 false) fourth.now ∷ [] }
{
    let [a, b, c, d] = are_open;
    if a & b & c & d {
        let [a, b, c, d] = digest_four(first, second, third, fourth);
        return [Some(a), Some(b), Some(c), Some(d)];
    }
    [
        digest_if(a, first),
        digest_if(b, second),
        digest_if(c, third),
        digest_if(d, fourth),
    ]
}

fn digest_if(is_open: bool, block: &[u8]) -> Option<Digest32>
    requires { length block.now ≡ 4096 }
    ensures value { result ≡ digest_if is_open block.now }
{
    if is_open {
        Some(digest_block(block))
    } else {
        None
    }
}
