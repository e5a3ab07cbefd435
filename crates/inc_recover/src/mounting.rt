ghost use Rattle.std.specs.Prelude.{◌≡◌, ◌≢◌, ◌⊎◌, ◌+◌, ◌<◌, ◌≤◌, ◌^◌, ℕ, List, length, IfSome, IfOk, IfErr, OnErr, OnOk};
ghost use Rattle.inc_io.specs.Causes.{HasCause, HasCauseAt};
ghost use Rattle.inc_disk.specs.Disk.{Now, overwritten, settled};
ghost use Rattle.inc_disk.specs.Laws.{Goes, LeavesOnly};
ghost use Rattle.inc_layout.specs.opening.Faults.{GivesOpening, IsOwnFault};
ghost use Rattle.inc_layout.specs.opening.Opening.{IsSoundOpened};
ghost use Rattle.inc_layout.specs.state.Reopening.{IsMountedOn};
ghost use Rattle.inc_layout.specs.declared.fault.LayoutFault.TheVariants.{ReadFault as read_fault, TooLong as too_long};
ghost use Rattle.inc_fill.specs.Steps.{count_bytes};
ghost use Rattle.inc_recover.specs.Mounting.{DiffersAt, GivesMounted, HasMountCause, HasRightCounts, IsCutAtSync, IsOwnMountFault, IsSameButCounts, IsUnwritten, MayBeLeftBy, Mends, Mounts, StaysUntold, counted, disk_of, layout_of, outcome};
ghost use Rattle.inc_recover.specs.Reopening.{Reopens};

use crate::MountFault;
use crate::counting::count_blocks;
use inc_disk::Disk;
use inc_fill::write_status;
use inc_io::{Backing, Failed};
use inc_layout::{LayoutFault, Mounted, Opened, open_layout};
use inc_md::StatusRecord;
use std::alloc::Global;

/// A file of more bytes isn't mounted, so that a place for a block to come is below 2^48.
const MOST: u64 = 1 << 46;

/// Mounts the backing file of a disk. It settles first, so that what it reads is what a crash leaves.
pub fn mount_file<D: Disk>(alloc: Global, disk: D) -> Result<Mounted<D>, (MountFault, D)>
    ensures sound { IfOk result (λ mounted. IsSoundOpened mounted.opened) }
    ensures short { IfOk result (λ mounted. mounted.opened.len ≤ 2 ^ 46) }
    // The disk is settled, and its file tells what was found, with the counts as they are now.
    ensures opened { IfOk result (λ mounted. Now (D.states (D.kept mounted.disk)) (IsMountedOn settled mounted.opened)) }
    // The file is mounted as it stood, or the first fault of its layout is told.
    ensures answer { Now (D.states (D.kept disk)) (λ state. GivesMounted (outcome result) (layout_of state.reads)) }
    ensures same { Now (D.states (D.kept disk)) (λ before. Now (D.states (D.kept (disk_of result))) (λ after. IsSameButCounts before.reads after.reads)) }
    // What is mounted reads as it did, with the counts of the blocks that are there.
    ensures counts { Now (D.states (D.kept disk)) (λ before. IfOk result (λ mounted. Now (D.states (D.kept mounted.disk)) (HasRightCounts before.reads))) }
    // A crash meanwhile leaves what it might have left before, or what the disk read as but for the counts.
    ensures moments { Now (D.states (D.kept disk)) (λ before. LeavesOnly (D.states (D.kept disk)) (D.states (D.kept (disk_of result)))
        (MayBeLeftBy (D.states (D.kept disk)) before.reads)) }
    // Once a sync has succeeded, only the counts may be others than the disk read.
    ensures since { Now (D.states (D.kept disk)) (λ before. IsCutAtSync (D.states (D.kept disk)) (D.states (D.kept (disk_of result))) before.reads (outcome result)) }
    // Right counts aren't written, and nothing is where the call ends with anything but a fault of the disk, which is one of the first sync
    // where no counts had to be written.
    ensures unwritten { Now (D.states (D.kept disk)) (λ before. IsUnwritten (D.states (D.kept disk)) (D.states (D.kept (disk_of result))) before.reads (outcome result)) }
    // What a crash had to keep of the file is kept at every moment, and what was found is a reopening of it.
    ensures reopens { Reopens (D.states (D.kept disk)) (D.states (D.kept (disk_of result))) (outcome result) }
    ensures own { IfErr (outcome result) IsOwnMountFault }
    ensures cause { HasMountCause (D.faults disk) (D.faults (disk_of result)) (outcome result) }
{
    let mut disk = disk;
    match mount(alloc, &mut disk) {
        Ok(opened) => Ok(Mounted { disk, opened }),
        Err(fault) => Err((fault, disk)),
    }
}

fn mount<D: Disk>(alloc: Global, disk: &mut D) -> Result<Opened, MountFault>
    ensures sound { IfOk result (λ opened. IsSoundOpened opened) }
    ensures short { IfOk result (λ opened. opened.len ≤ 2 ^ 46) }
    ensures untold { StaysUntold (D.states (D.kept disk.old)) (D.states (D.kept disk.new)) }
    ensures mounts { Now (D.states (D.kept disk.old)) (λ state. Mounts (D.states (D.kept disk.old)) (D.states (D.kept disk.new)) result state.reads) }
    ensures own { IfErr result IsOwnMountFault }
    ensures cause { HasMountCause (D.faults disk.old) (D.faults disk.new) result }
{
    disk.sync()?;
    let mut opened = open_short(alloc, disk)?;
    mend_counts(disk, &mut opened)?;
    Ok(opened)
}

/// Opens a file of at most 2^46 bytes.
fn open_short<B: Backing>(alloc: Global, file: &mut B) -> Result<Opened, LayoutFault>
    ensures answer { IfSome (B.reads (B.kept file.old)) (λ bytes. GivesOpening result (layout_of bytes)) }
    ensures sound { IfOk result (λ opened. IsSoundOpened opened) }
    ensures short { IfOk result (λ opened. opened.len ≤ 2 ^ 46) }
    ensures kept { B.kept file.new ≡ B.kept file.old }
    ensures own { IfErr result (λ fault. IsOwnFault fault) }
    ensures cause { HasCauseAt read_fault (B.faults file.old) (B.faults file.new) result }
{
    test_len(file)?;
    let opened = open_layout(alloc, file)?;
    if opened.len > MOST {
        return Err(LayoutFault::TooLong);
    }
    Ok(opened)
}

fn test_len<B: Backing>(file: &mut B) -> Result<(), LayoutFault>
    ensures short { IfSome (B.reads (B.kept file.old)) (λ bytes. OnOk result (length bytes ≤ 2 ^ 46)) }
    ensures long { IfSome (B.reads (B.kept file.old)) (λ bytes. IfErr result (λ fault. (fault ≡ read_fault) ⊎ ((fault ≡ too_long) × (2 ^ 46 < length bytes)))) }
    ensures kept { B.kept file.new ≡ B.kept file.old }
    ensures own { IfErr result (λ fault. IsOwnFault fault) }
    ensures cause { HasCauseAt read_fault (B.faults file.old) (B.faults file.new) result }
{
    let len = file.len()?;
    if len > MOST {
        return Err(LayoutFault::TooLong);
    }
    Ok(())
}

/// Writes the counts of an opened file where they aren't those of its blocks.
fn mend_counts<D: Disk>(disk: &mut D, opened: &mut Opened) -> Result<(), Failed>
    requires sound { IsSoundOpened opened.old }
    requires short { opened.old.len ≤ 2 ^ 46 }
    requires len { IfSome (D.reads (D.kept disk.old)) (λ bytes. opened.old.len ≡ length bytes) }
    ensures value { opened.new ≡ counted opened.old }
    ensures needed { OnErr result (counted opened.old ≢ opened.old) }
    ensures unwritten { counted opened.old ≡ opened.old → OnOk result (D.kept disk.new ≡ D.kept disk.old) }
    ensures untold { StaysUntold (D.states (D.kept disk.old)) (D.states (D.kept disk.new)) }
    ensures mends { Mends opened.old (D.states (D.kept disk.old)) (D.states (D.kept disk.new)) result }
    ensures cause { HasCause (D.faults disk.old) (D.faults disk.new) result }
{
    match count_blocks(opened) {
        None => Ok(()),
        Some(status) => write_counts(disk, status),
    }
}

/// Writes the two counts over those that are there, and settles them.
fn write_counts<D: Disk>(disk: &mut D, status: StatusRecord) -> Result<(), Failed>
    requires place { IfSome (D.reads (D.kept disk.old)) (λ bytes. status.at ≤ length bytes) }
    requires end { status.at ≤ 2 ^ 46 }
    ensures untold { StaysUntold (D.states (D.kept disk.old)) (D.states (D.kept disk.new)) }
    ensures counts { (bytes : List ℕ) → status.at + 8 ≤ length bytes → Now (D.states (D.kept disk.old)) (λ state. state ≡ settled bytes)
        → Goes (D.states (D.kept disk.old)) (D.states (D.kept disk.new)) result
        (λ state. state ≡ settled (overwritten status.at (count_bytes status.data_written status.hash_written) bytes))
        (λ state. DiffersAt status.at bytes state.reads) (DiffersAt status.at bytes) }
    ensures cause { HasCause (D.faults disk.old) (D.faults disk.new) result }
{
    write_status(disk, status.at, status.data_written, status.hash_written)?;
    disk.sync()
}
