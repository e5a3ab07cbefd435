// A new file is made on its disk, and its content goes in.
ghost use Rattle.std.specs.Prelude.{◌≡◌, ℕ, ◌^◌, ◌≤◌, List, [], ◌∷◌, true, None, Ok, Err, IfOk};
ghost use Rattle.std.specs.List.{list_all};
ghost use Rattle.inc_io.specs.Causes.{HasCauseAt};
ghost use Rattle.inc_disk.specs.Disk.{DiskState, Now, settled};
ghost use Rattle.inc_layout.specs.Fresh.{IsFreshImage, image_of};
ghost use Rattle.inc_layout.specs.opening.Opening.{IsSoundOpened};
ghost use Rattle.inc_layout.specs.state.Reopening.{IsMountedOn};
ghost use Rattle.inc_layout.specs.declared.opened.Opened.{Opened};
ghost use Rattle.inc_loader.specs.PiecesLeft.{left_of};
ghost use Rattle.inc_recover.specs.Mounting.{FaultCause, GivesMountFault, IsOwnMountFault, layout_of};
ghost use Rattle.inc_cell.specs.seen.Opens.{cell_on};
ghost use Rattle.inc_cell.specs.seen.Seen.{state_now};
ghost use Rattle.inc_filling.specs.Fillable.{IsFillable};
ghost use Rattle.inc_filling.specs.Generated.{IsNeverFull};
ghost use Rattle.inc_filling.specs.Pieces.{AreTaken};
ghost use Rattle.inc_cmd.specs.Commands.Big.{IsFileFor};
ghost use Rattle.inc_cmd.specs.NewFiles.{FillsContent, FillsMade, FillsNew, HadNoFault, TellsTotals, is_closed_class, is_file_for};
ghost use Rattle.inc_words.specs.declared.stop.Stop.TheVariants.{Fault as stop_fault};

use inc_cell::FileCell;
use inc_disk::Disk;
use inc_entry::Class;
use inc_filling::{FillStop, FillTotals, fill_generated};
use inc_layout::{FreshImage, LayoutFault, Mounted, Opened};
use inc_loader::{FileInWork, LoaderFile};
use inc_model::Window;
use inc_recover::{MountFault, make_file, mount_file};
use inc_words::Stop;
use std::alloc::Global;

/// The command is the only one that fills the file.
const WINDOW: Window = Window { who: 0, count: 0 };

/// Makes a new file on an empty disk, and fills all of its content in. It gives how many pieces were stored, or none where the disk reads as
/// another file than the one that was made. The disk comes back in any case.
pub fn fill_new<D: Disk>(
    alloc: Global,
    disk: D,
    image: &FreshImage,
    file: &LoaderFile,
    content: FileInWork,
) -> (Result<Option<u64>, Stop>, D)
    requires empty { Now (D.states (D.kept disk)) (λ state. state ≡ settled []) }
    requires quiet { D.faults disk ≡ 0 }
    requires own { content.file ≡ file.now }
    requires stands { IsFileFor file.now (image_of image.now) }
    requires fresh { IsFreshImage (image_of image.now) }
    ensures fills { D.states (D.kept disk) ≡ settled [] ∷ [] → FillsNew (image_of image.now) (left_of content) (D.states (D.kept result.1)) result.0 }
    ensures cause { HasCauseAt stop_fault (D.faults disk) (D.faults result.1) result.0 }
{
    match make_file(disk, image) {
        Ok(disk) => fill_made(alloc, disk, file, content),
        Err((_, disk)) => (Err(Stop::Fault), disk),
    }
}

/// Fills the file that was made on this disk.
fn fill_made<D: Disk>(
    alloc: Global,
    disk: D,
    file: &LoaderFile,
    content: FileInWork,
) -> (Result<Option<u64>, Stop>, D)
    requires quiet { D.faults disk ≡ 0 }
    requires own { content.file ≡ file.now }
    ensures fills { (fresh : List ℕ) (making : List DiskState) → IsFileFor file.now fresh → D.states (D.kept disk) ≡ settled fresh ∷ making
        → FillsMade fresh (left_of content) making (D.states (D.kept result.1)) result.0 }
    ensures cause { HasCauseAt stop_fault (D.faults disk) (D.faults result.1) result.0 }
{
    match mount_file(alloc, disk) {
        Ok(mounted) => fill_if_own(alloc, mounted, file, content),
        Err((fault, disk)) => (not_mounted(fault), disk),
    }
}

/// What a file that isn't mounted comes to. What was made is always mounted, so a file that is refused is another one.
fn not_mounted(fault: MountFault) -> Result<Option<u64>, Stop>
    requires { IsOwnMountFault fault }
    ensures other { IfOk result (λ written. (bytes : List ℕ) (found : Opened) → layout_of bytes ≡ Ok found → GivesMountFault fault (layout_of bytes) → ⊥) }
    ensures cause { (before now : ℕ) → before ≤ now → FaultCause before now fault → HasCauseAt stop_fault before now result }
{
    match fault {
        MountFault::Layout(fault) => {
            if fault == LayoutFault::ReadFault {
                Err(Stop::Fault)
            } else {
                Ok(None)
            }
        }
        MountFault::DiskFault => Err(Stop::Fault),
        MountFault::OutOfMemory => Err(Stop::OutOfMemory),
    }
}

/// Fills the mounted file, where it is a new one for this content.
fn fill_if_own<D: Disk>(
    alloc: Global,
    mounted: Mounted<D>,
    file: &LoaderFile,
    content: FileInWork,
) -> (Result<Option<u64>, Stop>, D)
    requires sound { IsSoundOpened mounted.opened }
    requires short { mounted.opened.len ≤ 2 ^ 46 }
    requires mounted { Now (D.states (D.kept mounted.disk)) (IsMountedOn settled mounted.opened) }
    requires quiet { D.faults mounted.disk ≡ 0 }
    requires own { content.file ≡ file.now }
    ensures fills { is_file_for file.now mounted.opened ≡ true
        → FillsContent (cell_on (D.states (D.kept mounted.disk)) 0 mounted.opened 0) (D.states (D.kept result.1)) (left_of content) result.0 }
    ensures cause { HasCauseAt stop_fault (D.faults mounted.disk) (D.faults result.1) result.0 }
{
    if is_file_for(file, &mounted.opened) {
        fill_mounted(alloc, mounted, content)
    } else {
        let Mounted { disk, .. } = mounted;
        (Ok(None), disk)
    }
}

/// Whether it is a signed file of this id and size, none of whose blocks is there.
fn is_file_for(file: &LoaderFile, opened: &Opened) -> bool
    ensures value { result ≡ is_file_for file.now opened.now }
{
    opened.header.id == file.id
        && opened.header.size == file.size
        && opened.sig.is_some()
        && are_closed(opened.classes.as_slice())
}

fn are_closed(classes: &[Class]) -> bool
    ensures value { result ≡ list_all is_closed_class classes.now }
{
    classes.iter().all(|class| is_closed(*class))
}

fn is_closed(class: Class) -> bool
    ensures value { result ≡ is_closed_class class }
{
    matches!(class, Class::Closed)
}

/// Fills a mounted file that takes the content. Without memory for its cell nothing is done.
fn fill_mounted<D: Disk>(
    alloc: Global,
    mounted: Mounted<D>,
    content: FileInWork,
) -> (Result<Option<u64>, Stop>, D)
    requires sound { IsSoundOpened mounted.opened }
    requires short { mounted.opened.len ≤ 2 ^ 46 }
    requires mounted { Now (D.states (D.kept mounted.disk)) (IsMountedOn settled mounted.opened) }
    requires quiet { D.faults mounted.disk ≡ 0 }
    requires taken { AreTaken mounted.opened (left_of content) }
    ensures fills { FillsContent (cell_on (D.states (D.kept mounted.disk)) 0 mounted.opened 0) (D.states (D.kept result.1)) (left_of content) result.0 }
    ensures cause { HasCauseAt stop_fault (D.faults mounted.disk) (D.faults result.1) result.0 }
{
    match FileCell::new(alloc, mounted, 0) {
        Ok(cell) => fill_cell(alloc, cell, content),
        Err((_, mounted)) => {
            let Mounted { disk, .. } = mounted;
            (Err(Stop::OutOfMemory), disk)
        }
    }
}

/// Fills the file of a new cell.
fn fill_cell<D: Disk>(
    alloc: Global,
    cell: FileCell<D>,
    content: FileInWork,
) -> (Result<Option<u64>, Stop>, D)
    requires fillable { IsFillable cell }
    requires sound { (state_now cell).failed ≡ None }
    requires fresh { cell.history ≡ [] }
    requires quiet { cell.count ≡ 0 }
    requires taken { AreTaken cell.opened (left_of content) }
    ensures fills { FillsContent cell (D.states (D.kept result.1)) (left_of content) result.0 }
    ensures cause { HasCauseAt stop_fault cell.count (D.faults result.1) result.0 }
{
    let mut cell = cell;
    let mut content = content;
    let filled = fill_generated(alloc, &mut cell, WINDOW, &mut content);
    let (disk, _) = cell.into_disk();
    (stored_by(filled), disk)
}

/// How many pieces a fill has stored. A new file has room for all of them in its history, and hasn't failed before.
fn stored_by(filled: Result<FillTotals, FillStop>) -> Result<Option<u64>, Stop>
    requires roomy { IsNeverFull filled }
    requires sound { HadNoFault filled }
    ensures tells { TellsTotals filled result }
{
    match filled {
        Ok(totals) => Ok(Some(totals.written)),
        Err(FillStop::DiskFault) => Err(Stop::Fault),
        Err(FillStop::OutOfMemory) => Err(Stop::OutOfMemory),
        Err(FillStop::Failed { .. }) => unreachable!(),
        Err(FillStop::HistoryFull { .. }) => unreachable!(),
    }
}
