// Mounting files together.
ghost use Rattle.std.specs.Prelude.{◌≡◌, ◌≢◌, ◌+◌, ◌≤◌, ◌++◌, [], ◌∷◌, ℕ, List, Option, Err, false, true, length, is_some, IfSome, IfOk, IfErr, OnOk, OnErr, option_map};
ghost use Rattle.std.specs.List.{list_any};
ghost use Rattle.std.specs.Option.{option_to_list};
ghost use Rattle.std.specs.Str.{bytes_eq};
ghost use Rattle.std.specs.Vec.{vec_capacity};
ghost use Rattle.inc_disk.specs.Log.{contents_of, entries_of, newest_of};
ghost use Rattle.inc_io.specs.Causes.{HasCauseAt, Joins};
ghost use Rattle.inc_io.specs.Names.{without};
ghost use Rattle.inc_io.specs.Outside.{IsOut, LendsName, NoneOut};
ghost use Rattle.inc_volume.specs.mounting.Cells.{AreCells, AreOut, IsCell, each_once, faults_in, names_in, returned, with_name_once};
ghost use Rattle.inc_volume.specs.mounting.MountRuns.{LeavesRuns};
ghost use Rattle.inc_volume.specs.mounting.Planned.{AreMounted, ArePlanned, IsHeldBy, IsPlanned, LeavesOneRun, result_targets};
ghost use Rattle.inc_volume.specs.mounting.Targets.{GivesTarget, IsNoVerdict, IsOwnRefusal, files_for, target_files, target_names, targets_of};
ghost use Rattle.inc_volume.specs.declared.mounting.refusal.MountRefusal.TheVariants.{Bad as bad_file, Fault as refusal_fault};
ghost use Rattle.inc_volume.specs.declared.verdict.Verdict.TheVariants.{SameId as same_id};

mod cells;
mod planning;
mod reading;
mod refusal;
mod target;
mod volume;

use crate::OutOfMemory;
use crate::verdict::Verdict;
pub use cells::give_back;
use cells::{has_id, has_name};
use inc_disk::Shelf;
use inc_io::Name;
use inc_layout::Mounted;
use inc_recover::mount_file;
use planning::plan;
pub use refusal::MountRefusal;
use refusal::{missing_file, refusal_by_lend, refusal_by_mount};
use std::alloc::Global;
pub use target::{Target, TargetList};
pub use volume::Volume;

/// Mounts the files of these names, and for a mapped name its original, each once. Their disks are out then. A session begins so, and ends
/// with `unmount`.
pub fn mount<S: Shelf>(
    alloc: Global,
    shelf: &mut S,
    names: &[Name],
) -> Result<Volume<S::Disk>, MountRefusal>
    requires { NoneOut (S.out shelf.old) }
    // It is refused exactly by the first of the names that isn't there, isn't good or is too long, and the targets are those of the names.
    ensures answer { IfSome (S.contents (S.kept shelf.old)) (λ files. GivesTarget (result_targets result) (targets_of files names.now)) }
    ensures named { IfOk result (λ volume. target_names volume.targets ≡ names.now) }
    // The files are those of the targets, in their order, each once, and are mounted from what stood under their names.
    ensures each { IfOk result (λ volume. names_in volume.files.items ≡ each_once (target_files volume.targets)) }
    ensures mounted { IfOk result (λ volume. AreCells (λ disk. S.Disk.states (S.Disk.kept disk)) S.Disk.faults (S.log (S.kept shelf.old)) volume.files.items) }
    ensures out { IfOk result (λ volume. AreOut (S.out shelf.new) (names_in volume.files.items)) }
    ensures kept { OnOk result (S.kept shelf.new ≡ S.kept shelf.old) }
    // After a refusal all disks are back. Some files that were to be mounted may have been, and nothing else has changed.
    ensures back { OnErr result (NoneOut (S.out shelf.new)) }
    ensures runs { OnErr result (IfSome (S.log (S.kept shelf.old)) (λ before. IfSome (S.log (S.kept shelf.new)) (LeavesRuns (files_for (targets_of (contents_of before) names.now)) before))) }
    // Where the shelf tells its files, nothing is written for a name that is missing or bad.
    ensures unwritten { IfSome (S.log (S.kept shelf.old)) (λ before. IfErr result (λ refusal. (IsNoVerdict refusal → ⊥) → S.kept shelf.new ≡ S.kept shelf.old)) }
    ensures own { IfErr result IsOwnRefusal }
    ensures cause { HasCauseAt refusal_fault (S.faults shelf.old) (S.faults shelf.new) result }
{
    match planned(alloc, shelf, names) {
        Ok(targets) => mount_targets(alloc, shelf, targets),
        Err(refusal) => Err(refusal),
    }
}

/// Gives all disks of a volume back to their shelf.
pub fn unmount<S: Shelf>(v: Volume<S::Disk>, shelf: &mut S)
    requires { AreOut (S.out shelf.old) (names_in v.files.items) }
    ensures back { NoneOut (S.out shelf.new) }
    ensures logged { S.log (S.kept shelf.new) ≡ option_map (returned (λ disk. S.Disk.states (S.Disk.kept disk)) v.files.items) (S.log (S.kept shelf.old)) }
    ensures cause { Joins (S.faults shelf.old) (faults_in S.Disk.faults v.files.items) (S.faults shelf.new) }
{
    let Volume { files, targets: _ } = v;
    give_back(shelf, files);
}

/// The targets of the names, or why there are none.
fn planned<S: Shelf>(
    alloc: Global,
    shelf: &mut S,
    names: &[Name],
) -> Result<TargetList, MountRefusal>
    requires { NoneOut (S.out shelf.old) }
    ensures answer { IfSome (S.contents (S.kept shelf.old)) (λ files. GivesTarget result (targets_of files names.now)) }
    ensures files { IfSome (S.log (S.kept shelf.old)) (λ log. IfOk result (λ targets. ArePlanned (contents_of log) (target_files targets))) }
    ensures named { IfOk result (λ targets. target_names targets ≡ names.now) }
    ensures own { IfErr result IsOwnRefusal }
    ensures kept { S.kept shelf.new ≡ S.kept shelf.old }
    ensures back { NoneOut (S.out shelf.new) }
    ensures cause { HasCauseAt refusal_fault (S.faults shelf.old) (S.faults shelf.new) result }
{
    match plan(alloc, shelf, names) {
        Ok(found) => found,
        Err(fault) => Err(refusal_by_lend(fault)),
    }
}

/// Mounts the files of targets.
fn mount_targets<S: Shelf>(
    alloc: Global,
    shelf: &mut S,
    targets: TargetList,
) -> Result<Volume<S::Disk>, MountRefusal>
    requires none_out { NoneOut (S.out shelf.old) }
    requires planned { IfSome (S.log (S.kept shelf.old)) (λ log. ArePlanned (contents_of log) (target_files targets)) }
    ensures same { IfOk result (λ volume. volume.targets ≡ targets) }
    ensures each { IfOk result (λ volume. names_in volume.files.items ≡ each_once (target_files volume.targets)) }
    ensures mounted { IfOk result (λ volume. AreCells (λ disk. S.Disk.states (S.Disk.kept disk)) S.Disk.faults (S.log (S.kept shelf.old)) volume.files.items) }
    ensures out { IfOk result (λ volume. AreOut (S.out shelf.new) (names_in volume.files.items)) }
    ensures kept { OnOk result (S.kept shelf.new ≡ S.kept shelf.old) }
    ensures back { OnErr result (NoneOut (S.out shelf.new)) }
    ensures runs { OnErr result (IfSome (S.log (S.kept shelf.old)) (λ before. IfSome (S.log (S.kept shelf.new)) (LeavesRuns (target_files targets) before))) }
    ensures only { IfSome (S.log (S.kept shelf.old)) (λ log. IfErr result IsNoVerdict) }
    ensures own { IfErr result IsOwnRefusal }
    ensures cause { HasCauseAt refusal_fault (S.faults shelf.old) (S.faults shelf.new) result }
{
    match open_files(alloc, shelf, targets.as_slice()) {
        Ok(files) => {
            let volume = Volume { files, targets };
            Ok(volume)
        }
        Err(refusal) => Err(refusal),
    }
}

/// Mounts these targets' files, each once. Where one can't be mounted, all disks go back.
fn open_files<S: Shelf>(
    alloc: Global,
    shelf: &mut S,
    targets: &[Target],
) -> Result<Vec<(Name, Mounted<S::Disk>)>, MountRefusal>
    requires none_out { NoneOut (S.out shelf.old) }
    requires planned { IfSome (S.log (S.kept shelf.old)) (λ log. ArePlanned (contents_of log) (target_files targets.now)) }
    ensures each { IfOk result (λ files. names_in files.items ≡ each_once (target_files targets.now)) }
    ensures mounted { IfOk result (λ files. AreMounted (λ disk. S.Disk.states (S.Disk.kept disk)) S.Disk.faults (S.log (S.kept shelf.old)) (S.out shelf.new) files.items) }
    ensures kept { OnOk result (S.kept shelf.new ≡ S.kept shelf.old) }
    ensures back { OnErr result (NoneOut (S.out shelf.new)) }
    ensures runs { OnErr result (IfSome (S.log (S.kept shelf.old)) (λ before. IfSome (S.log (S.kept shelf.new)) (LeavesRuns (target_files targets.now) before))) }
    ensures only { IfSome (S.log (S.kept shelf.old)) (λ log. IfErr result IsNoVerdict) }
    ensures own { IfErr result IsOwnRefusal }
    ensures cause { HasCauseAt refusal_fault (S.faults shelf.old) (S.faults shelf.new) result }
{
    let mut cells = Vec::new(alloc);
    let mut rest = targets;
    while let [target, after @ ..] = rest {
        match mount_once(alloc, shelf, &mut cells, &target.file) {
            Ok(()) => {}
            Err(refusal) => {
                give_back(shelf, cells);
                return Err(refusal);
            }
        }
        rest = after;
    }
    Ok(cells)
}

/// Mounts a file unless it is mounted already.
fn mount_once<S: Shelf>(
    alloc: Global,
    shelf: &mut S,
    cells: &mut Vec<(Name, Mounted<S::Disk>)>,
    name: &Name,
) -> Result<(), MountRefusal>
    requires mounted { AreMounted (λ disk. S.Disk.states (S.Disk.kept disk)) S.Disk.faults (S.log (S.kept shelf.old)) (S.out shelf.old) cells.old.items }
    requires planned { IfSome (S.log (S.kept shelf.old)) (λ log. IsPlanned (contents_of log) name.now) }
    ensures added { OnOk result (names_in cells.new.items ≡ with_name_once (names_in cells.old.items) name.now) }
    ensures mounted { OnOk result (AreMounted (λ disk. S.Disk.states (S.Disk.kept disk)) S.Disk.faults (S.log (S.kept shelf.old)) (S.out shelf.new) cells.new.items) }
    ensures kept { OnOk result (S.kept shelf.new ≡ S.kept shelf.old) }
    ensures new { OnErr result (list_any (bytes_eq name.now) (names_in cells.old.items) ≡ false) }
    ensures same { OnErr result (cells.new.items ≡ cells.old.items) }
    ensures back { OnErr result (S.out shelf.new ≡ S.out shelf.old) }
    ensures run { OnErr result (IfSome (S.log (S.kept shelf.old)) (λ before. IfSome (S.log (S.kept shelf.new)) (LeavesOneRun name.now before))) }
    ensures only { IfSome (S.log (S.kept shelf.old)) (λ log. IfErr result IsNoVerdict) }
    ensures own { IfErr result IsOwnRefusal }
    ensures cause { HasCauseAt refusal_fault (S.faults shelf.old) (S.faults shelf.new) result }
{
    if has_name(cells.as_slice(), name) {
        return Ok(());
    }
    mount_next(alloc, shelf, cells, name)
}

/// Mounts one file more. Where that fails its disk is back.
fn mount_next<S: Shelf>(
    alloc: Global,
    shelf: &mut S,
    cells: &mut Vec<(Name, Mounted<S::Disk>)>,
    name: &Name,
) -> Result<(), MountRefusal>
    requires mounted { AreMounted (λ disk. S.Disk.states (S.Disk.kept disk)) S.Disk.faults (S.log (S.kept shelf.old)) (S.out shelf.old) cells.old.items }
    requires new { list_any (bytes_eq name.now) (names_in cells.old.items) ≡ false }
    requires planned { IfSome (S.log (S.kept shelf.old)) (λ log. IsPlanned (contents_of log) name.now) }
    ensures added { OnOk result (names_in cells.new.items ≡ names_in cells.old.items ++ name.now ∷ []) }
    ensures mounted { OnOk result (AreMounted (λ disk. S.Disk.states (S.Disk.kept disk)) S.Disk.faults (S.log (S.kept shelf.old)) (S.out shelf.new) cells.new.items) }
    ensures kept { OnOk result (S.kept shelf.new ≡ S.kept shelf.old) }
    ensures same { OnErr result (cells.new.items ≡ cells.old.items) }
    ensures back { OnErr result (S.out shelf.new ≡ S.out shelf.old) }
    ensures run { OnErr result (IfSome (S.log (S.kept shelf.old)) (λ before. IfSome (S.log (S.kept shelf.new)) (LeavesOneRun name.now before))) }
    ensures only { IfSome (S.log (S.kept shelf.old)) (λ log. IfErr result IsNoVerdict) }
    ensures own { IfErr result IsOwnRefusal }
    ensures cause { HasCauseAt refusal_fault (S.faults shelf.old) (S.faults shelf.new) result }
{
    let own = make_room(alloc, cells, name)?;
    match lend_mounted(alloc, shelf, name) {
        Ok(mounted) => take_in(shelf, cells, own, mounted),
        Err(refusal) => Err(refusal),
    }
}

/// Takes a file that is mounted into the list, which has room for it. Where another file there has its id, its disk goes back.
fn take_in<S: Shelf>(
    shelf: &mut S,
    cells: &mut Vec<(Name, Mounted<S::Disk>)>,
    own: Name,
    mounted: Mounted<S::Disk>,
) -> Result<(), MountRefusal>
    requires room { length cells.old.items + 1 ≤ vec_capacity cells.old }
    requires new { list_any (bytes_eq own) (names_in cells.old.items) ≡ false }
    requires held { (before : Option (List (List ℕ))) × AreMounted (λ disk. S.Disk.states (S.Disk.kept disk)) S.Disk.faults (S.log (S.kept shelf.old)) before cells.old.items
        × (S.out shelf.old ≡ option_map (λ names. names ++ own ∷ []) before) }
    requires cell { IsCell (λ disk. S.Disk.states (S.Disk.kept disk)) S.Disk.faults (S.log (S.kept shelf.old)) own mounted }
    requires holder { IfSome (S.log (S.kept shelf.old)) (λ log. IsHeldBy (contents_of log) mounted.opened.header.id own) }
    ensures added { OnOk result (names_in cells.new.items ≡ names_in cells.old.items ++ own ∷ []) }
    ensures mounted { OnOk result (AreMounted (λ disk. S.Disk.states (S.Disk.kept disk)) S.Disk.faults (S.log (S.kept shelf.old)) (S.out shelf.new) cells.new.items) }
    ensures kept { OnOk result (S.kept shelf.new ≡ S.kept shelf.old) }
    ensures same { OnErr result (cells.new.items ≡ cells.old.items) }
    ensures back { OnErr result (S.out shelf.new ≡ option_map (without own) (S.out shelf.old)) }
    ensures run { OnErr result (IfSome (S.log (S.kept shelf.old)) (λ before. IfSome (S.log (S.kept shelf.new)) (LeavesOneRun own before))) }
    ensures only { OnErr result (IfSome (S.log (S.kept shelf.old)) (λ log. ⊥)) }
    ensures own { IfErr result IsOwnRefusal }
    ensures quiet { S.faults shelf.new ≡ S.faults shelf.old }
    ensures no_fault { result ≢ Err refusal_fault }
{
    if has_id(cells.as_slice(), &mounted.opened.header.id) {
        return Err(turn_away(shelf, own, mounted));
    }
    add_cell(cells, own, mounted);
    Ok(())
}

/// Adds a file to the list, which has room for it.
fn add_cell<D>(cells: &mut Vec<(Name, Mounted<D>)>, own: Name, mounted: Mounted<D>)
    requires { length cells.old.items + 1 ≤ vec_capacity cells.old }
    ensures { cells.new.items ≡ cells.old.items ++ (own, mounted) ∷ [] }
{
    cells.push((own, mounted)).unwrap();
}

/// Takes the memory that one file more needs in the list, and answers its name.
fn make_room<D>(
    alloc: Global,
    cells: &mut Vec<(Name, Mounted<D>)>,
    name: &Name,
) -> Result<Name, OutOfMemory>
    ensures named { IfOk result (λ own. own ≡ name.now) }
    ensures same { cells.new.items ≡ cells.old.items }
    ensures room { OnOk result (length cells.new.items + 1 ≤ vec_capacity cells.new) }
{
    cells.reserve(1)?;
    Ok(name.copy(alloc)?)
}

/// Gives the disk of a file back whose id another one has.
fn turn_away<S: Shelf>(shelf: &mut S, name: Name, mounted: Mounted<S::Disk>) -> MountRefusal
    requires { IsOut name (S.out shelf.old) }
    ensures value { result ≡ bad_file name (same_id mounted.opened.header.id) }
    ensures returned { S.out shelf.new ≡ option_map (without name) (S.out shelf.old) }
    ensures logged { S.log (S.kept shelf.new) ≡ option_map (λ log. entries_of name (S.Disk.states (S.Disk.kept mounted.disk)) ++ log) (S.log (S.kept shelf.old)) }
    ensures cause { Joins (S.faults shelf.old) (S.Disk.faults mounted.disk) (S.faults shelf.new) }
{
    let Mounted { disk, opened } = mounted;
    let id = opened.header.id;
    shelf.close_disk(&name, disk);
    MountRefusal::Bad {
        name,
        verdict: Verdict::SameId { id },
    }
}

/// Lends the disk of a name and mounts its file. Where that fails the disk is back.
fn lend_mounted<S: Shelf>(
    alloc: Global,
    shelf: &mut S,
    name: &Name,
) -> Result<Mounted<S::Disk>, MountRefusal>
    requires { IfSome (S.out shelf.old) (λ names. list_any (bytes_eq name.now) names ≡ false) }
    ensures cell { IfOk result (IsCell (λ disk. S.Disk.states (S.Disk.kept disk)) S.Disk.faults (S.log (S.kept shelf.old)) name.now) }
    ensures held { IfSome (S.log (S.kept shelf.old)) (λ log. IsPlanned (contents_of log) name.now → IfOk result (λ mounted. IsHeldBy (contents_of log) mounted.opened.header.id name.now)) }
    ensures lent { OnOk result (S.out shelf.new ≡ option_map (λ names. names ++ name.now ∷ []) (S.out shelf.old)) }
    ensures kept { OnOk result (S.kept shelf.new ≡ S.kept shelf.old) }
    ensures back { OnErr result (S.out shelf.new ≡ S.out shelf.old) }
    ensures run { OnErr result (IfSome (S.log (S.kept shelf.old)) (λ before. IfSome (S.log (S.kept shelf.new)) (LeavesOneRun name.now before))) }
    ensures only { IfSome (S.log (S.kept shelf.old)) (λ log. IsPlanned (contents_of log) name.now → IfErr result IsNoVerdict) }
    ensures own { IfErr result IsOwnRefusal }
    ensures cause { HasCauseAt refusal_fault (S.faults shelf.old) (S.faults shelf.new) result }
{
    match lend_disk(shelf, name) {
        Ok(Some(disk)) => mount_lent(alloc, shelf, name, disk),
        Ok(None) => Err(missing_file(alloc, name)),
        Err(refusal) => Err(refusal),
    }
}

/// Lends the disk of a name, where a file stands there.
fn lend_disk<S: Shelf>(shelf: &mut S, name: &Name) -> Result<Option<S::Disk>, MountRefusal>
    requires { IfSome (S.out shelf.old) (λ names. list_any (bytes_eq name.now) names ≡ false) }
    ensures found { IfSome (S.log (S.kept shelf.old)) (λ log. IfOk result (λ lent. is_some lent ≡ is_some (newest_of name.now log))) }
    ensures states { IfSome (S.log (S.kept shelf.old)) (λ log. IfOk result (λ lent. IfSome lent (λ disk. S.Disk.states (S.Disk.kept disk) ≡ option_to_list (newest_of name.now log)))) }
    ensures fresh { IfOk result (λ lent. IfSome lent (λ disk. S.Disk.faults disk ≡ 0)) }
    ensures lends { LendsName name.now (S.out shelf.old) (S.out shelf.new) result }
    ensures kept { S.kept shelf.new ≡ S.kept shelf.old }
    ensures only { IfErr result IsNoVerdict }
    ensures cause { HasCauseAt refusal_fault (S.faults shelf.old) (S.faults shelf.new) result }
{
    match shelf.open_disk(name) {
        Ok(lent) => Ok(lent),
        Err(fault) => Err(refusal_by_lend(fault)),
    }
}

/// Mounts the file of a lent disk. Where that fails the disk goes back.
fn mount_lent<S: Shelf>(
    alloc: Global,
    shelf: &mut S,
    name: &Name,
    disk: S::Disk,
) -> Result<Mounted<S::Disk>, MountRefusal>
    requires fresh { S.Disk.faults disk ≡ 0 }
    requires there { IfSome (S.log (S.kept shelf.old)) (λ log. is_some (newest_of name.now log) ≡ true) }
    requires lent { IfSome (S.log (S.kept shelf.old)) (λ log. S.Disk.states (S.Disk.kept disk) ≡ option_to_list (newest_of name.now log)) }
    requires out { IsOut name.now (S.out shelf.old) }
    ensures cell { IfOk result (IsCell (λ disk. S.Disk.states (S.Disk.kept disk)) S.Disk.faults (S.log (S.kept shelf.old)) name.now) }
    ensures held { IfSome (S.log (S.kept shelf.old)) (λ log. IsPlanned (contents_of log) name.now → IfOk result (λ mounted. IsHeldBy (contents_of log) mounted.opened.header.id name.now)) }
    ensures out { OnOk result (S.out shelf.new ≡ S.out shelf.old) }
    ensures kept { OnOk result (S.kept shelf.new ≡ S.kept shelf.old) }
    ensures back { OnErr result (S.out shelf.new ≡ option_map (without name.now) (S.out shelf.old)) }
    ensures run { OnErr result (IfSome (S.log (S.kept shelf.old)) (λ before. IfSome (S.log (S.kept shelf.new)) (LeavesOneRun name.now before))) }
    ensures only { IfSome (S.log (S.kept shelf.old)) (λ log. IsPlanned (contents_of log) name.now → IfErr result IsNoVerdict) }
    ensures own { IfErr result IsOwnRefusal }
    ensures cause { HasCauseAt refusal_fault (S.faults shelf.old) (S.faults shelf.new) result }
{
    match mount_file(alloc, disk) {
        Ok(mounted) => Ok(mounted),
        Err((fault, disk)) => {
            shelf.close_disk(name, disk);
            Err(refusal_by_mount(alloc, name, fault))
        }
    }
}
