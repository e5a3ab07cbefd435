// Which files have to be mounted for some names. Nothing is written.
ghost use Rattle.std.specs.Prelude.{◌≡◌, ◌+◌, ◌%◌, ◌^◌, ◌<◌, ◌≤◌, Some, IfSome, IfOk, IfErr};
ghost use Rattle.inc_io.specs.Causes.{HasCauseAt};
ghost use Rattle.inc_io.specs.Outside.{NoneOut};
ghost use Rattle.inc_io.specs.declared.failed.LendFault.TheVariants.{Failed as lend_failed};
ghost use Rattle.inc_tree.specs.shape.Limits.{most_size};
ghost use Rattle.inc_volume.specs.Verdicts.{HasMapping, IsByFile, holder_of};
ghost use Rattle.inc_volume.specs.mounting.Targets.{IsJudged, IsRefusing, if_short, is_short, is_short_at, plain_target, target_by, target_by_holder, target_in, target_names, target_of, targets_of, unless_too_long};
ghost use Rattle.inc_volume.specs.declared.mounting.refusal.MountRefusal.TheVariants.{Bad as bad_file};

use crate::OutOfMemory;
use crate::holder::{Holder, find_holder};
use crate::judging::{fits_in, judge};
use crate::mounting::refusal::MountRefusal;
use crate::mounting::target::{Target, TargetList};
use crate::verdict::Verdict;
use inc_bytes::Id;
use inc_header::{Header, HeaderKind};
use inc_io::{Backing, LendFault, Name, ReadShelf};
use inc_layout::LayoutFault;
use inc_mapped::MappedFile;
use inc_tree::Geometry;
use std::alloc::Global;

/// A file of more bytes isn't mounted.
const MOST: u64 = 1 << 46;

/// The targets of all names, in their order, or the refusal of the first that has none.
pub fn plan<S: ReadShelf>(
    alloc: Global,
    shelf: &mut S,
    names: &[Name],
) -> Result<Result<TargetList, MountRefusal>, LendFault>
    requires { NoneOut (S.out shelf.old) }
    ensures answer { IfSome (S.contents (S.kept shelf.old)) (λ files. IfOk result (λ found. found ≡ targets_of files names.now)) }
    ensures named { IfOk result (λ found. IfOk found (λ targets. target_names targets ≡ names.now)) }
    ensures own { IfOk result (λ found. IfErr found IsJudged) }
    ensures kept { S.kept shelf.new ≡ S.kept shelf.old }
    ensures back { NoneOut (S.out shelf.new) }
    ensures cause { HasCauseAt lend_failed (S.faults shelf.old) (S.faults shelf.new) result }
{
    let mut list = TargetList::new(alloc);
    let mut rest = names;
    while let [name, after @ ..] = rest {
        match target_for(alloc, shelf, name)? {
            Ok(target) => list.push(target)?,
            Err(refusal) => return Ok(Err(refusal)),
        }
        rest = after;
    }
    Ok(Ok(list))
}

/// The target of one name.
fn target_for<S: ReadShelf>(
    alloc: Global,
    shelf: &mut S,
    name: &Name,
) -> Result<Result<Target, MountRefusal>, LendFault>
    requires { NoneOut (S.out shelf.old) }
    ensures answer { IfSome (S.contents (S.kept shelf.old)) (λ files. IfOk result (λ found. found ≡ target_of files name.now)) }
    ensures named { IfOk result (λ found. IfOk found (λ target. target.name ≡ name.now)) }
    ensures own { IfOk result (λ found. IfErr found IsJudged) }
    ensures kept { S.kept shelf.new ≡ S.kept shelf.old }
    ensures back { NoneOut (S.out shelf.new) }
    ensures cause { HasCauseAt lend_failed (S.faults shelf.old) (S.faults shelf.new) result }
{
    match judge(alloc, shelf, name)? {
        Some(verdict) => target_by(alloc, shelf, name, verdict),
        None => Ok(Err(MountRefusal::Missing {
            name: name.copy(alloc)?,
        })),
    }
}

/// The target of a name with this verdict.
fn target_by<S: ReadShelf>(
    alloc: Global,
    shelf: &mut S,
    name: &Name,
    verdict: Verdict,
) -> Result<Result<Target, MountRefusal>, LendFault>
    requires none_out { NoneOut (S.out shelf.old) }
    requires own { IsByFile verdict }
    requires mapping { HasMapping verdict }
    ensures answer { IfSome (S.contents (S.kept shelf.old)) (λ files. IfOk result (λ found. found ≡ target_by files name.now (Some verdict))) }
    ensures named { IfOk result (λ found. IfOk found (λ target. target.name ≡ name.now)) }
    ensures own { IfOk result (λ found. IfErr found IsJudged) }
    ensures kept { S.kept shelf.new ≡ S.kept shelf.old }
    ensures back { NoneOut (S.out shelf.new) }
    ensures cause { HasCauseAt lend_failed (S.faults shelf.old) (S.faults shelf.new) result }
{
    match verdict {
        Verdict::Plain { .. } => {
            let target = plain_target(alloc, name)?;
            unless_too_long(shelf, target)
        }
        Verdict::Mapped {
            original,
            offset,
            size,
        } => target_by_holder(alloc, shelf, name, original, offset, size),
        Verdict::SameId { id } => Ok(Err(bad(alloc, name, Verdict::SameId { id })?)),
        Verdict::NoOriginal { original } => {
            Ok(Err(bad(alloc, name, Verdict::NoOriginal { original })?))
        }
        Verdict::PastOriginal { original } => {
            Ok(Err(bad(alloc, name, Verdict::PastOriginal { original })?))
        }
        Verdict::Refused(fault) => Ok(Err(bad(alloc, name, Verdict::Refused(fault))?)),
    }
}

/// The target of a name that shows a part of the file with this id.
fn target_by_holder<S: ReadShelf>(
    alloc: Global,
    shelf: &mut S,
    name: &Name,
    original: Id,
    offset: u64,
    size: u64,
) -> Result<Result<Target, MountRefusal>, LendFault>
    requires none_out { NoneOut (S.out shelf.old) }
    requires begin { offset % 4096 ≡ 0 }
    requires end { offset + size < 2 ^ 64 }
    ensures answer { IfSome (S.contents (S.kept shelf.old)) (λ files. IfOk result (λ found. found ≡ target_by_holder files name.now original offset size (holder_of files original))) }
    ensures named { IfOk result (λ found. IfOk found (λ target. target.name ≡ name.now)) }
    ensures own { IfOk result (λ found. IfErr found IsJudged) }
    ensures kept { S.kept shelf.new ≡ S.kept shelf.old }
    ensures back { NoneOut (S.out shelf.new) }
    ensures cause { HasCauseAt lend_failed (S.faults shelf.old) (S.faults shelf.new) result }
{
    match find_holder(alloc, shelf, &original)? {
        Some(holder) => {
            if fits_in(offset, size, holder.size) {
                target_in(alloc, shelf, name, offset, size, holder)
            } else {
                Ok(Err(bad(alloc, name, Verdict::PastOriginal { original })?))
            }
        }
        None => Ok(Err(bad(alloc, name, Verdict::NoOriginal { original })?)),
    }
}

/// The target of a name that shows a part which ends in its original.
fn target_in<S: ReadShelf>(
    alloc: Global,
    shelf: &mut S,
    name: &Name,
    offset: u64,
    size: u64,
    holder: Holder,
) -> Result<Result<Target, MountRefusal>, LendFault>
    requires none_out { NoneOut (S.out shelf.old) }
    requires begin { offset % 4096 ≡ 0 }
    requires fits { offset + size ≤ holder.size }
    requires small { holder.size ≤ most_size }
    ensures answer { IfSome (S.contents (S.kept shelf.old)) (λ files. IfOk result (λ found. found ≡ target_in files name.now offset size holder)) }
    ensures named { IfOk result (λ found. IfOk found (λ target. target.name ≡ name.now)) }
    ensures own { IfOk result (λ found. IfErr found IsJudged) }
    ensures kept { S.kept shelf.new ≡ S.kept shelf.old }
    ensures back { NoneOut (S.out shelf.new) }
    ensures cause { HasCauseAt lend_failed (S.faults shelf.old) (S.faults shelf.new) result }
{
    let part = part_of(offset, size, holder.size);
    let target = Target {
        name: name.copy(alloc)?,
        file: holder.name,
        part: Some(part),
    };
    unless_too_long(shelf, target)
}

/// What a mapped file shows of an original of so many bytes.
fn part_of(offset: u64, size: u64, whole: u64) -> MappedFile
    requires begin { offset % 4096 ≡ 0 }
    requires fits { offset + size ≤ whole }
    requires small { whole ≤ most_size }
    ensures value { result ≡ record { offset = offset; size = size } }
{
    let header = Header {
        kind: HeaderKind::Mapped { offset },
        size,
        id: [0; 16],
    };
    let Ok(geometry) = Geometry::of(whole) else {
        unreachable!()
    };
    let Ok(part) = MappedFile::of(&header, &geometry) else {
        unreachable!()
    };
    part
}

fn plain_target(alloc: Global, name: &Name) -> Result<Target, OutOfMemory>
    ensures value { IfOk result (λ target. target ≡ plain_target name.now) }
{
    Ok(Target {
        name: name.copy(alloc)?,
        file: name.copy(alloc)?,
        part: None,
    })
}

/// The target, where its file isn't too long to be mounted.
fn unless_too_long<S: ReadShelf>(
    shelf: &mut S,
    target: Target,
) -> Result<Result<Target, MountRefusal>, LendFault>
    requires { NoneOut (S.out shelf.old) }
    ensures answer { IfSome (S.contents (S.kept shelf.old)) (λ files. IfOk result (λ found. found ≡ unless_too_long target (is_short_at files target.file))) }
    ensures same { IfOk result (λ found. IfOk found (λ given. given ≡ target)) }
    ensures own { IfOk result (λ found. IfErr found IsJudged) }
    ensures kept { S.kept shelf.new ≡ S.kept shelf.old }
    ensures back { NoneOut (S.out shelf.new) }
    ensures cause { HasCauseAt lend_failed (S.faults shelf.old) (S.faults shelf.new) result }
{
    match is_short_at(shelf, &target.file)? {
        Some(short) => Ok(if_short(target, short)),
        None => {
            let Target { file, .. } = target;
            Ok(Err(MountRefusal::Missing { name: file }))
        }
    }
}

fn if_short(target: Target, short: bool) -> Result<Target, MountRefusal>
    ensures value { result ≡ if_short target short }
    ensures same { IfOk result (λ given. given ≡ target) }
    ensures own { IfErr result IsJudged }
{
    if short {
        return Ok(target);
    }
    let Target { file, .. } = target;
    Err(MountRefusal::Bad {
        name: file,
        verdict: Verdict::Refused(LayoutFault::TooLong),
    })
}

/// Whether the file under a name may be mounted by its length, where one stands there.
fn is_short_at<S: ReadShelf>(shelf: &mut S, name: &Name) -> Result<Option<bool>, LendFault>
    requires { NoneOut (S.out shelf.old) }
    ensures answer { IfSome (S.contents (S.kept shelf.old)) (λ files. IfOk result (λ short. short ≡ is_short_at files name.now)) }
    ensures kept { S.kept shelf.new ≡ S.kept shelf.old }
    ensures back { NoneOut (S.out shelf.new) }
    ensures cause { HasCauseAt lend_failed (S.faults shelf.old) (S.faults shelf.new) result }
{
    let Some(mut file) = shelf.open_read(name)? else {
        return Ok(None);
    };
    let short = is_short(&mut file);
    shelf.close_read(name, file);
    Ok(Some(short?))
}

fn is_short<B: Backing>(file: &mut B) -> Result<bool, LendFault>
    ensures answer { IfSome (B.reads (B.kept file.old)) (λ bytes. IfOk result (λ short. short ≡ is_short bytes)) }
    ensures kept { B.kept file.new ≡ B.kept file.old }
    ensures cause { HasCauseAt lend_failed (B.faults file.old) (B.faults file.new) result }
{
    let len = file.len()?;
    Ok(len <= MOST)
}

/// The file under the name isn't good.
fn bad(alloc: Global, name: &Name, verdict: Verdict) -> Result<MountRefusal, OutOfMemory>
    requires { IsRefusing verdict }
    ensures value { IfOk result (λ refusal. refusal ≡ bad_file name.now verdict) }
    ensures own { IfOk result IsJudged }
{
    Ok(MountRefusal::Bad {
        name: name.copy(alloc)?,
        verdict,
    })
}
