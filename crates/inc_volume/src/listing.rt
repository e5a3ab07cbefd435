// The verdicts of all names.
ghost use Rattle.std.specs.Prelude.{◌≡◌, map, IfSome, IfOk};
ghost use Rattle.std.specs.FinMap.{keys};
ghost use Rattle.inc_io.specs.Causes.{HasCauseAt};
ghost use Rattle.inc_io.specs.Outside.{NoneOut};
ghost use Rattle.inc_io.specs.declared.failed.LendFault.TheVariants.{Failed as lend_failed};
ghost use Rattle.inc_volume.specs.Standings.{HasFileFault, HaveFileFaults};
ghost use Rattle.inc_volume.specs.Verdicts.{AreByFile, AreVerdicts, holder_in, judged_rows, named_standing, standings_among, verdict_with, verdicts_of};

use crate::OutOfMemory;
use crate::holder::{Holder, size_with};
use crate::judging::{part_verdict, plain_verdict, stand_at};
use crate::standing::Standing;
use crate::verdict::Verdict;
use inc_bytes::{Id, Rows};
use inc_io::{LendFault, Name, ReadShelf};
use std::alloc::Global;

/// Names with their verdicts.
pub type VerdictList = Rows<(Name, Verdict)>;

/// Names with what their files say of themselves.
type StandingList = Rows<(Name, Standing)>;

/// The verdicts of all names, in the byte order of names. Each file is opened once, and no block is read.
pub fn survey<S: ReadShelf>(alloc: Global, shelf: &mut S) -> Result<VerdictList, LendFault>
    requires { NoneOut (S.out shelf.old) }
    // The answer is computed so.
    ensures answer { IfSome (S.contents (S.kept shelf.old)) (λ files. IfOk result (λ list. list ≡ verdicts_of files)) }
    // In words each name of the shelf has one verdict, and it is what stands there.
    ensures names { IfSome (S.contents (S.kept shelf.old)) (λ files. IfOk result (λ list. map (λ row. row.0) list ≡ keys files)) }
    ensures meaning { IfSome (S.contents (S.kept shelf.old)) (λ files. IfOk result (AreVerdicts files)) }
    // No failing device and no want of memory is told as a fault of a file.
    ensures own { IfOk result (λ list. AreByFile list) }
    ensures kept { S.kept shelf.new ≡ S.kept shelf.old }
    ensures back { NoneOut (S.out shelf.new) }
    ensures cause { HasCauseAt lend_failed (S.faults shelf.old) (S.faults shelf.new) result }
{
    let names = shelf.names()?;
    let standings = stand_all(alloc, shelf, names.as_slice())?;
    Ok(judge_all(alloc, standings.as_slice())?)
}

/// What the files under these names say of themselves.
#[tactic(auto, using(crate::proofs::OwnFaults::standings_with))]
fn stand_all<S: ReadShelf>(
    alloc: Global,
    shelf: &mut S,
    names: &[Name],
) -> Result<StandingList, LendFault>
    requires { NoneOut (S.out shelf.old) }
    ensures answer { IfSome (S.contents (S.kept shelf.old)) (λ files. IfOk result (λ list. list ≡ standings_among files names.now)) }
    ensures own { IfOk result (λ list. HaveFileFaults list) }
    ensures kept { S.kept shelf.new ≡ S.kept shelf.old }
    ensures back { NoneOut (S.out shelf.new) }
    ensures cause { HasCauseAt lend_failed (S.faults shelf.old) (S.faults shelf.new) result }
{
    let mut list = StandingList::new(alloc);
    let mut rest = names;
    while let [name, after @ ..] = rest {
        if let Some(row) = stand_row(alloc, shelf, name)? {
            list.push(row)?;
        }
        rest = after;
    }
    Ok(list)
}

/// A name with what its file says of itself, where one stands there.
fn stand_row<S: ReadShelf>(
    alloc: Global,
    shelf: &mut S,
    name: &Name,
) -> Result<Option<(Name, Standing)>, LendFault>
    requires { NoneOut (S.out shelf.old) }
    ensures answer { IfSome (S.contents (S.kept shelf.old)) (λ files. IfOk result (λ row. row ≡ named_standing files name.now)) }
    ensures own { IfOk result (λ row. IfSome row (λ row. HasFileFault row.1)) }
    ensures kept { S.kept shelf.new ≡ S.kept shelf.old }
    ensures back { NoneOut (S.out shelf.new) }
    ensures cause { HasCauseAt lend_failed (S.faults shelf.old) (S.faults shelf.new) result }
{
    match stand_at(alloc, shelf, name)? {
        Some(standing) => Ok(Some((name.copy(alloc)?, standing))),
        None => Ok(None),
    }
}

/// The verdicts of these files, where they are all of the shelf.
fn judge_all(alloc: Global, all: &[(Name, Standing)]) -> Result<VerdictList, OutOfMemory>
    ensures value { IfOk result (λ list. list ≡ judged_rows (holder_in all.now) all.now) }
{
    let mut list = VerdictList::new(alloc);
    let mut rest = all;
    while let [row, after @ ..] = rest {
        let verdict = verdict_among(alloc, all, &row.0, row.1)?;
        list.push((row.0.copy(alloc)?, verdict))?;
        rest = after;
    }
    Ok(list)
}

/// The verdict of a file by what all files say of themselves.
fn verdict_among(
    alloc: Global,
    all: &[(Name, Standing)],
    name: &Name,
    standing: Standing,
) -> Result<Verdict, OutOfMemory>
    ensures value { IfOk result (λ verdict. verdict ≡ verdict_with (holder_in all.now) name.now standing) }
{
    match standing {
        Standing::Plain { id, complete, .. } => {
            let holder = holder_in(alloc, all, &id)?;
            Ok(plain_verdict(name, id, complete, &holder))
        }
        Standing::Part {
            original,
            offset,
            size,
        } => {
            let holder = holder_in(alloc, all, &original)?;
            Ok(part_verdict(original, offset, size, &holder))
        }
        Standing::Refused(fault) => Ok(Verdict::Refused(fault)),
    }
}

/// The first of these files that is a plain one with the id.
fn holder_in(
    alloc: Global,
    all: &[(Name, Standing)],
    id: &Id,
) -> Result<Option<Holder>, OutOfMemory>
    ensures value { IfOk result (λ holder. holder ≡ holder_in all.now id.now) }
{
    let mut rest = all;
    while let [row, after @ ..] = rest {
        if let Some(size) = size_with(&row.1, id) {
            return Ok(Some(Holder {
                name: row.0.copy(alloc)?,
                size,
            }));
        }
        rest = after;
    }
    Ok(None)
}
