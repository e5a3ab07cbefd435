// The verdict of one name.
ghost use Rattle.std.specs.Prelude.{◌≡◌, ◌+◌, ◌%◌, ◌^◌, ◌<◌, nat_le, IfSome, IfOk};
ghost use Rattle.std.specs.Str.{bytes_eq};
ghost use Rattle.inc_io.specs.Causes.{HasCauseAt};
ghost use Rattle.inc_io.specs.Outside.{NoneOut};
ghost use Rattle.inc_io.specs.declared.failed.LendFault.TheVariants.{Failed as lend_failed};
ghost use Rattle.inc_volume.specs.Standings.{HasFileFault, HasPart};
ghost use Rattle.inc_volume.specs.Verdicts.{HasMapping, IsByFile, IsVerdict, holder_of, part_verdict, plain_verdict, standing_at, verdict_of, verdict_with};

use crate::holder::{Holder, find_holder};
use crate::standing::{Standing, stand};
use crate::verdict::Verdict;
use inc_bytes::Id;
use inc_io::{LendFault, Name, ReadShelf};
use std::alloc::Global;

/// The verdict of a name, where a file stands under it. Beside the file itself only files with its id, or of a mapped file with its
/// original's, are opened beyond their headers, and no block is read.
pub fn judge<S: ReadShelf>(
    alloc: Global,
    shelf: &mut S,
    name: &Name,
) -> Result<Option<Verdict>, LendFault>
    requires { NoneOut (S.out shelf.old) }
    // The answer is computed so.
    ensures answer { IfSome (S.contents (S.kept shelf.old)) (λ files. IfOk result (λ verdict. verdict ≡ verdict_of files name.now)) }
    // In words it is what stands there.
    ensures meaning { IfSome (S.contents (S.kept shelf.old)) (λ files. IfOk result (λ verdict. IfSome verdict (IsVerdict files name.now))) }
    ensures own { IfOk result (λ verdict. IfSome verdict (λ verdict. IsByFile verdict)) }
    ensures mapping { IfOk result (λ verdict. IfSome verdict HasMapping) }
    ensures kept { S.kept shelf.new ≡ S.kept shelf.old }
    ensures back { NoneOut (S.out shelf.new) }
    ensures cause { HasCauseAt lend_failed (S.faults shelf.old) (S.faults shelf.new) result }
{
    match stand_at(alloc, shelf, name)? {
        Some(standing) => Ok(Some(verdict_by(alloc, shelf, name, standing)?)),
        None => Ok(None),
    }
}

/// What the file under a name says of itself, where one stands there.
pub fn stand_at<S: ReadShelf>(
    alloc: Global,
    shelf: &mut S,
    name: &Name,
) -> Result<Option<Standing>, LendFault>
    requires { NoneOut (S.out shelf.old) }
    ensures answer { IfSome (S.contents (S.kept shelf.old)) (λ files. IfOk result (λ standing. standing ≡ standing_at files name.now)) }
    ensures own { IfOk result (λ standing. IfSome standing (λ standing. HasFileFault standing)) }
    ensures part { IfOk result (λ standing. IfSome standing HasPart) }
    ensures kept { S.kept shelf.new ≡ S.kept shelf.old }
    ensures back { NoneOut (S.out shelf.new) }
    ensures cause { HasCauseAt lend_failed (S.faults shelf.old) (S.faults shelf.new) result }
{
    let Some(mut file) = shelf.open_read(name)? else {
        return Ok(None);
    };
    let standing = stand(alloc, &mut file);
    shelf.close_read(name, file);
    Ok(Some(standing?))
}

/// The verdict of a file by what it says of itself.
fn verdict_by<S: ReadShelf>(
    alloc: Global,
    shelf: &mut S,
    name: &Name,
    standing: Standing,
) -> Result<Verdict, LendFault>
    requires none_out { NoneOut (S.out shelf.old) }
    requires own { HasFileFault standing }
    requires part { HasPart standing }
    ensures mapping { IfOk result HasMapping }
    ensures answer { IfSome (S.contents (S.kept shelf.old)) (λ files. IfOk result (λ verdict. verdict ≡ verdict_with (holder_of files) name.now standing)) }
    ensures own { IfOk result (λ verdict. IsByFile verdict) }
    ensures kept { S.kept shelf.new ≡ S.kept shelf.old }
    ensures back { NoneOut (S.out shelf.new) }
    ensures cause { HasCauseAt lend_failed (S.faults shelf.old) (S.faults shelf.new) result }
{
    match standing {
        Standing::Plain { id, complete, .. } => {
            let holder = find_holder(alloc, shelf, &id)?;
            Ok(plain_verdict(name, id, complete, &holder))
        }
        Standing::Part {
            original,
            offset,
            size,
        } => {
            let holder = find_holder(alloc, shelf, &original)?;
            Ok(part_verdict(original, offset, size, &holder))
        }
        Standing::Refused(fault) => Ok(Verdict::Refused(fault)),
    }
}

/// The verdict of a plain file, by who keeps its id.
pub fn plain_verdict(name: &Name, id: Id, complete: bool, holder: &Option<Holder>) -> Verdict
    ensures mapping { HasMapping result }
    ensures value { result ≡ plain_verdict name.now id complete holder.now }
    ensures own { IsByFile result }
{
    match holder {
        Some(holder) => {
            if is_same(holder.name.as_str(), name.as_str()) {
                Verdict::Plain { id, complete }
            } else {
                Verdict::SameId { id }
            }
        }
        None => Verdict::Plain { id, complete },
    }
}

/// The verdict of a mapped file, by who keeps its original's id.
pub fn part_verdict(original: Id, offset: u64, size: u64, holder: &Option<Holder>) -> Verdict
    ensures mapping { offset % 4096 ≡ 0 → offset + size < 2 ^ 64 → HasMapping result }
    ensures value { result ≡ part_verdict original offset size holder.now }
    ensures own { IsByFile result }
{
    match holder {
        Some(holder) => {
            if fits_in(offset, size, holder.size) {
                Verdict::Mapped {
                    original,
                    offset,
                    size,
                }
            } else {
                Verdict::PastOriginal { original }
            }
        }
        None => Verdict::NoOriginal { original },
    }
}

/// Whether so many bytes from an offset on end within a length.
pub fn fits_in(offset: u64, size: u64, len: u64) -> bool
    ensures value { result ≡ nat_le (offset + size) len }
{
    if offset > len {
        return false;
    }
    size <= len - offset
}

fn is_same(name: &str, other: &str) -> bool
    ensures value { result ≡ bytes_eq name.now other.now }
{
    name == other
}
