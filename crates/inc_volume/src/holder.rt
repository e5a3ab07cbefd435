// Who keeps an id.
ghost use Rattle.std.specs.Prelude.{◌≡◌, ◌≤◌, false, None, IfSome, IfOk};
ghost use Rattle.inc_io.specs.Causes.{HasCauseAt};
ghost use Rattle.inc_io.specs.Outside.{NoneOut};
ghost use Rattle.inc_io.specs.declared.failed.LendFault.TheVariants.{Failed as lend_failed};
ghost use Rattle.std.specs.Str.{bytes_eq};
ghost use Rattle.inc_tree.specs.shape.Limits.{most_size};
ghost use Rattle.inc_volume.specs.Standings.{HasPart, headless, standing_of};
ghost use Rattle.inc_volume.specs.Verdicts.{first_holder, holder_of, size_held, size_with};

use crate::standing::{Standing, stand};
use inc_bytes::Id;
use inc_header::HeaderKind;
use inc_io::{Backing, LendFault, Name, ReadShelf};
use inc_layout::{LayoutFault, read_front};
use std::alloc::Global;

/// The file that keeps an id.
#[derive(Drop)]
pub struct Holder {
    pub name: Name,
    /// The size of its content.
    pub size: u64,
}

/// The file that keeps an id, where one does. Of the files before it those of another id aren't read beyond their headers, and those
/// behind it aren't opened.
pub fn find_holder<S: ReadShelf>(
    alloc: Global,
    shelf: &mut S,
    id: &Id,
) -> Result<Option<Holder>, LendFault>
    requires { NoneOut (S.out shelf.old) }
    ensures answer { IfSome (S.contents (S.kept shelf.old)) (λ files. IfOk result (λ holder. holder ≡ holder_of files id.now)) }
    ensures small { IfOk result (λ holder. IfSome holder (λ holder. holder.size ≤ most_size)) }
    ensures kept { S.kept shelf.new ≡ S.kept shelf.old }
    ensures back { NoneOut (S.out shelf.new) }
    ensures cause { HasCauseAt lend_failed (S.faults shelf.old) (S.faults shelf.new) result }
{
    let names = shelf.names()?;
    first_holder(alloc, shelf, names.as_slice(), id)
}

/// The first of these names under which a plain file with the id stands.
fn first_holder<S: ReadShelf>(
    alloc: Global,
    shelf: &mut S,
    names: &[Name],
    id: &Id,
) -> Result<Option<Holder>, LendFault>
    requires { NoneOut (S.out shelf.old) }
    ensures answer { IfSome (S.contents (S.kept shelf.old)) (λ files. IfOk result (λ holder. holder ≡ first_holder files id.now names.now)) }
    ensures small { IfOk result (λ holder. IfSome holder (λ holder. holder.size ≤ most_size)) }
    ensures kept { S.kept shelf.new ≡ S.kept shelf.old }
    ensures back { NoneOut (S.out shelf.new) }
    ensures cause { HasCauseAt lend_failed (S.faults shelf.old) (S.faults shelf.new) result }
{
    let mut rest = names;
    while let [name, after @ ..] = rest {
        if let Some(size) = size_held(alloc, shelf, name, id)? {
            return Ok(Some(Holder {
                name: name.copy(alloc)?,
                size,
            }));
        }
        rest = after;
    }
    Ok(None)
}

/// The size of the plain file under a name, where one with the id stands there.
fn size_held<S: ReadShelf>(
    alloc: Global,
    shelf: &mut S,
    name: &Name,
    id: &Id,
) -> Result<Option<u64>, LendFault>
    requires { NoneOut (S.out shelf.old) }
    ensures answer { IfSome (S.contents (S.kept shelf.old)) (λ files. IfOk result (λ size. size ≡ size_held files id.now name.now)) }
    ensures small { IfOk result (λ size. IfSome size (λ size. size ≤ most_size)) }
    ensures kept { S.kept shelf.new ≡ S.kept shelf.old }
    ensures back { NoneOut (S.out shelf.new) }
    ensures cause { HasCauseAt lend_failed (S.faults shelf.old) (S.faults shelf.new) result }
{
    let Some(mut file) = shelf.open_read(name)? else {
        return Ok(None);
    };
    let size = size_in(alloc, &mut file, id);
    shelf.close_read(name, file);
    size
}

/// The size of a plain file with this id. A file with another header is read no further.
fn size_in<B: Backing>(alloc: Global, file: &mut B, id: &Id) -> Result<Option<u64>, LendFault>
    ensures answer { IfSome (B.reads (B.kept file.old)) (λ bytes. IfOk result (λ size. size ≡ size_with id.now (standing_of bytes))) }
    ensures small { IfOk result (λ size. IfSome size (λ size. size ≤ most_size)) }
    ensures kept { B.kept file.new ≡ B.kept file.old }
    ensures cause { HasCauseAt lend_failed (B.faults file.old) (B.faults file.new) result }
{
    if !may_hold(file, id)? {
        return Ok(None);
    }
    let standing = stand(alloc, file)?;
    Ok(size_with(&standing, id))
}

/// Whether a file's header leaves it open that the file is a plain one with this id.
fn may_hold<B: Backing>(file: &mut B, id: &Id) -> Result<bool, LendFault>
    ensures passed { IfSome (B.reads (B.kept file.old)) (λ bytes. IfOk result (λ may. may ≡ false → size_with id.now (standing_of bytes) ≡ None)) }
    ensures kept { B.kept file.new ≡ B.kept file.old }
    ensures cause { HasCauseAt lend_failed (B.faults file.old) (B.faults file.new) result }
{
    match read_front(file) {
        Ok(front) => match front.header.kind {
            HeaderKind::Plain { .. } => Ok(is_same(front.header.id.as_slice(), id.as_slice())),
            HeaderKind::Mapped { .. } => Ok(false),
        },
        Err(fault) => no_header(fault),
    }
}

/// A file without a header holds nothing; a failing device, or want of memory, says nothing of it.
fn no_header(fault: LayoutFault) -> Result<bool, LendFault>
    ensures value { result ≡ headless fault }
{
    match fault {
        LayoutFault::ReadFault => Err(LendFault::Failed),
        LayoutFault::OutOfMemory => Err(LendFault::OutOfMemory),
        _ => Ok(false),
    }
}

pub fn size_with(standing: &Standing, id: &Id) -> Option<u64>
    ensures value { result ≡ size_with id.now standing.now }
    ensures small { HasPart standing.now → IfSome result (λ size. size ≤ most_size) }
{
    match standing {
        Standing::Plain { id: own, size, .. } => {
            if is_same(own.as_slice(), id.as_slice()) {
                Some(*size)
            } else {
                None
            }
        }
        Standing::Part { .. } => None,
        Standing::Refused(_) => None,
    }
}

fn is_same(id: &[u8], other: &[u8]) -> bool
    ensures value { result ≡ bytes_eq id.now other.now }
{
    id == other
}
