// What a file says without any other file.
ghost use Rattle.std.specs.Prelude.{◌≡◌, Bool, IfSome, IfOk, OnErr, take};
ghost use Rattle.std.specs.List.{list_all};
ghost use Rattle.inc_io.specs.Causes.{HasCauseAt};
ghost use Rattle.inc_io.specs.declared.failed.LendFault.TheVariants.{Failed as lend_failed};
ghost use Rattle.inc_header.specs.Header.{IsHeader};
ghost use Rattle.inc_entry.specs.Stored.{is_open_class};
ghost use Rattle.inc_layout.specs.fixed.Fixed.{front_of};
ghost use Rattle.inc_layout.specs.opening.Faults.{IsOwnFault};
ghost use Rattle.inc_layout.specs.opening.Opening.{IsSoundLayout};
ghost use Rattle.inc_volume.specs.Standings.{HasFileFault, HasPart, part_in, part_standing, plain_standing, standing_by_fault, standing_of};

use inc_bytes::Id;
use inc_entry::Class;
use inc_header::{Header, HeaderKind};
use inc_io::{Backing, LendFault};
use inc_layout::{Layout, LayoutFault, open_shape, read_front};
use std::alloc::Global;

/// What a file's bytes say of it.
#[derive(Clone, Copy)]
pub enum Standing {
    /// A file with blocks of its own that stands, and whether all of its data blocks are there.
    Plain {
        id: Id,
        size: u64,
        complete: bool,
    },
    /// So many bytes from an offset on of the file with this id.
    Part {
        original: Id,
        offset: u64,
        size: u64,
    },
    /// The first test that the file fails.
    Refused(LayoutFault),
}

/// Reads what a file says of itself. It reads no block.
pub fn stand<B: Backing>(alloc: Global, file: &mut B) -> Result<Standing, LendFault>
    ensures answer { IfSome (B.reads (B.kept file.old)) (λ bytes. IfOk result (λ standing. standing ≡ standing_of bytes)) }
    ensures own { IfOk result (λ standing. HasFileFault standing) }
    ensures part { IfOk result HasPart }
    ensures kept { B.kept file.new ≡ B.kept file.old }
    ensures cause { HasCauseAt lend_failed (B.faults file.old) (B.faults file.new) result }
{
    match open_shape(alloc, file) {
        Ok(layout) => Ok(plain(&layout)),
        Err(fault) => match fault {
            LayoutFault::Mapped => part_of(file),
            _ => refused(fault),
        },
    }
}

/// What the header of a file says that is no plain one.
fn part_of<B: Backing>(file: &mut B) -> Result<Standing, LendFault>
    ensures answer { IfSome (B.reads (B.kept file.old)) (λ bytes. IfOk result (λ standing. standing ≡ part_standing (front_of bytes))) }
    ensures own { IfOk result (λ standing. HasFileFault standing) }
    ensures part { IfOk result HasPart }
    ensures kept { B.kept file.new ≡ B.kept file.old }
    ensures cause { HasCauseAt lend_failed (B.faults file.old) (B.faults file.new) result }
{
    match read_front(file) {
        Ok(front) => Ok(part(&front.header)),
        Err(fault) => refused(fault),
    }
}

fn plain(layout: &Layout) -> Standing
    requires { IsSoundLayout layout.now }
    ensures part { HasPart result }
    ensures value { result ≡ plain_standing layout.now }
    ensures own { HasFileFault result }
{
    let count = layout.areas.geometry.data_blocks();
    let (first, _) = layout.classes.as_slice().split_at(count as usize);
    Standing::Plain {
        id: layout.header.id,
        size: layout.areas.geometry.size(),
        complete: are_open(first),
    }
}

fn are_open(classes: &[Class]) -> bool
    ensures value { result ≡ list_all is_open_class classes.now }
{
    classes.iter().all(|class| is_open(*class))
}

fn is_open(class: Class) -> bool
    ensures value { result ≡ is_open_class class }
{
    matches!(class, Class::OpenAt { .. })
}

fn part(header: &Header) -> Standing
    requires { IsHeader header.now }
    ensures part { HasPart result }
    ensures value { result ≡ part_in header.now header.now.kind }
    ensures own { HasFileFault result }
{
    match header.kind {
        HeaderKind::Mapped { offset } => Standing::Part {
            original: header.id,
            offset,
            size: header.size,
        },
        HeaderKind::Plain { .. } => Standing::Refused(LayoutFault::Mapped),
    }
}

/// A fault of the file is what it says; one of the device, or want of memory, says nothing of it.
fn refused(fault: LayoutFault) -> Result<Standing, LendFault>
    requires { IsOwnFault fault }
    ensures value { result ≡ standing_by_fault fault }
    ensures own { IfOk result (λ standing. HasFileFault standing) }
    ensures part { IfOk result HasPart }
{
    match fault {
        LayoutFault::ReadFault => Err(LendFault::Failed),
        LayoutFault::OutOfMemory => Err(LendFault::OutOfMemory),
        _ => Ok(Standing::Refused(fault)),
    }
}
