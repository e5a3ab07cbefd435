// What a cell takes memory for as it is made.
ghost use Rattle.std.specs.Prelude.{◌≡◌, [], IfOk};
ghost use Rattle.inc_layout.specs.opening.Opening.{IsSoundOpened};
ghost use Rattle.inc_readlog.specs.Log.{Tells, empty_log};
ghost use Rattle.inc_cell.specs.seen.Opens.{opened_spots};
ghost use Rattle.inc_cell.specs.seen.Parts.{opening_of};
ghost use Rattle.inc_cell.specs.seen.Spots.{spot_of};

use crate::OutOfMemory;
use crate::parts::book::Book;
use inc_entry::Class;
use inc_layout::Opened;
use inc_readlog::ReadLog;
use std::alloc::Global;

/// The reads that a file's log keeps.
pub const LOGGED_READS: usize = 1024;

#[derive(Drop)]
pub struct CellParts {
    pub book: Book,
    pub spots: Vec<u64>,
    pub log: ReadLog,
}

fn spot_of(class: Class) -> u64
    ensures value { result ≡ spot_of class }
{
    match class {
        Class::OpenAt { place, .. } => place,
        Class::Damaged | Class::Compressed | Class::Closed => 0,
    }
}

/// The places of the blocks that are there, by index.
fn spots_of(alloc: Global, classes: &[Class]) -> Result<Vec<u64>, OutOfMemory>
    ensures value { IfOk result (λ spots. spots.items ≡ opened_spots classes.now) }
{
    classes.iter().map(|class| spot_of(*class)).collect(alloc)
}

/// All that a cell of a mounted file needs beside its disk.
pub fn take_parts(
    alloc: Global,
    opened: &Opened,
    faults: u64,
    readers: u32,
) -> Result<CellParts, OutOfMemory>
    requires sound { IsSoundOpened opened.now }
    ensures state { IfOk result (λ parts. parts.book.state ≡ opening_of opened.now faults readers) }
    ensures history { IfOk result (λ parts. parts.book.history ≡ []) }
    ensures spots { IfOk result (λ parts. parts.spots.items ≡ opened_spots opened.now.classes) }
    ensures log { IfOk result (λ parts. parts.log ≡ empty_log 1024) }
    ensures told { IfOk result (λ parts. Tells [] parts.log) }
{
    let book = Book::open(alloc, opened, faults, readers)?;
    let spots = spots_of(alloc, opened.classes.as_slice())?;
    let log = ReadLog::new(alloc, LOGGED_READS)?;
    Ok(CellParts { book, spots, log })
}
