// A run of a command, and what it leaves.
ghost use Rattle.std.specs.Prelude.{◌≡◌, [], IfOk};

use inc_cmd::run_plain;
use inc_disk::MemShelf;
use inc_io::{Bytes, MemSink, MemSource, Name, StepClock};
use std::alloc::{AllocError, Global};

/// More bytes than a file has.
pub const ROOM: u64 = 1 << 20;

/// More calls than a command makes of a file.
pub const MANY: u32 = 100;

/// Which calls fail.
#[derive(Clone, Copy)]
pub struct Plan<'a> {
    /// Those of a file from this number on.
    pub calls: u32,
    pub shelf: &'a [u64],
    pub input: &'a [u64],
    pub sink: &'a [u64],
}

/// None does.
pub const WELL: Plan<'static> = Plan {
    calls: MANY,
    shelf: &[],
    input: &[],
    sink: &[],
};

/// What a run left.
#[derive(Drop)]
pub struct Run {
    pub status: u8,
    pub text: Vec<u8>,
    /// What stands under the name.
    pub file: Option<Vec<u8>>,
}

/// A run of a command over a shelf on which the second word names this file, or none.
pub fn over_shelf(
    alloc: Global,
    words: &str,
    file: Option<&[u8]>,
    given: &[u8],
    plan: Plan,
) -> Result<Run, AllocError> {
    let name = name_in(alloc, words)?;
    let mut shelf = shelf_with(alloc, &name, file, plan)?;
    let (status, text) = run_over(alloc, words, &mut shelf, given, plan)?;
    let file = file_under(alloc, &shelf, &name)?;
    Ok(Run { status, text, file })
}

/// Status and text of a run over this shelf.
pub fn run_over(
    alloc: Global,
    words: &str,
    shelf: &mut MemShelf,
    given: &[u8],
    plan: Plan,
) -> Result<(u8, Vec<u8>), AllocError>
    requires none_out { shelf.old.out ≡ [] }
{
    let list = words_of(alloc, words)?;
    let mut input = MemSource::new(Bytes::of(alloc, given)?, 20, plan.input.to_vec(alloc)?);
    let mut out = MemSink::new(alloc, 1 << 16, 1000, plan.sink.to_vec(alloc)?)?;
    let clock = StepClock::new(0, 1);
    let status = run_plain(alloc, list.as_slice(), shelf, &mut input, &mut out, &clock);
    Ok((status.0, out.bytes().to_vec(alloc)?))
}

fn words_of(alloc: Global, words: &str) -> Result<Vec<String>, AllocError> {
    let mut list = Vec::new(alloc);
    for word in words.split_ascii_whitespace() {
        list.push(String::from_str(alloc, word)?)?;
    }
    Ok(list)
}

/// The name that the words have, if it is one.
fn name_in(alloc: Global, words: &str) -> Result<Option<Name>, AllocError> {
    let word = words.split_ascii_whitespace().nth(1).unwrap_or("");
    Name::of(alloc, word.as_bytes())
}

fn shelf_with(
    alloc: Global,
    name: &Option<Name>,
    file: Option<&[u8]>,
    plan: Plan,
) -> Result<MemShelf, AllocError>
    ensures none_out { IfOk result (λ shelf. shelf.out ≡ []) }
{
    let mut shelf = MemShelf::new(alloc, ROOM, plan.calls);
    if let Some(name) = name {
        if let Some(bytes) = file {
            shelf.put(name.copy(alloc)?, Bytes::of(alloc, bytes)?)?;
        }
    }
    shelf.fail(plan.shelf.to_vec(alloc)?);
    Ok(shelf)
}

/// What stands under the name.
fn file_under(
    alloc: Global,
    shelf: &MemShelf,
    name: &Option<Name>,
) -> Result<Option<Vec<u8>>, AllocError> {
    let Some(name) = name else {
        return Ok(None);
    };
    match shelf.bytes(name) {
        Some(bytes) => Ok(Some(bytes.to_vec(alloc)?)),
        None => Ok(None),
    }
}

/// Whether a command over a file ends with this status and says this.
pub fn says(alloc: Global, file: &[u8], words: &str, status: u8, text: &[u8]) -> bool {
    match over_shelf(alloc, words, Some(file), &[], WELL) {
        Ok(run) => run.status == status && run.text.as_slice() == text,
        Err(_) => false,
    }
}
