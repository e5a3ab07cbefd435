ghost use Rattle.std.specs.Prelude.{◌≡◌, ◌≤◌, length, IfOk, OnOk, OnErr};
ghost use Rattle.std.specs.FinMap.{keys};
ghost use Rattle.std.specs.Option.{option_copied};
ghost use Rattle.std.specs.Ordering.{nat_cmp, is_gt, eq_by_cmp};
ghost use Rattle.std.specs.Cmp.Lexicographic.{slice_cmp};
ghost use Rattle.std.specs.Str.{bytes_eq};
ghost use Rattle.inc_disk.specs.Book.{log_of, place_among, with_name};
ghost use Rattle.inc_disk.specs.Log.{contents_of, newest_of};

use crate::OutOfMemory;
use crate::entry::Entry;
use crate::state::State;
use inc_io::{Name, NameList};
use std::alloc::Global;

/// The newest state of a name.
pub fn newest<'a>(entries: &'a [Entry], name: &str) -> Option<&'a State>
    ensures value { option_copied result ≡ newest_of name.now (log_of entries.now) }
{
    let mut found = None;
    for entry in entries {
        if is_same(name, entry.name.as_str()) {
            found = Some(entry.history.state());
        }
    }
    found
}

/// The names of all entries, each once, in byte order.
pub fn names_of(alloc: Global, entries: &[Entry]) -> Result<NameList, OutOfMemory>
    ensures value { IfOk result (λ names. names ≡ keys (contents_of (log_of entries.now))) }
{
    let mut names = Vec::new(alloc);
    for entry in entries {
        let _ = entry.history.state();
        put_name(alloc, &mut names, &entry.name)?;
    }
    Ok(NameList::from_vec(names))
}

/// Puts a name into its place among names in byte order, where it isn't there.
fn put_name(alloc: Global, names: &mut Vec<Name>, name: &Name) -> Result<(), OutOfMemory>
    ensures ok { OnOk result (names.new.items ≡ with_name name.now names.old.items) }
    ensures err { OnErr result (names.new.items ≡ names.old.items) }
{
    let at = place_among(names.as_slice(), name.as_str());
    if at < names.len() && is_same(name.as_str(), names[at].as_str()) {
        return Ok(());
    }
    names.insert(at, name.copy(alloc)?)?;
    Ok(())
}

/// How many of the names that stand first are below this one.
fn place_among(names: &[Name], name: &str) -> usize
    ensures value { result ≡ place_among name.now names.now }
    ensures within { result ≤ length names.now }
{
    let mut at = 0;
    let mut rest = names;
    while let [other, after @ ..] = rest {
        if !is_above(name, other.as_str()) {
            break;
        }
        at += 1;
        rest = after;
    }
    at
}

fn is_above(name: &str, other: &str) -> bool
    ensures value { result ≡ is_gt (slice_cmp nat_cmp name.now other.now) }
{
    name.cmp(other).is_gt()
}

fn is_same(name: &str, other: &str) -> bool
    ensures value { result ≡ bytes_eq name.now other.now }
{
    name == other
}
