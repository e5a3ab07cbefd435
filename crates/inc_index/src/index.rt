ghost use Rattle.std.specs.Prelude.{◌≡◌, ◌≢◌, ◌+◌, ◌≤◌, ◌↔◌, ℕ, Bool, List, [], ◌∷◌, length, not, IsTrue, IfOk, OnOk, OnErr, MatchOption};
ghost use Rattle.std.specs.Option.{option_copied};
ghost use Rattle.std.specs.Ordering.{nat_cmp, is_gt};
ghost use Rattle.std.specs.Cmp.Lexicographic.{slice_cmp};
ghost use Rattle.std.specs.Str.{bytes_eq};
ghost use Rattle.inc_index.specs.Index.{AreInIdOrder, HasOneMore, all_listed, has_id, incomplete_listed, is_incomplete, name_of_id};
ghost use Rattle.inc_index.specs.Place.{place_by_id, with_file};
ghost use Rattle.inc_index.specs.declared.index.IndexFault.TheVariants.{OutOfMemory as out_of_memory};

use crate::{Indexed, OutOfMemory};
use inc_bytes::{Id, Rows};
use inc_io::Name;
use std::alloc::{AllocError, AllocFailed, Global};
use std::marker::Model;

/// An id and the name of its file.
pub type IdName = (Id, Name);

pub type IdNameList = Rows<IdName>;

#[derive(Clone, Copy, Debug, PartialEq, Eq)]
pub enum IndexFault {
    /// The id is there already, with another file.
    SameId,
    OutOfMemory,
}

impl From<AllocFailed<Indexed>> for IndexFault {
    ghost from_gives = { λ _ fault. fault ≡ out_of_memory };

    fn from(_: AllocFailed<Indexed>) -> Self {
        IndexFault::OutOfMemory
    }
}

/// Files in the order of their ids.
#[derive(Drop)]
pub struct Index {
    files: Vec<Indexed>,
}

impl Model for Index {
    ghost use Rattle.std.specs.Prelude.{List};
    ghost use Rattle.inc_index.specs.declared.indexed.Indexed.{Indexed};
    ghost use Rattle.inc_index.specs.Index.{AreInIdOrder};

    ghost Value = { List Indexed };

    ghost view = { λ index. index.files.items };

    ghost invariant = { λ index. AreInIdOrder index.files.items };
}

impl Index {
    pub fn new(alloc: Global) -> Index
        ensures empty { result ≡ [] }
    {
        Index {
            files: Vec::new(alloc),
        }
    }

    /// Adds a file, unless its id is there.
    pub fn add(&mut self, id: Id, name: Name, complete: bool) -> Result<(), IndexFault>
        ensures same_id { (result ≡ Err IndexFault.SameId) ↔ IsTrue (has_id id self.old) }
        ensures added { OnOk result (HasOneMore (record { id = id; name = name; complete = complete }) self.old self.new) }
        ensures placed { result ≢ Err IndexFault.OutOfMemory → self.new ≡ with_file (record { id = id; name = name; complete = complete }) self.old }
        ensures kept { OnErr result (self.new ≡ self.old) }
    {
        if has_id(self.files.as_slice(), &id) {
            return Err(IndexFault::SameId);
        }
        let at = place_of(self.files.as_slice(), &id);
        let file = Indexed { id, name, complete };
        self.files.insert(at, file)?;
        Ok(())
    }

    /// The name of the file with this id.
    pub fn by_id(&self, id: &Id) -> Option<&Name>
        ensures value { option_copied result ≡ name_of_id id.now self.now }
    {
        name_of(self.files.as_slice(), id)
    }

    /// All ids with their names, in the order of the ids.
    pub fn index_list(&self, alloc: Global) -> Result<IdNameList, OutOfMemory>
        ensures value { IfOk result (λ list. list ≡ all_listed self.now) }
        ensures order { AreInIdOrder self.now }
    {
        all_listed(alloc, self.files.as_slice())
    }

    /// The ids and names of files that aren't complete, in the order of the ids.
    pub fn incomplete_list(&self, alloc: Global) -> Result<IdNameList, OutOfMemory>
        ensures value { IfOk result (λ list. list ≡ incomplete_listed self.now) }
        ensures order { AreInIdOrder self.now }
    {
        incomplete_listed(alloc, self.files.as_slice())
    }
}

fn name_of<'a>(files: &'a [Indexed], id: &Id) -> Option<&'a Name>
    ensures value { option_copied result ≡ name_of_id id.now files.now }
{
    let mut rest = files;
    while let [file, after @ ..] = rest {
        if is_same(file.id.as_slice(), id.as_slice()) {
            return Some(&file.name);
        }
        rest = after;
    }
    None
}

fn all_listed(alloc: Global, files: &[Indexed]) -> Result<IdNameList, OutOfMemory>
    ensures value { IfOk result (λ list. list ≡ all_listed files.now) }
{
    let mut list = IdNameList::new(alloc);
    let mut rest = files;
    while let [file, after @ ..] = rest {
        list.push(listed(alloc, file)?)?;
        rest = after;
    }
    Ok(list)
}

fn incomplete_listed(alloc: Global, files: &[Indexed]) -> Result<IdNameList, OutOfMemory>
    ensures value { IfOk result (λ list. list ≡ incomplete_listed files.now) }
{
    let mut list = IdNameList::new(alloc);
    let mut rest = files;
    while let [file, after @ ..] = rest {
        if !file.complete {
            list.push(listed(alloc, file)?)?;
        }
        rest = after;
    }
    Ok(list)
}

fn listed(alloc: Global, file: &Indexed) -> Result<IdName, OutOfMemory>
    ensures value { IfOk result (λ both. both ≡ (file.now.id, file.now.name)) }
{
    Ok((file.id, file.name.copy(alloc)?))
}

/// Whether a file of these has this id.
fn has_id(files: &[Indexed], id: &Id) -> bool
    ensures value { result ≡ has_id id.now files.now }
{
    files
        .iter()
        .any(|file| is_same(file.id.as_slice(), id.as_slice()))
}

/// How many of the files that stand first have a lower id.
fn place_of(files: &[Indexed], id: &Id) -> usize
    ensures value { result ≡ place_by_id id.now files.now }
    ensures within { result ≤ length files.now }
{
    let mut at = 0;
    let mut rest = files;
    while let [file, after @ ..] = rest {
        if !is_above(id, &file.id) {
            break;
        }
        at += 1;
        rest = after;
    }
    at
}

fn is_above(id: &Id, other: &Id) -> bool
    ensures value { result ≡ is_gt (slice_cmp nat_cmp id.now other.now) }
{
    id.cmp(other).is_gt()
}

fn is_same(id: &[u8], other: &[u8]) -> bool
    ensures value { result ≡ bytes_eq id.now other.now }
{
    id == other
}
