// What each name of the shelf is.
ghost use Rattle.std.specs.Prelude.{◌≡◌, ◌≢◌, IfNone, IfOk, IfSome, None, OnOk, Some, Err};
ghost use Rattle.std.specs.List.{flat_map};
ghost use Rattle.inc_io.specs.Causes.{HasCauseAt};
ghost use Rattle.inc_io.specs.Outside.{NoneOut};
ghost use Rattle.inc_index.specs.Index.{all_listed, incomplete_listed};
ghost use Rattle.inc_index.specs.Place.{with_file};
ghost use Rattle.inc_volume.specs.Verdicts.{AreByFile, IsByFile};
ghost use Rattle.inc_cmd.specs.Commands.Listing.{ListsNames, incomplete_line, index_line, index_of, index_text, indexed_row, list_ending, list_text, mapped_line, mapped_of, original_in, refusal_in, refusal_line, refused_of, with_row};
ghost use Rattle.inc_words.specs.Endings.{EndsAs};
ghost use Rattle.inc_words.specs.declared.stop.Stop.TheVariants.{Fault as stop_fault};

use crate::OutOfMemory;
use inc_bytes::Id;
use inc_index::{IdName, Index, IndexFault};
use inc_io::{Name, ReadShelf};
use inc_volume::{Verdict, survey};
use inc_words::{
    CommandOutcome, Status, Stop, layout_word, no_original, past_original, refused_line, same_id,
};
use std::alloc::Global;

/// Says of each name what stands under it. It reads no block, and names that are refused are lines like the others.
pub fn list_names<S: ReadShelf>(alloc: Global, shelf: &mut S) -> Result<CommandOutcome, Stop>
    requires { NoneOut (S.out shelf.old) }
    ensures answer { IfSome (S.contents (S.kept shelf.old)) (λ files. IfOk result (EndsAs (list_ending files))) }
    ensures shows { IfSome (S.contents (S.kept shelf.old)) (λ files. IfOk result (λ outcome. outcome.status.0 ≡ 0 → ListsNames files outcome.text.items)) }
    ensures done { IfOk result (λ outcome. outcome.status.0 ≡ 0) }
    ensures kept { S.kept shelf.new ≡ S.kept shelf.old }
    ensures back { NoneOut (S.out shelf.new) }
    ensures cause { HasCauseAt stop_fault (S.faults shelf.old) (S.faults shelf.new) result }
{
    let rows = survey(alloc, shelf)?;
    Ok(CommandOutcome {
        status: Status::DONE,
        text: list_text(alloc, rows.as_slice())?,
    })
}

fn list_text(alloc: Global, rows: &[(Name, Verdict)]) -> Result<Vec<u8>, Stop>
    requires { AreByFile rows.now }
    ensures value { IfOk result (λ text. text.items ≡ list_text rows.now) }
    ensures memory { result ≢ Err stop_fault }
{
    let index = index_of(alloc, rows)?;
    let mut text = index_text(alloc, &index)?;
    text.extend_from_slice(mapped_text(alloc, rows)?.as_slice())?;
    text.extend_from_slice(refused_text(alloc, rows)?.as_slice())?;
    Ok(text)
}

/// The files that keep their ids.
#[tactic(auto, using(crate::proofs::ListingLemmas::beside_last))]
fn index_of(alloc: Global, rows: &[(Name, Verdict)]) -> Result<Index, Stop>
    ensures value { IfOk result (λ index. index ≡ index_of rows.now) }
    ensures memory { result ≢ Err stop_fault }
{
    let mut index = Index::new(alloc);
    let mut rest = rows;
    while let Some((row, before)) = rest.split_last() {
        add_row(alloc, &mut index, row)?;
        rest = before;
    }
    Ok(index)
}

fn add_row(alloc: Global, index: &mut Index, row: &(Name, Verdict)) -> Result<(), Stop>
    ensures value { OnOk result (index.new ≡ with_row (indexed_row row.now) index.old) }
    ensures memory { result ≢ Err stop_fault }
{
    match row.1 {
        Verdict::Plain { id, complete } => add_file(index, id, row.0.copy(alloc)?, complete),
        Verdict::Mapped { .. } => Ok(()),
        Verdict::SameId { .. } => Ok(()),
        Verdict::NoOriginal { .. } => Ok(()),
        Verdict::PastOriginal { .. } => Ok(()),
        Verdict::Refused(_) => Ok(()),
    }
}

/// Adds a file whose id isn't there.
fn add_file(index: &mut Index, id: Id, name: Name, complete: bool) -> Result<(), Stop>
    ensures value { OnOk result (index.new ≡ with_file (record { id = id; name = name; complete = complete }) index.old) }
    ensures memory { result ≢ Err stop_fault }
{
    match index.add(id, name, complete) {
        Ok(()) => Ok(()),
        Err(IndexFault::SameId) => Ok(()),
        Err(IndexFault::OutOfMemory) => Err(Stop::OutOfMemory),
    }
}

fn index_text(alloc: Global, index: &Index) -> Result<Vec<u8>, OutOfMemory>
    ensures value { IfOk result (λ text. text.items ≡ index_text index.now) }
{
    let all = index.index_list(alloc)?;
    let incomplete = index.incomplete_list(alloc)?;
    let mut text = index_lines(alloc, all.as_slice())?;
    text.extend_from_slice(incomplete_lines(alloc, incomplete.as_slice())?.as_slice())?;
    Ok(text)
}

fn index_lines(alloc: Global, files: &[IdName]) -> Result<Vec<u8>, OutOfMemory>
    ensures value { IfOk result (λ text. text.items ≡ flat_map index_line files.now) }
{
    let mut text = Vec::new(alloc);
    for file in files {
        text.extend_from_slice(index_line(alloc, file)?.as_slice())?;
    }
    Ok(text)
}

fn incomplete_lines(alloc: Global, files: &[IdName]) -> Result<Vec<u8>, OutOfMemory>
    ensures value { IfOk result (λ text. text.items ≡ flat_map incomplete_line files.now) }
{
    let mut text = Vec::new(alloc);
    for file in files {
        text.extend_from_slice(incomplete_line(alloc, file)?.as_slice())?;
    }
    Ok(text)
}

#[tactic(auto, unfolding(crate::specs::Commands::Listing::index_line))]
fn index_line(alloc: Global, file: &IdName) -> Result<Vec<u8>, OutOfMemory>
    ensures value { IfOk result (λ line. line.items ≡ index_line file.now) }
{
    let id = hex::encode(alloc, file.0.as_slice())?;
    let mut line = b"index ".to_vec(alloc)?;
    line.extend_from_slice(id.as_bytes())?;
    line.extend_from_slice(b" ")?;
    line.extend_from_slice(file.1.as_slice())?;
    line.extend_from_slice(b"\n")?;
    Ok(line)
}

#[tactic(auto, unfolding(crate::specs::Commands::Listing::incomplete_line))]
fn incomplete_line(alloc: Global, file: &IdName) -> Result<Vec<u8>, OutOfMemory>
    ensures value { IfOk result (λ line. line.items ≡ incomplete_line file.now) }
{
    let id = hex::encode(alloc, file.0.as_slice())?;
    let mut line = b"incomplete ".to_vec(alloc)?;
    line.extend_from_slice(id.as_bytes())?;
    line.extend_from_slice(b" ")?;
    line.extend_from_slice(file.1.as_slice())?;
    line.extend_from_slice(b"\n")?;
    Ok(line)
}

/// A line for each mapped file.
fn mapped_text(alloc: Global, rows: &[(Name, Verdict)]) -> Result<Vec<u8>, OutOfMemory>
    ensures value { IfOk result (λ text. text.items ≡ flat_map mapped_line (mapped_of rows.now)) }
{
    let mut text = Vec::new(alloc);
    let mut rest = rows;
    while let [row, after @ ..] = rest {
        if let Some(original) = original_in(&row.1) {
            text.extend_from_slice(mapped_line(alloc, &row.0, &original)?.as_slice())?;
        }
        rest = after;
    }
    Ok(text)
}

fn original_in(verdict: &Verdict) -> Option<Id>
    ensures value { result ≡ original_in verdict.now }
{
    match verdict {
        Verdict::Mapped { original, .. } => Some(*original),
        Verdict::Plain { .. } => None,
        Verdict::SameId { .. } => None,
        Verdict::NoOriginal { .. } => None,
        Verdict::PastOriginal { .. } => None,
        Verdict::Refused(_) => None,
    }
}

#[tactic(auto, unfolding(crate::specs::Commands::Listing::mapped_line))]
fn mapped_line(alloc: Global, name: &Name, original: &Id) -> Result<Vec<u8>, OutOfMemory>
    ensures value { IfOk result (λ line. line.items ≡ mapped_line (name.now, original.now)) }
{
    let original = hex::encode(alloc, original.as_slice())?;
    let mut line = b"mapped ".to_vec(alloc)?;
    line.extend_from_slice(name.as_slice())?;
    line.extend_from_slice(b" original ")?;
    line.extend_from_slice(original.as_bytes())?;
    line.extend_from_slice(b"\n")?;
    Ok(line)
}

/// A line for each name that is refused.
fn refused_text(alloc: Global, rows: &[(Name, Verdict)]) -> Result<Vec<u8>, Stop>
    requires { AreByFile rows.now }
    ensures value { IfOk result (λ text. text.items ≡ flat_map refusal_line (refused_of rows.now)) }
    ensures memory { result ≢ Err stop_fault }
{
    let mut text = Vec::new(alloc);
    let mut rest = rows;
    while let [row, after @ ..] = rest {
        if let Some(word) = refusal_in(row.1)? {
            text.extend_from_slice(refused_line(alloc, row.0.as_slice(), word)?.as_slice())?;
        }
        rest = after;
    }
    Ok(text)
}

/// The word by which a name is refused, where it is.
fn refusal_in(verdict: Verdict) -> Result<Option<&'static [u8]>, Stop>
    requires { IsByFile verdict }
    ensures word { IfOk result (λ found. IfSome found (λ word. refusal_in verdict ≡ Some word.now)) }
    ensures none { IfOk result (λ found. IfNone found (refusal_in verdict ≡ None)) }
    ensures memory { result ≢ Err stop_fault }
{
    match verdict {
        Verdict::SameId { .. } => Ok(Some(same_id())),
        Verdict::NoOriginal { .. } => Ok(Some(no_original())),
        Verdict::PastOriginal { .. } => Ok(Some(past_original())),
        Verdict::Refused(fault) => Ok(Some(layout_word(fault)?)),
        Verdict::Plain { .. } => Ok(None),
        Verdict::Mapped { .. } => Ok(None),
    }
}
