ghost use Rattle.std.specs.Prelude.{◌≡◌, ℕ, ◌++◌, List, drop, flat_map, IfOk, OnOk};
ghost use Rattle.inc_script.specs.Limits.{reads_in};
ghost use Rattle.inc_script.specs.Report.{end_text, file_line, filled_text, indices_of, last_line, loader_line, loader_lines, log_text, numbers_from, present_text, reader_lines, reply_lines, report_of, told_text};

mod ends;
mod replies;

use crate::words::{fill_word, frame_word};
use crate::{OutOfMemory, ReaderLine, Script};
pub use ends::{DriveEnd, FileLine, LoaderLine};
use inc_io::Bytes;
use inc_model::{Found, ReadError, Rows};
use replies::reply_line;
use std::alloc::Global;

/// The text that a session writes in the end.
///
/// `replies` has a list for each reader line of the script, with one reply for each of its reads, and `files` stand in byte order of
/// their names. Neither a reply nor a loader's end is want of memory: such a session has no report.
pub fn report(
    alloc: Global,
    script: &Script,
    replies: &[Rows<Result<Found, ReadError>>],
    loaders: &[LoaderLine],
    files: &[FileLine],
) -> Result<Bytes, OutOfMemory>
    ensures value { IfOk result (λ text. text ≡ report_of script.now replies.now loaders.now files.now) }
{
    let mut text = Vec::new(alloc);
    push_readers(alloc, &mut text, script.readers.as_slice(), replies)?;
    push_loaders(alloc, &mut text, loaders)?;
    push_files(alloc, &mut text, files)?;
    text.extend_from_slice(last_line())?;
    Ok(Bytes::from_vec(text))
}

#[tactic(auto, unfolding(crate::specs::Report::last_line))]
fn last_line() -> &'static [u8]
    ensures value { result.now ≡ last_line }
{
    b"end\n"
}

// ---- reads

fn push_readers(
    alloc: Global,
    text: &mut Vec<u8>,
    readers: &[ReaderLine],
    replies: &[Rows<Result<Found, ReadError>>],
) -> Result<(), OutOfMemory>
    ensures value { OnOk result (text.new.items ≡ text.old.items ++ reader_lines 1 readers.now replies.now) }
{
    for (i, line) in readers.iter().enumerate() {
        if i >= replies.len() {
            return Ok(());
        }
        push_reader(alloc, text, i + 1, line, replies[i].as_slice())?;
    }
    Ok(())
}

/// A line for each read of a reader's spans, which are gone through one by one.
fn push_reader(
    alloc: Global,
    text: &mut Vec<u8>,
    number: usize,
    line: &ReaderLine,
    replies: &[Result<Found, ReadError>],
) -> Result<(), OutOfMemory>
    ensures value { OnOk result (text.new.items ≡ text.old.items ++ reply_lines number line.now.name (indices_of line.now.blocks) replies.now) }
{
    let spans = line.blocks.as_slice();
    let mut next = 0;
    for span in spans {
        next = push_span(
            alloc,
            text,
            number,
            line.name.as_slice(),
            *span,
            replies,
            next,
        )?;
    }
    Ok(())
}

/// The lines of one span's reads, as far as there are replies. It answers the place of the reply to the read that follows.
fn push_span(
    alloc: Global,
    text: &mut Vec<u8>,
    number: usize,
    name: &[u8],
    span: (u32, u32),
    replies: &[Result<Found, ReadError>],
    place: usize,
) -> Result<usize, OutOfMemory>
    // Whatever reads follow.
    ensures value { IfOk result (λ next. (others : List ℕ) → text.new.items ++ reply_lines number name.now others (drop next replies.now)
        ≡ text.old.items ++ reply_lines number name.now (numbers_from span.0 (reads_in span) ++ others) (drop place replies.now)) }
{
    let mut next = place;
    for index in u64::from(span.0)..u64::from(span.1) + 1 {
        if next >= replies.len() {
            return Ok(next);
        }
        let line = reply_line(alloc, number, name, index, &replies[next])?;
        text.extend_from_slice(line.as_slice())?;
        next += 1;
    }
    Ok(next)
}

// ---- loaders

fn push_loaders(
    alloc: Global,
    text: &mut Vec<u8>,
    loaders: &[LoaderLine],
) -> Result<(), OutOfMemory>
    ensures value { OnOk result (text.new.items ≡ text.old.items ++ loader_lines 1 loaders.now) }
{
    for (i, loader) in loaders.iter().enumerate() {
        let line = loader_line(alloc, i + 1, loader)?;
        text.extend_from_slice(line.as_slice())?;
    }
    Ok(())
}

/// `loader J END told T written W present P busy B`
#[tactic(auto, unfolding(crate::specs::Report::loader_line))]
fn loader_line(alloc: Global, number: usize, line: &LoaderLine) -> Result<Vec<u8>, OutOfMemory>
    ensures value { IfOk result (λ text. text.items ≡ loader_line number line.now) }
{
    let mut text = format!(in alloc; "loader {number} ")?.into_bytes();
    text.extend_from_slice(end_text(alloc, line.end)?.as_slice())?;
    text.extend_from_slice(told_text(alloc, line.told, line.written)?.as_slice())?;
    text.extend_from_slice(present_text(alloc, line.present, line.busy)?.as_slice())?;
    text.extend_from_slice(b"\n")?;
    Ok(text)
}

#[tactic(auto, unfolding(crate::specs::Report::end_text))]
fn end_text(alloc: Global, end: DriveEnd) -> Result<Vec<u8>, OutOfMemory>
    ensures value { IfOk result (λ text. text.items ≡ end_text end) }
{
    match end {
        DriveEnd::Done => b"done".to_vec(alloc),
        DriveEnd::Stopped => b"stopped".to_vec(alloc),
        DriveEnd::UnknownFile => b"unknown-file".to_vec(alloc),
        DriveEnd::Refused(error) => joined(alloc, b"refused-", fill_word(error)),
        DriveEnd::Frame(fault) => joined(alloc, b"frame-", frame_word(fault)),
        DriveEnd::Fault => b"fault".to_vec(alloc),
        DriveEnd::Failed => b"failed".to_vec(alloc),
        DriveEnd::HistoryFull => b"history-full".to_vec(alloc),
        DriveEnd::OutOfMemory => Ok(Vec::new(alloc)),
    }
}

fn joined(alloc: Global, front: &[u8], word: &[u8]) -> Result<Vec<u8>, OutOfMemory>
    ensures value { IfOk result (λ text. text.items ≡ front.now ++ word.now) }
{
    let mut text = front.to_vec(alloc)?;
    text.extend_from_slice(word)?;
    Ok(text)
}

/// ` told T written W`
#[tactic(auto, unfolding(crate::specs::Report::told_text))]
fn told_text(alloc: Global, told: u64, written: u64) -> Result<Vec<u8>, OutOfMemory>
    ensures value { IfOk result (λ text. text.items ≡ told_text told written) }
{
    Ok(format!(in alloc; " told {told} written {written}")?.into_bytes())
}

/// ` present P busy B`
#[tactic(auto, unfolding(crate::specs::Report::present_text))]
fn present_text(alloc: Global, present: u64, busy: u64) -> Result<Vec<u8>, OutOfMemory>
    ensures value { IfOk result (λ text. text.items ≡ present_text present busy) }
{
    Ok(format!(in alloc; " present {present} busy {busy}")?.into_bytes())
}

// ---- files

fn push_files(alloc: Global, text: &mut Vec<u8>, files: &[FileLine]) -> Result<(), OutOfMemory>
    ensures value { OnOk result (text.new.items ≡ text.old.items ++ flat_map file_line files.now) }
{
    for file in files {
        let line = file_line(alloc, file)?;
        text.extend_from_slice(line.as_slice())?;
    }
    Ok(())
}

/// `file NAME entries E filled F of T log K lost L`
#[tactic(auto, unfolding(crate::specs::Report::file_line))]
fn file_line(alloc: Global, file: &FileLine) -> Result<Vec<u8>, OutOfMemory>
    ensures value { IfOk result (λ text. text.items ≡ file_line file.now) }
{
    let entries = file.entries;
    let mut text = b"file ".to_vec(alloc)?;
    text.extend_from_slice(file.name.as_slice())?;
    text.extend_from_slice(format!(in alloc; " entries {entries}")?.as_bytes())?;
    text.extend_from_slice(filled_text(alloc, file.filled, file.total)?.as_slice())?;
    text.extend_from_slice(log_text(alloc, file.kept, file.lost)?.as_slice())?;
    text.extend_from_slice(b"\n")?;
    Ok(text)
}

/// ` filled F of T`
#[tactic(auto, unfolding(crate::specs::Report::filled_text))]
fn filled_text(alloc: Global, filled: u32, total: u32) -> Result<Vec<u8>, OutOfMemory>
    ensures value { IfOk result (λ text. text.items ≡ filled_text filled total) }
{
    Ok(format!(in alloc; " filled {filled} of {total}")?.into_bytes())
}

/// ` log K lost L`
#[tactic(auto, unfolding(crate::specs::Report::log_text))]
fn log_text(alloc: Global, kept: u64, lost: u64) -> Result<Vec<u8>, OutOfMemory>
    ensures value { IfOk result (λ text. text.items ≡ log_text kept lost) }
{
    Ok(format!(in alloc; " log {kept} lost {lost}")?.into_bytes())
}
