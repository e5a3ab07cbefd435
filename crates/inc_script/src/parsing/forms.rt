// A line and the form that it has.
ghost use Rattle.std.specs.Prelude.{◌≡◌, bytes_eq};
ghost use Rattle.inc_script.specs.Forms.{IsFormed, end_form, end_word, form_of, line_of, reader_form, reader_word, three_times, timeouts_word, times_form, times_of_words};
ghost use Rattle.inc_script.specs.Lines.{fields_of, tail_fields};

use super::fields::{first_field, next_field};
use super::spans::read_spans;
use crate::{ReaderLine, TimesLine};
use inc_bytes::{decimal_u32, decimal_u64};
use inc_io::Name;
use inc_pending::Times;
use std::alloc::{AllocError, AllocFailed, Global};

/// What one line of a script says.
#[derive(Drop)]
pub enum ScriptLine {
    /// An empty line or a comment.
    Passed,
    TimesOf(TimesLine),
    ReaderOf(ReaderLine),
    End,
}

/// Why a line gives nothing.
#[derive(Clone, Copy, Debug, PartialEq, Eq)]
pub enum LineFault {
    /// It has none of the forms.
    Misfit,
    OutOfMemory,
}

impl From<AllocError> for LineFault {
    ghost use Rattle.inc_script.specs.declared.parsing.forms.LineFault.TheVariants.{OutOfMemory as line_out_of_memory};

    ghost from_gives = { λ _ fault. fault ≡ line_out_of_memory };

    fn from(_: AllocError) -> Self {
        LineFault::OutOfMemory
    }
}

impl<T: Drop> From<AllocFailed<T>> for LineFault {
    ghost use Rattle.inc_script.specs.declared.parsing.forms.LineFault.TheVariants.{OutOfMemory as line_out_of_memory};

    ghost from_gives = { λ _ fault. fault ≡ line_out_of_memory };

    fn from(_: AllocFailed<T>) -> Self {
        LineFault::OutOfMemory
    }
}

/// Reads a line.
pub fn read_line(alloc: Global, line: &[u8]) -> Result<ScriptLine, LineFault>
    ensures value { IsFormed (line_of line.now) result }
{
    match line {
        [] => Ok(ScriptLine::Passed),
        [first, ..] => {
            if *first == b'#' {
                Ok(ScriptLine::Passed)
            } else {
                read_form(alloc, line)
            }
        }
    }
}

fn read_form(alloc: Global, line: &[u8]) -> Result<ScriptLine, LineFault>
    ensures value { IsFormed (form_of (fields_of line.now)) result }
{
    let (word, tail) = first_field(line);
    if is_timeouts(word) {
        read_times(alloc, tail)
    } else if is_reader(word) {
        read_reader(alloc, tail)
    } else if is_end(word) {
        read_end(tail)
    } else {
        Err(LineFault::Misfit)
    }
}

/// `NAME UID A B C`
fn read_times(alloc: Global, tail: &[u8]) -> Result<ScriptLine, LineFault>
    ensures value { IsFormed (times_form (tail_fields tail.now)) result }
{
    let Some((name, tail)) = next_field(tail) else {
        return Err(LineFault::Misfit);
    };
    let Some((uid, tail)) = next_field(tail) else {
        return Err(LineFault::Misfit);
    };
    let Some(uid) = decimal_u32(uid) else {
        return Err(LineFault::Misfit);
    };
    let Some(times) = three_times(tail) else {
        return Err(LineFault::Misfit);
    };
    match Name::of(alloc, name)? {
        Some(name) => Ok(ScriptLine::TimesOf(TimesLine { name, uid, times })),
        None => Err(LineFault::Misfit),
    }
}

/// `A B C`
fn three_times(tail: &[u8]) -> Option<Times>
    ensures value { result ≡ three_times (tail_fields tail.now) }
{
    let (first, tail) = next_field(tail)?;
    let (second, tail) = next_field(tail)?;
    let (third, tail) = next_field(tail)?;
    match next_field(tail) {
        None => times_of_words(first, second, third),
        Some(_) => None,
    }
}

fn times_of_words(first: &[u8], second: &[u8], third: &[u8]) -> Option<Times>
    ensures value { result ≡ times_of_words first.now second.now third.now }
{
    Some(Times {
        least_read: decimal_u64(first)?,
        least_pending: decimal_u64(second)?,
        most_pending: decimal_u64(third)?,
    })
}

/// `UID NAME SPECS`
fn read_reader(alloc: Global, tail: &[u8]) -> Result<ScriptLine, LineFault>
    ensures value { IsFormed (reader_form (tail_fields tail.now)) result }
{
    let Some((uid, tail)) = next_field(tail) else {
        return Err(LineFault::Misfit);
    };
    let Some((name, tail)) = next_field(tail) else {
        return Err(LineFault::Misfit);
    };
    let Some(uid) = decimal_u32(uid) else {
        return Err(LineFault::Misfit);
    };
    let blocks = read_spans(alloc, tail)?;
    if blocks.as_slice().is_empty() {
        return Err(LineFault::Misfit);
    }
    match Name::of(alloc, name)? {
        Some(name) => Ok(ScriptLine::ReaderOf(ReaderLine { uid, name, blocks })),
        None => Err(LineFault::Misfit),
    }
}

/// Nothing may stand behind `end`.
fn read_end(tail: &[u8]) -> Result<ScriptLine, LineFault>
    ensures value { IsFormed (end_form (tail_fields tail.now)) result }
{
    match next_field(tail) {
        None => Ok(ScriptLine::End),
        Some(_) => Err(LineFault::Misfit),
    }
}

#[tactic(auto, unfolding(crate::specs::Forms::timeouts_word))]
fn is_timeouts(word: &[u8]) -> bool
    ensures value { result ≡ bytes_eq word.now timeouts_word }
{
    word == b"timeouts".as_slice()
}

#[tactic(auto, unfolding(crate::specs::Forms::reader_word))]
fn is_reader(word: &[u8]) -> bool
    ensures value { result ≡ bytes_eq word.now reader_word }
{
    word == b"reader".as_slice()
}

#[tactic(auto, unfolding(crate::specs::Forms::end_word))]
fn is_end(word: &[u8]) -> bool
    ensures value { result ≡ bytes_eq word.now end_word }
{
    word == b"end".as_slice()
}
