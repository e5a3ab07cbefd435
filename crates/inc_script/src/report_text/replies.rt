// The line of one read.
ghost use Rattle.std.specs.Prelude.{◌≡◌, IfOk};
ghost use Rattle.std.specs.Fmt.{decimal};
ghost use Rattle.inc_script.specs.Report.{at_place, broken_text, deadline_text, error_text, found_text, late_text, no_path_text, reply_line, reply_text, shown_word};

use crate::OutOfMemory;
use inc_model::{Digest32, Found, ReadError};
use inc_tree::digest_block;
use std::alloc::Global;

/// `read K NAME INDEX REPLY`
#[tactic(auto, unfolding(crate::specs::Report::reply_line))]
pub fn reply_line(
    alloc: Global,
    reader: usize,
    name: &[u8],
    index: u64,
    reply: &Result<Found, ReadError>,
) -> Result<Vec<u8>, OutOfMemory>
    ensures value { IfOk result (λ line. line.items ≡ reply_line reader name.now index reply.now) }
{
    let reply = reply_text(alloc, reply)?;
    let mut line = format!(in alloc; "read {reader} ")?.into_bytes();
    line.extend_from_slice(name)?;
    line.extend_from_slice(format!(in alloc; " {index} ")?.as_bytes())?;
    line.extend_from_slice(reply.as_slice())?;
    line.extend_from_slice(b"\n")?;
    Ok(line)
}

fn reply_text(alloc: Global, reply: &Result<Found, ReadError>) -> Result<Vec<u8>, OutOfMemory>
    ensures value { IfOk result (λ text. text.items ≡ reply_text reply.now) }
{
    match reply {
        Ok(found) => found_text(alloc, found),
        Err(error) => error_text(alloc, error),
    }
}

/// `ok LEN at P DIGEST`, or `unproved` in place of `ok`
#[tactic(auto, unfolding(crate::specs::Report::found_text))]
fn found_text(alloc: Global, found: &Found) -> Result<Vec<u8>, OutOfMemory>
    ensures value { IfOk result (λ text. text.items ≡ found_text found.now) }
{
    let digest = digest_block(found.shown.block().as_slice());
    let digest = hex::encode(alloc, digest.as_slice())?;
    let mut text = shown_word(found.shown.is_proved()).to_vec(alloc)?;
    text.extend_from_slice(decimal(alloc, found.shown.len())?.as_slice())?;
    text.extend_from_slice(at_place(alloc, found.at)?.as_slice())?;
    text.extend_from_slice(b" ")?;
    text.extend_from_slice(digest.as_bytes())?;
    Ok(text)
}

#[tactic(auto, unfolding(crate::specs::Report::shown_word))]
fn shown_word(proved: bool) -> &'static [u8]
    ensures value { result.now ≡ shown_word proved }
{
    if proved { b"ok " } else { b"unproved " }
}

fn decimal(alloc: Global, number: u32) -> Result<Vec<u8>, OutOfMemory>
    ensures value { IfOk result (λ text. text.items ≡ decimal number) }
{
    Ok(format!(in alloc; "{number}")?.into_bytes())
}

/// ` at P`
#[tactic(auto, unfolding(crate::specs::Report::at_place))]
fn at_place(alloc: Global, at: u64) -> Result<Vec<u8>, OutOfMemory>
    ensures value { IfOk result (λ text. text.items ≡ at_place at) }
{
    Ok(format!(in alloc; " at {at}")?.into_bytes())
}

#[tactic(auto, unfolding(crate::specs::Report::error_text))]
fn error_text(alloc: Global, error: &ReadError) -> Result<Vec<u8>, OutOfMemory>
    ensures value { IfOk result (λ text. text.items ≡ error_text error.now) }
{
    match *error {
        ReadError::OutOfRange => b"out-of-range".to_vec(alloc),
        ReadError::Damaged => b"damaged".to_vec(alloc),
        ReadError::Compressed => b"compressed".to_vec(alloc),
        ReadError::TimedOut {
            serial,
            deadline,
            now,
            at,
        } => late_text(alloc, serial, deadline, now, at),
        ReadError::PathAbsent { hash, at } => no_path_text(alloc, hash, at),
        ReadError::Corrupt {
            level,
            wanted,
            got,
            at,
        } => broken_text(alloc, level, &wanted, &got, at),
        ReadError::ReadFault => b"read-fault".to_vec(alloc),
        ReadError::HistoryFull { .. } => b"history-full".to_vec(alloc),
        ReadError::OutOfMemory => Ok(Vec::new(alloc)),
    }
}

/// `timed-out serial S deadline D now N at P`
#[tactic(auto, unfolding(crate::specs::Report::late_text))]
fn late_text(
    alloc: Global,
    serial: u32,
    deadline: u64,
    moment: u64,
    at: u64,
) -> Result<Vec<u8>, OutOfMemory>
    ensures value { IfOk result (λ text. text.items ≡ late_text serial deadline moment at) }
{
    let mut text = format!(in alloc; "timed-out serial {serial}")?.into_bytes();
    text.extend_from_slice(deadline_text(alloc, deadline, moment)?.as_slice())?;
    text.extend_from_slice(at_place(alloc, at)?.as_slice())?;
    Ok(text)
}

/// ` deadline D now N`
#[tactic(auto, unfolding(crate::specs::Report::deadline_text))]
fn deadline_text(alloc: Global, deadline: u64, moment: u64) -> Result<Vec<u8>, OutOfMemory>
    ensures value { IfOk result (λ text. text.items ≡ deadline_text deadline moment) }
{
    Ok(format!(in alloc; " deadline {deadline} now {moment}")?.into_bytes())
}

/// `path-absent H at P`
#[tactic(auto, unfolding(crate::specs::Report::no_path_text))]
fn no_path_text(alloc: Global, hash: u32, at: u64) -> Result<Vec<u8>, OutOfMemory>
    ensures value { IfOk result (λ text. text.items ≡ no_path_text hash at) }
{
    let mut text = format!(in alloc; "path-absent {hash}")?.into_bytes();
    text.extend_from_slice(at_place(alloc, at)?.as_slice())?;
    Ok(text)
}

/// `corrupt level L wanted W got G at P`
#[tactic(auto, unfolding(crate::specs::Report::broken_text))]
fn broken_text(
    alloc: Global,
    level: u32,
    wanted: &Digest32,
    got: &Digest32,
    at: u64,
) -> Result<Vec<u8>, OutOfMemory>
    ensures value { IfOk result (λ text. text.items ≡ broken_text level wanted.now got.now at) }
{
    let wanted = hex::encode(alloc, wanted.as_slice())?;
    let got = hex::encode(alloc, got.as_slice())?;
    let mut text = format!(in alloc; "corrupt level {level} wanted ")?.into_bytes();
    text.extend_from_slice(wanted.as_bytes())?;
    text.extend_from_slice(b" got ")?;
    text.extend_from_slice(got.as_bytes())?;
    text.extend_from_slice(at_place(alloc, at)?.as_slice())?;
    Ok(text)
}
