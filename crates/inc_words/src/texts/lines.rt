ghost use Rattle.std.specs.Prelude.{◌≡◌, IfOk};
ghost use Rattle.inc_words.specs.Texts.{big_counts, big_line, block_line, checked_line, corrupt_reason, filled_counts, fill_line, made_counts, made_line, part_of, path_absent_reason, refused_line, stream_line, words_line, written_line};

use crate::OutOfMemory;
use inc_tree::Digest32;
use std::alloc::Global;

/// `words K`
#[tactic(auto, unfolding(crate::specs::Texts::words_line))]
pub fn words_line(alloc: Global, position: usize) -> Result<Vec<u8>, OutOfMemory>
    ensures value { IfOk result (λ line. line.items ≡ words_line position) }
{
    Ok(format!(in alloc; "words {position}\n")?.into_bytes())
}

/// `stream WORD at P`
#[tactic(auto, unfolding(crate::specs::Texts::stream_line))]
pub fn stream_line(alloc: Global, word: &[u8], place: u64) -> Result<Vec<u8>, OutOfMemory>
    ensures value { IfOk result (λ line. line.items ≡ stream_line word.now place) }
{
    let mut line = b"stream ".to_vec(alloc)?;
    line.extend_from_slice(word)?;
    line.extend_from_slice(format!(in alloc; " at {place}")?.as_bytes())?;
    line.extend_from_slice(b"\n")?;
    Ok(line)
}

/// `refused NAME WORD`
#[tactic(auto, unfolding(crate::specs::Texts::refused_line))]
pub fn refused_line(alloc: Global, name: &[u8], word: &[u8]) -> Result<Vec<u8>, OutOfMemory>
    ensures value { IfOk result (λ line. line.items ≡ refused_line name.now word.now) }
{
    let mut line = b"refused ".to_vec(alloc)?;
    line.extend_from_slice(name)?;
    line.extend_from_slice(b" ")?;
    line.extend_from_slice(word)?;
    line.extend_from_slice(b"\n")?;
    Ok(line)
}

/// `block I REASON`
#[tactic(auto, unfolding(crate::specs::Texts::block_line))]
pub fn block_line(alloc: Global, index: u32, reason: &[u8]) -> Result<Vec<u8>, OutOfMemory>
    ensures value { IfOk result (λ line. line.items ≡ block_line index reason.now) }
{
    let mut line = format!(in alloc; "block {index} ")?.into_bytes();
    line.extend_from_slice(reason)?;
    line.extend_from_slice(b"\n")?;
    Ok(line)
}

/// `corrupt level L wanted W got G`
#[tactic(auto, unfolding(crate::specs::Texts::corrupt_reason))]
pub fn corrupt_reason(
    alloc: Global,
    level: u32,
    wanted: &Digest32,
    got: &Digest32,
) -> Result<Vec<u8>, OutOfMemory>
    ensures value { IfOk result (λ reason. reason.items ≡ corrupt_reason level wanted.now got.now) }
{
    let wanted = hex::encode(alloc, wanted.as_slice())?;
    let got = hex::encode(alloc, got.as_slice())?;
    let mut reason = format!(in alloc; "corrupt level {level} wanted ")?.into_bytes();
    reason.extend_from_slice(wanted.as_bytes())?;
    reason.extend_from_slice(b" got ")?;
    reason.extend_from_slice(got.as_bytes())?;
    Ok(reason)
}

/// `path-absent K`
#[tactic(auto, unfolding(crate::specs::Texts::path_absent_reason))]
pub fn path_absent_reason(alloc: Global, hash: u32) -> Result<Vec<u8>, OutOfMemory>
    ensures value { IfOk result (λ reason. reason.items ≡ path_absent_reason hash) }
{
    Ok(format!(in alloc; "path-absent {hash}")?.into_bytes())
}

/// `checked ok K of N`
#[tactic(auto, unfolding(crate::specs::Texts::checked_line))]
pub fn checked_line(alloc: Global, good: u32, count: u32) -> Result<Vec<u8>, OutOfMemory>
    ensures value { IfOk result (λ line. line.items ≡ checked_line good count) }
{
    let mut line = b"checked ok ".to_vec(alloc)?;
    line.extend_from_slice(part_of(alloc, good as usize, count)?.as_slice())?;
    line.extend_from_slice(b"\n")?;
    Ok(line)
}

/// `K of N`
#[tactic(auto, unfolding(crate::specs::Texts::part_of))]
pub fn part_of(alloc: Global, some: usize, all: u32) -> Result<Vec<u8>, OutOfMemory>
    ensures value { IfOk result (λ part. part.items ≡ part_of some all) }
{
    Ok(format!(in alloc; "{some} of {all}")?.into_bytes())
}

/// `made NAME data N hash M length L`
#[tactic(auto, unfolding(crate::specs::Texts::made_line))]
pub fn made_line(
    alloc: Global,
    name: &[u8],
    data_count: u32,
    hash_count: u32,
    len: u64,
) -> Result<Vec<u8>, OutOfMemory>
    ensures value { IfOk result (λ line. line.items ≡ made_line name.now data_count hash_count len) }
{
    let mut line = b"made ".to_vec(alloc)?;
    line.extend_from_slice(name)?;
    line.extend_from_slice(made_counts(alloc, data_count, hash_count, len)?.as_slice())?;
    line.extend_from_slice(b"\n")?;
    Ok(line)
}

/// ` data N hash M length L`
#[tactic(auto, unfolding(crate::specs::Texts::made_counts))]
fn made_counts(
    alloc: Global,
    data_count: u32,
    hash_count: u32,
    len: u64,
) -> Result<Vec<u8>, OutOfMemory>
    ensures value { IfOk result (λ counts. counts.items ≡ made_counts data_count hash_count len) }
{
    let mut counts = format!(in alloc; " data {data_count} hash {hash_count}")?.into_bytes();
    counts.extend_from_slice(format!(in alloc; " length {len}")?.as_bytes())?;
    Ok(counts)
}

/// `filled NAME written W present P`
#[tactic(auto, unfolding(crate::specs::Texts::fill_line))]
pub fn fill_line(
    alloc: Global,
    name: &[u8],
    written: u64,
    present: u64,
) -> Result<Vec<u8>, OutOfMemory>
    ensures value { IfOk result (λ line. line.items ≡ fill_line name.now written present) }
{
    let mut line = b"filled ".to_vec(alloc)?;
    line.extend_from_slice(name)?;
    line.extend_from_slice(filled_counts(alloc, written, present)?.as_slice())?;
    line.extend_from_slice(b"\n")?;
    Ok(line)
}

/// ` written W present P`
#[tactic(auto, unfolding(crate::specs::Texts::filled_counts))]
fn filled_counts(alloc: Global, written: u64, present: u64) -> Result<Vec<u8>, OutOfMemory>
    ensures value { IfOk result (λ counts. counts.items ≡ filled_counts written present) }
{
    let mut counts = format!(in alloc; " written {written}")?.into_bytes();
    counts.extend_from_slice(format!(in alloc; " present {present}")?.as_bytes())?;
    Ok(counts)
}

/// `big NAME size S data N hash M`
#[tactic(auto, unfolding(crate::specs::Texts::big_line))]
pub fn big_line(
    alloc: Global,
    name: &[u8],
    size: u64,
    data_count: u32,
    hash_count: u32,
) -> Result<Vec<u8>, OutOfMemory>
    ensures value { IfOk result (λ line. line.items ≡ big_line name.now size data_count hash_count) }
{
    let mut line = b"big ".to_vec(alloc)?;
    line.extend_from_slice(name)?;
    line.extend_from_slice(big_counts(alloc, size, data_count, hash_count)?.as_slice())?;
    line.extend_from_slice(b"\n")?;
    Ok(line)
}

/// ` size S data N hash M`
#[tactic(auto, unfolding(crate::specs::Texts::big_counts))]
fn big_counts(
    alloc: Global,
    size: u64,
    data_count: u32,
    hash_count: u32,
) -> Result<Vec<u8>, OutOfMemory>
    ensures value { IfOk result (λ counts. counts.items ≡ big_counts size data_count hash_count) }
{
    let mut counts = format!(in alloc; " size {size}")?.into_bytes();
    counts.extend_from_slice(format!(in alloc;
        " data {data_count} hash {hash_count}"
    )?.as_bytes())?;
    Ok(counts)
}

/// `filled W`
#[tactic(auto, unfolding(crate::specs::Texts::written_line))]
pub fn written_line(alloc: Global, written: u64) -> Result<Vec<u8>, OutOfMemory>
    ensures value { IfOk result (λ line. line.items ≡ written_line written) }
{
    Ok(format!(in alloc; "filled {written}\n")?.into_bytes())
}
