// Spans of blocks, each kept as its first and its last block.
ghost use Rattle.std.specs.Prelude.{◌≡◌, ◌+◌, ◌-◌, ◌^◌, ◌<◌, ◌≤◌, sum_by, IfSome, IfNone};
ghost use Rattle.inc_script.specs.Forms.{IsFormed, rising_span, block_span, block_spans};
ghost use Rattle.inc_script.specs.Limits.{reads_in, sum_of_reads};
ghost use Rattle.inc_script.specs.Lines.{tail_fields};

use super::fields::{count_fields, cut_at, next_field};
use super::forms::LineFault;
use inc_bytes::decimal_u32;
use inc_model::Rows;
use std::alloc::Global;

/// The spans that the fields spell. Room is taken once, for one span a field.
pub fn read_spans(alloc: Global, tail: &[u8]) -> Result<Rows<(u32, u32)>, LineFault>
    ensures value { IsFormed (block_spans (tail_fields tail.now)) result }
{
    let mut spans = Vec::with_capacity(alloc, count_fields(tail))?;
    let mut rest = tail;
    while let Some((word, after)) = next_field(rest) {
        let Some(span) = block_span(word) else {
            return Err(LineFault::Misfit);
        };
        spans.push(span)?;
        rest = after;
    }
    Ok(Rows::from_vec(spans))
}

/// `A` is the span from block A to block A, and `A-B` that from A to B.
fn block_span(word: &[u8]) -> Option<(u32, u32)>
    ensures value { result ≡ block_span word.now }
{
    let (front, rest) = cut_at(word, b'-');
    let first = decimal_u32(front)?;
    match rest {
        [] => Some((first, first)),
        [_, word @ ..] => rising_span(first, decimal_u32(word)?),
    }
}

fn rising_span(first: u32, last: u32) -> Option<(u32, u32)>
    ensures value { result ≡ rising_span first last }
{
    if first <= last {
        Some((first, last))
    } else {
        None
    }
}

/// How many reads the spans are, where they are at most `most`.
pub fn count_reads(spans: &[(u32, u32)], most: u64) -> Option<u64>
    requires small { most ≤ 2 ^ 18 }
    ensures some { IfSome result (λ count. count ≡ sum_of_reads spans.now) }
    ensures within { IfSome result (λ count. count ≤ most) }
    ensures none { IfNone result (most < sum_of_reads spans.now) }
{
    let mut count = 0;
    for span in spans {
        count += span_len(*span);
        if count > most {
            return None;
        }
    }
    Some(count)
}

/// How many reads a span is.
fn span_len(span: (u32, u32)) -> u64
    ensures value { result ≡ reads_in span }
    ensures small { result ≤ 2 ^ 32 }
{
    (u64::from(span.1) + 1).saturating_sub(u64::from(span.0))
}
