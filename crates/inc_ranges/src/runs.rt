ghost use Rattle.std.specs.Prelude.{◌≡◌, ◌⊎◌, ℕ, ◌<◌, ◌≤◌, ◌↔◌, length, take, drop, not, nat_lt, IsTrue, MatchBool, IfOk};
ghost use Rattle.inc_ranges.specs.Runs.{is_filled, runs_of, AreRuns, IsLeft, IsFirstLeft, start_or};
ghost use Rattle.inc_ranges.specs.declared.runs.RangeFault.TheVariants.{OutOfMemory as out_of_memory};

use crate::{OutOfMemory, Presence, RangeList};
use std::alloc::Global;

/// The runs of filled indices that there was room for, and where the question ended.
#[derive(Drop)]
pub struct Ranges {
    pub list: RangeList,
    /// The first filled index after the list, or the question's end.
    pub next: u32,
    /// Whether a filled index is left after the list.
    pub more: bool,
}

#[derive(Clone, Copy, Debug, PartialEq, Eq)]
pub enum RangeFault {
    /// The start is above the end, or the end above the number of indices.
    BadRange,
    OutOfMemory,
}

impl From<OutOfMemory> for RangeFault {
    ghost from_gives = { λ _ fault. fault ≡ out_of_memory };

    fn from(_: OutOfMemory) -> RangeFault {
        RangeFault::OutOfMemory
    }
}

/// The first index from `at` on that is filled, or that isn't, as wanted; the end where there is none.
fn next_index<P: Presence>(indices: &P, wanted: bool, at: u32, end: u32) -> u32
    requires order { at ≤ end }
    requires inside { end ≤ length (P.present indices.now) }
    ensures low { at ≤ result }
    ensures high { result ≤ end }
    ensures passed { (i : ℕ) → at ≤ i → i < result → is_filled (P.present indices.now) i ≡ not wanted }
    ensures found { result < end → is_filled (P.present indices.now) result ≡ wanted }
{
    for i in at..end {
        if indices.is_filled(i) == wanted {
            return i;
        }
    }
    end
}

/// The first runs between the bounds, which are within the indices. No index behind the first one that is left is looked at.
fn first_runs<P: Presence>(
    alloc: Global,
    indices: &P,
    start: u32,
    end: u32,
    room: usize,
) -> Result<Ranges, OutOfMemory>
    requires order { start ≤ end }
    requires inside { end ≤ length (P.present indices.now) }
    ensures list { IfOk result (λ ranges. ranges.list ≡ take room (runs_of (P.present indices.now) start end)) }
    ensures more { IfOk result (λ ranges. ranges.more ≡ nat_lt room (length (runs_of (P.present indices.now) start end))) }
    ensures next { IfOk result (λ ranges. ranges.next ≡ start_or end (drop room (runs_of (P.present indices.now) start end))) }
{
    let mut list = Vec::new(alloc);
    let mut at = start;
    loop {
        let begin = next_index(indices, true, at, end);
        if begin == end {
            return Ok(Ranges {
                list: RangeList::from_vec(list),
                next: end,
                more: false,
            });
        }
        if list.len() == room {
            return Ok(Ranges {
                list: RangeList::from_vec(list),
                next: begin,
                more: true,
            });
        }
        at = next_index(indices, false, begin, end);
        list.push((begin, at))?;
    }
}

/// The filled ranges from `start` up to `end`: the first `room` runs. It looks at indices from `start` on, each once or twice, and at none
/// behind the first filled one that there is no room for.
#[tactic(auto, using(crate::proofs::Meaning::are_runs))]
pub fn filled<P: Presence + Drop>(
    alloc: Global,
    present: P,
    start: u32,
    end: u32,
    room: u32,
) -> Result<Ranges, RangeFault>
    ensures bad { (result ≡ Err RangeFault.BadRange) ↔ ((end < start) ⊎ (length (P.present present) < end)) }

    // The list is the first of the runs, `more` says whether there are others, and `next` is where these begin.
    ensures list { IfOk result (λ ranges. ranges.list ≡ take room (runs_of (P.present present) start end)) }
    ensures more { IfOk result (λ ranges. ranges.more ≡ nat_lt room (length (runs_of (P.present present) start end))) }
    ensures next { IfOk result (λ ranges. ranges.next ≡ start_or end (drop room (runs_of (P.present present) start end))) }

    // The runs are all the longest intervals of filled indices. So `more` is true exactly where a filled index is in no
    // interval of the list, and `next` is then the first of these.
    ensures runs { AreRuns (P.present present) start end (runs_of (P.present present) start end) }
    ensures left { IfOk result (λ ranges. IsTrue ranges.more ↔ ((i : ℕ) × IsLeft (P.present present) start end ranges.list i)) }
    ensures first { IfOk result (λ ranges. MatchBool ranges.more (IsFirstLeft (P.present present) start end ranges.list ranges.next) (ranges.next ≡ end)) }
{
    if start > end {
        return Err(RangeFault::BadRange);
    }
    if end as usize > present.count() {
        return Err(RangeFault::BadRange);
    }
    Ok(first_runs(alloc, &present, start, end, room as usize)?)
}
