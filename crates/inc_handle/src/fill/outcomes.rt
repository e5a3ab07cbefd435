// What a fill answers.
ghost use Rattle.std.specs.Prelude.{◌≡◌, ◌≤◌, [], length, map, vec_capacity};
ghost use Rattle.inc_handle.specs.Outcomes.{ended_first, error_by, outcome_at, told_by};

use super::window::PutEnd;
use inc_bytes::Rows;
use inc_filling::FillStop;
use inc_model::{FillError, Outcome};

/// What became of the pieces of a fill, in their order.
pub type OutcomeList = Rows<Outcome>;

fn outcome_of(end: PutEnd, at: u64) -> Outcome
    ensures value { result ≡ outcome_at at end }
{
    match end {
        PutEnd::Stored => Outcome::Written { at },
        PutEnd::Present { at } => Outcome::Present { at },
        PutEnd::Busy { window, at } => Outcome::Busy { window, at },
    }
}

/// How many first blocks have their outcome before any sync.
fn count_ended(ends: &[PutEnd]) -> u32
    requires few { length ends.now ≤ 64 }
    ensures value { result ≡ ended_first ends.now }
{
    for place in 0..ends.len() {
        if ends[place].is_stored() {
            return place as u32;
        }
    }
    ends.len() as u32
}

fn error_of(stop: FillStop, ends: &[PutEnd]) -> FillError
    requires few { length ends.now ≤ 64 }
    ensures value { result ≡ error_by stop ends.now }
{
    match stop {
        FillStop::DiskFault => FillError::DiskFault {
            done: count_ended(ends),
        },
        FillStop::Failed { at } => FillError::Failed { at },
        FillStop::HistoryFull { entries, claimed } => FillError::HistoryFull { entries, claimed },
        FillStop::OutOfMemory => FillError::OutOfMemory,
    }
}

fn outcomes_of(ends: &[PutEnd], at: u64, room: Vec<Outcome>) -> Vec<Outcome>
    requires empty { room.items ≡ [] }
    requires room { length ends.now ≤ vec_capacity room }
    ensures value { result.items ≡ map (outcome_at at) ends.now }
{
    let mut outcomes = room;
    for place in 0..ends.len() {
        outcomes.push_reserved(outcome_of(ends[place], at));
    }
    outcomes
}

/// The answer of a fill, in a list that has room for it.
pub(super) fn tell(
    end: Result<u64, FillStop>,
    ends: &[PutEnd],
    room: Vec<Outcome>,
) -> Result<OutcomeList, FillError>
    requires few { length ends.now ≤ 64 }
    requires empty { room.items ≡ [] }
    requires room { length ends.now ≤ vec_capacity room }
    ensures value { result ≡ told_by end ends.now }
{
    match end {
        Ok(at) => Ok(Rows::from_vec(outcomes_of(ends, at, room))),
        Err(stop) => Err(error_of(stop, ends)),
    }
}
