ghost use Rattle.std.specs.Prelude.{◌≡◌, ◌<◌, ◌≤◌, length, IfSome, IfNone, OnSome};

use std::marker::Model;

/// The most numbers of a list: no path has more hash blocks.
pub const MOST_NUMBERS: usize = 4;

/// At most four numbers, kept in the value itself. It takes no memory.
#[derive(Clone, Copy)]
pub struct NumberList {
    numbers: [u32; MOST_NUMBERS],
    count: u32,
}

impl Model for NumberList {
    ghost use Rattle.std.specs.Prelude.{ℕ, List, take};
    ghost use Rattle.inc_cell.specs.events.Numbers.{HoldsNumbers, kept_again, kept_numbers};

    ghost Value = { List ℕ };

    ghost view = { λ list. take list.count list.numbers };

    ghost invariant = { λ list. HoldsNumbers list.numbers list.count };

    ghost inverse = { kept_numbers };

    ghost inverse_ok = { λ list holds. kept_again list holds };
}

impl NumberList {
    /// These numbers, if they are at most four.
    pub fn of(numbers: &[u32]) -> Option<NumberList>
        ensures value { IfSome result (λ list. list ≡ numbers.now) }
        ensures few { OnSome result (length numbers.now ≤ 4) }
        ensures many { IfNone result (4 < length numbers.now) }
    {
        if numbers.len() > MOST_NUMBERS {
            return None;
        }
        let mut kept = [0; MOST_NUMBERS];
        kept[..numbers.len()].copy_from_slice(numbers);
        let count = numbers.len() as u32;
        Some(NumberList {
            numbers: kept,
            count,
        })
    }

    pub fn as_slice(&self) -> &[u32]
        ensures value { result.now ≡ self.now }
    {
        &self.numbers[..self.count as usize]
    }
}
