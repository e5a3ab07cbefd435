// The places of the history that windows have claimed, by rising window.
ghost use Rattle.std.specs.Prelude.{◌≡◌, ◌+◌, ◌^◌, ◌<◌, ◌≤◌, IfOk, IfErr, IfSome, IfNone, vec_len, vec_capacity};
ghost use Rattle.inc_model.specs.relation.State.{is_same, is_before, places_left, all_places, claim, spend, unclaim};
ghost use Rattle.inc_model.specs.executed.Places.{IsClaimAt, IsClaimSlot, IsWindowAt};

use crate::{MOST_ENTRIES, Window};

pub fn is_same_window(a: Window, b: Window) -> bool
    ensures value { result ≡ is_same a b }
{
    a.who == b.who && a.count == b.count
}

/// Windows go by who, and then by count.
fn comes_before(a: Window, b: Window) -> bool
    ensures value { result ≡ is_before a b }
{
    a.who < b.who || a.who == b.who && a.count < b.count
}

/// The places that a window has left.
pub fn places_left(claimed: &[(Window, u32)], window: Window) -> u32
    ensures value { result ≡ places_left window claimed.now }
{
    for row in claimed {
        if is_same_window(window, row.0) {
            return row.1;
        }
    }
    0
}

/// The places of all windows.
pub fn sum_of_places(claimed: &[(Window, u32)]) -> u64
    requires few { all_places claimed.now ≤ MOST_ENTRIES }
    ensures value { result ≡ all_places claimed.now }
{
    let mut sum = 0;
    for row in claimed {
        sum += u64::from(row.1);
    }
    sum
}

/// The place of a window's row, or the place that it would have.
fn place_of(claimed: &[(Window, u32)], window: Window) -> Result<usize, usize>
    ensures there { IfOk result (λ at. IsClaimAt claimed.now window at) }
    ensures missing { IfErr result (λ at. IsClaimSlot claimed.now window at) }
{
    for (i, row) in claimed.iter().enumerate() {
        if comes_before(window, row.0) {
            return Err(i);
        }
        if is_same_window(window, row.0) {
            return Ok(i);
        }
    }
    Err(claimed.len())
}

/// Gives a window so many places more. There is room for one more row, so it takes no memory.
pub fn claim_in_room(claimed: &mut Vec<(Window, u32)>, window: Window, places: u32)
    requires room { vec_len claimed.old < vec_capacity claimed.old }
    requires few { all_places claimed.old.items + places ≤ MOST_ENTRIES }
    ensures claims { claimed.new.items ≡ claim window places claimed.old.items }
{
    match place_of(claimed.as_slice(), window) {
        Ok(at) => {
            let (whose, left) = claimed[at];
            claimed[at] = (whose, left + places);
        }
        Err(at) => claimed.insert(at, (window, places)).unwrap(),
    }
}

/// The place of a window's row.
fn row_at(claimed: &[(Window, u32)], window: Window) -> Option<usize>
    ensures there { IfSome result (λ at. IsWindowAt claimed.now window at) }
    ensures missing { IfNone result (spend window claimed.now ≡ claimed.now) }
{
    for (i, row) in claimed.iter().enumerate() {
        if is_same_window(window, row.0) {
            return Some(i);
        }
    }
    None
}

/// Uses one place of a window that has some left. Its row stays, also with none.
pub fn use_place(claimed: &mut Vec<(Window, u32)>, window: Window)
    ensures claims { claimed.new.items ≡ spend window claimed.old.items }
{
    if let Some(at) = row_at(claimed.as_slice(), window) {
        let (whose, left) = claimed[at];
        claimed[at] = (whose, left.saturating_sub(1));
    }
}

pub fn drop_claim(claimed: &mut Vec<(Window, u32)>, window: Window)
    ensures claims { claimed.new.items ≡ unclaim window claimed.old.items }
{
    claimed.retain(|row| !is_same_window(window, row.0));
}
